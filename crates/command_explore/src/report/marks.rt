//! What is said of an expectation over all orders.
ghost use Rattle.std.specs.Prelude.{Some};
ghost use Rattle.command_explore.specs.Text as spec;

use crate::report::answers::Judged;
use std::fmt;

/// What is said of the expectation of a call, by its answers, and by whether all orders are explored.
#[derive(Clone, Copy)]
pub struct MarkText<'a> {
    pub is_whole: bool,
    pub judged: Judged,
    pub expected: &'a str,
}

impl fmt::Display for MarkText<'_> {
    ghost output = { λ m. Some (spec.orders_mark_text m.is_whole m.judged.met m.judged.missed m.expected.now) };

    fn fmt<W: fmt::Write>(&self, f: &mut fmt::Formatter<W>) -> fmt::Result {
        let expected = self.expected;
        match (self.judged.met, self.judged.missed, self.is_whole) {
            (true, false, true) => write!(f, " [met]"),
            (true, false, false) => write!(f, " [met so far]"),
            (true, true, _) => write!(f, " [met in some orders: {expected}]"),
            (false, true, true) => write!(f, " [met in no order: {expected}]"),
            (false, true, false) => write!(f, " [met in no order so far: {expected}]"),
            (false, false, _) => write!(f, " [not made so far: {expected}]"),
        }
    }
}

/// A count that goes up to 2^64 - 1.
#[derive(Clone, Copy)]
pub struct CountText(pub u64);

impl fmt::Display for CountText {
    ghost output = { λ c. Some (spec.capped_count_text c.0) };

    fn fmt<W: fmt::Write>(&self, f: &mut fmt::Formatter<W>) -> fmt::Result {
        let count = self.0;
        if count == u64::MAX {
            write!(f, "{count} or more")
        } else {
            write!(f, "{count}")
        }
    }
}
