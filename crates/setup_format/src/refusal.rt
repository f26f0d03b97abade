//! The line by which a set-up is refused.
ghost use Rattle.std.specs.Prelude.{◌≡◌, Some};
ghost use Rattle.std.specs.List.{list_all};
ghost use Rattle.setup_format.specs.Faults.{key_bytes};
ghost use Rattle.setup_format.specs.Refusal as line;

use crate::fault::{Key, Place, SetupFault};
use crate::limits::MAX_SHOWN_KEY_BYTES;
use kernel_boot::PlanDefect;
use std::fmt;
use std::fmt::Write;

fn is_plain(text: &[u8]) -> bool
    ensures { result ≡ list_all line.is_plain_byte text.now }
{
    text.iter().all(|b| matches!(*b, b'0'..=b'9' | b'A'..=b'Z' | b'a'..=b'z' | b'_' | b'-'))
}

/// A key as a line shows it: `?` if it is empty, long, or has other bytes than ASCII letters, digits, `_` and `-`.
fn shown(key: &str) -> &str
    ensures { result.now ≡ line.key_text key.now }
{
    if key.len() < 1 || key.len() > MAX_SHOWN_KEY_BYTES || !is_plain(key.as_bytes()) {
        return "?";
    }
    key
}

impl fmt::Display for Key {
    ghost output = { λ k. Some (line.key_text (key_bytes k)) };

    fn fmt<W: fmt::Write>(&self, f: &mut fmt::Formatter<W>) -> fmt::Result {
        let key = match self {
            Key::Known(key) => shown(key),
            Key::Found(key) => shown(key.as_str()),
        };
        write!(f, "{key}")
    }
}

impl fmt::Display for Place {
    ghost output = { λ p. Some (line.place_text p) };

    fn fmt<W: fmt::Write>(&self, f: &mut fmt::Formatter<W>) -> fmt::Result {
        match self {
            Place::Top => write!(f, "top"),
            Place::Untyped(n) => write!(f, "untyped {n}"),
            Place::Call(n) => write!(f, "call {n}"),
        }
    }
}

/// A defect, with the place of an untyped region counted from 1.
#[derive(Clone, Copy)]
struct Defect(PlanDefect);

impl fmt::Display for Defect {
    ghost output = { λ d. Some (line.defect_text d.0) };

    fn fmt<W: fmt::Write>(&self, f: &mut fmt::Formatter<W>) -> fmt::Result {
        match self.0 {
            PlanDefect::Outside => write!(f, "layout outside"),
            PlanDefect::Unaligned(place) => {
                let n = place as u128 + 1;
                write!(f, "untyped {n} unaligned")
            }
            PlanDefect::UntypedOutside(place) => {
                let n = place as u128 + 1;
                write!(f, "untyped {n} outside")
            }
            PlanDefect::Overlap(place) => {
                let n = place as u128 + 1;
                write!(f, "untyped {n} overlap")
            }
            PlanDefect::Slots => write!(f, "layout slots"),
        }
    }
}

/// Writes the line of the refusal, without the line feed at its end. `Memory` has no such line.
impl fmt::Display for SetupFault {
    ghost output = { λ e. Some (line.setup_fault_text e) };

    fn fmt<W: fmt::Write>(&self, f: &mut fmt::Formatter<W>) -> fmt::Result {
        let code = self.code();
        match self {
            SetupFault::Text => write!(f, "set-up refused {code} at text"),
            SetupFault::At { place, key, .. } => {
                write!(f, "set-up refused {code} at {place} key {key}")
            }
            SetupFault::Layout(defect) => {
                let defect = Defect(*defect);
                write!(f, "set-up refused {code} at {defect}")
            }
            SetupFault::Memory => write!(f, "out of memory"),
        }
    }
}
