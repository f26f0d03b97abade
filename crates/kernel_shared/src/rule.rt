//! The rule of the two copies, and what a thread knows of the history by it.
ghost use Rattle.std.specs.Prelude.{[]};
ghost use Rattle.kernel_shared.specs.Fronts.{Keeps, Sees};

use crate::Entry;
use crate::request::Request;
use crossbeam_utils::rule::{Outcome, Protocol};
use left_right::Absorb;
use std::collections::LinkedList;

/// The entries that a thread saw. No value of it is ever made: contracts alone speak of it, as a list of entries.
pub type View = LinkedList<Entry>;

/// Each thread's view is a beginning of the published history. The first view is empty.
pub struct Published;

impl<T: Absorb<Request, State = [Entry; 0]>> Protocol<T, View> for Published {
    ghost holds = { λ x. Keeps (T.state x) };

    ghost first = { [] };
}

/// A step after which a thread's view is the history that is published then.
pub struct SeesBook;

impl<T: Absorb<Request, State = [Entry; 0]>> Outcome<T, View> for SeesBook {
    ghost then = { λ v x y w. Sees v (T.state y) w };
}
