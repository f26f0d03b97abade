//! The words of threads that lead to endpoints' capabilities.
ghost use Rattle.std.specs.Prelude.{◌≡◌, IfOk};
ghost use Rattle.kernel_forest.specs.Forest.{Forest};
ghost use Rattle.kernel_forest.specs.Entries.{Entry, cap_at};
ghost use Rattle.query_reach.specs.FullSlots.{AreFullSlots, AreRising};
ghost use Rattle.query_reach.specs.Endpoints.{endpoint_word as word_for, endpoint_words as words_for};

use crate::filled::FullSlot;
use crate::reached::Reached;
use crate::search::place_of;
use cap_core::{Badge, Cap, Rights};
use std::alloc::{AllocError, Global};

/// A word of a thread that leads to an endpoint's capability, and what that allows.
#[derive(Clone, Copy)]
pub struct EndpointWord {
    pub thread: u64,
    /// Another thread has the same words: the thread stands for both.
    pub shared: bool,
    pub word: u64,
    pub endpoint: u64,
    pub badge: Badge,
    pub rights: Rights,
}

/// What a reached slot says of an endpoint.
fn endpoint_word(
    filled: &[FullSlot],
    thread: u64,
    shared: bool,
    reached: &Reached,
) -> Option<EndpointWord>
    requires { AreRising filled.now }
    ensures { (f : Forest Entry) → AreFullSlots f filled.now → result ≡ word_for thread shared reached.now.word (cap_at f reached.now.slot) }
{
    let place = place_of(filled, reached.slot)?;
    match filled[place].cap {
        Cap::Endpoint {
            base,
            badge,
            rights,
        } => Some(EndpointWord {
            thread,
            shared,
            word: reached.word,
            endpoint: base,
            badge,
            rights,
        }),
        _ => None,
    }
}

/// The words of the thread at an address that lead to endpoints' capabilities, of those in its list of reached slots, in the
/// same order. `shared` says whether another thread has the same words. `filled` has all full slots, as `full_slots` gives them.
pub fn endpoint_words(
    alloc: Global,
    filled: &[FullSlot],
    thread: u64,
    shared: bool,
    reached: &[Reached],
) -> Result<Vec<EndpointWord>, AllocError>
    requires { AreRising filled.now }
    ensures { IfOk result (λ list. (f : Forest Entry) → AreFullSlots f filled.now → list.items ≡ words_for f thread shared reached.now) }
{
    let mut list = Vec::new(alloc);
    for r in reached {
        if let Some(found) = endpoint_word(filled, thread, shared, r) {
            list.push(found)?;
        }
    }
    Ok(list)
}
