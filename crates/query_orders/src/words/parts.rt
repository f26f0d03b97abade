//! The words of the parts of what is shown.
ghost use Rattle.std.specs.Prelude.{◌≡◌, ◌++◌, OnOk, Option};
ghost use Rattle.query_orders.specs.Words as spec;
ghost use Rattle.query_orders.specs.Private.Waiting.{waiter_by};

use cap_core::{Cap, Message};
use ipc_core::Offer;
use kernel_core::{Inbox, ThreadState};
use std::alloc::AllocError;

/// A capability: its kind, and four words.
pub fn add_cap(words: &mut Vec<u64>, cap: Cap) -> Result<(), AllocError>
    ensures { OnOk result (words.new.items ≡ words.old.items ++ spec.cap_words cap) }
{
    let (kind, base, first, second, third) = match cap {
        Cap::Null => (0, 0, 0, 0, 0),
        Cap::Untyped { base, bits, free } => (1, base, u64::from(bits), free, 0),
        Cap::Endpoint {
            base,
            badge,
            rights,
        } => (2, base, badge.0, u64::from(rights.0), 0),
        Cap::CNode { base, radix, guard } => {
            (
                3,
                base,
                u64::from(radix),
                guard.value,
                u64::from(guard.size),
            )
        }
        Cap::Tcb { base } => (4, base, 0, 0, 0),
    };
    words.push(kind)?;
    words.push(base)?;
    words.push(first)?;
    words.push(second)?;
    words.push(third)?;
    Ok(())
}

/// A message: its label, how many words it has, and its words with how many there are.
pub fn add_message(words: &mut Vec<u64>, message: &Message) -> Result<(), AllocError>
    ensures { OnOk result (words.new.items ≡ words.old.items ++ spec.message_words message.now) }
{
    words.push(message.label)?;
    words.push(u64::from(message.count))?;
    words.push(message.words.len() as u64)?;
    words.extend_from_slice(&message.words)
}

/// What a thread does; nothing is at the address where there is `None`.
pub fn add_state(words: &mut Vec<u64>, state: Option<ThreadState>) -> Result<(), AllocError>
    ensures { OnOk result (words.new.items ≡ words.old.items ++ spec.thread_state_words state) }
{
    let (kind, endpoint) = match state {
        None => (0, 0),
        Some(ThreadState::Ready) => (1, 0),
        Some(ThreadState::Inactive) => (2, 0),
        Some(ThreadState::Sending(endpoint)) => (3, endpoint),
        Some(ThreadState::Receiving(endpoint)) => (4, endpoint),
    };
    words.push(kind)?;
    words.push(endpoint)?;
    Ok(())
}

/// The last message that was delivered to a thread, with its badge.
pub fn add_inbox(words: &mut Vec<u64>, inbox: Option<Inbox>) -> Result<(), AllocError>
    ensures { OnOk result (words.new.items ≡ words.old.items ++ spec.inbox_words inbox) }
{
    match inbox {
        None => {
            words.push(0)?;
            Ok(())
        }
        Some(inbox) => {
            words.push(1)?;
            words.push(inbox.badge.0)?;
            add_message(words, &inbox.message)
        }
    }
}

/// The slot that another is derived from, where there is one.
pub fn add_parent(words: &mut Vec<u64>, parent: Option<u64>) -> Result<(), AllocError>
    ensures { OnOk result (words.new.items ≡ words.old.items ++ spec.parent_words parent) }
{
    let (is_some, slot) = match parent {
        None => (0, 0),
        Some(slot) => (1, slot),
    };
    words.push(is_some)?;
    words.push(slot)?;
    Ok(())
}

/// A thread that waits, and what it sends.
pub fn add_waiter(words: &mut Vec<u64>, thread: u64, offer: Option<Offer>) -> Result<(), AllocError>
    ensures { OnOk result (words.new.items ≡ words.old.items ++ spec.waiter_words (waiter_by thread offer)) }
{
    match offer {
        None => {
            words.push(0)?;
            words.push(thread)?;
            Ok(())
        }
        Some(offer) => {
            words.push(1)?;
            words.push(thread)?;
            words.push(offer.badge.0)?;
            add_message(words, &offer.message)
        }
    }
}
