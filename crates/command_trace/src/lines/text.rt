//! The text of the lines of a state. Objects and slots stand as a naming tells them.
ghost use Rattle.std.specs.Prelude.{Some};
ghost use Rattle.setup_report.specs.Naming.{naming_view};
ghost use Rattle.command_trace.specs.Lines as spec;

use cap_core::Cap;
use ipc_core::Offer;
use kernel_core::{Inbox, ThreadState};
use setup_report::{CapText, MessageText, Naming, Object, StateText};
use std::fmt;

/// What a thread sends that waits to send, where it does.
#[derive(Clone, Copy)]
pub struct OfferText(pub Option<Offer>);

impl fmt::Display for OfferText {
    ghost output = { λ o. Some (spec.offer_text o.0) };

    fn fmt<W: fmt::Write>(&self, f: &mut fmt::Formatter<W>) -> fmt::Result {
        match self.0 {
            None => Ok(()),
            Some(offer) => {
                let badge = offer.badge.0;
                let message = MessageText(offer.message);
                write!(f, " badge {badge} {message}")
            }
        }
    }
}

/// A live thread, and what it sends where it waits to send.
#[derive(Clone, Copy)]
pub struct ThreadText<'a> {
    pub naming: &'a Naming<'a>,
    pub address: u64,
    pub state: ThreadState,
    pub offer: Option<Offer>,
}

impl fmt::Display for ThreadText<'_> {
    ghost output = { λ t. Some (spec.traced_thread_text (naming_view t.naming.now) t.address t.state t.offer) };

    fn fmt<W: fmt::Write>(&self, f: &mut fmt::Formatter<W>) -> fmt::Result {
        let (naming, state) = (self.naming, self.state);
        let thread = naming.object(Object::Thread(self.address));
        let state = StateText { naming, state };
        let offer = OfferText(self.offer);
        write!(f, "thread {thread} {state}{offer}")
    }
}

/// The last message that was delivered to a thread.
#[derive(Clone, Copy)]
pub struct InboxText<'a> {
    pub naming: &'a Naming<'a>,
    pub address: u64,
    pub inbox: Inbox,
}

impl fmt::Display for InboxText<'_> {
    ghost output = { λ i. Some (spec.traced_inbox_text (naming_view i.naming.now) i.address i.inbox) };

    fn fmt<W: fmt::Write>(&self, f: &mut fmt::Formatter<W>) -> fmt::Result {
        let thread = self.naming.object(Object::Thread(self.address));
        let badge = self.inbox.badge.0;
        let message = MessageText(self.inbox.message);
        write!(f, "inbox {thread} badge {badge} {message}")
    }
}

/// The slot right above a full one in the derivation forest, where there is one.
#[derive(Clone, Copy)]
struct ParentText<'a> {
    naming: &'a Naming<'a>,
    parent: Option<u64>,
}

impl fmt::Display for ParentText<'_> {
    ghost output = { λ p. Some (spec.parent_text (naming_view p.naming.now) p.parent) };

    fn fmt<W: fmt::Write>(&self, f: &mut fmt::Formatter<W>) -> fmt::Result {
        match self.parent {
            None => Ok(()),
            Some(parent) => {
                let parent = self.naming.slot(parent);
                write!(f, " under {parent}")
            }
        }
    }
}

/// A full slot: its capability, the slot right above it in the derivation forest, and whether it is original.
#[derive(Clone, Copy)]
pub struct SlotText<'a> {
    pub naming: &'a Naming<'a>,
    pub address: u64,
    pub cap: Cap,
    pub parent: Option<u64>,
    pub original: bool,
}

impl fmt::Display for SlotText<'_> {
    ghost use Rattle.kernel_forest.specs.Entries.{entry};

    ghost output = { λ s. Some (spec.traced_slot_text (naming_view s.naming.now) (entry s.address s.cap s.original, s.parent)) };

    fn fmt<W: fmt::Write>(&self, f: &mut fmt::Formatter<W>) -> fmt::Result {
        let (naming, cap, parent) = (self.naming, self.cap, self.parent);
        let slot = naming.slot(self.address);
        let cap = CapText { naming, cap };
        let parent = ParentText { naming, parent };
        let original = if self.original { " original" } else { "" };
        write!(f, "slot {slot} {cap}{parent}{original}")
    }
}
