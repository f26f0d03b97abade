//! The lines of a report. Objects and slots stand as a naming writes them.
ghost use Rattle.std.specs.Prelude.{Some};
ghost use Rattle.setup_report.specs.Naming.{naming_view};
ghost use Rattle.setup_report.specs.Report as spec;

use crate::naming::Naming;
use crate::objects::Object;
use crate::text::{CapText, InboxText, StateText, ThreadsText};
use cap_core::Cap;
use kernel_core::{Inbox, ThreadState};
use std::fmt;

/// What is said of the expectation of a call, if it has one.
#[derive(Clone, Copy)]
pub enum ExpectationText<'a> {
    None,
    Met,
    NotMet(&'a str),
}

impl fmt::Display for ExpectationText<'_> {
    ghost use Rattle.setup_report.specs.Private.Expectations.{text_of_expectation};

    ghost output = { λ v. Some (text_of_expectation v) };

    fn fmt<W: fmt::Write>(&self, f: &mut fmt::Formatter<W>) -> fmt::Result {
        match self {
            ExpectationText::None => Ok(()),
            ExpectationText::Met => write!(f, " [met]"),
            ExpectationText::NotMet(expected) => write!(f, " [not met: {expected}]"),
        }
    }
}

/// A live thread.
#[derive(Clone, Copy)]
pub struct ThreadLine<'a> {
    pub naming: &'a Naming<'a>,
    pub address: u64,
    pub state: ThreadState,
    pub inbox: Option<Inbox>,
}

impl fmt::Display for ThreadLine<'_> {
    ghost output = { λ l. Some (spec.thread_text (naming_view l.naming.now) l.address l.state l.inbox) };

    fn fmt<W: fmt::Write>(&self, f: &mut fmt::Formatter<W>) -> fmt::Result {
        let (naming, state) = (self.naming, self.state);
        let thread = naming.object(Object::Thread(self.address));
        let state = StateText { naming, state };
        let inbox = InboxText(self.inbox);
        write!(f, "thread {thread} {state}{inbox}")
    }
}

/// A full slot.
#[derive(Clone, Copy)]
pub struct SlotLine<'a> {
    pub naming: &'a Naming<'a>,
    pub address: u64,
    pub cap: Cap,
    pub has_children: bool,
}

impl fmt::Display for SlotLine<'_> {
    ghost output = { λ l. Some (spec.slot_text (naming_view l.naming.now) l.address l.cap l.has_children) };

    fn fmt<W: fmt::Write>(&self, f: &mut fmt::Formatter<W>) -> fmt::Result {
        let (naming, cap) = (self.naming, self.cap);
        let slot = naming.slot(self.address);
        let cap = CapText { naming, cap };
        let children = if self.has_children { " children" } else { "" };
        write!(f, "slot {slot} {cap}{children}")
    }
}

/// A live endpoint, the threads that wait on it, and whether they send.
#[derive(Clone, Copy)]
pub struct EndpointLine<'a, 'n> {
    pub naming: &'a Naming<'n>,
    pub address: u64,
    pub sending: bool,
    pub threads: &'a [u64],
}

impl fmt::Display for EndpointLine<'_, '_> {
    ghost output = { λ l. Some (spec.endpoint_text (naming_view l.naming.now) l.address l.sending l.threads.now) };

    fn fmt<W: fmt::Write>(&self, f: &mut fmt::Formatter<W>) -> fmt::Result {
        let (naming, threads) = (self.naming, self.threads);
        let endpoint = naming.object(Object::Endpoint(self.address));
        if threads.is_empty() {
            write!(f, "endpoint {endpoint} idle")
        } else {
            let role = if self.sending { "sending" } else { "receiving" };
            let threads = ThreadsText { naming, threads };
            write!(f, "endpoint {endpoint} {role}{threads}")
        }
    }
}
