//! The text of the lines of an audit.
ghost use Rattle.std.specs.Prelude.{Some};
ghost use Rattle.setup_report.specs.Naming.{naming_view};
ghost use Rattle.command_audit.specs.Text as spec;

use query_reach::EndpointWord;
use setup_report::{Naming, Object, RightsText};
use std::fmt;

/// The slot that is asked for, where one is.
#[derive(Clone, Copy)]
pub struct SlotAsked<'a> {
    pub naming: &'a Naming<'a>,
    pub slot: Option<u64>,
}

impl fmt::Display for SlotAsked<'_> {
    ghost output = { λ s. Some (spec.slot_asked_text (naming_view s.naming.now) s.slot) };

    fn fmt<W: fmt::Write>(&self, f: &mut fmt::Formatter<W>) -> fmt::Result {
        match self.slot {
            None => Ok(()),
            Some(slot) => {
                let slot = self.naming.slot(slot);
                write!(f, " slot {slot}")
            }
        }
    }
}

/// The sending end of a channel: a thread, its word, and the endpoint's capability that the word leads to.
#[derive(Clone, Copy)]
pub struct SenderText<'a> {
    pub naming: &'a Naming<'a>,
    pub word: EndpointWord,
}

impl fmt::Display for SenderText<'_> {
    ghost output = { λ s. Some (spec.sender_text (naming_view s.naming.now) s.word) };

    fn fmt<W: fmt::Write>(&self, f: &mut fmt::Formatter<W>) -> fmt::Result {
        let thread = self.naming.about(self.word.thread);
        let word = self.word.word;
        let endpoint = self.naming.object(Object::Endpoint(self.word.endpoint));
        let badge = self.word.badge.0;
        let rights = RightsText(self.word.rights);
        write!(
            f,
            "{thread} {word} -> {endpoint} badge {badge} rights {rights}"
        )
    }
}
