//! The words of a call.
ghost use Rattle.std.specs.Prelude.{Some, map};
ghost use Rattle.command_why.specs.Keys.{key_word};
ghost use Rattle.command_trace.specs.Words as spec;

use cap_core::Message;
use command_why::{KeyWord, key_words, sent};
use kernel_core::Op;
use setup_report::MessageText;
use std::fmt;

/// Keys with their words: each after a space.
#[derive(Clone, Copy)]
struct KeysText<'a>(&'a [KeyWord]);

impl fmt::Display for KeysText<'_> {
    ghost output = { λ k. Some (spec.keys_text (map key_word k.0.now)) };

    fn fmt<W: fmt::Write>(&self, f: &mut fmt::Formatter<W>) -> fmt::Result {
        for pair in self.0 {
            let KeyWord { key, word } = *pair;
            write!(f, " {key} {word}")?;
        }
        Ok(())
    }
}

/// The message that is sent, after a space, where one is.
#[derive(Clone, Copy)]
struct SentText(Option<Message>);

impl fmt::Display for SentText {
    ghost output = { λ s. Some (spec.sent_text s.0) };

    fn fmt<W: fmt::Write>(&self, f: &mut fmt::Formatter<W>) -> fmt::Result {
        match self.0 {
            None => Ok(()),
            Some(message) => {
                let message = MessageText(message);
                write!(f, " {message}")
            }
        }
    }
}

/// The words of an operation, with their keys: each after a space.
#[derive(Clone, Copy)]
pub struct OpWords(pub Op);

impl fmt::Display for OpWords {
    ghost output = { λ w. Some (spec.op_words w.0) };

    fn fmt<W: fmt::Write>(&self, f: &mut fmt::Formatter<W>) -> fmt::Result {
        let words = key_words(&self.0);
        let keys = KeysText(words.as_slice());
        let sent = SentText(sent(&self.0));
        write!(f, "{keys}{sent}")
    }
}
