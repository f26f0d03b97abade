//! A call as a set-up spells it.
ghost use Rattle.std.specs.Prelude.{◌≡◌, option_copied};
ghost use Rattle.command_why.specs.Text.{key_value_text};
ghost use Rattle.command_why.specs.Asked.{asked_view, key_said, word_said, depth_said, data_said, asked_thread_name};

use crate::reasons::keys::key_words;
use crate::reasons::names::name_at;
use crate::reasons::text::{KeyText, NameText};
use crate::reasons::words::{depth_key, key_of};
use kernel_core::{Call, Word};
use setup_report::Naming;
use toml::Table;

/// A call, the table that spells it, if there is one, and how objects and slots are told.
#[derive(Clone, Copy)]
pub struct Asked<'a, 'n> {
    pub naming: &'a Naming<'n>,
    pub call: &'a Call,
    pub table: Option<&'a Table>,
}

/// A key of a call with its word, and the name by which that is spelt.
#[tactic(auto, unfolding(crate::specs::Asked::key_said))]
pub fn key_said<'a>(asked: Asked<'a, '_>, key: &'static str) -> KeyText<'a>
    ensures { key_value_text result.key.now result.value (option_copied result.name)
        ≡ key_said (asked_view asked.entry) key.now }
{
    let value = key_words(&asked.call.op).word_of(key);
    let name = name_at(asked.table, key);
    KeyText { key, value, name }
}

/// The word that a check is about.
#[tactic(auto, unfolding(crate::specs::Asked::word_said))]
pub fn word_said<'a>(asked: Asked<'a, '_>, word: Word) -> KeyText<'a>
    ensures { key_value_text result.key.now result.value (option_copied result.name) ≡ word_said (asked_view asked.entry) word }
{
    key_said(asked, key_of(word))
}

/// The depth that belongs to an index.
#[tactic(auto, unfolding(crate::specs::Asked::depth_said))]
pub fn depth_said<'a>(asked: Asked<'a, '_>, word: Word) -> KeyText<'a>
    ensures { key_value_text result.key.now result.value (option_copied result.name) ≡ depth_said (asked_view asked.entry) word }
{
    key_said(asked, depth_key(word))
}

/// The word that sets a capability's data.
#[tactic(auto, unfolding(crate::specs::Asked::data_said))]
pub fn data_said<'a>(asked: Asked<'a, '_>) -> KeyText<'a>
    ensures { key_value_text result.key.now result.value (option_copied result.name) ≡ data_said (asked_view asked.entry) }
{
    key_said(asked, "word")
}

/// The name by which the calling thread is spelt.
#[tactic(auto, unfolding(crate::specs::Asked::asked_thread_name))]
pub fn thread_name<'a>(asked: Asked<'a, '_>) -> NameText<'a>
    ensures { option_copied result.0 ≡ asked_thread_name (asked_view asked.entry) }
{
    NameText(name_at(asked.table, "thread"))
}
