//! A document that is refused, and its tables and values.
ghost use Rattle.std.specs.Prelude.{IfSome};

use cap_core::{Narrow, ProfileName, Wide};
use setup_format::Place;
use setup_positions::array_of;
use setup_values::KnownNames;
use setup_values::kinds::{Kind, ProfileKind, Word};
use std::alloc::Global;
use toml::{Table, Value};

/// By which formats a set-up is read.
#[derive(Clone, Copy)]
pub enum Formats {
    /// By all, as a check reads it.
    All,
    /// By the first alone, as a migration reads it.
    First,
}

/// A document, and the formats by which it is read.
#[derive(Clone, Copy)]
pub struct Document<'a> {
    pub alloc: Global,
    pub table: &'a Table,
    pub formats: Formats,
}

impl<'a> Document<'a> {
    /// The table at a place. The tables of an array count from 1.
    pub fn table_at(&self, place: Place) -> Option<&'a Table> {
        match array_of(place) {
            None => Some(self.table),
            Some((key, n)) => {
                let tables = self.table.get(key)?.as_array()?;
                tables.get(n.wrapping_sub(1))?.as_table()
            }
        }
    }

    /// The value at a key of the table at a place.
    pub fn value_at(&self, place: Place, key: &str) -> Option<&'a Value> {
        self.table_at(place)?.get(key)
    }

    /// The names, if there are any.
    pub fn names(&self) -> Option<&'a Table> {
        self.table.get("names")?.as_table()
    }

    /// The profile, if its key was read.
    pub fn profile(&self) -> ProfileName {
        read_at(self.table, "profile", ProfileKind).unwrap_or(ProfileName::Wide)
    }

    /// Whether a value is a word without a name.
    pub fn is_plain_word(&self, value: &Value) -> bool {
        match self.profile() {
            ProfileName::Wide => Word.read::<Wide>(&KnownNames::none(), value).is_ok(),
            ProfileName::Narrow => Word.read::<Narrow>(&KnownNames::none(), value).is_ok(),
        }
    }

    /// Whether a value is a word.
    pub fn is_word(&self, value: &Value) -> bool {
        if let (Some(names), Some(text)) = (self.names(), value.as_str())
            && let Some(name) = text.strip_prefix('@')
        {
            return names.get(name).is_some();
        }
        self.is_plain_word(value)
    }
}

/// What a kind reads at a key, without names; none if the key is not there or was not read.
pub fn read_at<K: Kind + Copy>(table: &Table, key: &str, kind: K) -> Option<K::Out>
    ensures { IfSome result (K.holds kind) }
{
    kind.read::<Wide>(&KnownNames::none(), table.get(key)?).ok()
}
