//! The keys of a table.
ghost use Rattle.std.specs.Prelude.{◌≡◌, ◌≤◌, ◌⊎◌, length, Ok, IfOk, option_map, option_copied, map, find, not, string_bytes, [], None};
ghost use Rattle.std.specs.BTreeMap as tree;
ghost use Rattle.std.specs.List.Sorted.{IsStrictlySortedBy};
ghost use Rattle.std.specs.String.{string_cmp};
ghost use Rattle.toml.specs.View.{view, table_view};
ghost use Rattle.toml.specs.Data.{get_member, as_table};
ghost use Rattle.setup_values.specs.Names.{names_view};
ghost use Rattle.setup_values.specs.Keys.{entries_of};
ghost use Rattle.setup_values.specs.Kinds as kind;
ghost use Rattle.setup_format.specs.Faults.{Gives};
ghost use Rattle.setup_format.specs.Tables as spec;

use crate::fault::{Key, Place, SetupFault, Wrong};
use cap_core::Profile;
use setup_values::kinds::{Kind, array, expect, named_word, table_in};
use setup_values::{KnownNames, Name};
use std::alloc::Global;
use std::marker::PhantomData;
use toml::{Table, Value};

/// The keys of a table: where it stands in its set-up, and the names that its words may take.
#[derive(Drop)]
pub struct Keys<'t, 'n, 'k, P: Profile> {
    table: &'t Table,
    place: Place,
    names: &'n KnownNames<'k>,
    profile: PhantomData<P>,
}

impl<'t, 'n, 'k, P: Profile> Keys<'t, 'n, 'k, P> {
    /// The keys of the table at a place, whose words may take these names.
    pub fn new(table: &'t Table, place: Place, names: &'n KnownNames<'k>) -> Keys<'t, 'n, 'k, P>
        ensures table { result.table.now ≡ table.now }
        ensures place { result.place ≡ place }
        ensures names { result.names.now ≡ names.now }
    {
        Keys {
            table,
            place,
            names,
            profile: PhantomData,
        }
    }

    fn find(&self, key: &str) -> Option<&'t Value>
        ensures { option_map (λ v. view v.now) result ≡ get_member key.now (table_view self.now.table.now) }
    {
        self.table.get(key)
    }

    /// What was read at a key, or the fault there.
    fn at_key<T>(&self, key: &'static str, read: Result<T, Wrong>) -> Result<T, SetupFault>
        ensures read { Gives (λ x. x) result (spec.at_key self.now.place key.now read) }
        ensures same { IfOk result (λ x. read ≡ Ok x) }
    {
        match read {
            Ok(x) => Ok(x),
            Err(wrong) => Err(SetupFault::At {
                wrong,
                place: self.place,
                key: Key::Known(key),
            }),
        }
    }

    /// What a kind reads at a key that must be there.
    pub fn required<K: Kind + Copy>(&self, key: &'static str, kind: K) -> Result<K::Out, SetupFault>
        ensures read { Gives (λ x. x) result (spec.required self.now.place (table_view self.now.table.now) key.now (K.means kind P.profile (names_view self.now.names.now))) }
        ensures holds { IfOk result (K.holds kind) }
    {
        match self.find(key) {
            None => self.at_key(key, Err(Wrong::Missing)),
            Some(value) => self.at_key(key, kind.read::<P>(self.names, value)),
        }
    }

    /// What a kind reads at a key that may be missing.
    pub fn optional<K: Kind + Copy>(
        &self,
        key: &'static str,
        default: K::Out,
        kind: K,
    ) -> Result<K::Out, SetupFault>
        ensures read { Gives (λ x. x) result (spec.optional self.now.place (table_view self.now.table.now) key.now default (K.means kind P.profile (names_view self.now.names.now))) }
        ensures holds { IfOk result (λ x. (x ≡ default) ⊎ K.holds kind x) }
    {
        match self.find(key) {
            None => Ok(default),
            Some(value) => self.at_key(key, kind.read::<P>(self.names, value)),
        }
    }

    /// An expectation; none if the key is not there.
    pub fn expect(&self, alloc: Global, key: &'static str) -> Result<Option<String>, SetupFault>
        ensures { Gives (λ o. option_map string_bytes o) result (spec.optional self.now.place (table_view self.now.table.now) key.now None kind.expect) }
    {
        match self.find(key) {
            None => Ok(None),
            Some(value) => {
                let text = self.at_key(key, expect(value))?;
                Ok(Some(String::from_str(alloc, text)?))
            }
        }
    }

    /// The tables of an array of at most `most` tables; none if the key is not there.
    pub fn tables(
        &self,
        alloc: Global,
        key: &'static str,
        most: usize,
    ) -> Result<Vec<&'t Table>, SetupFault>
        ensures tables { Gives (λ v. map (λ t. table_view t.now) v.items) result (spec.optional self.now.place (table_view self.now.table.now) key.now [] (kind.tables 0 most)) }
        ensures length { IfOk result (λ v. length v.items ≤ most) }
    {
        match self.find(key) {
            None => Ok(Vec::new(alloc)),
            Some(value) => {
                let elements = self.at_key(key, array(value, 0, most))?;
                self.tables_of(alloc, key, elements)
            }
        }
    }

    fn tables_of(
        &self,
        alloc: Global,
        key: &'static str,
        elements: &'t [Value],
    ) -> Result<Vec<&'t Table>, SetupFault>
        ensures tables { Gives (λ v. map (λ t. table_view t.now) v.items) result (spec.at_key self.now.place key.now (kind.each (λ _ e. kind.table_in (as_table e)) 0 (map view elements.now))) }
        ensures length { IfOk result (λ v. length v.items ≡ length elements.now) }
    {
        let mut tables = Vec::new(alloc);
        for element in elements {
            let table = self.at_key(key, table_in(element))?;
            tables.push(table)?;
        }
        Ok(tables)
    }

    /// Names; none if the key is not there.
    pub fn names(&self, alloc: Global, key: &'static str) -> Result<Vec<Name>, SetupFault>
        ensures { Gives (λ v. names_view v.items) result (spec.optional self.now.place (table_view self.now.table.now) key.now [] (kind.names P.profile)) }
    {
        match self.find(key) {
            None => Ok(Vec::new(alloc)),
            Some(value) => {
                let table = self.at_key(key, table_in(value))?;
                self.names_of(alloc, key, table)
            }
        }
    }

    /// What the entries of a table name; the first entry at fault is the one with the least name, since they ascend.
    fn names_of(
        &self,
        alloc: Global,
        key: &'static str,
        table: &Table,
    ) -> Result<Vec<Name>, SetupFault>
        ensures { Gives (λ v. names_view v.items) result (spec.at_key self.now.place key.now (kind.names_in P.profile (entries_of (table_view table.now)))) }
    {
        let mut names = Vec::new(alloc);
        for (text, value) in table.iter() {
            let word = self.at_key(key, named_word::<P>(text.as_str(), value))?;
            let text = text.clone()?;
            names.push(Name { text, word })?;
        }
        Ok(names)
    }

    /// Refuses a table that has a key besides those that are known.
    pub fn known_only(&self, known: &[&str]) -> Result<(), SetupFault>
        ensures { Gives (λ _. 0) result (spec.known_only self.now.place (table_view self.now.table.now) (map (λ k. k.now) known.now)) }
    {
        match unknown(self.table, known) {
            None => Ok(()),
            Some(key) => Err(SetupFault::At {
                wrong: Wrong::Unknown,
                place: self.place,
                key: Key::Found(key.clone()?),
            }),
        }
    }
}

fn is_known(known: &[&str], key: &str) -> bool
    ensures { result ≡ spec.is_one_of (map (λ k. k.now) known.now) key.now }
{
    match known {
        [] => false,
        [first, rest @ ..] => *first == key || is_known(rest, key),
    }
}

/// The first key that is not known. The keys of a table ascend, so it is the least.
fn unknown<'t>(table: &'t Table, known: &[&str]) -> Option<&'t String>
    ensures first { option_copied result ≡ find (λ k. not (spec.is_one_of (map (λ k. k.now) known.now) (string_bytes k))) (tree.keys table.now) }
    ensures ascending { IsStrictlySortedBy string_cmp (tree.keys table.now) }
{
    table.keys().find(|key| !is_known(known, key.as_str()))
}
