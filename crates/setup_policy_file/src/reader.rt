//! A table of a policy, of which the values at keys are read. A fault is noted, and reading goes on.
ghost use Rattle.std.specs.Prelude.{◌≡◌, IfOk, IfSome, Ok, Some, map, option_and_then, option_map, string_bytes, true};
ghost use Rattle.toml.specs.View.{view, table_view};
ghost use Rattle.toml.specs.Data.{get_member};
ghost use Rattle.setup_format.specs.Tables.{is_one_of};
ghost use Rattle.setup_policy_file.specs.Private.{is_added};
ghost use Rattle.setup_policy_file.specs.Values as values;
ghost use Rattle.setup_policy_file.specs.Files as spec;

use crate::fault::{Fault, Place, Spot};
use crate::faults::Faults;
use crate::file::Word;
use crate::near::did_you_mean;
use crate::values::{
    Bad, Kind, Name, ObjectWord, Switch, elements, is_group_name, values_in, way_rights,
    wrong_value,
};
use cap_core::Rights;
use setup_policy::PolicyVersion;
use std::alloc::Global;
use std::fmt;
use toml::{Table, Value};

/// How an array's entries are called, which keys they have, and how one looks.
#[derive(Clone, Copy)]
pub struct Form {
    pub name: &'static str,
    pub keys: &'static [&'static str],
    pub has: &'static str,
}

fn is_known(known: &[&str], key: &str) -> bool
    ensures { result ≡ is_one_of (map (λ k. k.now) known.now) key.now }
{
    match known {
        [] => false,
        [first, rest @ ..] => *first == key || is_known(rest, key),
    }
}

/// A list with one element more; none if one of them is at fault.
fn added<T: Drop>(faults: &mut Faults<'_>, list: Option<Vec<T>>, one: Option<T>) -> Option<Vec<T>>
    ensures { IfSome result (is_added list one) }
{
    let mut list = list?;
    faults.kept(list.push(one?))?;
    Some(list)
}

/// That no element of a list stands there twice.
fn no_doubles<T: PartialEq + fmt::Display>(alloc: Global, items: &[T]) -> Result<(), Bad>
    ensures { IfOk result (λ _. values.are_apart T.eq items.now ≡ true) }
{
    for (i, item) in items.iter().enumerate() {
        if items[..i].contains(item) {
            return wrong_value(format!(in alloc; "{item} stands twice")?);
        }
    }
    Ok(())
}

/// A table of a policy's text.
#[derive(Clone, Copy)]
pub struct Reader<'a> {
    pub alloc: Global,
    pub table: &'a Table,
    pub place: Place,
    pub form: Form,
    /// The version of the policy.
    pub version: PolicyVersion,
}

impl<'a> Reader<'a> {
    /// The value of a key, if it is there.
    pub fn find(self, key: &str) -> Option<&'a Value>
        ensures { option_map (λ v. view v.now) result ≡ get_member key.now (table_view self.entry.table.now) }
    {
        self.table.get(key)
    }

    /// The value of a key; a fault if it is missing.
    fn value(self, faults: &mut Faults<'_>, key: &str) -> Option<&'a Value>
        ensures { IfSome result (λ v. get_member key.now (table_view self.entry.table.now) ≡ Some (view v.now)) }
    {
        if let Some(value) = self.find(key) {
            return Some(value);
        }
        let Form { name, has, .. } = self.form;
        let words = match self.place {
            Place::Top => format!(in self.alloc;
                "the key {key} is missing; write policy = 2 at the top"
            ),
            _ => format!(in self.alloc; "the key {key} is missing; a {name} has {has}"),
        };
        let (words, spot) = (faults.kept(words)?, Spot::Key(self.place, key));
        faults.add(Fault::Missing, spot, spot, words);
        None
    }

    /// What was read of the value at a key, or of its element with this number, 1 the first; 0 is the value. None if it is at
    /// fault: the key stands before what is wrong with it.
    pub fn taken<T>(
        self,
        faults: &mut Faults<'_>,
        key: &str,
        n: usize,
        read: Result<T, Bad>,
    ) -> Option<T>
        ensures { IfSome result (λ x. read ≡ Ok x) }
    {
        let spot = match n {
            0 => Spot::Key(self.place, key),
            n => Spot::Element(self.place, key, n),
        };
        match read {
            Err(Bad::Wrong(fault, words)) => {
                let words = faults.kept(format!(in self.alloc; "{key}: {words}"))?;
                faults.add(fault, spot, spot, words);
                None
            }
            other => faults.taken(spot, other),
        }
    }

    /// What the value at a key is read as; a fault if it is missing.
    pub fn needed<K: Kind>(self, faults: &mut Faults<'_>, key: &str) -> Option<K::Out>
        ensures { IfSome result (λ x. spec.needed K.reads key.now (table_view self.entry.table.now) ≡ Some (K.shown x)) }
    {
        let value = self.value(faults, key)?;
        self.taken(faults, key, 0, K::read(self.alloc, value))
    }

    /// The same, of a key that may be missing.
    pub fn given<K: Kind>(self, faults: &mut Faults<'_>, key: &str) -> Option<Option<K::Out>>
        ensures { IfSome result (λ o. spec.optional K.reads (get_member key.now (table_view self.entry.table.now)) ≡ Some (option_map K.shown o)) }
    {
        let Some(value) = self.find(key) else {
            return Some(None);
        };
        let read = self.taken(faults, key, 0, K::read(self.alloc, value))?;
        Some(Some(read))
    }

    /// A switch, which is as told if the key is missing.
    pub fn switch(self, faults: &mut Faults<'_>, key: &str, otherwise: bool) -> Option<bool>
        ensures { IfSome result (λ b. spec.switch_or otherwise key.now (table_view self.entry.table.now) ≡ Some b) }
    {
        let Some(value) = self.find(key) else {
            return Some(otherwise);
        };
        self.taken(faults, key, 0, Switch::read(self.alloc, value))
    }

    /// The rights of a way, Write if the key is missing.
    pub fn way_rights(self, faults: &mut Faults<'_>) -> Option<Rights>
        ensures { IfSome result (λ r. spec.way_rights_at (table_view self.entry.table.now) ≡ Some r) }
    {
        let Some(value) = self.find("rights") else {
            return Some(Rights::WRITE);
        };
        let rights = way_rights(self.alloc, self.version, value);
        self.taken(faults, "rights", 0, rights)
    }

    /// What each of these elements is read as; none if one of them is at fault. The first has this number.
    fn each<K: Kind>(
        self,
        faults: &mut Faults<'_>,
        key: &str,
        first: usize,
        elements: &[Value],
    ) -> Option<Vec<K::Out>>
        ensures { IfSome result (λ v. values.all_of K.reads (map view elements.now) ≡ Some (map K.shown v.items)) }
    {
        let mut read = Some(Vec::new(self.alloc));
        let mut n = first;
        for element in elements {
            let one = self.taken(faults, key, n, K::read(self.alloc, element));
            read = added(faults, read, one);
            n = n.saturating_add(1);
        }
        read
    }

    /// The list at a key, whose elements are read; a fault if the key is missing.
    pub fn needed_list<K: Kind>(self, faults: &mut Faults<'_>, key: &str) -> Option<Vec<K::Out>>
        ensures { IfSome result (λ v. spec.needed (values.list_of K.reads) key.now (table_view self.entry.table.now) ≡ Some (map K.shown v.items)) }
    {
        let value = self.value(faults, key)?;
        let elements = self.taken(faults, key, 0, elements(self.alloc, value))?;
        self.each::<K>(faults, key, 1, elements)
    }

    /// The same; no elements if the key is missing.
    pub fn list<K: Kind>(self, faults: &mut Faults<'_>, key: &str) -> Option<Vec<K::Out>>
        ensures { IfSome result (λ v. spec.list_at K.reads key.now (table_view self.entry.table.now) ≡ Some (map K.shown v.items)) }
    {
        if self.find(key).is_none() {
            return Some(Vec::new(self.alloc));
        }
        self.needed_list::<K>(faults, key)
    }

    /// What the values at a key are read as, of which version 2 allows a list.
    pub fn several<K: Kind>(self, faults: &mut Faults<'_>, key: &str) -> Option<Vec<K::Out>>
        ensures { IfSome result (λ v. spec.needed (values.one_or_more self.entry.version K.reads) key.now (table_view self.entry.table.now) ≡ Some (map K.shown v.items)) }
    {
        let value = self.value(faults, key)?;
        let elements = values_in(self.alloc, self.version, value);
        let elements = self.taken(faults, key, 0, elements)?;
        let is_list = self.version == PolicyVersion::Two && value.is_array();
        self.each::<K>(faults, key, usize::from(is_list), elements)
    }

    /// The names of groups, none of them twice.
    pub fn names(self, faults: &mut Faults<'_>, key: &str) -> Option<Vec<String>>
        ensures { IfSome result (λ v. spec.names_at self.entry.version key.now (table_view self.entry.table.now) ≡ Some (map string_bytes v.items)) }
    {
        let names = self.several::<Name>(faults, key)?;
        self.taken(faults, key, 0, no_doubles(self.alloc, names.as_slice()))?;
        Some(names)
    }

    /// Words, none of them twice.
    pub fn words(self, faults: &mut Faults<'_>, key: &str) -> Option<Vec<Word>>
        ensures { IfSome result (λ v. spec.different_words_at self.entry.version key.now (table_view self.entry.table.now) ≡ Some (map values.word_view v.items)) }
    {
        let words = self.several::<ObjectWord>(faults, key)?;
        self.taken(faults, key, 0, no_doubles(self.alloc, words.as_slice()))?;
        Some(words)
    }

    /// A fault for each key that the table does not have.
    pub fn only_known(self, faults: &mut Faults<'_>) -> Option<()>
        ensures { IfSome result (λ _. spec.has_only (map (λ k. k.now) self.entry.form.keys.now) (table_view self.entry.table.now) ≡ true) }
    {
        let Reader { alloc, form, .. } = self;
        let Form { keys, has, .. } = form;
        let mut are_known = true;
        for key in self.table.keys() {
            let key = key.as_str();
            if !is_known(keys, key) {
                are_known = false;
                let others = faults.kept(format!(in alloc; "; the keys are {has}"))?;
                let question = faults.kept(did_you_mean(alloc, key, keys, others.as_str()))?;
                let words = faults.kept(format!(in alloc; "there is no key {key}{question}"))?;
                let shown = if is_group_name(key) { key } else { "?" };
                let spot = Spot::Key(self.place, shown);
                faults.add(Fault::Unknown, spot, spot, words);
            }
        }
        if are_known { Some(()) } else { None }
    }
}
