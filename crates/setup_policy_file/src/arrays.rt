//! The tables of an array of a policy.
ghost use Rattle.std.specs.Prelude.{◌≡◌, ◌++◌, IfOk, IfSome, Some, map, option_and_then, option_map, true};
ghost use Rattle.toml.specs.View.{view, table_view};
ghost use Rattle.toml.specs.Data.{as_table};
ghost use Rattle.setup_policy_file.specs.Files as spec;

use crate::fault::{Fault, Place, Spot};
use crate::faults::Faults;
use crate::reader::{Form, Reader};
use crate::values::{Bad, listed};
use std::alloc::Global;
use toml::Value;

/// A kind of table in an array: what one says.
pub trait EntryKind {
    ghost use Rattle.std.specs.Prelude.{List, Option};
    ghost use Rattle.toml.specs.Data.{Data};
    ghost use Rattle.setup_policy.specs.declared.policy.PolicyVersion.{PolicyVersion};

    /// What a table stands for.
    type Entry: Drop;

    /// An entry, as its text says it.
    ghost View: { Type 0 };

    ghost shown: { Self.Entry → View };

    /// The entries that an element of the array stands for.
    ghost reads: { PolicyVersion → Data → Option (List View) };

    /// Reads an element, 1 the first, and adds the entries that it stands for; none if it is at fault.
    fn read(
        top: Reader<'_>,
        faults: &mut Faults<'_>,
        value: &Value,
        n: usize,
        entries: &mut Vec<Self::Entry>,
    ) -> Option<()>
        ensures { IfSome result (λ _. option_map (λ es. map shown entries.old.items ++ es) (reads top.entry.version (view value.now)) ≡ Some (map shown entries.new.items)) };
}

/// The elements of an array, which are tables; none if the key is not there.
fn elements<'a>(top: Reader<'a>, form: Form) -> Result<&'a [Value], Bad>
    ensures { IfOk result (λ es. spec.elements_at form.name.now (table_view top.entry.table.now) ≡ Some (map view es.now)) }
{
    let Form { name, has, .. } = form;
    let Some(value) = top.find(name) else {
        return Ok(&[]);
    };
    if let Some(elements) = listed(value) {
        let mut are_tables = true;
        for element in elements {
            are_tables &= element.is_table();
        }
        if are_tables {
            return Ok(elements);
        }
    }
    let words = format!(in top.alloc; "{name} has to be a list of tables, of {has}")?;
    Err(Bad::Wrong(Fault::Type, words))
}

/// The entries that the tables of an array stand for.
pub fn tables<K: EntryKind>(
    faults: &mut Faults<'_>,
    top: Reader<'_>,
    form: Form,
) -> Option<Vec<K::Entry>>
    ensures { IfSome result (λ v. option_and_then (spec.entries_of (K.reads top.entry.version)) (spec.elements_at form.name.now (table_view top.entry.table.now)) ≡ Some (map K.shown v.items)) }
{
    let spot = Spot::Key(Place::Top, form.name);
    let elements = faults.taken(spot, elements(top, form))?;
    let mut entries = Vec::new(top.alloc);
    let mut are_read = true;
    let mut n = 0usize;
    for value in elements {
        n = n.saturating_add(1);
        let read = K::read(top, faults, value, n, &mut entries);
        are_read &= read.is_some();
    }
    if are_read { Some(entries) } else { None }
}

/// One table of an array, which has no other keys than it may.
pub fn table_of<'a>(
    faults: &mut Faults<'_>,
    top: Reader<'a>,
    form: Form,
    value: &'a Value,
    place: Place,
) -> Option<Reader<'a>>
    ensures is { IfSome result (λ r. as_table (view value.now) ≡ Some (table_view r.table.now)) }
    ensures only { IfSome result (λ r. spec.has_only (map (λ k. k.now) form.keys.now) (table_view r.table.now) ≡ true) }
    ensures version { IfSome result (λ r. r.version ≡ top.entry.version) }
{
    let table = value.as_table()?;
    let reader = Reader {
        table,
        place,
        form,
        ..top
    };
    reader.only_known(faults)?;
    Some(reader)
}
