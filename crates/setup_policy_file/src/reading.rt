//! A policy file is read.
ghost use Rattle.std.specs.Prelude.{codes, ◌≡◌, IfOk, IfSome, Some, map};
ghost use Rattle.toml.specs.View.{table_view};
ghost use Rattle.setup_policy_file.specs.Files as spec;

use crate::arrays::tables;
use crate::fault::{Fault, Place, Spot, line_and_column};
use crate::faults::{Faults, Refusal};
use crate::file::{GroupEntry, PolicyFile, TakeEntry};
use crate::reader::{Form, Reader};
use crate::tables::{GROUP, Groups, TAKE, Takes, USE, Uses, Ways, way_form};
use crate::values::{Name, Number, ObjectWord, Version, word_in};
use setup_policy::PolicyVersion;
use std::alloc::Global;
use toml::Table;

/// What the top table has, in version 1.
const TOP: Form = Form {
    name: "policy",
    keys: &[
        "policy",
        "after",
        "silent",
        "messages",
        "alone",
        "seL4_grant",
        "calls_succeed",
        "group",
        "way",
        "use",
    ],
    has: "policy, after, silent, messages, alone, seL4_grant, calls_succeed, group, way, use",
};

/// The same in version 2.
const TOP_WITH_TAKES: Form = Form {
    name: "policy",
    keys: &[
        "policy",
        "after",
        "silent",
        "messages",
        "alone",
        "seL4_grant",
        "calls_succeed",
        "group",
        "way",
        "use",
        "take",
    ],
    has: "policy, after, silent, messages, alone, seL4_grant, calls_succeed, group, way, use, take",
};

/// What the top table of a version has.
fn top_form(version: PolicyVersion) -> Form
    ensures { map (λ k. k.now) result.keys.now ≡ spec.top_keys version }
{
    match version {
        PolicyVersion::One => TOP,
        PolicyVersion::Two => TOP_WITH_TAKES,
    }
}

/// The groups of `alone`: each has the thread of its name.
fn alone_groups(faults: &mut Faults<'_>, top: Reader<'_>) -> Option<Vec<GroupEntry>>
    ensures { IfSome result (λ v. spec.alone_groups_of (table_view top.entry.table.now) ≡ Some (map spec.group_view v.items)) }
{
    let alloc = top.alloc;
    let names = top.list::<Name>(faults, "alone")?;
    let names = names.as_slice();
    let mut groups = Vec::new(alloc);
    for (i, name) in names.iter().enumerate() {
        let name = name.as_str();
        let thread = faults.kept(word_in(alloc, name))?;
        let group = GroupEntry {
            name: faults.kept(String::from_str(alloc, name))?,
            threads: faults.kept(Vec::from_array(alloc, [thread]))?,
            regions: Vec::new(alloc),
            place: Place::Alone(i.saturating_add(1)),
        };
        faults.kept(groups.push(group))?;
    }
    Some(groups)
}

/// A fault for each group that has the name of an earlier one.
fn all_apart(faults: &mut Faults<'_>, groups: &[GroupEntry]) -> Option<()> {
    let mut are_apart = true;
    for (i, group) in groups.iter().enumerate() {
        let name = group.name.as_str();
        for earlier in &groups[..i] {
            if earlier.name.as_str() == name {
                are_apart = false;
                let first = Spot::Key(earlier.place, "");
                let first = line_and_column(faults.alloc, faults.text, first);
                let (line, _) = faults.kept(first)?;
                let words = faults.kept(format!(in faults.alloc;
                    "the group {name} stands in line {line} already; give one of them another name"
                ))?;
                let spot = Spot::Key(group.place, "name");
                faults.add(Fault::Twice, spot, spot, words);
                break;
            }
        }
    }
    if are_apart { Some(()) } else { None }
}

/// The takes, none in version 1.
fn read_takes(faults: &mut Faults<'_>, top: Reader<'_>) -> Option<Vec<TakeEntry>>
    ensures { IfSome result (λ v. spec.takes_of top.entry.version (table_view top.entry.table.now) ≡ Some (map spec.take_view v.items)) }
{
    match top.version {
        PolicyVersion::One => Some(Vec::new(top.alloc)),
        PolicyVersion::Two => tables::<Takes>(faults, top, TAKE),
    }
}

/// What the table of a policy says, whose version is known; none if it is at fault.
fn read_top(faults: &mut Faults<'_>, top: Reader<'_>) -> Option<PolicyFile>
    requires keys { map (λ k. k.now) top.form.keys.now ≡ spec.top_keys top.version }
    requires version { spec.version_in (table_view top.table.now) ≡ Some top.version }
    ensures { IfSome result (spec.IsPolicyTable (table_view top.entry.table.now)) }
{
    let known = top.only_known(faults);
    let after = top.given::<Number>(faults, "after");
    let silent = top.list::<ObjectWord>(faults, "silent");
    let messages = top.list::<ObjectWord>(faults, "messages");
    let alone = alone_groups(faults, top);
    let grant = top.switch(faults, "seL4_grant", true);
    let calls = top.switch(faults, "calls_succeed", true);
    let told = tables::<Groups>(faults, top, GROUP);
    let ways = tables::<Ways>(faults, top, way_form(top.version));
    let uses = tables::<Uses>(faults, top, USE);
    let takes = read_takes(faults, top);
    let (mut groups, mut told) = (alone?, told?);
    faults.kept(groups.append(&mut told))?;
    all_apart(faults, groups.as_slice())?;
    known?;
    Some(PolicyFile {
        version: top.version,
        after: after?,
        silent: silent?,
        messages: messages?,
        grant: grant?,
        calls: calls?,
        groups,
        ways: ways?,
        uses: uses?,
        takes: takes?,
    })
}

/// Reads the table of a policy's text. Behind a fault of the version nothing is read.
fn read_table(alloc: Global, text: &str, table: &Table) -> Result<PolicyFile, Refusal>
    ensures { IfOk result (spec.IsPolicyTable (table_view table.now)) }
{
    let mut faults = Faults::new(alloc, text);
    let top = Reader {
        alloc,
        table,
        place: Place::Top,
        form: TOP,
        version: PolicyVersion::One,
    };
    let Some(version) = top.needed::<Version>(&mut faults, "policy") else {
        return Err(faults.refusal());
    };
    let top = Reader {
        form: top_form(version),
        version,
        ..top
    };
    match read_top(&mut faults, top) {
        Some(policy) => Ok(policy),
        None => Err(faults.refusal()),
    }
}

/// Reads a policy file.
///
/// # Errors
/// `Memory`, or its faults. Each value at a key, each element of a list and each key that there is not is one of them; of a table
/// of an array with such a key nothing else is told, and behind a fault of the version nothing is.
pub fn read_policy(alloc: Global, bytes: &[u8]) -> Result<PolicyFile, Refusal>
    ensures { IfOk result (spec.IsPolicyText bytes.now) }
{
    let text = match bytes.utf8_chunks().next() {
        Some(chunk) => chunk.valid(),
        None => "",
    };
    match toml::table_from_slice(alloc, bytes) {
        Ok(table) => read_table(alloc, text, &table),
        Err(error) => {
            if error.is_memory() {
                return Err(Refusal::Memory);
            }
            let at = match error.span() {
                Some(span) => span.start,
                None => 0,
            };
            let words = String::from_str(alloc, error.message())?;
            Err(Refusal::new(alloc, text, Fault::Text, Spot::Text(at), words))
        }
    }
}
