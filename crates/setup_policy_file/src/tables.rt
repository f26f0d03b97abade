//! The tables of groups, ways, uses and takes. In version 2 their words may be lists.
ghost use Rattle.std.specs.Prelude.{codes, ◌≡◌, ◌&&◌, IfOk, IfSome, Some, false, length, map, option_map, string_bytes, true};
ghost use Rattle.toml.specs.View.{view, table_view};
ghost use Rattle.setup_policy_file.specs.Files as spec;
ghost use Rattle.setup_policy_file.specs.Lists as lists;
ghost use Rattle.setup_policy_file.specs.Private as private;

use crate::arrays::{EntryKind, table_of};
use crate::expanded::{add_takes, add_uses, add_ways, is_left_out};
use crate::fault::Place;
use crate::faults::Faults;
use crate::file::{GroupEntry, TakeEntry, UseEntry, WayEntry, Word};
use crate::reader::{Form, Reader};
use crate::values::{Bad, Badge, Letters, Name, ObjectWord, listed, wrong_value};
use cap_core::Rights;
use setup_policy::PolicyVersion;
use std::alloc::Global;
use toml::Value;

pub const GROUP: Form = Form {
    name: "group",
    keys: &["name", "threads", "regions"],
    has: "name, threads and regions: { name = \"a\", threads = [\"a\"] }",
};

const WAY: Form = Form {
    name: "way",
    keys: &["from", "to", "by", "badge", "rights"],
    has: "from, to, by, badge and rights: { from = \"a\", to = \"b\", by = \"ep\", badge = 10 }",
};

/// A way with lists.
const WAY_TABLE: Form = Form {
    name: "way",
    keys: &["from", "to", "by", "badge", "rights", "both"],
    has: "from, to, by, badge, rights and both: { from = [\"a\", \"b\"], to = \"c\", by = \"ep\", badge = [10, 11] }",
};

/// A use, also with lists.
pub const USE: Form = Form {
    name: "use",
    keys: &["group", "of", "badge", "rights"],
    has: "group, of, badge and rights: { group = \"a\", of = \"ep\", badge = \"any\", rights = \"wr\" }",
};

/// A take, with lists.
pub const TAKE: Form = Form {
    name: "take",
    keys: &["from", "to", "both"],
    has: "from, to and both: { from = \"a\", to = \"b\" }",
};

/// What the table of a way has.
pub fn way_form(version: PolicyVersion) -> Form
    ensures keys { map (λ k. k.now) result.keys.now ≡ spec.way_keys version }
    ensures name { result.name.now ≡ codes "way" }
{
    match version {
        PolicyVersion::One => WAY,
        PolicyVersion::Two => WAY_TABLE,
    }
}

/// Each of `from` may send to each of `to` by each of `by`.
#[derive(Drop)]
pub struct WayTable {
    pub from: Vec<String>,
    pub to: Vec<String>,
    pub by: Vec<Word>,
    /// One for all, or one for each of `from`; 0 stands for any.
    pub badges: Vec<u64>,
    pub rights: Rights,
    /// Whether also the other way round.
    pub both: bool,
    pub place: Place,
}

/// Each of `groups` may hold a capability to each of `of`.
#[derive(Drop)]
pub struct UseTable {
    pub groups: Vec<String>,
    pub of: Vec<Word>,
    /// One for all, or one for each of `groups`; 0 stands for any.
    pub badges: Vec<u64>,
    pub rights: Rights,
    pub place: Place,
}

/// Each of `from` may empty slots of each of `to`.
#[derive(Drop)]
pub struct TakeTable {
    pub from: Vec<String>,
    pub to: Vec<String>,
    /// Whether also the other way round.
    pub both: bool,
    pub place: Place,
}

/// That there is one badge for all names at a key, or one for each of them.
fn enough_badges(alloc: Global, badges: &[u64], names: &[String], key: &str) -> Result<(), Bad>
    ensures { IfOk result (λ _. lists.has_badges (length names.now) badges.now ≡ true) }
{
    let (many, count) = (badges.len(), names.len());
    if many == 1 || many == count {
        return Ok(());
    }
    wrong_value(format!(in alloc;
        "there are {many} badges for {count} of {key}; write one, or one for each of them"
    )?)
}

/// That a table which is meant both ways has no list of badges.
fn one_badge(alloc: Global, both: bool, badge: Option<&Value>) -> Result<(), Bad>
    ensures { IfOk result (λ _. (both && spec.is_list (option_map (λ v. view v.now) badge.entry)) ≡ false) }
{
    match badge {
        Some(badge) if both && listed(badge).is_some() => wrong_value(String::from_str(
            alloc,
            "each of from has a badge of its own, and to has none; write two ways",
        )?),
        _ => Ok(()),
    }
}

/// That some name stands with another than itself; the words say what happens within a group. None of them stands twice in a list.
fn others(
    alloc: Global,
    version: PolicyVersion,
    from: &[String],
    to: &[String],
    within: &str,
) -> Result<(), Bad>
    ensures { IfOk result (λ _. lists.are_all_left_out version (map string_bytes from.now) (map string_bytes to.now) ≡ false) }
{
    let [from] = from else {
        return Ok(());
    };
    let [to] = to else {
        return Ok(());
    };
    if is_left_out(version, from.as_str(), to.as_str()) {
        return wrong_value(format!(in alloc; "it is from itself; within a group {within}")?);
    }
    Ok(())
}

/// The tables of groups.
pub struct Groups;

impl EntryKind for Groups {
    ghost use Rattle.setup_policy_file.specs.Files.{GroupView, group_entries, group_view};

    type Entry = GroupEntry;

    ghost View = { GroupView };

    ghost shown = { group_view };

    ghost reads = { λ _. group_entries };

    fn read(
        top: Reader<'_>,
        faults: &mut Faults<'_>,
        value: &Value,
        n: usize,
        entries: &mut Vec<GroupEntry>,
    ) -> Option<()> {
        let reader = table_of(faults, top, GROUP, value, Place::Group(n))?;
        let name = reader.needed::<Name>(faults, "name");
        let threads = reader.needed_list::<ObjectWord>(faults, "threads");
        let regions = reader.list::<ObjectWord>(faults, "regions");
        let group = GroupEntry {
            name: name?,
            threads: threads?,
            regions: regions?,
            place: reader.place,
        };
        faults.kept(entries.push(group))
    }
}

/// The tables of ways.
pub struct Ways;

impl EntryKind for Ways {
    ghost use Rattle.setup_policy_file.specs.Lists.{WayView};
    ghost use Rattle.setup_policy_file.specs.Files.{way_entries, way_view};

    type Entry = WayEntry;

    ghost View = { WayView };

    ghost shown = { way_view };

    ghost reads = { way_entries };

    fn read(
        top: Reader<'_>,
        faults: &mut Faults<'_>,
        value: &Value,
        n: usize,
        entries: &mut Vec<WayEntry>,
    ) -> Option<()> {
        let reader = table_of(faults, top, way_form(top.version), value, Place::Way(n))?;
        let (alloc, version) = (reader.alloc, reader.version);
        let from = reader.names(faults, "from");
        let to = reader.names(faults, "to");
        let by = reader.words(faults, "by");
        let badges = reader.several::<Badge>(faults, "badge");
        let rights = reader.way_rights(faults);
        let both = reader.switch(faults, "both", false);
        let (from, to, by, badges, rights, both) = (from?, to?, by?, badges?, rights?, both?);
        let enough = enough_badges(alloc, badges.as_slice(), from.as_slice(), "from");
        let enough = reader.taken(faults, "badge", 0, enough);
        let one = one_badge(alloc, both, reader.find("badge"));
        let one = reader.taken(faults, "both", 0, one);
        let within = "all messages are allowed";
        let others = others(alloc, version, from.as_slice(), to.as_slice(), within);
        reader.taken(faults, "to", 0, others)?;
        one?;
        enough?;
        let table = WayTable {
            from,
            to,
            by,
            badges,
            rights,
            both,
            place: reader.place,
        };
        faults.kept(add_ways(top.alloc, top.version, entries, &table))
    }
}

/// The tables of uses.
pub struct Uses;

impl EntryKind for Uses {
    ghost use Rattle.setup_policy_file.specs.Lists.{UseView};
    ghost use Rattle.setup_policy_file.specs.Files.{use_entries, use_view};

    type Entry = UseEntry;

    ghost View = { UseView };

    ghost shown = { use_view };

    ghost reads = { use_entries };

    fn read(
        top: Reader<'_>,
        faults: &mut Faults<'_>,
        value: &Value,
        n: usize,
        entries: &mut Vec<UseEntry>,
    ) -> Option<()> {
        let reader = table_of(faults, top, USE, value, Place::Use(n))?;
        let groups = reader.names(faults, "group");
        let of = reader.words(faults, "of");
        let badges = reader.several::<Badge>(faults, "badge");
        let rights = reader.needed::<Letters>(faults, "rights");
        let (groups, of, badges, rights) = (groups?, of?, badges?, rights?);
        let enough = enough_badges(reader.alloc, badges.as_slice(), groups.as_slice(), "group");
        reader.taken(faults, "badge", 0, enough)?;
        let table = UseTable {
            groups,
            of,
            badges,
            rights,
            place: reader.place,
        };
        faults.kept(add_uses(top.alloc, entries, &table))
    }
}

/// The tables of takes.
pub struct Takes;

impl EntryKind for Takes {
    ghost use Rattle.setup_policy_file.specs.Lists.{TakeView};
    ghost use Rattle.setup_policy_file.specs.Files.{take_entries, take_view};

    type Entry = TakeEntry;

    ghost View = { TakeView };

    ghost shown = { take_view };

    ghost reads = { take_entries };

    fn read(
        top: Reader<'_>,
        faults: &mut Faults<'_>,
        value: &Value,
        n: usize,
        entries: &mut Vec<TakeEntry>,
    ) -> Option<()> {
        let reader = table_of(faults, top, TAKE, value, Place::Take(n))?;
        let from = reader.names(faults, "from");
        let to = reader.names(faults, "to");
        let both = reader.switch(faults, "both", false);
        let (from, to, both) = (from?, to?, both?);
        let within = "nothing is taken from another";
        let others = others(
            reader.alloc,
            reader.version,
            from.as_slice(),
            to.as_slice(),
            within,
        );
        reader.taken(faults, "to", 0, others)?;
        let table = TakeTable {
            from,
            to,
            both,
            place: reader.place,
        };
        faults.kept(add_takes(top.alloc, top.version, entries, &table))
    }
}
