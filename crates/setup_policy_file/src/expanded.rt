//! The entries that tables with lists stand for.
ghost use Rattle.std.specs.Prelude.{◌≡◌, ◌++◌, IfOk, map, string_bytes};
ghost use Rattle.std.specs.List.{flat_map};
ghost use Rattle.setup_policy_file.specs.Files as files;
ghost use Rattle.setup_policy_file.specs.Lists as spec;
ghost use Rattle.setup_policy_file.specs.Private as lists;
ghost use Rattle.setup_policy_file.specs.Values.{word_view};

use crate::file::{TakeEntry, UseEntry, WayEntry, Word};
use crate::tables::{TakeTable, UseTable, WayTable};
use setup_policy::PolicyVersion;
use std::alloc::{AllocError, Global};

/// Two names of a table, and the place of their badge.
#[derive(Clone, Copy)]
struct Pair<'a> {
    from: &'a str,
    to: &'a str,
    place: usize,
}

/// Whether a pair of names is left out: in version 2 that of a name and itself.
pub fn is_left_out(version: PolicyVersion, from: &str, to: &str) -> bool
    ensures { result ≡ spec.is_left_out version from.now to.now }
{
    match version {
        PolicyVersion::One => false,
        PolicyVersion::Two => from == to,
    }
}

/// Adds a name and another, and the other way round if both are meant.
fn add_pair<'a>(
    pairs: &mut Vec<Pair<'a>>,
    version: PolicyVersion,
    both: bool,
    pair: Pair<'a>,
) -> Result<(), AllocError>
    ensures { IfOk result (λ _. map lists.pair_view pairs.new.items ≡ map lists.pair_view pairs.old.items ++ spec.pairs_between version both pair.entry.place pair.entry.from.now pair.entry.to.now) }
{
    let Pair { from, to, place } = pair;
    if is_left_out(version, from, to) {
        return Ok(());
    }
    pairs.push(Pair { from, to, place })?;
    if both {
        pairs.push(Pair {
            from: to,
            to: from,
            place,
        })?;
    }
    Ok(())
}

/// Adds a name with each of others.
fn add_pairs<'a>(
    pairs: &mut Vec<Pair<'a>>,
    version: PolicyVersion,
    both: bool,
    place: usize,
    from: &'a str,
    to: &'a [String],
) -> Result<(), AllocError>
    ensures { IfOk result (λ _. map lists.pair_view pairs.new.items ≡ map lists.pair_view pairs.old.items ++ flat_map (spec.pairs_between version both place from.now) (map string_bytes to.now)) }
{
    for other in to {
        let to = other.as_str();
        add_pair(pairs, version, both, Pair { from, to, place })?;
    }
    Ok(())
}

/// Each of some names with each of others.
fn pairs<'a>(
    alloc: Global,
    version: PolicyVersion,
    both: bool,
    from: &'a [String],
    to: &'a [String],
) -> Result<Vec<Pair<'a>>, AllocError>
    ensures { IfOk result (λ v. map lists.pair_view v.items ≡ spec.pairs version both (map string_bytes from.now) (map string_bytes to.now)) }
{
    let mut pairs = Vec::new(alloc);
    for (place, name) in from.iter().enumerate() {
        add_pairs(&mut pairs, version, both, place, name.as_str(), to)?;
    }
    Ok(pairs)
}

/// The one badge, or that of a place.
fn badge_at(badges: &[u64], place: usize) -> u64
    ensures { result ≡ spec.badge_at badges.now place }
{
    match badges {
        [badge] => *badge,
        badges => badges.get(place).copied().unwrap_or(0),
    }
}

fn same_word(alloc: Global, word: &Word) -> Result<Word, AllocError>
    ensures { IfOk result (λ w. word_view w ≡ word_view word.now) }
{
    match word {
        Word::Number(number) => Ok(Word::Number(*number)),
        Word::Name(name) => Ok(Word::Name(String::from_str(alloc, name.as_str())?)),
    }
}

/// Adds the ways of a table between two groups: one by each endpoint.
fn add_ways_between(
    alloc: Global,
    ways: &mut Vec<WayEntry>,
    table: &WayTable,
    pair: &Pair<'_>,
) -> Result<(), AllocError>
    ensures { IfOk result (λ _. map files.way_view ways.new.items ≡ map files.way_view ways.old.items ++ map (spec.way_by (lists.way_lists table.now) (lists.pair_view pair.now)) (map word_view table.now.by.items)) }
{
    let endpoints = table.by.as_slice();
    for by in endpoints {
        let from = String::from_str(alloc, pair.from)?;
        let to = String::from_str(alloc, pair.to)?;
        let word = same_word(alloc, by)?;
        let badge = badge_at(table.badges.as_slice(), pair.place);
        ways.push(WayEntry {
            from,
            to,
            by: word,
            badge,
            rights: table.rights,
            place: table.place,
        })?;
    }
    Ok(())
}

/// Adds the ways of a table.
pub fn add_ways(
    alloc: Global,
    version: PolicyVersion,
    ways: &mut Vec<WayEntry>,
    table: &WayTable,
) -> Result<(), AllocError>
    ensures { IfOk result (λ _. map files.way_view ways.new.items ≡ map files.way_view ways.old.items ++ spec.expanded_way version (lists.way_lists table.now)) }
{
    let (from, to) = (table.from.as_slice(), table.to.as_slice());
    let made = pairs(alloc, version, table.both, from, to)?;
    let made = made.as_slice();
    for pair in made {
        add_ways_between(alloc, ways, table, pair)?;
    }
    Ok(())
}

/// Adds the uses of a table for one of its groups: one of each endpoint.
fn add_uses_of(
    alloc: Global,
    uses: &mut Vec<UseEntry>,
    table: &UseTable,
    place: usize,
    group: &str,
) -> Result<(), AllocError>
    ensures { IfOk result (λ _. map files.use_view uses.new.items ≡ map files.use_view uses.old.items ++ map (spec.use_by (lists.use_lists table.now) place group.now) (map word_view table.now.of.items)) }
{
    let endpoints = table.of.as_slice();
    for of in endpoints {
        let name = String::from_str(alloc, group)?;
        let word = same_word(alloc, of)?;
        let badge = badge_at(table.badges.as_slice(), place);
        uses.push(UseEntry {
            group: name,
            of: word,
            badge,
            rights: table.rights,
            place: table.place,
        })?;
    }
    Ok(())
}

/// Adds the uses of a table.
pub fn add_uses(alloc: Global, uses: &mut Vec<UseEntry>, table: &UseTable) -> Result<(), AllocError>
    ensures { IfOk result (λ _. map files.use_view uses.new.items ≡ map files.use_view uses.old.items ++ spec.expanded_use (lists.use_lists table.now)) }
{
    let groups = table.groups.as_slice();
    for (place, group) in groups.iter().enumerate() {
        add_uses_of(alloc, uses, table, place, group.as_str())?;
    }
    Ok(())
}

/// Adds the takes of a table.
pub fn add_takes(
    alloc: Global,
    version: PolicyVersion,
    takes: &mut Vec<TakeEntry>,
    table: &TakeTable,
) -> Result<(), AllocError>
    ensures { IfOk result (λ _. map files.take_view takes.new.items ≡ map files.take_view takes.old.items ++ spec.expanded_take version (lists.take_lists table.now)) }
{
    let (from, to) = (table.from.as_slice(), table.to.as_slice());
    let made = pairs(alloc, version, table.both, from, to)?;
    let made = made.as_slice();
    for pair in made {
        let from = String::from_str(alloc, pair.from)?;
        let to = String::from_str(alloc, pair.to)?;
        takes.push(TakeEntry {
            from,
            to,
            place: table.place,
        })?;
    }
    Ok(())
}
