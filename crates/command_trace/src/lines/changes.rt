//! How the lines of two states differ.
ghost use Rattle.std.specs.Prelude.{◌≡◌, ◌≢◌, ◌⊎◌, ◌++◌, ◌<◌, OnOk, Some, map, length, slice_get, string_bytes};
ghost use Rattle.std.specs.declared.cmp.Ordering.TheVariants.{Less, Greater};
ghost use Rattle.std.specs.List.Sorted.{IsStrictlySortedBy};
ghost use Rattle.std.specs.Ordering.{nat_cmp};
ghost use Rattle.command_trace.specs.Changes as spec;
ghost use Rattle.command_trace.specs.Views.{line_view};
ghost use Rattle.command_trace.specs.Private.Listed.{line_order};

use std::alloc::AllocError;
use std::cmp::Ordering;
use std::fmt::Write;

/// A line of a state, and the address of what it is about.
#[derive(Drop)]
pub struct StateLine {
    pub address: u64,
    pub text: String,
}

fn add_removed(out: &mut String, line: &StateLine) -> Result<(), AllocError>
    ensures { OnOk result (string_bytes out.new ≡ string_bytes out.old ++ spec.removed_line (Some (line_view line.now).1)) }
{
    let text = line.text.as_str();
    writeln!(out, "  - {text}")
}

/// Adds a new line.
pub fn add_added(out: &mut String, line: &StateLine) -> Result<(), AllocError>
    ensures { OnOk result (string_bytes out.new ≡ string_bytes out.old ++ spec.added (Some (line_view line.now).1)) }
{
    let text = line.text.as_str();
    writeln!(out, "  + {text}")
}

/// Adds how a line differs from the one that it takes the place of.
fn add_altered(out: &mut String, old: &StateLine, new: &StateLine) -> Result<(), AllocError>
    ensures { OnOk result (string_bytes out.new ≡ string_bytes out.old
        ++ spec.change (Some (line_view old.now).1) (Some (line_view new.now).1)) }
{
    if old.text == new.text {
        return Ok(());
    }
    add_removed(out, old)?;
    add_added(out, new)
}

/// Which of two lines comes first: the old one, with `Less`, where there is no new one; the new one, with `Greater`,
/// where there is no old one.
fn order_at(old: &[StateLine], i: usize, new: &[StateLine], j: usize) -> Ordering
    requires { (i < length old.now) ⊎ (j < length new.now) }
    ensures order { result ≡ line_order (slice_get (map line_view old.now) i) (slice_get (map line_view new.now) j) }
    ensures old { result ≢ Greater → i < length old.now }
    ensures new { result ≢ Less → j < length new.now }
{
    match (old.get(i), new.get(j)) {
        (Some(before), Some(after)) => before.address.cmp(&after.address),
        (Some(_), None) => Ordering::Less,
        (None, _) => Ordering::Greater,
    }
}

/// Adds how lines differ, both in the rising order of their addresses: each old one that is gone, each new one that was
/// not there, and both where the line of an address is another one.
pub fn add_changes(out: &mut String, old: &[StateLine], new: &[StateLine]) -> Result<(), AllocError>
    requires old { IsStrictlySortedBy nat_cmp (spec.line_addresses (map line_view old.now)) }
    requires new { IsStrictlySortedBy nat_cmp (spec.line_addresses (map line_view new.now)) }
    ensures { OnOk result (string_bytes out.new ≡ string_bytes out.old
        ++ spec.line_changes (map line_view old.now) (map line_view new.now)) }
{
    let mut i = 0;
    let mut j = 0;
    while i < old.len() || j < new.len() {
        match order_at(old, i, new, j) {
            Ordering::Less => {
                add_removed(out, &old[i])?;
                i += 1;
            }
            Ordering::Greater => {
                add_added(out, &new[j])?;
                j += 1;
            }
            Ordering::Equal => {
                add_altered(out, &old[i], &new[j])?;
                i += 1;
                j += 1;
            }
        }
    }
    Ok(())
}
