//! Rows of what is kept of a state: their lines are spelt only where they differ from those of another state.
ghost use Rattle.std.specs.Prelude.{◌≡◌, ◌++◌, ◌-◌, ◌≤◌, ℕ, IfOk, IsTrue, OnOk, drop, length, map, string_bytes, take};
ghost use Rattle.std.specs.List.{flat_map};
ghost use Rattle.std.specs.List.Sorted.{IsStrictlySortedBy};
ghost use Rattle.std.specs.Ordering.{nat_cmp};
ghost use Rattle.setup_report.specs.Naming.{Texts, naming_view};
ghost use Rattle.command_trace.specs.Lines.{Lines};
ghost use Rattle.command_trace.specs.Changes.{line_addresses, line_changes, text_at};
ghost use Rattle.command_trace.specs.Views.{line_view};
ghost use Rattle.command_trace.specs.Private.Rows.{AreLinesApart};

use crate::lines::changes::{StateLine, add_changes};
use cap_core::Profile;
use setup_report::Naming;
use std::alloc::{AllocError, Global};

/// What is kept of one thing of a state, and can be told as a line.
pub trait Row<P: Profile> {
    /// The line of the row, where it has one, as some texts tell it.
    ghost lines: { Texts → Self → Lines };

    /// Whether two rows are known to have the same lines, however objects and slots are told.
    fn is_same(&self, other: &Self) -> bool
        ensures { IsTrue result → (texts : Texts) → lines texts self.now ≡ lines texts other.now };

    /// Adds the line of the row to others, where it has one.
    fn add_line(
        &self,
        alloc: Global,
        naming: &Naming<'_>,
        out: &mut Vec<StateLine>,
    ) -> Result<(), AllocError>
        ensures { OnOk result (map line_view out.new.items ≡ map line_view out.old.items ++ lines (naming_view naming.now) self.now) };
}

/// How many rows stand first in both of two lists.
fn same_front<P: Profile, R: Row<P>>(old: &[R], new: &[R]) -> usize
    ensures old { result ≤ length old.now }
    ensures new { result ≤ length new.now }
    ensures same { (texts : Texts) → flat_map (R.lines texts) (take result old.now) ≡ flat_map (R.lines texts) (take result new.now) }
{
    let mut count = 0;
    while count < old.len() && count < new.len() {
        if !old[count].is_same(&new[count]) {
            return count;
        }
        count += 1;
    }
    count
}

/// How many rows stand last in both of two lists.
fn same_back<P: Profile, R: Row<P>>(old: &[R], new: &[R]) -> usize
    ensures old { result ≤ length old.now }
    ensures new { result ≤ length new.now }
    ensures same { (texts : Texts)
        → flat_map (R.lines texts) (drop (length old.now - result) old.now) ≡ flat_map (R.lines texts) (drop (length new.now - result) new.now) }
{
    let mut count = 0;
    while count < old.len() && count < new.len() {
        if !old[old.len() - 1 - count].is_same(&new[new.len() - 1 - count]) {
            return count;
        }
        count += 1;
    }
    count
}

/// The lines of some rows, in their order.
fn lines_of<P: Profile, R: Row<P>>(
    alloc: Global,
    naming: &Naming<'_>,
    rows: &[R],
) -> Result<Vec<StateLine>, AllocError>
    ensures { IfOk result (λ v. map line_view v.items ≡ flat_map (R.lines (naming_view naming.now)) rows.now) }
{
    let mut lines = Vec::new(alloc);
    for row in rows {
        row.add_line(alloc, naming, &mut lines)?;
    }
    Ok(lines)
}

/// Puts lines in the order of their addresses.
fn sort_by_address(lines: &mut [StateLine])
    requires apart { AreLinesApart (map line_view lines.old) }
    ensures rises { IsStrictlySortedBy nat_cmp (line_addresses (map line_view lines.new)) }
    ensures same { (q : ℕ) → text_at q (map line_view lines.new) ≡ text_at q (map line_view lines.old) }
{
    lines.sort_unstable_by_key(|line| line.address);
}

/// Adds how lines differ that stand in any order.
fn add_sorted_changes(
    out: &mut String,
    old: &mut [StateLine],
    new: &mut [StateLine],
) -> Result<(), AllocError>
    requires old { AreLinesApart (map line_view old.old) }
    requires new { AreLinesApart (map line_view new.old) }
    ensures { OnOk result (string_bytes out.new ≡ string_bytes out.old
        ++ line_changes (map line_view old.old) (map line_view new.old)) }
{
    sort_by_address(old);
    sort_by_address(new);
    add_changes(out, old, new)
}

/// Adds how the lines of rows differ, which stand in any order. Lines are spelt only of the rows between those that both
/// lists begin and end with.
pub fn add_row_changes<P: Profile, R: Row<P>>(
    alloc: Global,
    out: &mut String,
    naming: &Naming<'_>,
    old: &[R],
    new: &[R],
) -> Result<(), AllocError>
    requires old { AreLinesApart (flat_map (R.lines (naming_view naming.now)) old.now) }
    requires new { AreLinesApart (flat_map (R.lines (naming_view naming.now)) new.now) }
    ensures { OnOk result (string_bytes out.new ≡ string_bytes out.old
        ++ line_changes (flat_map (R.lines (naming_view naming.now)) old.now) (flat_map (R.lines (naming_view naming.now)) new.now)) }
{
    let front = same_front::<P, R>(old, new);
    let old = &old[front..];
    let new = &new[front..];
    let back = same_back::<P, R>(old, new);
    let mut gone = lines_of::<P, R>(alloc, naming, &old[..old.len() - back])?;
    let mut come = lines_of::<P, R>(alloc, naming, &new[..new.len() - back])?;
    add_sorted_changes(out, gone.as_mut_slice(), come.as_mut_slice())
}
