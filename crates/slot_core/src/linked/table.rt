//! The table of a linked store: one doubly linked list of slots, edited at a constant cost.
ghost use Rattle.std.specs.Prelude.{◌≡◌, ◌≢◌, ℕ, ◌<◌, length, IfSome, Option, Some, None, true, false};
ghost use Rattle.cap_core.specs.declared.capability.Cap.TheVariants.{Null};
ghost use Rattle.cap_core.specs.Objects.{same_object as is_same_object};
ghost use Rattle.kernel_forest.specs.Marked.{marked, with_mark, is_parent as is_parent_in};
ghost use Rattle.kernel_forest.specs.Marked.{badge_fits as badge_fits_in};
ghost use Rattle.slot_core.specs.TableEdits.{PutsBehind, Appends, TakesOut, Replaces, Frees};
ghost use Rattle.slot_core.specs.Links.{unplaced, next_of, previous_of, link_at, row_of, place_in};

use crate::derived::{badge_of, with_free};
use crate::slot::Slot;
use cap_core::object::{in_region, same_object};
use cap_core::{Cap, Profile};

/// A slot's row in the list: its capability, its neighbours, and the two marks (seL4 abstract specification, on the
/// capability derivation tree as a list with the marks revocable and first badged).
#[derive(Clone, Copy)]
pub struct Link {
    pub cap: Cap,
    pub previous: Option<Slot>,
    pub next: Option<Slot>,
    pub revocable: bool,
    pub first_badged: bool,
}

/// The row of an empty slot.
pub const EMPTY: Link = Link {
    cap: Cap::Null,
    previous: None,
    next: None,
    revocable: false,
    first_badged: false,
};

/// Writes the row of `slot`.
fn put(links: &mut [Link], slot: Slot, link: Link)
    requires slot_in { slot.place < length links.old }
    ensures next { (i : ℕ) → i ≢ slot.place → next_of links.new i ≡ next_of links.old i }
    ensures next_slot { next_of links.new slot.place ≡ place_in link.next }
    ensures previous { (i : ℕ) → i ≢ slot.place → previous_of links.new i ≡ previous_of links.old i }
    ensures previous_slot { previous_of links.new slot.place ≡ place_in link.previous }
    ensures rows { (i : ℕ) → i ≢ slot.place → row_of links.new i ≡ row_of links.old i }
    ensures row { row_of links.new slot.place ≡ marked slot.place link.cap link.revocable link.first_badged }
    ensures size { length links.new ≡ length links.old }
{
    // One field after the other, for a copy of a whole row takes the bytes between its fields along.
    let row = &mut links[slot.index()];
    row.cap = link.cap;
    row.previous = link.previous;
    row.next = link.next;
    row.revocable = link.revocable;
    row.first_badged = link.first_badged;
}

/// Lets the list go on from `before` to `next`, where `before` is no slot from its start.
fn lead_on(links: &mut [Link], first: &mut Option<Slot>, before: Option<Slot>, next: Option<Slot>)
    requires before_in { IfSome (place_in before) (λ n. n < length links.old) }
    ensures next { (i : ℕ) → (place_in before ≡ Some i → ⊥) → next_of links.new i ≡ next_of links.old i }
    ensures next_before { (i : ℕ) → place_in before ≡ Some i → next_of links.new i ≡ place_in next }
    ensures previous { (i : ℕ) → previous_of links.new i ≡ previous_of links.old i }
    ensures rows { (i : ℕ) → row_of links.new i ≡ row_of links.old i }
    ensures first_none { place_in before ≡ None → place_in first.new ≡ place_in next }
    ensures first_some { (i : ℕ) → place_in before ≡ Some i → place_in first.new ≡ place_in first.old }
    ensures size { length links.new ≡ length links.old }
{
    match before {
        Some(slot) => {
            let row = &mut links[slot.index()];
            row.next = next;
        }
        None => {
            *first = next;
        }
    }
}

/// Lets the list go back from `behind` to `previous`, where `behind` is no slot from its end.
fn lead_back(
    links: &mut [Link],
    last: &mut Option<Slot>,
    behind: Option<Slot>,
    previous: Option<Slot>,
)
    requires behind_in { IfSome (place_in behind) (λ n. n < length links.old) }
    ensures next { (i : ℕ) → next_of links.new i ≡ next_of links.old i }
    ensures previous { (i : ℕ) → (place_in behind ≡ Some i → ⊥) → previous_of links.new i ≡ previous_of links.old i }
    ensures previous_behind { (i : ℕ) → place_in behind ≡ Some i → previous_of links.new i ≡ place_in previous }
    ensures rows { (i : ℕ) → row_of links.new i ≡ row_of links.old i }
    ensures last_none { place_in behind ≡ None → place_in last.new ≡ place_in previous }
    ensures last_some { (i : ℕ) → place_in behind ≡ Some i → place_in last.new ≡ place_in last.old }
    ensures size { length links.new ≡ length links.old }
{
    match behind {
        Some(slot) => {
            let row = &mut links[slot.index()];
            row.previous = previous;
        }
        None => {
            *last = previous;
        }
    }
}

/// Makes `slot`, where there is one, first badged where `mark` is.
fn hand_on(links: &mut [Link], slot: Option<Slot>, mark: bool)
    requires slot_in { IfSome (place_in slot) (λ n. n < length links.old) }
    ensures next { (i : ℕ) → next_of links.new i ≡ next_of links.old i }
    ensures previous { (i : ℕ) → previous_of links.new i ≡ previous_of links.old i }
    ensures rows { (i : ℕ) → (place_in slot ≡ Some i → ⊥) → row_of links.new i ≡ row_of links.old i }
    ensures row { (i : ℕ) → place_in slot ≡ Some i → row_of links.new i ≡ with_mark mark (row_of links.old i) }
    ensures size { length links.new ≡ length links.old }
{
    if let Some(slot) = slot {
        let row = &mut links[slot.index()];
        row.first_badged = row.first_badged || mark;
    }
}

/// Links `slot` in directly behind `source`, with both marks set or neither.
#[inline(always)]
pub fn insert_after(
    links: &mut [Link],
    first: &mut Option<Slot>,
    last: &mut Option<Slot>,
    source: Slot,
    slot: Slot,
    cap: Cap,
    marks: bool,
)
    requires source_in { source.place < length links.old }
    requires slot_in { slot.place < length links.old }
    requires next_in { IfSome (next_of links.old source.place) (λ n. n < length links.old) }
    ensures { PutsBehind links.old links.new (place_in first.old) (place_in first.new)
        (place_in last.old) (place_in last.new) source.place slot.place (marked slot.place cap marks marks) }
{
    let next = links[source.index()].next;
    put(
        links,
        slot,
        Link {
            cap,
            previous: Some(source),
            next,
            revocable: marks,
            first_badged: marks,
        },
    );
    lead_on(links, first, Some(source), Some(slot));
    lead_back(links, last, next, Some(slot));
}

/// Links `slot` in at the end of the list, with both marks set.
pub fn append(
    links: &mut [Link],
    first: &mut Option<Slot>,
    last: &mut Option<Slot>,
    slot: Slot,
    cap: Cap,
)
    requires slot_in { slot.place < length links.old }
    requires last_in { IfSome (place_in last.old) (λ n. n < length links.old) }
    ensures { Appends links.old links.new (place_in first.old) (place_in first.new)
        (place_in last.old) (place_in last.new) slot.place (marked slot.place cap true true) }
{
    let previous = *last;
    put(
        links,
        slot,
        Link {
            cap,
            previous,
            next: None,
            revocable: true,
            first_badged: true,
        },
    );
    lead_on(links, first, previous, Some(slot));
    *last = Some(slot);
}

/// Takes `slot` out of the list. The next slot is first badged where it or `slot` was.
pub fn unlink(links: &mut [Link], first: &mut Option<Slot>, last: &mut Option<Slot>, slot: Slot)
    requires slot_in { slot.place < length links.old }
    requires next_in { IfSome (next_of links.old slot.place) (λ n. n < length links.old) }
    requires previous_in { IfSome (previous_of links.old slot.place) (λ n. n < length links.old) }
    ensures { TakesOut links.old links.new (place_in first.old) (place_in first.new)
        (place_in last.old) (place_in last.new) slot.place }
{
    let row = links[slot.index()];
    lead_on(links, first, row.previous, row.next);
    lead_back(links, last, row.next, row.previous);
    hand_on(links, row.next, row.first_badged);
    put(links, slot, EMPTY);
}

/// Puts `slot`, with the capability `cap`, in the place of `source`; both marks go along.
pub fn replace(
    links: &mut [Link],
    first: &mut Option<Slot>,
    last: &mut Option<Slot>,
    source: Slot,
    slot: Slot,
    cap: Cap,
)
    requires source_in { source.place < length links.old }
    requires slot_in { slot.place < length links.old }
    requires next_in { IfSome (next_of links.old source.place) (λ n. n < length links.old) }
    requires previous_in { IfSome (previous_of links.old source.place) (λ n. n < length links.old) }
    ensures { Replaces links.old links.new (place_in first.old) (place_in first.new)
        (place_in last.old) (place_in last.new) source.place slot.place cap }
{
    let row = links[source.index()];
    put(links, slot, Link { cap, ..row });
    lead_on(links, first, row.previous, Some(slot));
    lead_back(links, last, row.next, Some(slot));
    put(links, source, EMPTY);
}

/// Sets the free index, in bytes, of an untyped capability in the row of `slot`.
pub fn free_from(links: &mut [Link], slot: Slot, free: u64)
    requires slot_in { slot.place < length links.old }
    ensures { Frees links.old links.new slot.place free }
{
    let row = &mut links[slot.index()];
    row.cap = with_free(row.cap, free);
}

/// The row of `slot`: an empty one past the end of the table.
#[inline(always)]
pub fn row(links: &[Link], slot: Slot) -> Link
    ensures { result ≡ link_at links.now slot.place }
{
    match links.get(slot.index()) {
        Some(link) => *link,
        None => EMPTY,
    }
}

/// The row of `slot`, which the table has.
#[inline(always)]
pub fn row_within(links: &[Link], slot: Slot) -> Link
    requires slot_in { slot.place < length links.now }
    ensures { result ≡ link_at links.now slot.place }
{
    links[slot.index()]
}

/// Whether `slot`, where there is one, names the object of a capability.
pub fn names(links: &[Link], slot: Option<Slot>, cap: Cap) -> bool
    ensures some { (n : ℕ) → place_in slot ≡ Some n → result ≡ is_same_object (link_at links.now n).cap cap }
    ensures none { place_in slot ≡ None → result ≡ false }
{
    match slot {
        Some(slot) => same_object(row(links, slot).cap, cap),
        None => false,
    }
}

/// Whether `a` is parent of `b` in the list (seL4 abstract specification, on the capability derivation tree as a
/// list): `a` is revocable and has `b` in its region, and where `a` has a badge, `b` has the same and is not first
/// badged.
#[inline(always)]
pub fn is_parent<P: Profile>(a: Link, b: Link) -> bool
    ensures { result ≡ is_parent_in P.profile (unplaced a) (unplaced b) }
{
    a.revocable && in_region::<P>(a.cap, b.cap) && badge_fits(a, b)
}

/// Whether `a` has no badge, or `b` has the same and is not the first with it.
fn badge_fits(a: Link, b: Link) -> bool
    ensures { result ≡ badge_fits_in (unplaced a) (unplaced b) }
{
    let badge = badge_of(a.cap);
    badge == 0 || (badge_of(b.cap) == badge && !b.first_badged)
}
