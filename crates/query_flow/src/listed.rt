//! Flows as lists, and the tests that one is settled.
ghost use Rattle.std.specs.Prelude.{◌≡◌, ◌==◌, ◌||◌, ◌&&◌, ℕ, not, true, map, take, option_copied, IfOk};
ghost use Rattle.std.specs.List.{list_any, list_all, position};
ghost use Rattle.slot_core.specs.Calls.{derivation_view};
ghost use Rattle.cap_core.specs.Objects.{is_null as null};
ghost use Rattle.query_parts.specs.Listed.{last_in};
ghost use Rattle.query_flow.specs.Laws.{IsFlowEver};
ghost use Rattle.query_flow.specs.Listed as spec;
ghost use Rattle.query_flow.specs.Private as private;

use cap_core::{Badge, Cap, Profile, Range, Rights, range_of};
use ipc_core::Waiters;
use kernel_core::Kernel;
use list_questions::Asks;
use query_parts::{PartMemory, part_at};
use slot_core::{Derivation, DerivationStore};
use std::alloc::{AllocError, Global};

/// What may stand in the slots of a set.
#[derive(Clone, Copy, PartialEq, Eq, Debug)]
pub enum Standing {
    /// The capability to an untyped region.
    Untyped {
        base: u64,
        bits: u64,
    },
    /// All that lies in a region.
    Region {
        base: u64,
        bits: u64,
    },
    /// Capabilities to an endpoint, with this badge, or any if it is 0, and these rights at most.
    Endpoint {
        base: u64,
        badge: Badge,
        rights: Rights,
    },
    /// Capabilities to a CNode whose guard and radix take so many bits, or any number if it is 0.
    Node {
        base: u64,
        radix: u64,
        takes: u64,
    },
    /// The capability to a thread.
    Thread {
        base: u64,
    },
}

/// That it may stand in the slots of a set.
#[derive(Clone, Copy, PartialEq, Eq, Debug)]
pub struct MayStand {
    pub set: u64,
    pub what: Standing,
}

/// The threads whose root slots lie in a set: in which sets their words may end, in which at a CNode's capability, and which sets they
/// may fill and read.
#[derive(Drop)]
pub struct Caller {
    pub set: u64,
    pub names: Vec<u64>,
    pub nodes: Vec<u64>,
    pub fills: Vec<u64>,
}

/// What the tests say of a caller that look at what it names and fills alone, and not at its set.
#[derive(Clone, Copy)]
pub struct Verdict {
    pub goes_on: bool,
    pub puts_told: bool,
}

/// A flow: which set each address lies in, what may stand in the slots of each set, what callers name and fill, and who is trusted to
/// send and receive alone.
#[derive(Drop)]
pub struct Flows {
    pub memory: Vec<PartMemory>,
    pub standing: Vec<MayStand>,
    pub callers: Vec<Caller>,
    pub trusted: Vec<u64>,
}

/// The last address of a range; `None` if that is no word.
pub fn last_of(range: Range) -> Option<u64>
    ensures { result ≡ last_in range.first range.bits }
{
    if range.bits >= 64 {
        return None;
    }
    let more = (1u64 << range.bits) - 1;
    if range.first > u64::MAX - more {
        return None;
    }
    Some(range.first + more)
}

/// The set in which an address lies.
pub fn set_at(memory: &[PartMemory], address: u64) -> u64
    ensures { result ≡ spec.set_at memory.now address }
{
    part_at(memory, address).unwrap_or(0)
}

fn has_rights(most: Rights, few: Rights) -> bool
    ensures { result ≡ spec.has_rights most few }
{
    few.0 & most.0 == few.0
}

fn fits_badge(most: Badge, badge: Badge) -> bool
    ensures { result ≡ spec.fits_badge most badge }
{
    most.0 == badge.0 || most.0 == 0
}

/// Whether so many bits are those that are taken, or any may be.
fn fits_bits(most: u64, takes: u64) -> bool
    ensures { result ≡ spec.fits_bits most takes }
{
    most == takes || most == 0
}

/// Whether a stretch has none of some addresses.
pub fn misses(memory: &PartMemory, first: u64, last: u64) -> bool
    ensures { result ≡ spec.misses_range first last memory.now }
{
    memory.last < first || last < memory.first
}

fn has_all(memory: &PartMemory, first: u64, last: u64) -> bool
    ensures { result ≡ spec.has_range first last memory.now }
{
    memory.first <= first && last <= memory.last
}

pub fn are_in_one(memory: &[PartMemory], first: u64, last: u64) -> bool
    ensures { result ≡ list_any (spec.has_range first last) memory.now }
{
    for m in memory {
        if has_all(m, first, last) {
            return true;
        }
    }
    false
}

/// Whether it holds of the sets of all stretches that have some of these addresses.
fn each_holds<Q: Asks<u64>>(memory: &[PartMemory], question: &Q, first: u64, last: u64) -> bool
    ensures { result ≡ list_all (λ m. spec.misses_range first last m || Q.holds question.now m.part) memory.now }
{
    for m in memory {
        if !misses(m, first, last) && !question.holds(&m.part) {
            return false;
        }
    }
    true
}

/// Whether all addresses of a range lie in sets of which it holds.
fn lie_where<Q: Asks<u64>>(memory: &[PartMemory], question: &Q, range: Range) -> bool
    ensures { result ≡ spec.lie_where (Q.holds question.now) memory.now range.first (last_in range.first range.bits) }
{
    match last_of(range) {
        None => false,
        Some(last) => each_holds(memory, question, range.first, last)
            && are_in_one(memory, range.first, last),
    }
}

/// Whether a set is one of some.
#[derive(Clone, Copy)]
struct OneOf<'a> {
    sets: &'a [u64],
}

impl Asks<u64> for OneOf<'_> {
    ghost holds = { λ q set. spec.is_among q.sets.now set };

    fn holds(&self, set: &u64) -> bool {
        self.sets.contains(set)
    }
}

/// Whether the slots of what a standing stands for lie in some of these sets.
fn slots_lie<P: Profile>(memory: &[PartMemory], sets: &[u64], what: Standing) -> bool
    ensures { result ≡ spec.slots_lie P.profile memory.now sets.now what }
{
    match what {
        Standing::Region { base, bits } => {
            lie_where(memory, &OneOf { sets }, Range { first: base, bits })
        }
        Standing::Node { base, radix, .. } => {
            let bits = radix.saturating_add(P::SLOT_BITS as u64);
            lie_where(memory, &OneOf { sets }, Range { first: base, bits })
        }
        _ => true,
    }
}

/// Whether what stands in some sets has its slots in others.
fn lead_to<P: Profile>(memory: &[PartMemory], all: &[MayStand], from: &[u64], to: &[u64]) -> bool
    ensures { result ≡ spec.lead_to P.profile memory.now all.now from.now to.now }
{
    for s in all {
        if from.contains(&s.set) && !slots_lie::<P>(memory, to, s.what) {
            return false;
        }
    }
    true
}

fn begins<P: Profile>(memory: &[PartMemory], all: &[MayStand], caller: &Caller) -> bool
    ensures { result ≡ list_all (λ s. not (s.set == caller.now.set) || spec.slots_lie P.profile memory.now caller.now.names.items s.what) all.now }
{
    let names = caller.names.as_slice();
    for s in all {
        if s.set == caller.set && !slots_lie::<P>(memory, names, s.what) {
            return false;
        }
    }
    true
}

/// Whether a CNode that it stands for may take all bits of a word.
pub fn may_end<P: Profile>(what: Standing) -> bool
    ensures { result ≡ spec.may_end P.profile what }
{
    match what {
        Standing::Region { .. } => true,
        Standing::Node { takes, .. } => fits_bits(takes, P::WORD_BITS as u64),
        _ => false,
    }
}

/// Whether the roots of a caller that may take all bits of a word have their slots if its words may end at CNodes' capabilities.
fn ends_at_once<P: Profile>(memory: &[PartMemory], all: &[MayStand], caller: &Caller) -> bool
    ensures { result ≡ list_all (λ s. not (s.set == caller.now.set && spec.may_end P.profile s.what) || spec.slots_lie P.profile memory.now caller.now.nodes.items s.what) all.now }
{
    let nodes = caller.nodes.as_slice();
    for s in all {
        let may = s.set == caller.set && may_end::<P>(s.what);
        if may && !slots_lie::<P>(memory, nodes, s.what) {
            return false;
        }
    }
    true
}

/// Whether it is a CNode by which words end, or has no slots.
fn is_ending<P: Profile>(what: Standing) -> bool
    ensures { result ≡ spec.is_ending P.profile what }
{
    match what {
        Standing::Region { .. } => false,
        Standing::Node { takes, .. } => takes == P::WORD_BITS as u64,
        _ => true,
    }
}

pub fn are_ending<P: Profile>(all: &[MayStand], set: u64) -> bool
    ensures { result ≡ spec.are_ending P.profile all.now set }
{
    for s in all {
        if s.set == set && !is_ending::<P>(s.what) {
            return false;
        }
    }
    true
}

/// Whether words go on from what stands in the sets in which they end.
fn goes_on<P: Profile>(memory: &[PartMemory], all: &[MayStand], caller: &Caller) -> bool
    ensures { result ≡ spec.caller_goes_on P.profile memory.now all.now caller.now }
{
    let (names, nodes) = (caller.names.as_slice(), caller.nodes.as_slice());
    lead_to::<P>(memory, all, names, names) && lead_to::<P>(memory, all, names, nodes)
}

/// What a copy may make of it.
pub fn opened(what: Standing) -> Standing
    ensures { result ≡ spec.opened what }
{
    match what {
        Standing::Node { base, radix, .. } => Standing::Node {
            base,
            radix,
            takes: 0,
        },
        _ => what,
    }
}

/// Whether a range lies in another one.
fn within(all: Range, some: Range) -> bool
    ensures { result ≡ spec.within all.first all.bits some.first some.bits }
{
    match (last_of(some), last_of(all)) {
        (Some(last), Some(most)) => all.first <= some.first && last <= most,
        _ => false,
    }
}

/// Whether one stands for all that another stands for.
fn is_over(most: Standing, what: Standing) -> bool
    ensures { result ≡ spec.is_over most what }
{
    match (most, what) {
        (
            Standing::Region { base, bits },
            Standing::Untyped {
                base: first,
                bits: few,
            }
            | Standing::Region {
                base: first,
                bits: few,
            },
        ) => within(Range { first: base, bits }, Range { first, bits: few }),
        (
            Standing::Endpoint {
                base,
                badge,
                rights,
            },
            Standing::Endpoint {
                base: other,
                badge: some,
                rights: few,
            },
        ) => base == other && fits_badge(badge, some) && has_rights(rights, few),
        (
            Standing::Node { base, radix, takes },
            Standing::Node {
                base: other,
                radix: bits,
                takes: some,
            },
        ) => base == other && radix == bits && fits_bits(takes, some),
        (Standing::Untyped { .. }, Standing::Untyped { .. })
        | (Standing::Thread { .. }, Standing::Thread { .. }) => most == what,
        _ => false,
    }
}

pub fn has_over(all: &[MayStand], set: u64, what: Standing) -> bool
    ensures { result ≡ spec.has_over all.now set what }
{
    for s in all {
        if s.set == set && is_over(s.what, what) {
            return true;
        }
    }
    false
}

/// Whether each of some sets has it.
fn all_have(all: &[MayStand], sets: &[u64], what: Standing) -> bool
    ensures { result ≡ spec.all_have all.now sets.now what }
{
    for set in sets {
        if !has_over(all, *set, what) {
            return false;
        }
    }
    true
}

fn are_put(all: &[MayStand], caller: &Caller) -> bool
    ensures { result ≡ spec.are_put all.now caller.now }
{
    let fills = caller.fills.as_slice();
    for s in all {
        if fills.contains(&s.set) && !all_have(all, fills, opened(s.what)) {
            return false;
        }
    }
    true
}

/// Whether all that may be made of it stands in each of some sets.
fn is_made(all: &[MayStand], sets: &[u64], what: Standing) -> bool
    ensures { result ≡ spec.makes_what_may_stand all.now sets.now (spec.made_of what) }
{
    match what {
        Standing::Untyped { base, bits } | Standing::Region { base, bits } => {
            all_have(all, sets, Standing::Region { base, bits })
        }
        _ => true,
    }
}

fn are_made(all: &[MayStand], caller: &Caller) -> bool
    ensures { result ≡ spec.are_made all.now caller.now }
{
    let (names, fills) = (caller.names.as_slice(), caller.fills.as_slice());
    for s in all {
        if names.contains(&s.set) && !is_made(all, fills, s.what) {
            return false;
        }
    }
    true
}

pub fn has_slots(what: Standing) -> bool
    ensures { result ≡ spec.may_have_slots what }
{
    matches!(what, Standing::Region { .. } | Standing::Node { .. })
}

/// Whether each CNode to whose capability a caller's words may lead may be a root in a set.
fn roots_stand(all: &[MayStand], caller: &Caller, set: u64) -> bool
    ensures { result ≡ spec.roots_stand all.now caller.now set }
{
    let nodes = caller.nodes.as_slice();
    for s in all {
        let leads = nodes.contains(&s.set) && has_slots(s.what);
        if leads && !has_over(all, set, opened(s.what)) {
            return false;
        }
    }
    true
}

/// Whether each of these CNodes may be a root in a set.
#[derive(Clone, Copy)]
struct RootsIn<'a> {
    all: &'a [MayStand],
    caller: &'a Caller,
}

impl Asks<u64> for RootsIn<'_> {
    ghost holds = { λ q set. spec.roots_stand q.all.now q.caller.now set };

    fn holds(&self, set: &u64) -> bool {
        roots_stand(self.all, self.caller, *set)
    }
}

fn threads_get(memory: &[PartMemory], all: &[MayStand], caller: &Caller, what: Standing) -> bool
    ensures { result ≡ spec.threads_get memory.now all.now caller.now what }
{
    match what {
        Standing::Thread { base } => roots_stand(all, caller, set_at(memory, base)),
        Standing::Region { base, bits } => {
            lie_where(
                memory,
                &RootsIn { all, caller },
                Range { first: base, bits },
            )
        }
        _ => true,
    }
}

fn roots_set(memory: &[PartMemory], all: &[MayStand], caller: &Caller) -> bool
    ensures { result ≡ spec.roots_set memory.now all.now caller.now }
{
    let names = caller.names.as_slice();
    for s in all {
        if names.contains(&s.set) && !threads_get(memory, all, caller, s.what) {
            return false;
        }
    }
    true
}

/// Whether a caller fills no sets but those that it is said to, and what it puts anywhere is listed.
fn puts_told<P: Profile>(memory: &[PartMemory], all: &[MayStand], caller: &Caller) -> bool
    ensures { result ≡ private.puts_told P.profile memory.now all.now caller.now }
{
    let (nodes, fills) = (caller.nodes.as_slice(), caller.fills.as_slice());
    lead_to::<P>(memory, all, nodes, fills)
        && lead_to::<P>(memory, all, fills, fills)
        && are_put(all, caller)
        && are_made(all, caller)
        && roots_set(memory, all, caller)
}

fn verdict_on<P: Profile>(memory: &[PartMemory], all: &[MayStand], caller: &Caller) -> Verdict
    ensures { result ≡ private.verdict_on P.profile memory.now all.now caller.now }
{
    Verdict {
        goes_on: goes_on::<P>(memory, all, caller),
        puts_told: puts_told::<P>(memory, all, caller),
    }
}

/// Whether the threads of a caller's set do nothing that is not listed.
fn is_caller_settled<P: Profile>(
    memory: &[PartMemory],
    all: &[MayStand],
    caller: &Caller,
    verdict: Verdict,
) -> bool
    requires { verdict ≡ private.verdict_on P.profile memory.now all.now caller.now }
    ensures { result ≡ spec.is_caller_settled P.profile memory.now all.now caller.now }
{
    begins::<P>(memory, all, caller)
        && ends_at_once::<P>(memory, all, caller)
        && (are_ending::<P>(all, caller.set) || verdict.goes_on)
        && verdict.puts_told
}

/// Whether another caller names and fills the same sets.
fn is_alike(one: &Caller, other: &Caller) -> bool
    ensures { result ≡ private.is_alike one.now other.now }
{
    one.names.as_slice() == other.names.as_slice()
        && one.nodes.as_slice() == other.nodes.as_slice()
        && one.fills.as_slice() == other.fills.as_slice()
}

fn first_alike(callers: &[Caller], caller: &Caller) -> Option<usize>
    ensures { result ≡ position (private.is_alike caller.now) callers.now }
{
    for (place, other) in callers.iter().enumerate() {
        if is_alike(caller, other) {
            return Some(place);
        }
    }
    None
}

/// What is said of a caller: what is known of the first one that is alike, if that was looked at.
fn verdict_by<P: Profile>(
    memory: &[PartMemory],
    all: &[MayStand],
    callers: &[Caller],
    known: &[Verdict],
    caller: &Caller,
) -> Verdict
    requires { (n : ℕ) × (known.now ≡ map (private.verdict_on P.profile memory.now all.now) (take n callers.now)) }
    ensures { result ≡ private.verdict_on P.profile memory.now all.now caller.now }
{
    if let Some(place) = first_alike(callers, caller) {
        if let Some(verdict) = known.get(place) {
            return *verdict;
        }
    }
    verdict_on::<P>(memory, all, caller)
}

/// Whether each caller is settled, in their order. Those that name and fill the same sets differ by their roots alone.
fn settled_callers<P: Profile>(
    alloc: Global,
    memory: &[PartMemory],
    all: &[MayStand],
    callers: &[Caller],
) -> Result<Vec<bool>, AllocError>
    ensures { IfOk result (λ settled. settled.items ≡ map (spec.is_caller_settled P.profile memory.now all.now) callers.now) }
{
    let mut known = Vec::new(alloc);
    let mut settled = Vec::new(alloc);
    for caller in callers {
        let verdict = verdict_by::<P>(memory, all, callers, known.as_slice(), caller);
        known.push(verdict)?;
        settled.push(is_caller_settled::<P>(memory, all, caller, verdict))?;
    }
    Ok(settled)
}

pub fn caller_of(callers: &[Caller], set: u64) -> Option<&Caller>
    ensures { option_copied result ≡ spec.caller_of callers.entry.now set }
{
    for caller in callers {
        if caller.set == set {
            return Some(caller);
        }
    }
    None
}

fn is_set_settled<P: Profile>(
    memory: &[PartMemory],
    all: &[MayStand],
    callers: &[Caller],
    set: u64,
) -> bool
    ensures { result ≡ spec.is_set_settled P.profile memory.now all.now (spec.caller_of callers.now set) }
{
    match caller_of(callers, set) {
        None => false,
        Some(caller) => {
            let verdict = verdict_on::<P>(memory, all, caller);
            is_caller_settled::<P>(memory, all, caller, verdict)
        }
    }
}

pub fn is_thread_settled<P: Profile>(flows: &Flows, thread: u64) -> bool
    ensures { result ≡ spec.is_set_settled P.profile flows.now.memory.items flows.now.standing.items (spec.caller_of flows.now.callers.items (spec.set_at flows.now.memory.items thread)) }
{
    let (memory, all) = (flows.memory.as_slice(), flows.standing.as_slice());
    let set = set_at(memory, thread);
    is_set_settled::<P>(memory, all, flows.callers.as_slice(), set)
}

fn place_of(callers: &[Caller], set: u64) -> Option<usize>
    ensures { result ≡ position (λ k. k.set == set) callers.now }
{
    for (place, caller) in callers.iter().enumerate() {
        if caller.set == set {
            return Some(place);
        }
    }
    None
}

/// Whether the caller of a set is settled, by what is known of each caller.
#[derive(Clone, Copy)]
struct KnownSettled<'a> {
    callers: &'a [Caller],
    settled: &'a [bool],
}

impl Asks<u64> for KnownSettled<'_> {
    ghost holds = { λ q set. private.is_known_settled q.callers.now q.settled.now set };

    fn holds(&self, set: &u64) -> bool {
        match place_of(self.callers, *set) {
            None => false,
            Some(place) => self.settled.get(place).copied().unwrap_or(false),
        }
    }
}

/// Whether the threads that something stands for are trusted, or do nothing that is not listed.
fn are_threads_settled(
    memory: &[PartMemory],
    known: &KnownSettled,
    trusted: &[u64],
    what: Standing,
) -> bool
    ensures { result ≡ private.are_threads_settled memory.now known.now.callers.now known.now.settled.now trusted.now what }
{
    match what {
        Standing::Thread { base } => {
            trusted.contains(&base) || known.holds(&set_at(memory, base))
        }
        Standing::Region { base, bits } => { lie_where(memory, known, Range { first: base, bits }) }
        _ => true,
    }
}

fn stand_settled(
    memory: &[PartMemory],
    known: &KnownSettled,
    trusted: &[u64],
    all: &[MayStand],
) -> bool
    ensures { result ≡ list_all (λ s. private.are_threads_settled memory.now known.now.callers.now known.now.settled.now trusted.now s.what) all.now }
{
    for s in all {
        if !are_threads_settled(memory, known, trusted, s.what) {
            return false;
        }
    }
    true
}

/// Whether the threads that may stand anywhere are trusted, or do nothing that is not listed. Each caller is tested once.
fn is_settled<P: Profile>(alloc: Global, flows: &Flows) -> Result<bool, AllocError>
    ensures { IfOk result (λ is. is ≡ spec.is_settled P.profile flows.now.memory.items flows.now.standing.items flows.now.callers.items flows.now.trusted.items) }
{
    let (memory, all) = (flows.memory.as_slice(), flows.standing.as_slice());
    let (callers, trusted) = (flows.callers.as_slice(), flows.trusted.as_slice());
    let settled = settled_callers::<P>(alloc, memory, all, callers)?;
    let settled = settled.as_slice();
    Ok(stand_settled(memory, &KnownSettled { callers, settled }, trusted, all))
}

/// Whether something stands for a capability.
pub fn covers<P: Profile>(what: Standing, cap: Cap) -> bool
    ensures { result ≡ spec.stands_for_cap P.profile what cap }
{
    match (what, cap) {
        (
            Standing::Untyped { base, bits },
            Cap::Untyped {
                base: other,
                bits: few,
                ..
            },
        ) => base == other && bits == few as u64,
        (Standing::Region { base, bits }, _) => {
            let Some(range) = range_of::<P>(cap) else {
                return within(Range { first: base, bits }, Range { first: 0, bits: 0 });
            };
            within(Range { first: base, bits }, range)
        }
        (
            Standing::Endpoint {
                base,
                badge,
                rights,
            },
            Cap::Endpoint {
                base: other,
                badge: some,
                rights: few,
            },
        ) => { base == other && fits_badge(badge, some) && has_rights(rights, few) }
        (
            Standing::Node { base, radix, takes },
            Cap::CNode {
                base: other,
                radix: bits,
                guard,
            },
        ) => {
            base == other
                && radix == bits as u64
                && fits_bits(takes, guard.size as u64 + bits as u64)
        }
        (Standing::Thread { base }, Cap::Tcb { base: other }) => base == other,
        _ => false,
    }
}

fn is_null(cap: Cap) -> bool
    ensures { result ≡ null cap }
{
    matches!(cap, Cap::Null)
}

fn has_one_for<P: Profile>(all: &[MayStand], set: u64, cap: Cap) -> bool
    ensures { result ≡ list_any (spec.may_in P.profile set cap) all.now }
{
    for s in all {
        if s.set == set && covers::<P>(s.what, cap) {
            return true;
        }
    }
    false
}

/// Whether a capability may stand in a set.
fn may_stand<P: Profile>(all: &[MayStand], set: u64, cap: Cap) -> bool
    ensures { result ≡ spec.may_stand P.profile all.now set cap }
{
    is_null(cap) || has_one_for::<P>(all, set, cap)
}

fn is_slot_told<P: Profile>(flows: &Flows, slot: u64, cap: Cap) -> bool
    ensures { result ≡ spec.may_stand P.profile flows.now.standing.items (spec.set_at flows.now.memory.items slot) cap }
{
    let set = set_at(flows.memory.as_slice(), slot);
    may_stand::<P>(flows.standing.as_slice(), set, cap)
}

fn is_told<P: Profile>(flows: &Flows, derivation: &Derivation) -> bool
    ensures { result ≡ spec.is_entry_told P.profile flows.now.memory.items flows.now.standing.items (derivation_view P.profile derivation.now).0 }
{
    let slot = derivation.slot.address::<P>();
    is_slot_told::<P>(flows, slot, derivation.cap)
}

fn are_told<P: Profile>(flows: &Flows, derivations: &[Derivation]) -> bool
    ensures { result ≡ list_all (λ d. spec.is_entry_told P.profile flows.now.memory.items flows.now.standing.items (derivation_view P.profile d).0) derivations.now }
{
    derivations.iter().all(|d| is_told::<P>(flows, d))
}

/// Whether a flow is settled, and tells what the slots of a kernel hold. If it is so, it stays so, whatever calls threads make that
/// are not trusted, and whatever others send and receive.
pub fn is_flow<P: Profile, S: DerivationStore<P> + Drop, W: Waiters<P> + Drop>(
    alloc: Global,
    kernel: &Kernel<P, S, W>,
    flows: &Flows,
) -> Result<bool, AllocError>
    ensures test { IfOk result (λ is. is ≡ true → spec.IsFlow P.profile flows.now kernel.now) }
    ensures ever { IfOk result (λ is. is ≡ true → IsFlowEver P.profile (spec.flow_of_lists P.profile flows.now) kernel.now) }
{
    let derivations = kernel.derivations(alloc)?;
    let settled = is_settled::<P>(alloc, flows)?;
    Ok(settled && are_told::<P>(flows, derivations.as_slice()))
}
