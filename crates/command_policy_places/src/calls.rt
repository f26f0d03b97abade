//! The calls of a set-up that filled slots, and those by which threads wait.
ghost use Rattle.std.specs.Prelude.{◌≡◌, ◌≤◌, ◌==◌, IfOk, length, map, option_copied};
ghost use Rattle.std.specs.List.{flat_map};
ghost use Rattle.kernel_abstract.specs.Plan.{IsPlan};
ghost use Rattle.command_policy_places.specs.Places as spec;

use crate::places::{Place, Sited};
use cap_core::{Cap, Profile};
use ipc_core::{MakeWaiters, Waiters};
use kernel_core::{Call, Kernel, Reply};
use list_questions::{Adds, Asks, add_all, first};
use setup_format::Setup;
use slot_core::{CapStore, MakeStore};
use std::alloc::{AllocError, Global};

/// A slot, whether it is full behind the first calls of a set-up, and the number of the last of these that found it empty and left it
/// full.
#[derive(Clone, Copy)]
pub struct Fill {
    pub slot: u64,
    pub is_full: bool,
    pub call: Option<usize>,
}

impl Fill {
    /// The same behind one call more, by whether the slot is full there.
    fn behind(self, made: usize, is_full: bool) -> Fill
        ensures { result ≡ spec.filled_more made is_full self }
    {
        let Fill { slot, call, .. } = self;
        let call = if !self.is_full && is_full {
            Some(made)
        } else {
            call
        };
        Fill {
            slot,
            is_full,
            call,
        }
    }
}

fn is_full<P: Profile, S: CapStore<P> + Drop, W: Waiters<P> + Drop>(
    kernel: &Kernel<P, S, W>,
    slot: u64,
) -> bool
    ensures { result ≡ spec.is_full_in kernel.now.derivations slot }
{
    !matches!(kernel.cap_at(slot), Cap::Null)
}

/// Looks at slots before any call.
fn first_look<P: Profile, S: CapStore<P> + Drop, W: Waiters<P> + Drop>(
    alloc: Global,
    kernel: &Kernel<P, S, W>,
    slots: &[u64],
) -> Result<Vec<Fill>, AllocError>
    ensures { IfOk result (λ v. v.items ≡ map (spec.first_looked_at kernel.now.derivations) slots.now) }
{
    let mut fills = Vec::with_capacity(alloc, slots.len())?;
    for slot in slots {
        let slot = *slot;
        let is_full = is_full::<P, S, W>(kernel, slot);
        fills.push(Fill {
            slot,
            is_full,
            call: None,
        })?;
    }
    Ok(fills)
}

/// Looks at slots behind so many calls.
fn look<P: Profile, S: CapStore<P> + Drop, W: Waiters<P> + Drop>(
    alloc: Global,
    kernel: &Kernel<P, S, W>,
    made: usize,
    before: &[Fill],
) -> Result<Vec<Fill>, AllocError>
    ensures { IfOk result (λ v. v.items ≡ map (spec.looked_at made kernel.now.derivations) before.now) }
{
    let mut fills = Vec::with_capacity(alloc, before.len())?;
    for fill in before {
        let is_full = is_full::<P, S, W>(kernel, fill.slot);
        fills.push(fill.behind(made, is_full))?;
    }
    Ok(fills)
}

/// Of each of some slots, whether it is full behind the first calls of a set-up, and which of them filled it. The calls are made once,
/// and behind each these slots alone are looked at.
pub fn fills<P: Profile, S: MakeStore<P>, W: MakeWaiters<P>>(
    alloc: Global,
    setup: &Setup,
    made: usize,
    slots: &[u64],
) -> Result<Vec<Fill>, AllocError>
    requires plan { IsPlan P.profile setup.now.plan }
    requires made { made ≤ length setup.now.calls }
    ensures { IfOk result (λ v. v.items ≡ map (spec.fill_of P.profile setup.now made) slots.now) }
{
    let mut kernel = Kernel::<P, S, W>::boot(alloc, setup.plan())?;
    let mut fills = first_look::<P, S, W>(alloc, &kernel, slots)?;
    for i in 0..made {
        kernel.step(setup.calls()[i]);
        let next = look::<P, S, W>(alloc, &kernel, i + 1, fills.as_slice())?;
        fills = next;
    }
    Ok(fills)
}

#[derive(Clone, Copy)]
struct SlotsNamed;

impl Adds<Sited, u64> for SlotsNamed {
    ghost added = { λ a sited. spec.slots_named sited };

    fn add(&self, _alloc: Global, slots: &mut Vec<u64>, sited: &Sited) -> Result<(), AllocError> {
        match sited.place {
            Place::Slot(slot) => {
                slots.push(slot)?;
                Ok(())
            }
            Place::Thread(_) => Ok(()),
            Place::Under { slot, above } => {
                slots.push(slot)?;
                slots.push(above)?;
                Ok(())
            }
        }
    }
}

/// The slots that places name, in their order.
pub fn slots_named(alloc: Global, places: &[Sited]) -> Result<Vec<u64>, AllocError>
    ensures { IfOk result (λ v. v.items ≡ flat_map spec.slots_named places.now) }
{
    let mut slots = Vec::new(alloc);
    add_all(alloc, &mut slots, places, &SlotsNamed)?;
    Ok(slots)
}

#[derive(Clone, Copy)]
struct OfSlot(u64);

impl Asks<Fill> for OfSlot {
    ghost holds = { λ q fill. fill.slot == q.0 };

    fn holds(&self, fill: &Fill) -> bool {
        fill.slot == self.0
    }
}

/// A place of a breach, with the number of the call that filled its slot, or by which its thread waits, and the number of the call that
/// filled the slot above; `None` where no call did it, but boot.
#[derive(Clone, Copy)]
pub struct PlaceCalls {
    pub sited: Sited,
    pub call: Option<usize>,
    pub above: Option<usize>,
}

/// Whether a call is one of a thread, and was answered by waiting.
fn is_wait_of(call: Option<&Call>, reply: Option<&Reply>, thread: u64) -> bool
    ensures { result ≡ spec.is_wait_of thread (option_copied call.entry) (option_copied reply.entry) }
{
    match (call, reply) {
        (Some(call), Some(Reply::Waiting)) => call.thread == thread,
        _ => false,
    }
}

/// The first calls of a set-up, how many they are, what they were answered, and which of them filled some slots.
#[derive(Clone, Copy)]
pub struct FirstCalls<'a> {
    pub setup: &'a Setup,
    pub made: usize,
    pub replies: &'a [Reply],
    pub fills: &'a [Fill],
}

impl FirstCalls<'_> {
    /// The number of the last of the calls that found a slot empty and left it full. They are made again where nothing is known of it.
    pub fn filled_by<P: Profile, S: MakeStore<P>, W: MakeWaiters<P>>(
        self,
        alloc: Global,
        slot: u64,
    ) -> Result<Option<usize>, AllocError>
        requires plan { IsPlan P.profile self.setup.now.plan }
        requires made { self.made ≤ length self.setup.now.calls }
        requires fills { spec.AreFills P.profile self.setup.now self.made self.fills.now }
        ensures { IfOk result (λ call. call ≡ spec.filled_by P.profile self.entry.setup.now self.entry.made slot) }
    {
        if let Some(fill) = first(self.fills, &OfSlot(slot)) {
            return Ok(fill.call);
        }
        let fills = fills::<P, S, W>(alloc, self.setup, self.made, &[slot])?;
        match fills.as_slice().first() {
            None => Ok(None),
            Some(fill) => Ok(fill.call),
        }
    }

    /// The number of the last call of a thread that was answered by waiting.
    #[tactic(auto, using(crate::proofs::Behind::waited_next))]
    pub fn waits_since(self, thread: u64) -> Option<usize>
        ensures { result ≡ spec.waits_since self.entry.setup.now.calls self.entry.replies.now thread }
    {
        let mut since = None;
        for i in 0..self.replies.len() {
            if is_wait_of(self.setup.calls().get(i), self.replies.get(i), thread) {
                since = Some(i + 1);
            }
        }
        since
    }

    /// A place with its calls.
    pub fn of_place<P: Profile, S: MakeStore<P>, W: MakeWaiters<P>>(
        self,
        alloc: Global,
        sited: Sited,
    ) -> Result<PlaceCalls, AllocError>
        requires plan { IsPlan P.profile self.setup.now.plan }
        requires made { self.made ≤ length self.setup.now.calls }
        requires fills { spec.AreFills P.profile self.setup.now self.made self.fills.now }
        ensures { IfOk result (λ calls. calls ≡ spec.place_calls
            (spec.filled_by P.profile self.entry.setup.now self.entry.made) (spec.waits_since self.entry.setup.now.calls self.entry.replies.now) sited) }
    {
        match sited.place {
            Place::Slot(slot) => {
                let call = self.filled_by::<P, S, W>(alloc, slot)?;
                let above = None;
                Ok(PlaceCalls { sited, call, above })
            }
            Place::Thread(thread) => {
                let call = self.waits_since(thread);
                let above = None;
                Ok(PlaceCalls { sited, call, above })
            }
            Place::Under { slot, above } => {
                let call = self.filled_by::<P, S, W>(alloc, slot)?;
                let above = self.filled_by::<P, S, W>(alloc, above)?;
                Ok(PlaceCalls { sited, call, above })
            }
        }
    }
}
