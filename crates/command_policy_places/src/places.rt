//! The places of each kind of breach.
ghost use Rattle.std.specs.Prelude.{◌≡◌, ◌++◌, ◌==◌, [], IfOk, OnOk, length, option_copied};
ghost use Rattle.command_policy_places.specs.Places as spec;

use crate::known::Sites;
use crate::searches::{Action, Wanted, end_at, first_slot, is_of};
use command_parts::{PartSlot, Take};
use command_policy_breaches::{HeldRegion, Hold, Join, Layout, Passage, Waiting};
use list_questions::{Asks, first};
use query_parts::PartUse;
use setup_policy::{Member, Policy};
use std::alloc::{AllocError, Global};

/// Where something comes from.
#[derive(Clone, Copy)]
pub enum Place {
    /// A slot, by its address.
    Slot(u64),
    /// A thread that waits.
    Thread(u64),
    /// A slot, and one above it.
    Under { slot: u64, above: u64 },
}

/// What a place is of a breach.
#[derive(Clone, Copy)]
pub enum Role {
    /// The one that there is.
    Alone,
    /// That of the one end.
    From,
    /// That of the other end.
    To,
}

/// A place of a breach.
#[derive(Clone, Copy)]
pub struct Sited {
    pub role: Role,
    pub place: Place,
}

fn add_sited(places: &mut Vec<Sited>, role: Role, place: Option<Place>) -> Result<(), AllocError>
    ensures { OnOk result (places.new.items ≡ places.old.items ++ spec.sited role place) }
{
    if let Some(place) = place {
        places.push(Sited { role, place })?;
    }
    Ok(())
}

fn alone(alloc: Global, place: Option<Place>) -> Result<Vec<Sited>, AllocError>
    ensures { IfOk result (λ v. v.items ≡ spec.sited Role.Alone place) }
{
    let mut places = Vec::new(alloc);
    add_sited(&mut places, Role::Alone, place)?;
    Ok(places)
}

fn from_and_to(
    alloc: Global,
    from: Option<Place>,
    to: Option<Place>,
) -> Result<Vec<Sited>, AllocError>
    ensures { IfOk result (λ v. v.items ≡ spec.from_and_to from to) }
{
    let mut places = Vec::new(alloc);
    add_sited(&mut places, Role::From, from)?;
    add_sited(&mut places, Role::To, to)?;
    Ok(places)
}

/// Whether a trusted thread has a number in the policy.
#[derive(Clone, Copy)]
struct ActorOf(u64);

impl Asks<Member> for ActorOf {
    ghost holds = { λ q trusted. trusted.actor == q.0 };

    fn holds(&self, trusted: &Member) -> bool {
        trusted.actor == self.0
    }
}

fn actor_place(policy: &Policy, actor: u64) -> Option<Place>
    ensures { result ≡ spec.actor_place policy.now actor }
{
    match first(policy.silent.as_slice(), &ActorOf(actor)) {
        None => None,
        Some(trusted) => Some(Place::Thread(trusted.thread)),
    }
}

/// Whether a slot has an address.
#[derive(Clone, Copy)]
struct AtAddress(u64);

impl Asks<PartSlot> for AtAddress {
    ghost holds = { λ q slot. slot.slot == q.0 };

    fn holds(&self, slot: &PartSlot) -> bool {
        slot.slot == self.0
    }
}

fn slot_above(slots: &[PartSlot], above: Option<u64>) -> Option<&PartSlot>
    ensures { option_copied result ≡ spec.slot_above slots.entry.now above }
{
    first(slots, &AtAddress(above?))
}

/// The nearest slot of a part, from one on and then up, each time to the slot that it stands right below.
fn nearest(slots: &[PartSlot], part: u64, from: Option<u64>) -> Option<u64>
    ensures { result ≡ spec.nearest slots.now part (length slots.now) from }
{
    let mut above = from;
    for _ in 0..slots.len() {
        let slot = slot_above(slots, above)?;
        if is_of(&[], part, slot.part) {
            return Some(slot.slot);
        }
        above = slot.above;
    }
    None
}

/// A slot of the part that is taken from, with the nearest slot of the other above it.
fn place_under(slots: &[PartSlot], take: &Take, below: &PartSlot) -> Option<Place>
    ensures { result ≡ spec.place_under slots.now take.now below.now }
{
    if !is_of(&[], take.of, below.part) {
        return None;
    }
    let above = nearest(slots, take.by, below.above)?;
    let slot = below.slot;
    Some(Place::Under { slot, above })
}

fn first_under(slots: &[PartSlot], take: &Take) -> Option<Place>
    ensures { result ≡ spec.first_under slots.now take.now slots.now }
{
    for slot in slots {
        let place = place_under(slots, take, slot);
        if place.is_some() {
            return place;
        }
    }
    None
}

impl Sites {
    /// The first slot of a part with a capability that is looked for.
    fn in_part(&self, alloc: Global, part: u64, wanted: Wanted) -> Result<Vec<Sited>, AllocError>
        ensures { IfOk result (λ v. v.items ≡ spec.sited Role.Alone (spec.first_slot self.now.slots.items [] part wanted)) }
    {
        alone(alloc, first_slot(self.slots.as_slice(), &[], part, wanted))
    }

    /// Of a use, of its badge, and of its rights: the first slot of the part that holds just this capability.
    pub fn of_use(&self, alloc: Global, used: &PartUse) -> Result<Vec<Sited>, AllocError>
        ensures { IfOk result (λ v. v.items ≡ spec.places_of_use self.now.slots.items used.now) }
    {
        let wanted = Wanted::Use(used.endpoint, used.badge, used.rights);
        self.in_part(alloc, used.part, wanted)
    }

    /// Of a region: the first slot of the part that holds just this region.
    pub fn of_region(&self, alloc: Global, region: &HeldRegion) -> Result<Vec<Sited>, AllocError>
        ensures { IfOk result (λ v. v.items ≡ spec.places_of_region self.now.slots.items region.now) }
    {
        let wanted = Wanted::Region(region.base, region.bits);
        self.in_part(alloc, region.part, wanted)
    }

    /// Of a hold of a trusted thread: the first slot of the part whose object has the thread's control block.
    pub fn of_hold(&self, alloc: Global, hold: &Hold) -> Result<Vec<Sited>, AllocError>
        ensures { IfOk result (λ v. v.items ≡ spec.places_of_hold self.now.slots.items hold.now) }
    {
        let wanted = Wanted::Thread(hold.thread);
        self.in_part(alloc, hold.part, wanted)
    }

    /// By what the sender of a passage sends: its part, or the trusted thread.
    fn sender(&self, policy: &Policy, layout: &Layout, passage: &Passage) -> Option<Place>
        ensures { result ≡ spec.passage_from policy.now layout.now self.now.slots.items passage.now }
    {
        let Passage {
            from,
            part,
            endpoint,
            badge,
            ..
        } = *passage;
        if from.is_part {
            let action = Action::Send(badge);
            end_at(layout, self.slots.as_slice(), &[], part, action, endpoint)
        } else {
            actor_place(policy, from.number)
        }
    }

    /// By what the receivers of a passage receive: the parts that have a number, or the trusted thread.
    fn receiver(&self, policy: &Policy, layout: &Layout, passage: &Passage) -> Option<Place>
        ensures { result ≡ spec.passage_to policy.now layout.now self.now.blocks.items self.now.slots.items passage.now }
    {
        let Passage { endpoint, to, .. } = *passage;
        let (slots, blocks) = (self.slots.as_slice(), self.blocks.as_slice());
        if to.is_part {
            end_at(layout, slots, blocks, to.number, Action::Receive, endpoint)
        } else {
            actor_place(policy, to.number)
        }
    }

    /// Of a passage: by what its sender sends, and by what its receivers receive.
    pub fn of_passage(
        &self,
        alloc: Global,
        policy: &Policy,
        layout: &Layout,
        passage: &Passage,
    ) -> Result<Vec<Sited>, AllocError>
        ensures { IfOk result (λ v. v.items ≡ spec.places_of_passage policy.now layout.now self.now.blocks.items self.now.slots.items passage.now) }
    {
        let from = self.sender(policy, layout, passage);
        let to = self.receiver(policy, layout, passage);
        from_and_to(alloc, from, to)
    }

    /// Of a join: by what the one part sends with Grant and the other receives; where that is not so, by what the one receives with Grant,
    /// and so answers, and the other sends with Grant or GrantReply.
    pub fn of_join(
        &self,
        alloc: Global,
        layout: &Layout,
        join: &Join,
    ) -> Result<Vec<Sited>, AllocError>
        ensures { IfOk result (λ v. v.items ≡ spec.places_of_join layout.now self.now.slots.items join.now) }
    {
        let Join { from, endpoint, to } = *join;
        let slots = self.slots.as_slice();
        let sent = end_at(layout, slots, &[], from, Action::Give, endpoint);
        let received = end_at(layout, slots, &[], to, Action::Receive, endpoint);
        if sent.is_some() && received.is_some() {
            return from_and_to(alloc, sent, received);
        }
        let answered = end_at(layout, slots, &[], from, Action::Answer, endpoint);
        let called = end_at(layout, slots, &[], to, Action::Call, endpoint);
        from_and_to(alloc, answered, called)
    }

    /// Of a thread that waits: itself.
    pub fn of_wait(&self, alloc: Global, wait: &Waiting) -> Result<Vec<Sited>, AllocError>
        ensures { IfOk result (λ v. v.items ≡ spec.places_of_wait wait.now) }
    {
        alone(alloc, Some(Place::Thread(wait.thread)))
    }

    /// Of a take: the first slot of the part that is taken from below one of the other, and the nearest of that one's above it.
    pub fn of_take(&self, alloc: Global, take: &Take) -> Result<Vec<Sited>, AllocError>
        ensures { IfOk result (λ v. v.items ≡ spec.places_of_take self.now.slots.items take.now) }
    {
        alone(alloc, first_under(self.slots.as_slice(), take))
    }
}
