//! The first slot of some parts with a capability that is looked for, and the first of their threads that waits.
ghost use Rattle.std.specs.Prelude.{◌≡◌, ◌==◌};
ghost use Rattle.command_policy_places.specs.Places as spec;

use crate::places::Place;
use bitflags::Flags;
use cap_core::{Badge, Cap, Rights};
use command_parts::PartSlot;
use command_policy_breaches::{Block, Layout, Waiting};
use list_questions::{Asks, first};
use query_parts::{PartMemory, part_at};

/// What can be done on an endpoint.
#[derive(Clone, Copy)]
pub enum Action {
    /// To send with a badge.
    Send(u64),
    Receive,
    /// To send with Grant, and so to hand over capabilities.
    Give,
    /// To receive with Grant, and so to answer with capabilities.
    Answer,
    /// To send with Grant or GrantReply, and so to be answered with capabilities.
    Call,
}

/// What capability is looked for.
#[derive(Clone, Copy)]
pub enum Wanted {
    /// Just this one to an endpoint.
    Use(u64, Badge, Rights),
    /// This untyped region: its address, and the bits of its size.
    Region(u64, u32),
    /// A thread, or a region in which its control block lies.
    Thread(u64),
    /// One by which something can be done on an endpoint.
    Doing(Action, u64),
    /// A region in which an endpoint lies.
    Around(u64),
}

fn lets_do(action: Action, badge: Badge, rights: Rights) -> bool
    ensures { result ≡ spec.lets_do action badge rights }
{
    let grants = rights.contains(Rights::GRANT);
    match action {
        Action::Send(sent) => rights.contains(Rights::WRITE) && badge.0 == sent,
        Action::Receive => rights.contains(Rights::READ),
        Action::Give => rights.contains(Rights::WRITE) && grants,
        Action::Answer => rights.contains(Rights::READ) && grants,
        Action::Call => {
            rights.contains(Rights::WRITE) && (grants || rights.contains(Rights::GRANT_REPLY))
        }
    }
}

/// Whether an address is one of 2^`bits` from the first on.
pub fn lies_in(first: u64, bits: u32, address: u64) -> bool
    ensures { result ≡ spec.lies_in first bits address }
{
    first <= address && (bits >= 64 || address - first < 1 << bits)
}

impl Wanted {
    /// Whether a capability is looked for.
    fn is(self, cap: Cap) -> bool
        ensures { result ≡ spec.is_wanted self cap }
    {
        match (self, cap) {
            (
                Wanted::Use(endpoint, badge, rights),
                Cap::Endpoint {
                    base,
                    badge: b,
                    rights: r,
                },
            ) => base == endpoint && b.0 == badge.0 && r.0 == rights.0,
            (
                Wanted::Region(base, bits),
                Cap::Untyped {
                    base: first,
                    bits: size,
                    ..
                },
            ) => first == base && size == bits,
            (Wanted::Thread(thread), Cap::Tcb { base }) => base == thread,
            (Wanted::Thread(thread), Cap::Untyped { base, bits, .. }) => {
                lies_in(base, bits, thread)
            }
            (
                Wanted::Doing(action, endpoint),
                Cap::Endpoint {
                    base,
                    badge,
                    rights,
                },
            ) => base == endpoint && lets_do(action, badge, rights),
            (Wanted::Around(endpoint), Cap::Untyped { base, bits, .. }) => {
                lies_in(base, bits, endpoint)
            }
            _ => false,
        }
    }
}

#[derive(Clone, Copy)]
struct OfPart(u64);

impl Asks<Block> for OfPart {
    ghost holds = { λ q block. block.part == q.0 };

    fn holds(&self, block: &Block) -> bool {
        block.part == self.0
    }
}

/// Whether a part has a number, which is that of the parts with which it is joined, or else its own.
pub fn is_of(blocks: &[Block], number: u64, part: Option<u64>) -> bool
    ensures { result ≡ spec.is_of blocks.now number part }
{
    match part {
        None => false,
        Some(part) => match first(blocks, &OfPart(part)) {
            None => part == number,
            Some(found) => found.block == number,
        },
    }
}

/// Whether a slot lies in parts that have a number, and has what is looked for.
#[derive(Clone, Copy)]
struct Found<'a> {
    blocks: &'a [Block],
    number: u64,
    wanted: Wanted,
}

impl Asks<PartSlot> for Found<'_> {
    ghost holds = { λ q slot. spec.is_found q.blocks.now q.number q.wanted slot };

    fn holds(&self, slot: &PartSlot) -> bool {
        is_of(self.blocks, self.number, slot.part) && self.wanted.is(slot.cap)
    }
}

/// Whether a thread of parts that have a number waits on an endpoint to do something.
#[derive(Clone, Copy)]
struct WaitFor<'a> {
    memory: &'a [PartMemory],
    blocks: &'a [Block],
    number: u64,
    action: Action,
    endpoint: u64,
}

impl Asks<Waiting> for WaitFor<'_> {
    ghost holds = { λ q wait. spec.is_wait_for q.memory.now q.blocks.now q.number q.action q.endpoint wait };

    fn holds(&self, wait: &Waiting) -> bool {
        wait.endpoint == self.endpoint
            && is_of(self.blocks, self.number, part_at(self.memory, wait.thread))
            && match self.action {
                Action::Send(badge) => wait.sends && wait.badge == badge,
                Action::Receive => !wait.sends,
                Action::Give | Action::Answer | Action::Call => false,
            }
    }
}

/// The first slot of parts that have a number, by address, with a capability that is looked for.
pub fn first_slot(
    slots: &[PartSlot],
    blocks: &[Block],
    number: u64,
    wanted: Wanted,
) -> Option<Place>
    ensures { result ≡ spec.first_slot slots.now blocks.now number wanted }
{
    let question = Found {
        blocks,
        number,
        wanted,
    };
    match first(slots, &question) {
        None => None,
        Some(found) => Some(Place::Slot(found.slot)),
    }
}

/// By what parts that have a number can do something on an endpoint: the first slot with such a capability to it; else the first with a
/// region in which it lies; else the first thread that waits to do so.
pub fn end_at(
    layout: &Layout,
    slots: &[PartSlot],
    blocks: &[Block],
    number: u64,
    action: Action,
    endpoint: u64,
) -> Option<Place>
    ensures { result ≡ spec.end_at layout.now slots.now blocks.now number action endpoint }
{
    if let Some(place) = first_slot(slots, blocks, number, Wanted::Doing(action, endpoint)) {
        return Some(place);
    }
    if let Some(place) = first_slot(slots, blocks, number, Wanted::Around(endpoint)) {
        return Some(place);
    }
    let question = WaitFor {
        memory: layout.memory.as_slice(),
        blocks,
        number,
        action,
        endpoint,
    };
    match first(layout.waits.as_slice(), &question) {
        None => None,
        Some(wait) => Some(Place::Thread(wait.thread)),
    }
}
