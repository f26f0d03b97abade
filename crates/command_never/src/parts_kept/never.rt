//! Whether one part is kept from another, but for the endpoints that are named.
ghost use Rattle.std.specs.Prelude.{◌≡◌, ℕ, IfOk, filter};
ghost use Rattle.cap_core.specs.Numbers.{endpoint_size as endpoint_size_of};
ghost use Rattle.query_parts.specs.declared.keyed.UseKey.TheVariants as UseKeyOf;
ghost use Rattle.query_parts.specs.Keyed.{AreByKey, has_key};
ghost use Rattle.query_parts.specs.Listed as listed;
ghost use Rattle.command_never.specs.Never as spec;

use crate::parts_kept::waits::Wait;
use cap_core::Profile;
use command_parts::{has_use_to_receive, has_use_to_send, is_in, is_of_part, rising, uses_on};
use list_questions::{Asks, any};
use query_parts::{PartMemory, PartUse, UseKey, part_at, uses_by_key};
use std::alloc::{AllocError, Global};

/// Whether a thread's part is kept from another's, whatever calls threads make that are not trusted to make no more.
#[derive(Clone, Copy, PartialEq, Eq, Debug, Drop)]
pub enum Never {
    /// The part never gets a capability to an object that has bytes in the other's memory, and no message of it is ever
    /// delivered there, but by the endpoints that are named.
    Excluded,
    /// The parts do not exclude it, but flows do: no message of the thread is ever delivered to the other, but by the endpoints that
    /// are named, and no word of it ever leads to the other's control block.
    ExcludedByFlow,
    /// That is not excluded.
    Possible,
    /// It can happen: both parts are still, and sends of the one thread and receives of the other are enough to show such a message.
    Decided,
}

/// Parts, and the threads that wait.
#[derive(Clone, Copy)]
pub struct Layout<'a> {
    pub memory: &'a [PartMemory],
    pub uses: &'a [PartUse],
    pub waits: &'a [Wait],
}

/// What is asked of two parts: whether, but by the endpoints that are named, the one is kept from the other.
#[derive(Clone, Copy)]
pub struct Between<'a> {
    pub from: u64,
    pub to: u64,
    pub by: &'a [u64],
}

/// The size of an endpoint in bytes.
#[tactic(auto, using(crate::proofs::Sizes::endpoint_bits_small))]
pub fn endpoint_size<P: Profile>() -> u64
    ensures { result ≡ endpoint_size_of P.profile }
{
    1u64 << P::ENDPOINT_BITS
}

/// Whether a stretch is of a part, and has one of so many bytes.
#[derive(Clone, Copy)]
pub struct HasSome {
    pub part: u64,
    pub first: u64,
    pub size: u64,
}

impl Asks<PartMemory> for HasSome {
    ghost holds = { λ q memory. spec.has_some q.part q.first q.size memory };

    fn holds(&self, memory: &PartMemory) -> bool {
        memory.part == self.part
            && (memory.first < self.first || memory.first - self.first < self.size)
            && self.first <= memory.last
    }
}

/// Whether some byte of the endpoint is memory of the part.
pub fn has_bytes<P: Profile>(memory: &[PartMemory], part: u64, endpoint: u64) -> bool
    ensures { result ≡ spec.has_bytes P.profile memory.now part endpoint }
{
    let some = HasSome {
        part,
        first: endpoint,
        size: endpoint_size::<P>(),
    };
    any(memory, &some)
}

/// Whether a use is of a part and of an endpoint.
#[derive(Clone, Copy)]
pub struct UseOf {
    pub part: u64,
    pub endpoint: u64,
}

impl Asks<PartUse> for UseOf {
    ghost holds = { λ q allowed. spec.is_use_of q.part q.endpoint allowed };

    fn holds(&self, allowed: &PartUse) -> bool {
        allowed.part == self.part && allowed.endpoint == self.endpoint
    }
}

/// Whether a thread of a part waits on an endpoint to send.
#[derive(Clone, Copy)]
pub struct SenderOn<'a> {
    pub memory: &'a [PartMemory],
    pub part: u64,
    pub endpoint: u64,
}

impl Asks<Wait> for SenderOn<'_> {
    ghost holds = { λ q wait. spec.is_waiting_sender q.memory.now q.part q.endpoint wait };

    fn holds(&self, wait: &Wait) -> bool {
        wait.sends
            && wait.endpoint == self.endpoint
            && is_of_part(self.memory, self.part, wait.thread)
    }
}

/// Whether a thread of a part waits on an endpoint to receive.
#[derive(Clone, Copy)]
pub struct ReceiverOn<'a> {
    pub memory: &'a [PartMemory],
    pub part: u64,
    pub endpoint: u64,
}

impl Asks<Wait> for ReceiverOn<'_> {
    ghost holds = { λ q wait. spec.is_waiting_receiver q.memory.now q.part q.endpoint wait };

    fn holds(&self, wait: &Wait) -> bool {
        !wait.sends
            && wait.endpoint == self.endpoint
            && is_of_part(self.memory, self.part, wait.thread)
    }
}

fn may_send_to<P: Profile>(layout: &Layout<'_>, part: u64, endpoint: u64) -> bool
    ensures { result ≡ spec.may_send_to P.profile layout.now.memory.now layout.now.uses.now layout.now.waits.now part endpoint }
{
    let sender = SenderOn {
        memory: layout.memory,
        part,
        endpoint,
    };
    has_bytes::<P>(layout.memory, part, endpoint)
        || has_use_to_send(layout.uses, part, endpoint)
        || any(layout.waits, &sender)
}

fn may_receive_on<P: Profile>(layout: &Layout<'_>, part: u64, endpoint: u64) -> bool
    ensures { result ≡ spec.may_receive_on P.profile layout.now.memory.now layout.now.uses.now layout.now.waits.now part endpoint }
{
    let receiver = ReceiverOn {
        memory: layout.memory,
        part,
        endpoint,
    };
    has_bytes::<P>(layout.memory, part, endpoint)
        || has_use_to_receive(layout.uses, part, endpoint)
        || any(layout.waits, &receiver)
}

/// Whether an endpoint that is not named is open from the one part to the other.
fn is_open<P: Profile>(layout: &Layout<'_>, between: &Between<'_>, endpoint: u64) -> bool
    ensures { result ≡ spec.is_open P.profile layout.now.memory.now layout.now.uses.now layout.now.waits.now between.now.by.now between.now.from between.now.to endpoint }
{
    let of_sender = UseOf {
        part: between.from,
        endpoint,
    };
    let takes = any(layout.uses, &of_sender) && has_bytes::<P>(layout.memory, between.to, endpoint);
    let passes = may_send_to::<P>(layout, between.from, endpoint)
        && may_receive_on::<P>(layout, between.to, endpoint);
    !is_in(between.by, endpoint) && (takes || passes)
}

/// The endpoints of which a part has a use, and those on which a thread waits.
fn endpoints_met(alloc: Global, layout: &Layout<'_>) -> Result<Vec<u64>, AllocError>
    ensures { IfOk result (λ v. v.items ≡ spec.endpoints_met layout.now.uses.now layout.now.waits.now) }
{
    let mut endpoints = Vec::new(alloc);
    for allowed in layout.uses {
        endpoints.push(allowed.endpoint)?;
    }
    for wait in layout.waits {
        endpoints.push(wait.endpoint)?;
    }
    rising(alloc, endpoints.as_slice())
}

/// Whether an endpoint is open, by the uses of parts by rising endpoint.
fn is_open_by<P: Profile>(
    layout: &Layout<'_>,
    by_endpoint: &[PartUse],
    between: &Between<'_>,
    endpoint: u64,
) -> bool
    requires order { AreByKey UseKeyOf.Endpoint by_endpoint.now }
    requires same { (n : ℕ) → filter (has_key UseKeyOf.Endpoint n) by_endpoint.now ≡ filter (has_key UseKeyOf.Endpoint n) layout.now.uses.now }
    ensures { result ≡ spec.is_open P.profile layout.now.memory.now layout.now.uses.now layout.now.waits.now between.now.by.now between.now.from between.now.to endpoint }
{
    let here = Layout {
        uses: uses_on(by_endpoint, endpoint),
        ..*layout
    };
    is_open::<P>(&here, between, endpoint)
}

/// The endpoints that are open from the one part to the other.
pub fn open_endpoints<P: Profile>(
    alloc: Global,
    layout: &Layout<'_>,
    between: &Between<'_>,
) -> Result<Vec<u64>, AllocError>
    ensures { IfOk result (λ v. v.items ≡ spec.open_endpoints P.profile layout.now.memory.now layout.now.uses.now layout.now.waits.now between.now.by.now between.now.from between.now.to) }
{
    let endpoints = endpoints_met(alloc, layout)?;
    let by_endpoint = uses_by_key(alloc, layout.uses, UseKey::Endpoint)?;
    let mut open = Vec::new(alloc);
    for endpoint in &endpoints {
        if is_open_by::<P>(layout, by_endpoint.as_slice(), between, *endpoint) {
            open.push(*endpoint)?;
        }
    }
    Ok(open)
}

/// Whether they are one part, or an endpoint is open from the one to the other.
fn are_open<P: Profile>(
    alloc: Global,
    layout: &Layout<'_>,
    between: &Between<'_>,
) -> Result<bool, AllocError>
    ensures { IfOk result (λ is. is ≡ spec.are_open P.profile layout.now.memory.now layout.now.uses.now layout.now.waits.now between.now.by.now between.now.from between.now.to) }
{
    if between.from == between.to {
        return Ok(true);
    }
    let open = open_endpoints::<P>(alloc, layout, between)?;
    Ok(!open.is_empty())
}

/// What parts answer of two threads: that it is excluded, or that it is possible.
pub fn never_of_parts<P: Profile>(
    alloc: Global,
    layout: &Layout<'_>,
    by: &[u64],
    from: u64,
    to: u64,
) -> Result<Never, AllocError>
    ensures { IfOk result (λ answer. answer ≡ spec.never P.profile layout.now.memory.now layout.now.uses.now layout.now.waits.now by.now from to) }
{
    let (Some(from), Some(to)) = (part_at(layout.memory, from), part_at(layout.memory, to)) else {
        return Ok(Never::Possible);
    };
    if are_open::<P>(alloc, layout, &Between { from, to, by })? {
        Ok(Never::Possible)
    } else {
        Ok(Never::Excluded)
    }
}
