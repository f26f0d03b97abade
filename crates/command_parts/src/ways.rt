//! Ways from one part to another, by an endpoint that the one may send to, and the other receive on.
ghost use Rattle.std.specs.Prelude.{◌≡◌, ◌++◌, ◌==◌, ◌∷◌, [], cond, not, IfOk, OnOk, filter, map, string_bytes};
ghost use Rattle.std.specs.List.{flat_map, list_any};
ghost use Rattle.cap_core.specs.Rights.{write_bit, read_bit};
ghost use Rattle.query_parts.specs.Keyed.{AreByKey};
ghost use Rattle.query_parts.specs.declared.keyed.UseKey.TheVariants.{Endpoint};
ghost use Rattle.command_parts.specs.Telling.{part_naming_view};
ghost use Rattle.command_parts.specs.Text as spec;
ghost use Rattle.command_parts.specs.Private.Used.{all_used, is_use_for, may_do, meets_endpoint, memory_on as memory_of, used_on, used_view, way_where};

use crate::messages::uses_held;
use crate::parts::BadgeText;
use crate::sets::{is_in, rising};
use crate::takes::PartSlot;
use crate::telling::PartNaming;
use bitflags::Flags;
use cap_core::{Profile, Rights};
use list_questions::{Asks, Line, any, those};
use query_parts::{PartMemory, PartUse, Parts, UseKey, owns_endpoint, uses_at, uses_by_key};
use std::alloc::{AllocError, Global};
use std::fmt::Write;
use std::marker::PhantomData;

/// A way: a part may send to an endpoint, with this badge, or with any if it is 0; another may receive there.
#[derive(Clone, Copy)]
pub struct Way {
    pub from: u64,
    pub endpoint: u64,
    pub badge: u64,
    pub to: u64,
}

/// An endpoint that is used: the stretches of memory that have an address of it, and the parts that may receive on it.
#[derive(Drop)]
struct UsedEndpoint {
    address: u64,
    memory: Vec<PartMemory>,
    receivers: Vec<u64>,
}

/// What passes by a way.
#[derive(Clone, Copy, PartialEq, Eq, Debug)]
pub enum Passing {
    /// Messages.
    Message,
    /// In seL4, capabilities that go with a message.
    Grant,
    /// In seL4, the answer to a call, the other way.
    Answer,
}

/// The numbers of parts.
pub fn parts_of(alloc: Global, memory: &[PartMemory]) -> Result<Vec<u64>, AllocError>
    ensures { IfOk result (λ v. v.items ≡ spec.parts_of memory.now) }
{
    let mut parts = Vec::new(alloc);
    for stretch in memory {
        parts.push(stretch.part)?;
    }
    rising(alloc, parts.as_slice())
}

fn endpoints_used(alloc: Global, uses: &[PartUse]) -> Result<Vec<u64>, AllocError>
    ensures { IfOk result (λ v. v.items ≡ spec.endpoints_used uses.now) }
{
    let mut endpoints = Vec::new(alloc);
    for allowed in uses {
        endpoints.push(allowed.endpoint)?;
    }
    rising(alloc, endpoints.as_slice())
}

/// What a part may do with an endpoint by a use.
#[derive(Clone, Copy)]
enum Right {
    /// Send to it, so that this passes.
    Pass(Passing),
    /// Send to it with any badge.
    SendAny,
    /// Receive on it.
    Receive,
}

/// Whether a part may do this with an endpoint by a use.
#[derive(Clone, Copy)]
struct UseFor {
    right: Right,
    part: u64,
    endpoint: u64,
}

impl Asks<PartUse> for UseFor {
    ghost holds = { λ q allowed. is_use_for q.right q.part q.endpoint allowed };

    fn holds(&self, allowed: &PartUse) -> bool {
        let read = allowed.rights.contains(Rights::READ);
        let write = allowed.rights.contains(Rights::WRITE);
        let grant = allowed.rights.contains(Rights::GRANT);
        let grant_reply = allowed.rights.contains(Rights::GRANT_REPLY);
        allowed.part == self.part
            && allowed.endpoint == self.endpoint
            && match self.right {
                Right::Pass(Passing::Message) => write,
                Right::Pass(Passing::Grant) => write && grant,
                Right::Pass(Passing::Answer) => write && (grant || grant_reply),
                Right::SendAny => write && allowed.badge.0 == 0,
                Right::Receive => read,
            }
    }
}

/// Whether a part has a use to send to an endpoint.
pub fn has_use_to_send(uses: &[PartUse], part: u64, endpoint: u64) -> bool
    ensures { result ≡ list_any (spec.is_use write_bit part endpoint) uses.now }
{
    let right = Right::Pass(Passing::Message);
    let to_send = UseFor {
        right,
        part,
        endpoint,
    };
    any(uses, &to_send)
}

/// Whether a part has a use to receive on an endpoint.
pub fn has_use_to_receive(uses: &[PartUse], part: u64, endpoint: u64) -> bool
    ensures { result ≡ list_any (spec.is_use read_bit part endpoint) uses.now }
{
    let right = Right::Receive;
    let to_receive = UseFor {
        right,
        part,
        endpoint,
    };
    any(uses, &to_receive)
}

/// The badges with which a part may send to an endpoint by some uses.
fn badges_held(
    alloc: Global,
    uses: &[PartUse],
    part: u64,
    endpoint: u64,
) -> Result<Vec<u64>, AllocError>
    ensures { IfOk result (λ v. v.items ≡ spec.badges_held uses.now part endpoint) }
{
    let right = Right::Pass(Passing::Message);
    let to_send = UseFor {
        right,
        part,
        endpoint,
    };
    let mut badges = Vec::new(alloc);
    for allowed in uses {
        if to_send.holds(allowed) {
            badges.push(allowed.badge.0)?;
        }
    }
    rising(alloc, badges.as_slice())
}

fn badge_where(alloc: Global, passes: bool) -> Result<Vec<u64>, AllocError>
    ensures { IfOk result (λ v. v.items ≡ cond passes (0 ∷ []) []) }
{
    let mut badges = Vec::new(alloc);
    if passes {
        badges.push(0)?;
    }
    Ok(badges)
}

/// The memory of parts, and uses of endpoints by them.
#[derive(Clone, Copy)]
struct Access<'a> {
    memory: &'a [PartMemory],
    uses: &'a [PartUse],
}

impl Access<'_> {
    /// Whether a part may do this with an endpoint: it owns the endpoint, or has such a use of it.
    fn may<P: Profile>(&self, right: Right, part: u64, endpoint: u64) -> bool
        ensures { result ≡ may_do P.profile right self.now.memory.now self.now.uses.now part endpoint }
    {
        let by_use = UseFor {
            right,
            part,
            endpoint,
        };
        owns_endpoint::<P>(self.memory, part, endpoint) || any(self.uses, &by_use)
    }

    /// Those of some parts that may receive on an endpoint.
    fn receivers<P: Profile>(
        &self,
        alloc: Global,
        parts: &[u64],
        endpoint: u64,
    ) -> Result<Vec<u64>, AllocError>
        ensures { IfOk result (λ v. v.items ≡ filter (spec.may_part_receive P.profile self.now.memory.now self.now.uses.now endpoint) parts.now) }
    {
        let mut receivers = Vec::new(alloc);
        for part in parts {
            if self.may::<P>(Right::Receive, *part, endpoint) {
                receivers.push(*part)?;
            }
        }
        Ok(receivers)
    }

    /// The badges of the ways by which something passes; if it is not messages, or with any badge, 0 alone.
    fn badges_by<P: Profile>(
        &self,
        alloc: Global,
        passing: Passing,
        part: u64,
        endpoint: u64,
    ) -> Result<Vec<u64>, AllocError>
        ensures { IfOk result (λ v. v.items ≡ spec.badges_by passing P.profile self.now.memory.now self.now.uses.now part endpoint) }
    {
        match passing {
            Passing::Message => {
                if self.may::<P>(Right::SendAny, part, endpoint) {
                    badge_where(alloc, true)
                } else {
                    badges_held(alloc, self.uses, part, endpoint)
                }
            }
            Passing::Grant => {
                let passes = self.may::<P>(Right::Pass(Passing::Grant), part, endpoint);
                badge_where(alloc, passes)
            }
            Passing::Answer => {
                let passes = self.may::<P>(Right::Pass(Passing::Answer), part, endpoint);
                badge_where(alloc, passes)
            }
        }
    }
}

/// Whether a use is of a part.
#[derive(Clone, Copy)]
struct UseOf {
    part: u64,
}

impl Asks<PartUse> for UseOf {
    ghost holds = { λ q allowed. spec.is_of_part q.part allowed };

    fn holds(&self, allowed: &PartUse) -> bool {
        allowed.part == self.part
    }
}

/// The uses of an endpoint, of uses by rising endpoint.
pub fn uses_on(uses: &[PartUse], endpoint: u64) -> &[PartUse]
    requires { AreByKey Endpoint uses.now }
    ensures { result.now ≡ filter (spec.is_of_endpoint endpoint) uses.entry.now }
{
    uses_at(uses, UseKey::Endpoint, u128::from(endpoint))
}

/// Whether a stretch of memory has an address of an endpoint.
fn meets<P: Profile>(stretch: &PartMemory, endpoint: u64) -> bool
    ensures { result ≡ meets_endpoint P.profile endpoint stretch.now }
{
    endpoint <= stretch.last && stretch.first.saturating_sub(endpoint) < 1 << P::ENDPOINT_BITS
}

/// The stretches of memory that have an address of an endpoint. They tell who owns it as all stretches do.
fn memory_on<P: Profile>(
    alloc: Global,
    memory: &[PartMemory],
    endpoint: u64,
) -> Result<Vec<PartMemory>, AllocError>
    ensures { IfOk result (λ v. v.items ≡ memory_of P.profile memory.now endpoint) }
{
    let mut near = Vec::new(alloc);
    for stretch in memory {
        if meets::<P>(stretch, endpoint) {
            near.push(*stretch)?;
        }
    }
    Ok(near)
}

/// What is known of an endpoint, by uses by rising endpoint.
fn used_endpoint<P: Profile>(
    alloc: Global,
    memory: &[PartMemory],
    uses: &[PartUse],
    parts: &[u64],
    address: u64,
) -> Result<UsedEndpoint, AllocError>
    requires order { AreByKey Endpoint uses.now }
    requires parts { parts.now ≡ spec.parts_of memory.now }
    ensures { IfOk result (λ used. used_view used ≡ used_on P.profile memory.now uses.now address) }
{
    let memory = memory_on::<P>(alloc, memory, address)?;
    let access = Access {
        memory: memory.as_slice(),
        uses: uses_on(uses, address),
    };
    let receivers = access.receivers::<P>(alloc, parts, address)?;
    Ok(UsedEndpoint {
        address,
        memory,
        receivers,
    })
}

/// The others of some parts.
pub fn others(alloc: Global, parts: &[u64], from: u64) -> Result<Vec<u64>, AllocError>
    ensures { IfOk result (λ v. v.items ≡ filter (λ other. not (other == from)) parts.now) }
{
    let mut others = Vec::new(alloc);
    for part in parts {
        if *part != from {
            others.push(*part)?;
        }
    }
    Ok(others)
}

/// Adds the ways from a part with some badges, by an endpoint.
fn add_ways_on(
    alloc: Global,
    ways: &mut Vec<Way>,
    badges: &[u64],
    used: &UsedEndpoint,
    from: u64,
) -> Result<(), AllocError>
    ensures { OnOk result (ways.new.items ≡ ways.old.items
        ++ flat_map (λ badge. map (spec.way from used.now.address badge) (filter (λ other. not (other == from)) used.now.receivers.items)) badges.now) }
{
    if badges.is_empty() {
        return Ok(());
    }
    let endpoint = used.address;
    let others = others(alloc, used.receivers.as_slice(), from)?;
    let receivers = others.as_slice();
    for badge in badges {
        for to in receivers {
            ways.push(Way {
                from,
                endpoint,
                badge: *badge,
                to: *to,
            })?;
        }
    }
    Ok(())
}

/// The endpoints that are used, rising, by the memory and the uses of parts.
#[derive(Drop)]
struct Endpoints<'a, P: Profile> {
    memory: &'a [PartMemory],
    uses: &'a [PartUse],
    used: Vec<UsedEndpoint>,
    profile: PhantomData<P>,
    ghost found: { map used_view used.items ≡ all_used P.profile memory.now uses.now },
}

impl<'a, P: Profile> Endpoints<'a, P> {
    fn new(
        alloc: Global,
        memory: &'a [PartMemory],
        uses: &'a [PartUse],
        parts: &[u64],
    ) -> Result<Endpoints<'a, P>, AllocError>
        requires { parts.now ≡ spec.parts_of memory.now }
        ensures memory { IfOk result (λ all. all.memory.now ≡ memory.now) }
        ensures uses { IfOk result (λ all. all.uses.now ≡ uses.now) }
    {
        let endpoints = endpoints_used(alloc, uses)?;
        let list = uses_by_key(alloc, uses, UseKey::Endpoint)?;
        let mut used = Vec::new(alloc);
        for endpoint in &endpoints {
            used.push(used_endpoint::<P>(alloc, memory, list.as_slice(), parts, *endpoint)?)?;
        }
        Ok(Endpoints {
            memory,
            uses,
            used,
            profile: PhantomData,
        })
    }

    /// Adds the ways from a part by which something passes.
    fn add_from(
        &self,
        alloc: Global,
        ways: &mut Vec<Way>,
        passing: Passing,
        from: u64,
    ) -> Result<(), AllocError>
        ensures { OnOk result (ways.new.items ≡ ways.old.items ++ spec.ways_from passing P.profile self.now.memory.now self.now.uses.now from) }
    {
        let own = those(alloc, self.uses, &UseOf { part: from })?;
        let by_endpoint = uses_by_key(alloc, own.as_slice(), UseKey::Endpoint)?;
        let by_endpoint = by_endpoint.as_slice();
        for endpoint in &self.used {
            let memory = endpoint.memory.as_slice();
            let uses = uses_on(by_endpoint, endpoint.address);
            let access = Access { memory, uses };
            let badges = access.badges_by::<P>(alloc, passing, from, endpoint.address)?;
            let badges = badges.as_slice();
            add_ways_on(alloc, ways, badges, endpoint, from)?;
        }
        Ok(())
    }

    /// Adds the ways of messages from a part that has only these uses.
    fn add_held(
        &self,
        alloc: Global,
        ways: &mut Vec<Way>,
        held: &[PartUse],
        from: u64,
    ) -> Result<(), AllocError>
        ensures { OnOk result (ways.new.items ≡ ways.old.items ++ spec.held_ways_from P.profile self.now.memory.now self.now.uses.now held.now from) }
    {
        let by_endpoint = uses_by_key(alloc, held, UseKey::Endpoint)?;
        let by_endpoint = by_endpoint.as_slice();
        for endpoint in &self.used {
            let uses = uses_on(by_endpoint, endpoint.address);
            let badges = badges_held(alloc, uses, from, endpoint.address)?;
            let badges = badges.as_slice();
            add_ways_on(alloc, ways, badges, endpoint, from)?;
        }
        Ok(())
    }

    /// Adds the ways of messages from a part; from one of those that only pass messages by what it has.
    fn add_messages_from(
        &self,
        alloc: Global,
        ways: &mut Vec<Way>,
        slots: &[PartSlot],
        alone: &[u64],
        from: u64,
    ) -> Result<(), AllocError>
        ensures { OnOk result (ways.new.items ≡ ways.old.items
            ++ spec.message_ways_from P.profile self.now.memory.now self.now.uses.now slots.now alone.now from) }
    {
        if is_in(alone, from) {
            let held = uses_held(alloc, slots, from)?;
            self.add_held(alloc, ways, held.as_slice(), from)
        } else {
            self.add_from(alloc, ways, Passing::Message, from)
        }
    }
}

/// The ways between parts by which something passes.
pub fn ways_by<P: Profile>(
    alloc: Global,
    memory: &[PartMemory],
    uses: &[PartUse],
    parts: &[u64],
    passing: Passing,
) -> Result<Vec<Way>, AllocError>
    requires { parts.now ≡ spec.parts_of memory.now }
    ensures { IfOk result (λ v. v.items ≡ spec.ways passing P.profile memory.now uses.now) }
{
    let endpoints = Endpoints::<P>::new(alloc, &*memory, &*uses, parts)?;
    let mut ways = Vec::new(alloc);
    for from in parts {
        endpoints.add_from(alloc, &mut ways, passing, *from)?;
    }
    Ok(ways)
}

/// The ways between parts by which messages pass, if some parts only pass messages: these send by what they have.
pub fn message_ways<P: Profile>(
    alloc: Global,
    parts: &Parts,
    numbers: &[u64],
    slots: &[PartSlot],
    alone: &[u64],
) -> Result<Vec<Way>, AllocError>
    requires { numbers.now ≡ spec.parts_of parts.now.memory.items }
    ensures { IfOk result (λ v. v.items ≡ spec.message_ways P.profile parts.now.memory.items parts.now.uses.items slots.now alone.now) }
{
    let memory = parts.memory.as_slice();
    let endpoints = Endpoints::<P>::new(alloc, memory, parts.uses.as_slice(), numbers)?;
    let mut ways = Vec::new(alloc);
    for from in numbers {
        endpoints.add_messages_from(alloc, &mut ways, slots, alone, *from)?;
    }
    Ok(ways)
}

/// How a way of messages is written, if some parts only pass messages.
#[derive(Clone, Copy)]
pub struct MessageLine<'a> {
    pub told: &'a PartNaming<'a>,
    pub alone: &'a [u64],
}

impl Line<Way> for MessageLine<'_> {
    ghost line = { λ l way. spec.message_line (part_naming_view l.told.now) l.alone.now way };

    fn add(&self, out: &mut String, way: &Way) -> Result<(), AllocError> {
        let from = self.told.part(way.from)?;
        let endpoint = self.told.endpoint(way.endpoint);
        let to = self.told.part(way.to)?;
        if is_in(self.alone, way.from) {
            let badge = way.badge;
            writeln!(out, "way {from} -> {endpoint} badge {badge} -> {to}")
        } else {
            let badge = BadgeText(way.badge);
            writeln!(out, "way {from} -> {endpoint} badge {badge} -> {to}")
        }
    }
}

/// How a way by which something passes is written.
#[derive(Clone, Copy)]
pub struct PassingLine<'a> {
    pub told: &'a PartNaming<'a>,
    pub passing: Passing,
}

impl Line<Way> for PassingLine<'_> {
    ghost line = { λ l way. spec.passing_line (part_naming_view l.told.now) l.passing way };

    fn add(&self, out: &mut String, way: &Way) -> Result<(), AllocError> {
        let told = self.told;
        let from = told.part(way.from)?;
        let endpoint = told.endpoint(way.endpoint);
        let to = told.part(way.to)?;
        match self.passing {
            Passing::Message => {
                let badge = BadgeText(way.badge);
                writeln!(out, "way {from} -> {endpoint} badge {badge} -> {to}")
            }
            Passing::Grant => writeln!(out, "grant {from} -> {endpoint} -> {to}"),
            Passing::Answer => writeln!(out, "reply {to} -> {endpoint} -> {from}"),
        }
    }
}

impl PassingLine<'_> {
    /// Adds the line of a way, if something passes by it.
    fn add_where<P: Profile>(
        &self,
        out: &mut String,
        access: &Access<'_>,
        way: Way,
    ) -> Result<(), AllocError>
        ensures { OnOk result (string_bytes out.new ≡ string_bytes out.old
            ++ way_where (part_naming_view self.now.told.now) self.now.passing P.profile access.now.memory.now access.now.uses.now way) }
    {
        if access.may::<P>(Right::Pass(self.passing), way.from, way.endpoint)
            && access.may::<P>(Right::Receive, way.to, way.endpoint)
        {
            self.add(out, &way)
        } else {
            Ok(())
        }
    }

    /// Adds a line for each endpoint by which something passes from one part to another.
    fn add_of_two<P: Profile>(
        &self,
        alloc: Global,
        out: &mut String,
        access: &Access<'_>,
        from: u64,
        to: u64,
    ) -> Result<(), AllocError>
        ensures { OnOk result (string_bytes out.new ≡ string_bytes out.old
            ++ spec.lines_of_two (part_naming_view self.now.told.now) self.now.passing P.profile access.now.memory.now access.now.uses.now from to) }
    {
        let endpoints = endpoints_used(alloc, access.uses)?;
        let by_endpoint = uses_by_key(alloc, access.uses, UseKey::Endpoint)?;
        for endpoint in &endpoints {
            let here = Access {
                memory: access.memory,
                uses: uses_on(by_endpoint.as_slice(), *endpoint),
            };
            let way = Way {
                from,
                endpoint: *endpoint,
                badge: 0,
                to,
            };
            self.add_where::<P>(out, &here, way)?;
        }
        Ok(())
    }
}

/// Adds a line for each endpoint by which capabilities or answers pass between two parts in seL4, either way.
pub fn add_sel4_lines<P: Profile>(
    alloc: Global,
    out: &mut String,
    told: &PartNaming<'_>,
    memory: &[PartMemory],
    uses: &[PartUse],
    one: u64,
    other: u64,
) -> Result<(), AllocError>
    ensures { OnOk result (string_bytes out.new ≡ string_bytes out.old
        ++ spec.sel4_lines (part_naming_view told.now) P.profile memory.now uses.now one other) }
{
    let access = &Access {
        memory: &*memory,
        uses: &*uses,
    };
    let grants = PassingLine {
        told: &*told,
        passing: Passing::Grant,
    };
    let answers = PassingLine {
        told: &*told,
        passing: Passing::Answer,
    };
    grants.add_of_two::<P>(alloc, out, access, one, other)?;
    grants.add_of_two::<P>(alloc, out, access, other, one)?;
    answers.add_of_two::<P>(alloc, out, access, one, other)?;
    answers.add_of_two::<P>(alloc, out, access, other, one)
}
