//! Which part may send to an endpoint, receive on it, or hand over capabilities by it.
ghost use Rattle.std.specs.Prelude.{◌≡◌, IfOk, filter, map};
ghost use Rattle.query_parts.specs.Listed.{part_at as part_of};
ghost use Rattle.command_policy_breaches.specs.Sides as spec;

use crate::held::{BadgeOf, Home, Layout, OfPart, Waiting};
use bitflags::Flags;
use cap_core::Rights;
use command_parts::{is_of_part, rising};
use list_questions::{Asks, Makes, any, each, those};
use query_parts::{PartUse, part_at};
use std::alloc::{AllocError, Global};

/// Whether an endpoint lies in a part's memory, so that the part has all rights to it, with any badge.
pub fn owns(layout: &Layout, part: u64, endpoint: u64) -> bool
    ensures { result ≡ spec.owns_in_layout layout.now part endpoint }
{
    is_of_part(layout.memory.as_slice(), part, endpoint)
}

/// What a part may do on an endpoint.
#[derive(Clone, Copy)]
pub enum Right {
    /// Send to it.
    Send,
    /// Send to it with any badge.
    SendAny,
    /// Send to it with Grant, and so hand over capabilities.
    Give,
    /// Send to it with Grant or GrantReply, and so be answered with capabilities.
    Call,
    /// Receive on it with Grant, and so answer with capabilities.
    Answer,
    /// Receive on it.
    Receive,
}

/// Whether a use gives a part a right to an endpoint.
#[derive(Clone, Copy)]
struct UseFor {
    right: Right,
    part: u64,
    endpoint: u64,
}

impl Asks<PartUse> for UseFor {
    ghost holds = { λ q used. spec.is_use_for q.right q.part q.endpoint used };

    fn holds(&self, used: &PartUse) -> bool {
        let write = used.rights.contains(Rights::WRITE);
        let read = used.rights.contains(Rights::READ);
        let grant = used.rights.contains(Rights::GRANT);
        let grant_reply = used.rights.contains(Rights::GRANT_REPLY);
        used.part == self.part
            && used.endpoint == self.endpoint
            && match self.right {
                Right::Send => write,
                Right::SendAny => write && used.badge.0 == 0,
                Right::Give => write && grant,
                Right::Call => write && (grant || grant_reply),
                Right::Answer => read && grant,
                Right::Receive => read,
            }
    }
}

/// Whether a thread of a part waits on an endpoint: to send where `sends` is set, and else to receive.
#[derive(Clone, Copy)]
struct WaitOn<'a> {
    layout: &'a Layout,
    sends: bool,
    part: u64,
    endpoint: u64,
}

impl Asks<Waiting> for WaitOn<'_> {
    ghost holds = { λ q wait. spec.is_wait_on q.sends q.layout.now q.part q.endpoint wait };

    fn holds(&self, wait: &Waiting) -> bool {
        if self.sends {
            wait.sends
                && wait.endpoint == self.endpoint
                && owns(self.layout, self.part, wait.thread)
        } else {
            !wait.sends
                && wait.endpoint == self.endpoint
                && owns(self.layout, self.part, wait.thread)
        }
    }
}

fn waits_on(layout: &Layout, sends: bool, part: u64, endpoint: u64) -> bool
    ensures { result ≡ spec.waits_on sends layout.now part endpoint }
{
    let wait = WaitOn {
        layout,
        sends,
        part,
        endpoint,
    };
    any(layout.waits.as_slice(), &wait)
}

/// Whether a part has a right to an endpoint: the endpoint lies in its memory, a use gives it, or a thread of it waits there.
pub fn may(layout: &Layout, right: Right, part: u64, endpoint: u64) -> bool
    ensures { result ≡ spec.may right layout.now part endpoint }
{
    let by_use = UseFor {
        right,
        part,
        endpoint,
    };
    owns(layout, part, endpoint)
        || any(layout.uses.as_slice(), &by_use)
        || match right {
            Right::Send => waits_on(layout, true, part, endpoint),
            Right::Receive => waits_on(layout, false, part, endpoint),
            _ => false,
        }
}

fn use_badges(
    alloc: Global,
    layout: &Layout,
    part: u64,
    endpoint: u64,
) -> Result<Vec<u64>, AllocError>
    ensures { IfOk result (λ v. v.items ≡ map (λ u. u.badge.0) (filter (spec.sends part endpoint) layout.now.uses.items)) }
{
    let by_use = UseFor {
        right: Right::Send,
        part,
        endpoint,
    };
    let uses = those(alloc, layout.uses.as_slice(), &by_use)?;
    each(alloc, uses.as_slice(), &BadgeOf)
}

fn wait_badges(
    alloc: Global,
    layout: &Layout,
    part: u64,
    endpoint: u64,
) -> Result<Vec<u64>, AllocError>
    ensures { IfOk result (λ v. v.items ≡ map (λ w. w.badge) (filter (spec.waits_to_send layout.now part endpoint) layout.now.waits.items)) }
{
    let by_wait = WaitOn {
        layout,
        sends: true,
        part,
        endpoint,
    };
    let waits = those(alloc, layout.waits.as_slice(), &by_wait)?;
    each(alloc, waits.as_slice(), &BadgeOf)
}

fn some_badges(
    alloc: Global,
    layout: &Layout,
    part: u64,
    endpoint: u64,
) -> Result<Vec<u64>, AllocError>
    ensures { IfOk result (λ v. v.items ≡ spec.some_badges layout.now part endpoint) }
{
    let mut badges = use_badges(alloc, layout, part, endpoint)?;
    let waits = wait_badges(alloc, layout, part, endpoint)?;
    badges.extend_from_slice(waits.as_slice())?;
    rising(alloc, badges.as_slice())
}

/// The badges with which a part may send to an endpoint, 0 alone where it may be any.
pub fn badges(
    alloc: Global,
    layout: &Layout,
    part: u64,
    endpoint: u64,
) -> Result<Vec<u64>, AllocError>
    ensures { IfOk result (λ v. v.items ≡ spec.sent_badges layout.now part endpoint) }
{
    if may(layout, Right::SendAny, part, endpoint) {
        let mut any = Vec::new(alloc);
        any.push(0)?;
        return Ok(any);
    }
    some_badges(alloc, layout, part, endpoint)
}

/// Whether a group has a thread in a part.
#[derive(Clone, Copy)]
struct HomeOf {
    group: u64,
    part: u64,
}

impl Asks<Home> for HomeOf {
    ghost holds = { λ q home. spec.is_home q.group q.part home };

    fn holds(&self, home: &Home) -> bool {
        home.group == self.group && home.part == self.part
    }
}

/// Whether a group has a thread in a part; or in one of the joined parts that have a number, where `homes` are those of joined parts.
pub fn is_at_home(homes: &[Home], group: u64, part: u64) -> bool
    ensures { result ≡ spec.is_at_home homes.now part group }
{
    any(homes, &HomeOf { group, part })
}

/// Whether a group has a thread in a part.
pub fn is_in_part(layout: &Layout, group: u64, part: u64) -> bool
    ensures { result ≡ spec.is_in_part layout.now part group }
{
    is_at_home(layout.homes.as_slice(), group, part)
}

/// Whether an address lies in a part where a group has a thread.
pub fn is_of_group(layout: &Layout, group: u64, address: u64) -> bool
    ensures { result ≡ spec.is_found_home layout.now.homes.items group (part_of layout.now.memory.items address) }
{
    match part_at(layout.memory.as_slice(), address) {
        None => false,
        Some(part) => is_at_home(layout.homes.as_slice(), group, part),
    }
}

#[derive(Clone, Copy)]
struct GroupOf;

impl Makes<Home, u64> for GroupOf {
    ghost made = { λ m home. home.group };

    fn make(&self, home: &Home) -> u64 {
        home.group
    }
}

/// The groups that have threads in a part, or in the joined parts that have a number, in the order of the policy.
pub fn groups_at(alloc: Global, homes: &[Home], part: u64) -> Result<Vec<u64>, AllocError>
    ensures { IfOk result (λ v. v.items ≡ spec.groups_at homes.now part) }
{
    let there = those(alloc, homes, &OfPart(part))?;
    each(alloc, there.as_slice(), &GroupOf)
}
