//! Which question of `how` a breach stands for, and of which threads it is asked.
ghost use Rattle.std.specs.Prelude.{◌≡◌, ◌++◌, ◌==◌, not, IfOk, filter};
ghost use Rattle.command_policy_how.specs.Question as spec;

use cap_core::Rights;
use command_how::Happening;
use command_parts::Take;
use command_policy_breaches::{End, Layout, Passage, is_way_between};
use command_policy_text::{Held, Told};
use query_parts::{PartMemory, part_at};
use setup_policy::{Member, Policy, PolicyWay};
use std::alloc::{AllocError, Global};

/// What is to happen.
pub fn happening_of(told: Told) -> Happening
    ensures { result ≡ spec.happening_of told }
{
    match told {
        Told::Joined(_) => Happening::Hold,
        Told::Taken(_) => Happening::Loss,
        _ => Happening::Message,
    }
}

/// The badge that a message is to have, where that is asked.
pub fn badge_of(told: Told) -> Option<u64>
    ensures { result ≡ spec.badge_of_breach told }
{
    match told {
        Told::Badge(used) => Some(used.badge.0),
        Told::Way(passage) if passage.badge != 0 => Some(passage.badge),
        Told::Waits(wait) if wait.sends => Some(wait.badge),
        _ => None,
    }
}

fn is_of_endpoint(told: Told, endpoint: u64) -> bool
    ensures { result ≡ spec.is_use_of_endpoint told endpoint }
{
    match told {
        Told::Badge(used) => used.endpoint == endpoint,
        Told::Way(passage) => passage.endpoint == endpoint,
        Told::Waits(wait) => wait.endpoint == endpoint,
        _ => false,
    }
}

/// The endpoints by which a message does not count: all but that of the breach.
pub fn other_endpoints(alloc: Global, layout: &Layout, told: Told) -> Result<Vec<u64>, AllocError>
    ensures { IfOk result (λ v. v.items ≡ spec.other_endpoints layout.now told) }
{
    let mut others = Vec::new(alloc);
    for endpoint in &layout.endpoints {
        if !is_of_endpoint(told, *endpoint) {
            others.push(*endpoint)?;
        }
    }
    Ok(others)
}

/// All threads of a policy, also those that it trusts.
pub fn everyone(alloc: Global, policy: &Policy) -> Result<Vec<Member>, AllocError>
    ensures { IfOk result (λ v. v.items ≡ spec.everyone policy.now) }
{
    let mut all = Vec::from_slice(alloc, policy.members.as_slice())?;
    all.extend_from_slice(policy.silent.as_slice())?;
    all.extend_from_slice(policy.messages.as_slice())?;
    Ok(all)
}

fn lies_in(memory: &[PartMemory], part: u64, thread: u64) -> bool
    ensures { result ≡ spec.is_in_that_part memory.now part thread }
{
    match part_at(memory, thread) {
        None => false,
        Some(found) => found == part,
    }
}

/// Whether one of two threads lies in a part, and the other one not in the same.
fn are_in_two_parts(memory: &[PartMemory], from: u64, to: u64) -> bool
    ensures { result ≡ spec.are_in_two_parts memory.now from to }
{
    match (part_at(memory, from), part_at(memory, to)) {
        (None, None) => false,
        (Some(part), Some(other)) => part != other,
        _ => true,
    }
}

/// Whether two threads are of groups of the two parts of a take and lie there: the one in the part that takes, and the other in that from
/// which it does.
fn are_of_take(layout: &Layout, take: Take, from: &Member, to: &Member) -> bool
    ensures { result ≡ spec.are_of_take layout.now take from.now to.now }
{
    let memory = layout.memory.as_slice();
    let passage = Passage {
        from: End {
            is_part: true,
            number: take.by,
        },
        part: take.by,
        endpoint: 0,
        badge: 0,
        to: End {
            is_part: true,
            number: take.of,
        },
    };
    let way = PolicyWay {
        from: from.actor,
        to: to.actor,
        endpoint: 0,
        badge: 0,
        rights: Rights::ALL,
    };
    lies_in(memory, take.by, from.thread)
        && lies_in(memory, take.of, to.thread)
        && is_way_between(layout.homes.as_slice(), &passage, &way)
}

/// Whether a breach may let something pass from the one thread to the other, or the one take from the other.
fn are_ends(held: Held<'_>, told: Told, from: &Member, to: &Member) -> bool
    ensures { result ≡ spec.are_ends held.entry.layout.now held.entry.homes.now told from.now to.now }
{
    let memory = held.layout.memory.as_slice();
    match told {
        Told::Joined(part) => {
            lies_in(memory, part, from.thread)
                && lies_in(memory, part, to.thread)
                && from.actor != to.actor
        }
        Told::Badge(used) => lies_in(memory, used.part, from.thread),
        Told::Way(passage) => {
            let way = PolicyWay {
                from: from.actor,
                to: to.actor,
                endpoint: passage.endpoint,
                badge: passage.badge,
                rights: Rights::ALL,
            };
            is_way_between(held.homes, &passage, &way)
        }
        Told::Waits(wait) if wait.sends => from.thread == wait.thread,
        Told::Waits(wait) => to.thread == wait.thread,
        Told::Taken(take) => are_of_take(held.layout, take, from, to),
        _ => false,
    }
}

/// Whether it is asked of two threads: of a message, where they lie in two parts.
pub fn is_asked(held: Held<'_>, told: Told, from: &Member, to: &Member) -> bool
    ensures { result ≡ spec.is_asked held.entry.layout.now held.entry.homes.now told from.now to.now }
{
    let memory = held.layout.memory.as_slice();
    are_ends(held, told, from, to)
        && (matches!(told, Told::Joined(_)) || are_in_two_parts(memory, from.thread, to.thread))
}
