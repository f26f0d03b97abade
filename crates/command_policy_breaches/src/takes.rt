//! What parts can take of each other, by a revoke, and what of it no entry lets be.
ghost use Rattle.std.specs.Prelude.{◌≡◌, not, IfOk, filter};
ghost use Rattle.command_policy_breaches.specs.Takes as spec;

use crate::held::{Checked, Home, Layout};
use crate::sides::is_in_part;
use command_parts::Take;
use list_questions::{Asks, any, those};
use setup_policy::{Policy, PolicyTake, PolicyVersion};
use std::alloc::{AllocError, Global};

/// What lets one part take from another.
#[derive(Clone, Copy)]
struct LetsTake<'a> {
    layout: &'a Layout,
    take: Take,
}

impl Asks<Home> for LetsTake<'_> {
    ghost holds = { λ q home. spec.is_home_in_both q.layout.now q.take home };

    fn holds(&self, home: &Home) -> bool {
        home.part == self.take.by && is_in_part(self.layout, home.group, self.take.of)
    }
}

impl Asks<PolicyTake> for LetsTake<'_> {
    ghost holds = { λ q entry. spec.is_take_of q.layout.now q.take entry };

    fn holds(&self, entry: &PolicyTake) -> bool {
        is_in_part(self.layout, entry.from, self.take.by)
            && is_in_part(self.layout, entry.to, self.take.of)
    }
}

/// Whether two parts have no group in common, and no entry lets the one take from the other.
#[derive(Clone, Copy)]
struct TakeAmiss<'a>(Checked<'a>);

impl Asks<Take> for TakeAmiss<'_> {
    ghost holds = { λ q take. spec.is_take_amiss q.0.policy.now q.0.layout.now take };

    fn holds(&self, take: &Take) -> bool {
        let Checked { policy, layout } = self.0;
        let lets = LetsTake {
            layout,
            take: *take,
        };
        !any(layout.homes.as_slice(), &lets) && !any(policy.takes.as_slice(), &lets)
    }
}

/// The takes between parts of which no entry lets the one take from the other, and that have no group in common. Version 1 has none.
pub fn takes_amiss(alloc: Global, policy: &Policy, layout: &Layout) -> Result<Vec<Take>, AllocError>
    ensures { IfOk result (λ v. v.items ≡ spec.takes_amiss policy.now layout.now) }
{
    match policy.version {
        PolicyVersion::One => Ok(Vec::new(alloc)),
        PolicyVersion::Two => {
            let question = TakeAmiss(Checked { policy, layout });
            those(alloc, layout.takes.as_slice(), &question)
        }
    }
}

/// Whether a take is one that an entry lets be.
#[derive(Clone, Copy)]
struct TakeOf<'a> {
    layout: &'a Layout,
    entry: PolicyTake,
}

impl Asks<Take> for TakeOf<'_> {
    ghost holds = { λ q take. spec.is_take_of q.layout.now take q.entry };

    fn holds(&self, take: &Take) -> bool {
        let lets = LetsTake {
            layout: self.layout,
            take: *take,
        };
        lets.holds(&self.entry)
    }
}

/// Whether nothing of an entry is there.
#[derive(Clone, Copy)]
struct UnusedTake<'a>(&'a Layout);

impl Asks<PolicyTake> for UnusedTake<'_> {
    ghost holds = { λ q entry. not (spec.is_take_used q.0.now entry) };

    fn holds(&self, entry: &PolicyTake) -> bool {
        let take = TakeOf {
            layout: self.0,
            entry: *entry,
        };
        !any(self.0.takes.as_slice(), &take)
    }
}

/// The entries of which nothing is there.
pub fn unused_takes(
    alloc: Global,
    policy: &Policy,
    layout: &Layout,
) -> Result<Vec<PolicyTake>, AllocError>
    ensures { IfOk result (λ v. v.items ≡ filter (λ w. not (spec.is_take_used layout.now w)) policy.now.takes.items) }
{
    those(alloc, policy.takes.as_slice(), &UnusedTake(layout))
}
