//! The questions of a breach are asked, one after another.
ghost use Rattle.std.specs.Prelude.{◌≡◌, ◌≤◌, ◌&&◌, ℕ, IfOk, length};
ghost use Rattle.kernel_abstract.specs.Memory.{IsInMemory};
ghost use Rattle.kernel_abstract.specs.Plan.{IsPlan};
ghost use Rattle.command_parts.specs.Ever.{AreRightParts};
ghost use Rattle.command_how_witness.specs.Witness.{asking_of};
ghost use Rattle.command_how.specs.Line.{says_excluded};
ghost use Rattle.command_policy_breaches.specs.Layouts.{IsLayoutOf};
ghost use Rattle.command_policy_how.specs.Asked as spec;
ghost use Rattle.command_policy_how.specs.Asked.{IsOfMost};
ghost use Rattle.command_policy_how.specs.Private.{AreOfMost, say_excluded, without as spec_without};
ghost use Rattle.command_policy_how.specs.Question.{IsAbout, everyone as everyone_of};

use crate::question::{badge_of, everyone, happening_of, is_asked, other_endpoints};
use cap_core::Profile;
use command_check::Behind;
use command_how::{NoWitness, Outcome, outcome_of};
use command_how_witness::Asked;
use command_policy_breaches::trusted_threads;
use command_policy_text::{Held, Told};
use ipc_core::MakeWaiters;
use kernel_core::Kernel;
use setup_policy::Member;
use slot_core::{DerivationStore, MakeStore};
use std::alloc::{AllocError, Global};

/// What comes of the questions of a breach: the text of a witness, or why there is none; or it is asked of no two threads.
#[derive(Drop)]
pub enum BreachOutcome {
    Witness(Vec<u8>),
    Without(NoWitness),
    NotAsked,
}

/// What is said of two questions that have no witness: that they are excluded, where both are.
fn both(answer: NoWitness, other: NoWitness) -> NoWitness
    ensures says { says_excluded result ≡ (says_excluded answer && says_excluded other) }
    ensures most { (most : ℕ) → IsOfMost most answer → IsOfMost most other → IsOfMost most result }
{
    match (answer, other) {
        (NoWitness::Excluded, other) => other,
        (NoWitness::ExcludedByFlow, NoWitness::Excluded) => NoWitness::ExcludedByFlow,
        (NoWitness::ExcludedByFlow, other) => other,
        (NoWitness::NotFound, NoWitness::NotFoundOf(most)) => NoWitness::NotFoundOf(most),
        (answer, _) => answer,
    }
}

/// The same with what was said before, where something was asked.
fn with_answer(before: Option<NoWitness>, other: NoWitness) -> NoWitness
    ensures says { says_excluded result ≡ (say_excluded before && says_excluded other) }
    ensures most { (most : ℕ) → AreOfMost most before → IsOfMost most other → IsOfMost most result }
{
    match before {
        Some(answer) => both(answer, other),
        None => other,
    }
}

/// What comes of questions that have no witness, by what was said of them; nothing was where none was asked.
fn without(answer: Option<NoWitness>) -> BreachOutcome
    ensures { result ≡ spec_without answer }
{
    match answer {
        Some(answer) => BreachOutcome::Without(answer),
        None => BreachOutcome::NotAsked,
    }
}

/// A breach of which it is asked: by a question whose threads are to be put in, of all these threads, by so many copies of the kernel at
/// most for each two.
#[derive(Clone, Copy)]
struct Asking<'a> {
    held: Held<'a>,
    told: Told,
    asked: Asked<'a>,
    all: &'a [Member],
    most: u64,
}

impl Asking<'_> {
    /// What comes of the questions of a thread and each other: the first witness, or why none has one.
    fn ask_from<P: Profile, S: MakeStore<P> + DerivationStore<P>, W: MakeWaiters<P>>(
        &self,
        alloc: Global,
        behind: &Behind<'_>,
        kernel: &Kernel<P, S, W>,
        from: &Member,
    ) -> Result<BreachOutcome, AllocError>
        requires plan { IsPlan P.profile behind.now.setup.now.plan }
        requires made { behind.now.made ≤ length behind.now.setup.now.calls }
        requires memory { (memory : ℕ) × IsInMemory P.profile memory kernel.now }
        requires about { IsAbout self.now.held.policy.now self.now.held.layout.now self.now.told (asking_of self.now.asked) }
        requires right { AreRightParts P.profile kernel.now self.now.asked.without.now self.now.asked.memory.now self.now.held.layout.now.uses.items }
        ensures { IfOk result (spec.IsAskedFrom P.profile self.now.held.policy.now self.now.held.layout.now self.now.held.homes.now self.now.told self.now.most
            kernel.now behind.now.setup.now behind.now.made from.now self.now.all.now) }
    {
        let mut answer = None;
        for to in self.all {
            if !is_asked(self.held, self.told, from, to) {
                continue;
            }
            let question = Asked {
                from: from.thread,
                to: to.thread,
                ..self.asked
            };
            match outcome_of::<P, S, W>(alloc, behind, kernel, &question, self.most)? {
                Outcome::Witness(text) => return Ok(BreachOutcome::Witness(text)),
                Outcome::Without(other) => answer = Some(with_answer(answer, other)),
            }
        }
        Ok(without(answer))
    }

    /// The same of each two threads.
    fn ask_each<P: Profile, S: MakeStore<P> + DerivationStore<P>, W: MakeWaiters<P>>(
        &self,
        alloc: Global,
        behind: &Behind<'_>,
        kernel: &Kernel<P, S, W>,
    ) -> Result<BreachOutcome, AllocError>
        requires plan { IsPlan P.profile behind.now.setup.now.plan }
        requires made { behind.now.made ≤ length behind.now.setup.now.calls }
        requires memory { (memory : ℕ) × IsInMemory P.profile memory kernel.now }
        requires about { IsAbout self.now.held.policy.now self.now.held.layout.now self.now.told (asking_of self.now.asked) }
        requires right { AreRightParts P.profile kernel.now self.now.asked.without.now self.now.asked.memory.now self.now.held.layout.now.uses.items }
        requires all { self.now.all.now ≡ everyone_of self.now.held.policy.now }
        ensures { IfOk result (spec.IsAskedOf P.profile self.now.held.policy.now self.now.held.layout.now self.now.held.homes.now self.now.told self.now.most
            kernel.now behind.now.setup.now behind.now.made) }
    {
        let mut answer = None;
        for from in self.all {
            match self.ask_from::<P, S, W>(alloc, behind, kernel, from)? {
                BreachOutcome::Witness(text) => return Ok(BreachOutcome::Witness(text)),
                BreachOutcome::Without(other) => answer = Some(with_answer(answer, other)),
                BreachOutcome::NotAsked => {}
            }
        }
        Ok(without(answer))
    }
}

/// What comes of the questions that a breach stands for, by so many copies of the kernel at most for each.
pub fn ask<P: Profile, S: MakeStore<P> + DerivationStore<P>, W: MakeWaiters<P>>(
    alloc: Global,
    behind: &Behind<'_>,
    kernel: &Kernel<P, S, W>,
    held: Held<'_>,
    told: Told,
    most: u64,
) -> Result<BreachOutcome, AllocError>
    requires plan { IsPlan P.profile behind.now.setup.now.plan }
    requires made { behind.now.made ≤ length behind.now.setup.now.calls }
    requires memory { (memory : ℕ) × IsInMemory P.profile memory kernel.now }
    requires layout { IsLayoutOf P.profile held.policy.now kernel.now held.layout.now }
    ensures { IfOk result (spec.IsAskedOf P.profile held.entry.policy.now held.entry.layout.now held.entry.homes.now told most kernel.now behind.now.setup.now behind.now.made) }
{
    let without = trusted_threads(alloc, held.policy)?;
    let by = other_endpoints(alloc, held.layout, told)?;
    let all = everyone(alloc, held.policy)?;
    let asking = Asking {
        held,
        told,
        asked: Asked {
            what: happening_of(told),
            from: 0,
            to: 0,
            by: by.as_slice(),
            badge: badge_of(told),
            memory: held.layout.memory.as_slice(),
            without: without.as_slice(),
        },
        all: all.as_slice(),
        most,
    };
    asking.ask_each::<P, S, W>(alloc, behind, kernel)
}
