//! A set-up is held to a policy.
ghost use Rattle.std.specs.Prelude.{◌≡◌, ◌≤◌, ℕ, IfErr, IfOk, length, map, string_bytes};
ghost use Rattle.kernel_abstract.specs.Memory.{IsInMemory};
ghost use Rattle.kernel_abstract.specs.Plan.{IsPlan};
ghost use Rattle.setup_values.specs.Names.{names_view};
ghost use Rattle.setup_report.specs.State as state;
ghost use Rattle.setup_policy_meaning.specs.Meant.{AreLabels};
ghost use Rattle.setup_policy_meaning.specs.Policies.{IsPolicyMeant};
ghost use Rattle.slot_core.specs.Calls.{derivation_view};
ghost use Rattle.command_policy_text.specs.Places.{IsOrigin, places_told};
ghost use Rattle.command_policy.specs.Policies as spec;

use cap_core::Profile;
use command_core::{Answer, Verdict};
use command_parts::{parts_of_callers, rising};
use command_policy_breaches::{
    Home, Join, Layout, Passage, blocks, homes_joined, joins, layout_of, passages, trusted_threads,
};
use command_policy_places::{Fill, FirstCalls, Sites, fills, slots_named};
use command_policy_text::{Held, Origin, breach_lines, kinds, places_of, policy_text};
use ipc_core::{MakeWaiters, Waiters};
use kernel_core::{Kernel, Reply};
use query_parts::PartsFault;
use setup_format::Setup;
use setup_policy::{Labels, Policy, PolicyVersion};
use setup_policy_file::{PolicyFile, Refusal};
use setup_policy_meaning::{Meaning, Object, Objects, Resolver, object_of, root_slots};
use setup_report::{StateRows, run_first, state_rows};
use setup_values::Name;
use slot_core::{CapStore, Derivation, DerivationStore, MakeStore};
use std::alloc::{AllocError, Global};

/// Where what breaks a policy comes from: what is looked at of the layout, and which calls filled its slots.
#[derive(Drop)]
pub struct Sources {
    pub sites: Sites,
    pub fills: Vec<Fill>,
}

impl Sources {
    /// With the first calls of the set-up that is judged.
    pub fn origin<'a>(&'a self, setup: &'a Setup, made: usize, judged: &'a Judged) -> Origin<'a>
        ensures { spec.IsOriginOf self.entry.now setup.entry.now made judged.entry.now result }
    {
        let replies = judged.replies.as_slice();
        Origin {
            sites: &self.sites,
            names: self.sites.names(&judged.labels),
            calls: FirstCalls {
                setup,
                made,
                replies,
                fills: self.fills.as_slice(),
            },
        }
    }
}

/// The same, if there is something that they come from.
pub fn origin_of<'a>(
    sources: &'a Option<Sources>,
    setup: &'a Setup,
    made: usize,
    judged: &'a Judged,
) -> Option<Origin<'a>> {
    match sources {
        None => None,
        Some(sources) => Some(sources.origin(setup, made, judged)),
    }
}

/// A set-up that is held to a policy.
#[derive(Drop)]
pub struct Judged {
    pub policy: Policy,
    pub layout: Layout,
    pub labels: Labels,
    pub joins: Vec<Join>,
    pub homes: Vec<Home>,
    pub passages: Vec<Passage>,
    pub replies: Vec<Reply>,
}

impl Judged {
    /// What lines are told of.
    pub fn held(&self) -> Held<'_>
        ensures { spec.IsHeldOf self.entry.now result }
    {
        Held {
            policy: &self.policy,
            layout: &self.layout,
            labels: &self.labels,
            homes: self.homes.as_slice(),
        }
    }

    /// The text with the places that an origin has, and the verdict.
    #[tactic(auto, using(crate::proofs::Lines::told_as))]
    fn told_with<P: Profile, S: MakeStore<P>, W: MakeWaiters<P>>(
        &self,
        alloc: Global,
        setup: &Setup,
        origin: Option<Origin<'_>>,
    ) -> Result<Answer, AllocError>
        requires replies { length self.now.replies.items ≤ length setup.now.calls }
        requires origin { IsOrigin P.profile origin }
        ensures { IfOk result (λ made. (made.text.items, made.verdict)
            ≡ spec.told_with (places_told P.profile self.now.policy self.now.layout origin.entry) self.now setup.now) }
    {
        let (text, verdict) = policy_text::<P, S, W>(
            alloc,
            self.held(),
            origin,
            setup,
            self.replies.as_slice(),
            self.joins.as_slice(),
            self.passages.as_slice(),
        )?;
        Ok(Answer::new(alloc, text, verdict))
    }

    /// The slots that breaches come from.
    fn slots_told(&self, alloc: Global, sites: &Sites) -> Result<Vec<u64>, AllocError> {
        let (held, joins) = (self.held(), self.joins.as_slice());
        let mut slots = Vec::new(alloc);
        let kinds = kinds::breaches(alloc, held, joins, self.passages.as_slice())?;
        for kind in &kinds {
            for told in kind {
                let places = places_of(alloc, held, sites, *told)?;
                let named = slots_named(alloc, places.as_slice())?;
                slots.extend_from_slice(named.as_slice())?;
            }
        }
        rising(alloc, slots.as_slice())
    }

    /// The text with the places of breaches, the verdict, and what the places come from.
    fn told_with_places<P: Profile, S: MakeStore<P> + DerivationStore<P>, W: MakeWaiters<P>>(
        &self,
        alloc: Global,
        setup: &Setup,
        made: usize,
    ) -> Result<(Answer, Option<Sources>), AllocError>
        requires plan { IsPlan P.profile setup.now.plan }
        requires made { made ≤ length setup.now.calls }
        requires replies { length self.now.replies.items ≤ length setup.now.calls }
        ensures { IfOk result (λ told. (told.0.text.items, told.0.verdict)
            ≡ spec.told_with (spec.places_behind P.profile setup.now made self.now) self.now setup.now) }
    {
        let (layout, joins) = (&self.layout, self.joins.as_slice());
        let sites = Sites::of::<P, S, W>(alloc, setup, made, layout, joins)?;
        let slots = self.slots_told(alloc, &sites)?;
        let fills = fills::<P, S, W>(alloc, setup, made, slots.as_slice())?;
        let sources = Sources { sites, fills };
        let origin = sources.origin(setup, made, self);
        let answer = self.told_with::<P, S, W>(alloc, setup, Some(origin))?;
        Ok((answer, Some(sources)))
    }

    /// The text, and the verdict. Where something breaks a policy of version 2, the text has the places of each breach, and what they come
    /// from is there too.
    pub fn told<P: Profile, S: MakeStore<P> + DerivationStore<P>, W: MakeWaiters<P>>(
        &self,
        alloc: Global,
        setup: &Setup,
        made: usize,
    ) -> Result<(Answer, Option<Sources>), AllocError>
        requires plan { IsPlan P.profile setup.now.plan }
        requires made { made ≤ length setup.now.calls }
        requires replies { length self.now.replies.items ≤ length setup.now.calls }
        ensures { IfOk result (λ told. (told.0.text.items, told.0.verdict) ≡ spec.told_of P.profile setup.now made self.now) }
    {
        let plain = self.told_with::<P, S, W>(alloc, setup, None)?;
        if let Verdict::AllMet = plain.verdict {
            return Ok((plain, None));
        }
        match self.policy.version {
            PolicyVersion::One => Ok((plain, None)),
            PolicyVersion::Two => self.told_with_places::<P, S, W>(alloc, setup, made),
        }
    }

    /// The lines of what breaks the policy, in their order.
    pub fn breach_lines(&self, alloc: Global, setup: &Setup) -> Result<Vec<String>, AllocError>
        requires { length self.now.replies.items ≤ length setup.now.calls }
        ensures { IfOk result (λ v. map string_bytes v.items ≡ spec.breach_lines self.now setup.now) }
    {
        breach_lines(
            alloc,
            self.held(),
            setup,
            self.replies.as_slice(),
            self.joins.as_slice(),
            self.passages.as_slice(),
        )
    }
}

fn live_objects<P: Profile>(
    alloc: Global,
    slots: &[Derivation],
) -> Result<Vec<Object>, AllocError> {
    let mut live = Vec::new(alloc);
    for slot in slots {
        if let Some(object) = object_of::<P>(slot.cap) {
            live.push(object)?;
        }
    }
    Ok(live)
}

/// The policy and the labels of a state, where each word of the file means something there.
fn resolved<'a, P: Profile, S: CapStore<P> + Drop, W: Waiters<P> + Drop>(
    alloc: Global,
    file: &'a PolicyFile,
    text: &'a str,
    names: &'a [Name],
    setup: &'a Setup,
    kernel: &'a Kernel<P, S, W>,
    slots: &[Derivation],
) -> Result<(Policy, Labels), Refusal>
    requires plan { IsPlan P.profile setup.now.plan }
    requires slots { map (derivation_view P.profile) slots.now ≡ state.slot_rows kernel.now }
    ensures policy { IfOk result (λ r. IsPolicyMeant P.profile (names_view names.now) setup.now.plan kernel.now file.now r.0) }
    ensures labels { IfOk result (λ r. AreLabels P.profile (names_view names.now) setup.now.plan kernel.now r.1) }
{
    let live = live_objects::<P>(alloc, slots)?;
    let root = root_slots::<P>(alloc, setup.plan(), slots)?;
    let objects = Objects {
        alloc,
        names,
        live: live.as_slice(),
        slots: root.as_slice(),
    };
    let resolver = Resolver {
        file,
        text,
        meaning: Meaning::new(objects, setup, kernel),
    };
    Ok((resolver.policy(slots)?, resolver.meaning.labels()?))
}

fn judged_by<P: Profile, S: DerivationStore<P> + Drop, W: Waiters<P> + Drop>(
    alloc: Global,
    policy: Policy,
    labels: Labels,
    kernel: &Kernel<P, S, W>,
    rows: &StateRows,
    replies: Vec<Reply>,
) -> Result<Judged, PartsFault>
    requires threads { rows.now.threads.keys ≡ state.threads P.profile kernel.now }
    requires slots { map (derivation_view P.profile) rows.now.slots.items ≡ state.slot_rows kernel.now }
    ensures judged { IfOk result (spec.IsJudgedOf P.profile kernel.now replies.items) }
    ensures policy { IfOk result (λ j. j.policy ≡ policy) }
    ensures labels { IfOk result (λ j. j.labels ≡ labels) }
    ensures fault { IfErr result (λ fault. fault ≡ PartsFault.Block → (memory : ℕ) → IsInMemory P.profile memory kernel.now → ⊥) }
{
    let trusted = trusted_threads(alloc, &policy)?;
    let parts = parts_of_callers::<P, S, W>(alloc, trusted.as_slice(), kernel, rows)?;
    let layout = layout_of::<P, S, W>(alloc, &policy, kernel, rows, parts)?;
    let joins = joins(alloc, &policy, &layout)?;
    let blocks = blocks(alloc, layout.parts.as_slice(), joins.as_slice())?;
    let passages = passages(alloc, &policy, &layout, blocks.as_slice())?;
    let homes = homes_joined(alloc, &policy, &layout, blocks.as_slice())?;
    Ok(Judged {
        policy,
        layout,
        labels,
        joins,
        homes,
        passages,
        replies,
    })
}

/// A set-up behind its first calls, held to a policy file, whose text is given.
///
/// # Errors
/// `Memory`, or the first fault of the policy by that state.
pub fn judge<P: Profile, S: MakeStore<P> + DerivationStore<P>, W: MakeWaiters<P>>(
    alloc: Global,
    file: &PolicyFile,
    text: &str,
    names: &[Name],
    setup: &Setup,
    made: usize,
) -> Result<Judged, Refusal>
    requires plan { IsPlan P.profile setup.now.plan }
    requires made { made ≤ length setup.now.calls }
    ensures judged { IfOk result (spec.IsJudged P.profile setup.now made) }
    ensures meant { IfOk result (spec.IsPolicyMeantBehind P.profile (names_view names.now) setup.now made file.now) }
{
    let (kernel, replies) = run_first::<P, S, W>(alloc, setup, made)?;
    let rows = state_rows::<P, S, W>(alloc, &kernel)?;
    let slots = rows.slots.as_slice();
    let (policy, labels) = resolved::<P, S, W>(alloc, file, text, names, setup, &kernel, slots)?;
    match judged_by::<P, S, W>(alloc, policy, labels, &kernel, &rows, replies) {
        Ok(judged) => Ok(judged),
        Err(PartsFault::Memory) => Err(Refusal::Memory),
        Err(PartsFault::Block) => unreachable!(),
    }
}
