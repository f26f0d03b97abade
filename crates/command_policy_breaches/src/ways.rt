//! What can pass between parts of different numbers, and between a part and a trusted thread that waits; and what of it no way lets
//! pass.
ghost use Rattle.std.specs.Prelude.{◌≡◌, ◌&&◌, IfOk, filter, map, count_by};
ghost use Rattle.std.specs.List.{list_any};
ghost use Rattle.command_policy_breaches.specs.Breaches.{meets};
ghost use Rattle.command_policy_breaches.specs.Ways as spec;

use crate::breaches::meets as meets_badge;
use crate::held::{Block, Home, Layout, Waiting};
use crate::joining::block_of;
use crate::sides::{Right, badges, is_at_home, may, owns};
use command_parts::rising;
use list_questions::{Adds, Asks, Makes, add_all, any, count, each, those};
use query_parts::{PartUse, part_at};
use setup_policy::{Member, Policy, PolicyWay};
use std::alloc::{AllocError, Global};

/// Who sends or receives: the parts that have a number, or a trusted thread, by its number in the policy.
#[derive(Clone, Copy)]
pub struct End {
    pub is_part: bool,
    pub number: u64,
}

/// That an end may send with a badge, by one of its parts; of a trusted thread, part 0.
#[derive(Clone, Copy)]
pub struct Sending {
    pub end: End,
    pub part: u64,
    pub badge: u64,
}

/// That one end may send to an endpoint with a badge, and another receive there.
#[derive(Clone, Copy)]
pub struct Passage {
    pub from: End,
    pub part: u64,
    pub endpoint: u64,
    pub badge: u64,
    pub to: End,
}

/// Whether a trusted thread lies in no part.
fn is_outside(layout: &Layout, trusted: &Member) -> bool
    ensures { result ≡ spec.is_in_no_part layout.now trusted.now }
{
    part_at(layout.memory.as_slice(), trusted.thread).is_none()
}

/// Whether a thread waits to send to an endpoint.
#[derive(Clone, Copy)]
pub struct SendOf {
    pub thread: u64,
    pub endpoint: u64,
}

impl Asks<Waiting> for SendOf {
    ghost holds = { λ q wait. spec.is_send_of q.thread q.endpoint wait };

    fn holds(&self, wait: &Waiting) -> bool {
        wait.sends && wait.endpoint == self.endpoint && wait.thread == self.thread
    }
}

/// Whether a thread waits to receive on an endpoint.
#[derive(Clone, Copy)]
struct ReceiveOf {
    thread: u64,
    endpoint: u64,
}

impl Asks<Waiting> for ReceiveOf {
    ghost holds = { λ q wait. spec.is_receive_of q.thread q.endpoint wait };

    fn holds(&self, wait: &Waiting) -> bool {
        !wait.sends && wait.endpoint == self.endpoint && wait.thread == self.thread
    }
}

/// Whether a thread waits to receive on an endpoint.
pub fn hears(layout: &Layout, thread: u64, endpoint: u64) -> bool
    ensures { result ≡ list_any (spec.is_receive_of thread endpoint) layout.now.waits.items }
{
    any(layout.waits.as_slice(), &ReceiveOf { thread, endpoint })
}

/// That one of an end's parts may send with a badge.
#[derive(Clone, Copy)]
struct SendingOf {
    end: End,
    part: u64,
}

impl Makes<u64, Sending> for SendingOf {
    ghost made = { λ m badge. spec.sending m.end m.part badge };

    fn make(&self, badge: &u64) -> Sending {
        Sending {
            end: self.end,
            part: self.part,
            badge: *badge,
        }
    }
}

/// What a part may send to an endpoint.
#[derive(Clone, Copy)]
struct PartSends<'a> {
    layout: &'a Layout,
    blocks: &'a [Block],
    endpoint: u64,
}

impl Adds<u64, Sending> for PartSends<'_> {
    ghost added = { λ a part. spec.part_sendings a.layout.now a.blocks.now a.endpoint part };

    fn add(&self, alloc: Global, sends: &mut Vec<Sending>, part: &u64) -> Result<(), AllocError> {
        let badges = badges(alloc, self.layout, *part, self.endpoint)?;
        let end = End {
            is_part: true,
            number: block_of(self.blocks, *part),
        };
        let own = each(alloc, badges.as_slice(), &SendingOf { end, part: *part })?;
        sends.extend_from_slice(own.as_slice())?;
        Ok(())
    }
}

/// What a trusted thread sends by a send of it that waits.
#[derive(Clone, Copy)]
struct WaitingSend {
    actor: u64,
}

impl Makes<Waiting, Sending> for WaitingSend {
    ghost made = { λ m wait. spec.waiting_send m.actor wait };

    fn make(&self, wait: &Waiting) -> Sending {
        let end = End {
            is_part: false,
            number: self.actor,
        };
        Sending {
            end,
            part: 0,
            badge: wait.badge,
        }
    }
}

/// What a trusted thread that lies in no part sends to an endpoint.
#[derive(Clone, Copy)]
struct ThreadSends<'a> {
    layout: &'a Layout,
    endpoint: u64,
}

impl Adds<Member, Sending> for ThreadSends<'_> {
    ghost added = { λ a trusted. spec.thread_sendings a.layout.now a.endpoint trusted };

    fn add(
        &self,
        alloc: Global,
        sends: &mut Vec<Sending>,
        trusted: &Member,
    ) -> Result<(), AllocError> {
        if is_outside(self.layout, trusted) {
            let Member { thread, actor } = *trusted;
            let endpoint = self.endpoint;
            let waits = those(
                alloc,
                self.layout.waits.as_slice(),
                &SendOf { thread, endpoint },
            )?;
            let own = each(alloc, waits.as_slice(), &WaitingSend { actor })?;
            sends.extend_from_slice(own.as_slice())?;
        }
        Ok(())
    }
}

/// Who may send to an endpoint, with which badges.
fn sends_to(
    alloc: Global,
    policy: &Policy,
    layout: &Layout,
    blocks: &[Block],
    endpoint: u64,
) -> Result<Vec<Sending>, AllocError>
    ensures { IfOk result (λ v. v.items ≡ spec.sendings_to policy.now layout.now blocks.now endpoint) }
{
    let mut sends = Vec::new(alloc);
    let of_part = PartSends {
        layout,
        blocks,
        endpoint,
    };
    add_all(alloc, &mut sends, layout.parts.as_slice(), &of_part)?;
    let of_thread = ThreadSends { layout, endpoint };
    add_all(alloc, &mut sends, policy.silent.as_slice(), &of_thread)?;
    Ok(sends)
}

/// Whether a trusted thread lies in no part and waits to receive on an endpoint.
#[derive(Clone, Copy)]
struct ThreadHears<'a> {
    layout: &'a Layout,
    endpoint: u64,
}

impl Asks<Member> for ThreadHears<'_> {
    ghost holds = { λ q trusted. spec.hears_as_thread q.layout.now q.endpoint trusted };

    fn holds(&self, trusted: &Member) -> bool {
        is_outside(self.layout, trusted) && hears(self.layout, trusted.thread, self.endpoint)
    }
}

#[derive(Clone, Copy)]
struct ThreadEnd;

impl Makes<Member, End> for ThreadEnd {
    ghost made = { λ m trusted. spec.thread_end trusted.actor };

    fn make(&self, trusted: &Member) -> End {
        End {
            is_part: false,
            number: trusted.actor,
        }
    }
}

fn thread_ends(
    alloc: Global,
    layout: &Layout,
    endpoint: u64,
    silent: &[Member],
) -> Result<Vec<End>, AllocError>
    ensures { IfOk result (λ v. v.items ≡ map (λ m. spec.thread_end m.actor) (filter (spec.hears_as_thread layout.now endpoint) silent.now)) }
{
    let hearing = those(alloc, silent, &ThreadHears { layout, endpoint })?;
    each(alloc, hearing.as_slice(), &ThreadEnd)
}

/// Whether a part may receive on an endpoint.
#[derive(Clone, Copy)]
struct PartHears<'a> {
    layout: &'a Layout,
    endpoint: u64,
}

impl Asks<u64> for PartHears<'_> {
    ghost holds = { λ q part. spec.hears_on q.layout.now q.endpoint part };

    fn holds(&self, part: &u64) -> bool {
        may(self.layout, Right::Receive, *part, self.endpoint)
    }
}

/// The number of the joined parts in which a part is.
#[derive(Clone, Copy)]
struct NumberOf<'a>(&'a [Block]);

impl Makes<u64, u64> for NumberOf<'_> {
    ghost made = { λ m part. spec.block_of_part m.0.now part };

    fn make(&self, part: &u64) -> u64 {
        block_of(self.0, *part)
    }
}

fn hearing_numbers(
    alloc: Global,
    layout: &Layout,
    blocks: &[Block],
    endpoint: u64,
) -> Result<Vec<u64>, AllocError>
    ensures { IfOk result (λ v. v.items ≡ map (spec.block_of_part blocks.now) (filter (spec.hears_on layout.now endpoint) layout.now.parts.items)) }
{
    let parts = layout.parts.as_slice();
    let hearing = those(alloc, parts, &PartHears { layout, endpoint })?;
    each(alloc, hearing.as_slice(), &NumberOf(blocks))
}

#[derive(Clone, Copy)]
struct PartEnd;

impl Makes<u64, End> for PartEnd {
    ghost made = { λ m number. spec.part_end number };

    fn make(&self, number: &u64) -> End {
        End {
            is_part: true,
            number: *number,
        }
    }
}

/// Who may receive on an endpoint.
fn hearers_on(
    alloc: Global,
    policy: &Policy,
    layout: &Layout,
    blocks: &[Block],
    endpoint: u64,
) -> Result<Vec<End>, AllocError>
    ensures { IfOk result (λ v. v.items ≡ spec.hearers_on policy.now layout.now blocks.now endpoint) }
{
    let numbers = hearing_numbers(alloc, layout, blocks, endpoint)?;
    let numbers = rising(alloc, numbers.as_slice())?;
    let mut ends = each(alloc, numbers.as_slice(), &PartEnd)?;
    let threads = thread_ends(alloc, layout, endpoint, policy.silent.as_slice())?;
    ends.extend_from_slice(threads.as_slice())?;
    Ok(ends)
}

/// Whether what passes from an end to another is asked for: between parts of different numbers, and between a part and a thread.
#[derive(Clone, Copy)]
struct ApartFrom(End);

impl Asks<End> for ApartFrom {
    ghost holds = { λ q to. spec.is_apart q.0 to };

    fn holds(&self, to: &End) -> bool {
        if self.0.is_part {
            !to.is_part || self.0.number != to.number
        } else {
            to.is_part
        }
    }
}

/// That what is sent to an endpoint can be received by an end.
#[derive(Clone, Copy)]
struct PassageOf {
    sending: Sending,
    endpoint: u64,
}

impl Makes<End, Passage> for PassageOf {
    ghost made = { λ m to. spec.passage m.sending m.endpoint to };

    fn make(&self, to: &End) -> Passage {
        let Sending { end, part, badge } = self.sending;
        Passage {
            from: end,
            part,
            endpoint: self.endpoint,
            badge,
            to: *to,
        }
    }
}

/// What passes of what is sent to an endpoint.
#[derive(Clone, Copy)]
struct PassagesTo<'a> {
    hearers: &'a [End],
    endpoint: u64,
}

impl Adds<Sending, Passage> for PassagesTo<'_> {
    ghost added = { λ a sending. spec.passages_of a.hearers.now a.endpoint sending };

    fn add(
        &self,
        alloc: Global,
        passages: &mut Vec<Passage>,
        sending: &Sending,
    ) -> Result<(), AllocError> {
        let passage = PassageOf {
            sending: *sending,
            endpoint: self.endpoint,
        };
        let ends = those(alloc, self.hearers, &ApartFrom(sending.end))?;
        let own = each(alloc, ends.as_slice(), &passage)?;
        passages.extend_from_slice(own.as_slice())?;
        Ok(())
    }
}

/// What can pass by an endpoint.
#[derive(Clone, Copy)]
struct PassagesBy<'a> {
    policy: &'a Policy,
    layout: &'a Layout,
    blocks: &'a [Block],
}

impl Adds<u64, Passage> for PassagesBy<'_> {
    ghost added = { λ a endpoint. spec.passages_by a.policy.now a.layout.now a.blocks.now endpoint };

    fn add(
        &self,
        alloc: Global,
        passages: &mut Vec<Passage>,
        endpoint: &u64,
    ) -> Result<(), AllocError> {
        let PassagesBy {
            policy,
            layout,
            blocks,
        } = *self;
        let endpoint = *endpoint;
        let sends = sends_to(alloc, policy, layout, blocks, endpoint)?;
        let hearers = hearers_on(alloc, policy, layout, blocks, endpoint)?;
        let hearers = hearers.as_slice();
        add_all(
            alloc,
            passages,
            sends.as_slice(),
            &PassagesTo { hearers, endpoint },
        )
    }
}

/// What can pass, by each endpoint.
pub fn passages(
    alloc: Global,
    policy: &Policy,
    layout: &Layout,
    blocks: &[Block],
) -> Result<Vec<Passage>, AllocError>
    ensures { IfOk result (λ v. v.items ≡ spec.passages policy.now layout.now blocks.now) }
{
    let mut passages = Vec::new(alloc);
    let by = PassagesBy {
        policy,
        layout,
        blocks,
    };
    add_all(alloc, &mut passages, layout.endpoints.as_slice(), &by)?;
    Ok(passages)
}

/// Whether both ends of a passage are parts.
#[derive(Clone, Copy)]
struct BetweenParts;

impl Asks<Passage> for BetweenParts {
    ghost holds = { λ q passage. spec.is_between_parts passage };

    fn holds(&self, passage: &Passage) -> bool {
        passage.from.is_part && passage.to.is_part
    }
}

/// How many of the passages are between parts.
pub fn count_between_parts(passages: &[Passage]) -> usize
    ensures { result ≡ count_by spec.is_between_parts passages.now }
{
    count(passages, &BetweenParts)
}

/// Whether an actor is one of an end's: a group that has a thread in one of the parts, or the thread itself.
pub fn is_at(homes: &[Home], end: End, actor: u64) -> bool
    ensures { result ≡ spec.is_end_at homes.now end actor }
{
    if end.is_part {
        is_at_home(homes, actor, end.number)
    } else {
        end.number == actor
    }
}

/// Whether a group has a thread at both ends of a passage.
#[derive(Clone, Copy)]
struct HomeOfBoth<'a> {
    homes: &'a [Home],
    passage: Passage,
}

impl Asks<Home> for HomeOfBoth<'_> {
    ghost holds = { λ q home. spec.is_home_of_both q.homes.now q.passage home };

    fn holds(&self, home: &Home) -> bool {
        let Passage { from, to, .. } = self.passage;
        from.is_part
            && home.part == from.number
            && to.is_part
            && is_at_home(self.homes, home.group, to.number)
    }
}

fn begins_there(homes: &[Home], passage: &Passage, way: &PolicyWay) -> bool
    ensures { result ≡ spec.begins_there homes.now passage.now way.now }
{
    way.endpoint == passage.endpoint && is_at(homes, passage.from, way.from)
}

/// Whether a way is between the ends of a passage, by its endpoint.
pub fn is_way_between(homes: &[Home], passage: &Passage, way: &PolicyWay) -> bool
    ensures { result ≡ spec.is_way_between homes.now passage.now way.now }
{
    begins_there(homes, passage, way) && is_at(homes, passage.to, way.to)
}

/// What of the ways is held to a passage.
#[derive(Clone, Copy)]
struct WaysFor<'a> {
    homes: &'a [Home],
    passage: Passage,
}

/// Whether a way lets a passage be.
#[derive(Clone, Copy)]
struct Lets<'a>(WaysFor<'a>);

impl Asks<PolicyWay> for Lets<'_> {
    ghost holds = { λ q way. spec.is_way_between q.0.homes.now q.0.passage way && meets way.badge q.0.passage.badge };

    fn holds(&self, way: &PolicyWay) -> bool {
        let WaysFor { homes, passage } = self.0;
        is_way_between(homes, &passage, way) && meets_badge(way.badge, passage.badge)
    }
}

/// Whether a way lets the sender of a passage send so, to whomever.
#[derive(Clone, Copy)]
struct LetsElsewhere<'a>(WaysFor<'a>);

impl Asks<PolicyWay> for LetsElsewhere<'_> {
    ghost holds = { λ q way. spec.begins_there q.0.homes.now q.0.passage way && meets way.badge q.0.passage.badge };

    fn holds(&self, way: &PolicyWay) -> bool {
        let WaysFor { homes, passage } = self.0;
        begins_there(homes, &passage, way) && meets_badge(way.badge, passage.badge)
    }
}

/// Whether a way lets a passage be with some badge.
#[derive(Clone, Copy)]
struct LetsSome<'a>(WaysFor<'a>);

impl Asks<PolicyWay> for LetsSome<'_> {
    ghost holds = { λ q way. spec.is_way_between q.0.homes.now q.0.passage way };

    fn holds(&self, way: &PolicyWay) -> bool {
        is_way_between(self.0.homes, &self.0.passage, way)
    }
}

/// Whether a use has the part, the endpoint and the badge of a passage.
#[derive(Clone, Copy)]
struct UseOf(Passage);

impl Asks<PartUse> for UseOf {
    ghost holds = { λ q used. spec.is_use_of_passage q.0 used };

    fn holds(&self, used: &PartUse) -> bool {
        used.part == self.0.part && used.endpoint == self.0.endpoint && used.badge.0 == self.0.badge
    }
}

/// Whether a send of the part of a passage waits, with its endpoint and its badge.
#[derive(Clone, Copy)]
struct WaitOf<'a> {
    layout: &'a Layout,
    passage: Passage,
}

impl Asks<Waiting> for WaitOf<'_> {
    ghost holds = { λ q wait. spec.is_wait_of_passage q.layout.now q.passage wait };

    fn holds(&self, wait: &Waiting) -> bool {
        wait.sends
            && wait.endpoint == self.passage.endpoint
            && wait.badge == self.passage.badge
            && owns(self.layout, self.passage.part, wait.thread)
    }
}

/// Whether the badge of a passage is told already, of a use or of a send that waits.
fn is_told(layout: &Layout, uses: &[PartUse], waits: &[Waiting], passage: &Passage) -> bool
    ensures { result ≡ spec.is_passage_told layout.now uses.now waits.now passage.now }
{
    let passage = *passage;
    any(uses, &UseOf(passage)) || any(waits, &WaitOf { layout, passage })
}

/// Whether the badge alone is amiss, and told already.
fn is_badge_told(
    policy: &Policy,
    layout: &Layout,
    homes: &[Home],
    uses: &[PartUse],
    waits: &[Waiting],
    passage: &Passage,
) -> bool
    ensures { result ≡ spec.is_badge_told policy.now layout.now homes.now uses.now waits.now passage.now }
{
    let ways = policy.ways.as_slice();
    let held = WaysFor {
        homes,
        passage: *passage,
    };
    is_told(layout, uses, waits, passage)
        && any(ways, &LetsSome(held))
        && !any(ways, &LetsElsewhere(held))
}

/// Whether no way lets a passage pass, and no group is at both of its ends, and its badge is not told already.
#[derive(Clone, Copy)]
struct PassageAmiss<'a> {
    policy: &'a Policy,
    layout: &'a Layout,
    homes: &'a [Home],
    uses: &'a [PartUse],
    waits: &'a [Waiting],
}

impl Asks<Passage> for PassageAmiss<'_> {
    ghost holds = { λ q passage. spec.is_passage_amiss q.policy.now q.layout.now q.homes.now q.uses.now q.waits.now passage };

    fn holds(&self, passage: &Passage) -> bool {
        let PassageAmiss {
            policy,
            layout,
            homes,
            uses,
            waits,
        } = *self;
        let passage = *passage;
        let held = WaysFor { homes, passage };
        !any(homes, &HomeOfBoth { homes, passage })
            && !any(policy.ways.as_slice(), &Lets(held))
            && !is_badge_told(policy, layout, homes, uses, waits, &passage)
    }
}

/// The passages that no way lets pass. `homes` has the groups of the joined parts, and `uses` and `waits` those whose badges are told
/// already.
pub fn passages_amiss(
    alloc: Global,
    policy: &Policy,
    layout: &Layout,
    homes: &[Home],
    uses: &[PartUse],
    waits: &[Waiting],
    passages: &[Passage],
) -> Result<Vec<Passage>, AllocError>
    ensures { IfOk result (λ v. v.items ≡ filter (spec.is_passage_amiss policy.now layout.now homes.now uses.now waits.now) passages.now) }
{
    let question = PassageAmiss {
        policy,
        layout,
        homes,
        uses,
        waits,
    };
    those(alloc, passages, &question)
}
