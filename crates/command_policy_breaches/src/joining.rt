//! Which parts Grant joins: one can hand capabilities to another, by a message or by its answer.
ghost use Rattle.std.specs.Prelude.{◌≡◌, ◌&&◌, ◌==◌, not, IfOk, map};
ghost use Rattle.command_policy_breaches.specs.Joins as spec;

use crate::held::{Block, Home, Layout, OfGroup, OfPart};
use crate::layout::add_homes;
use crate::sides::{Right, is_at_home, may};
use list_questions::{Adds, Asks, Makes, add_all, any, each, first, those};
use setup_policy::Policy;
use std::alloc::{AllocError, Global};

/// That a part can hand capabilities to another, by an endpoint.
#[derive(Clone, Copy)]
pub struct Join {
    pub from: u64,
    pub endpoint: u64,
    pub to: u64,
}

/// Whether a part can hand capabilities to another one by an endpoint. `sends` says that it may send there with Grant, and `answers`
/// that it may receive with Grant.
#[derive(Clone, Copy)]
struct HandsTo<'a> {
    layout: &'a Layout,
    from: u64,
    endpoint: u64,
    sends: bool,
    answers: bool,
}

impl Asks<u64> for HandsTo<'_> {
    ghost holds = { λ q to. not (to == q.from) && spec.takes_of q.sends q.answers q.layout.now to q.endpoint };

    fn holds(&self, to: &u64) -> bool {
        let HandsTo {
            layout,
            endpoint,
            ..
        } = *self;
        *to != self.from
            && (self.sends && may(layout, Right::Receive, *to, endpoint)
                || self.answers && may(layout, Right::Call, *to, endpoint))
    }
}

/// That a part can hand capabilities to a part.
#[derive(Clone, Copy)]
struct HandedTo {
    from: u64,
    endpoint: u64,
}

impl Makes<u64, Join> for HandedTo {
    ghost made = { λ m to. spec.join_from m.from m.endpoint to };

    fn make(&self, to: &u64) -> Join {
        Join {
            from: self.from,
            endpoint: self.endpoint,
            to: *to,
        }
    }
}

/// What a part can hand over by an endpoint, by messages and by its answers.
#[derive(Clone, Copy)]
struct HandedBy<'a> {
    layout: &'a Layout,
    endpoint: u64,
}

impl Adds<u64, Join> for HandedBy<'_> {
    ghost added = { λ a from. spec.joins_from a.layout.now a.endpoint from };

    fn add(&self, alloc: Global, joins: &mut Vec<Join>, from: &u64) -> Result<(), AllocError> {
        let HandedBy { layout, endpoint } = *self;
        let from = *from;
        let question = HandsTo {
            layout,
            from,
            endpoint,
            sends: may(layout, Right::Give, from, endpoint),
            answers: may(layout, Right::Answer, from, endpoint),
        };
        let others = those(alloc, layout.parts.as_slice(), &question)?;
        let handed = each(alloc, others.as_slice(), &HandedTo { from, endpoint })?;
        joins.extend_from_slice(handed.as_slice())?;
        Ok(())
    }
}

/// What parts can hand over by an endpoint.
#[derive(Clone, Copy)]
struct HandedOn<'a>(&'a Layout);

impl Adds<u64, Join> for HandedOn<'_> {
    ghost added = { λ a endpoint. spec.joins_on a.0.now endpoint };

    fn add(&self, alloc: Global, joins: &mut Vec<Join>, endpoint: &u64) -> Result<(), AllocError> {
        let by = HandedBy {
            layout: self.0,
            endpoint: *endpoint,
        };
        add_all(alloc, joins, self.0.parts.as_slice(), &by)
    }
}

/// The parts between which capabilities can be handed over, by each endpoint; none where Grant hands over nothing.
pub fn joins(alloc: Global, policy: &Policy, layout: &Layout) -> Result<Vec<Join>, AllocError>
    ensures { IfOk result (λ v. v.items ≡ spec.joins policy.now layout.now) }
{
    let mut joins = Vec::new(alloc);
    if !policy.grant {
        return Ok(joins);
    }
    add_all(
        alloc,
        &mut joins,
        layout.endpoints.as_slice(),
        &HandedOn(layout),
    )?;
    Ok(joins)
}

/// The number of the joined parts in which a part is.
pub fn block_of(blocks: &[Block], part: u64) -> u64
    ensures { result ≡ spec.block_of_part blocks.now part }
{
    match first(blocks, &OfPart(part)) {
        Some(b) => b.block,
        None => part,
    }
}

/// A part with a number in place of another.
#[derive(Clone, Copy)]
struct Renumbered {
    from: u64,
    to: u64,
}

impl Makes<Block, Block> for Renumbered {
    ghost made = { λ m block. spec.renumbered m.from m.to block };

    fn make(&self, block: &Block) -> Block {
        if block.block == self.from {
            Block {
                part: block.part,
                block: self.to,
            }
        } else {
            *block
        }
    }
}

/// The parts with their numbers, two of them joined.
fn joined(alloc: Global, blocks: &[Block], join: &Join) -> Result<Vec<Block>, AllocError>
    ensures { IfOk result (λ v. v.items ≡ spec.joined blocks.now join.now) }
{
    let from = block_of(blocks, join.from);
    let to = block_of(blocks, join.to);
    let (most, least) = (from.max(to), from.min(to));
    let renumbered = Renumbered {
        from: most,
        to: least,
    };
    each(alloc, blocks, &renumbered)
}

/// A part that has its own number.
#[derive(Clone, Copy)]
struct Single;

impl Makes<u64, Block> for Single {
    ghost made = { λ m part. spec.single_block part };

    fn make(&self, part: &u64) -> Block {
        Block {
            part: *part,
            block: *part,
        }
    }
}

/// The number of each part: parts that are joined have one.
pub fn blocks(alloc: Global, parts: &[u64], joins: &[Join]) -> Result<Vec<Block>, AllocError>
    ensures { IfOk result (λ v. v.items ≡ spec.all_joined (map spec.single_block parts.now) joins.now) }
{
    let mut blocks = each(alloc, parts, &Single)?;
    for join in joins {
        blocks = joined(alloc, blocks.as_slice(), join)?;
    }
    Ok(blocks)
}

/// The number of the joined parts in which a group has a thread.
#[derive(Clone, Copy)]
struct NumberAt<'a>(&'a [Block]);

impl Makes<Home, u64> for NumberAt<'_> {
    ghost made = { λ m home. spec.number_at m.0.now home };

    fn make(&self, home: &Home) -> u64 {
        block_of(self.0, home.part)
    }
}

/// In which joined parts a group has threads.
#[derive(Clone, Copy)]
struct JoinedHomes<'a> {
    homes: &'a [Home],
    blocks: &'a [Block],
}

impl Adds<u64, Home> for JoinedHomes<'_> {
    ghost added = { λ a group. spec.homes_joined_of a.homes.now a.blocks.now group };

    fn add(&self, alloc: Global, homes: &mut Vec<Home>, group: &u64) -> Result<(), AllocError> {
        let own = those(alloc, self.homes, &OfGroup(*group))?;
        let numbers = each(alloc, own.as_slice(), &NumberAt(self.blocks))?;
        add_homes(alloc, homes, *group, numbers.as_slice())
    }
}

/// In which joined parts groups have threads.
pub fn homes_joined(
    alloc: Global,
    policy: &Policy,
    layout: &Layout,
    blocks: &[Block],
) -> Result<Vec<Home>, AllocError>
    ensures { IfOk result (λ v. v.items ≡ spec.homes_joined policy.now layout.now blocks.now) }
{
    let mut homes = Vec::new(alloc);
    let joined = JoinedHomes {
        homes: layout.homes.as_slice(),
        blocks,
    };
    add_all(alloc, &mut homes, policy.groups.as_slice(), &joined)?;
    Ok(homes)
}

/// Whether a home is in one of two parts, and of another group than this one.
#[derive(Clone, Copy)]
struct OtherThan {
    one: u64,
    other: u64,
    group: u64,
}

impl Asks<Home> for OtherThan {
    ghost holds = { λ q home. spec.is_in_either q.one q.other home && not (home.group == q.group) };

    fn holds(&self, home: &Home) -> bool {
        (home.part == self.one || home.part == self.other) && home.group != self.group
    }
}

/// Whether a group but this one has a thread in one of two parts.
fn has_another(homes: &[Home], one: u64, other: u64, group: u64) -> bool
    ensures { result ≡ spec.has_another homes.now one other group }
{
    any(homes, &OtherThan { one, other, group })
}

/// Two parts, and which groups have threads in them.
#[derive(Clone, Copy)]
struct TwoParts<'a> {
    homes: &'a [Home],
    one: u64,
    other: u64,
}

/// Whether a home is in one of two parts, and another group has threads there.
#[derive(Clone, Copy)]
struct WithAnother<'a>(TwoParts<'a>);

impl Asks<Home> for WithAnother<'_> {
    ghost holds = { λ q home. spec.is_in_either q.0.one q.0.other home && spec.has_another q.0.homes.now q.0.one q.0.other home.group };

    fn holds(&self, home: &Home) -> bool {
        let TwoParts { homes, one, other } = self.0;
        (home.part == one || home.part == other) && has_another(homes, one, other, home.group)
    }
}

/// Whether two groups have threads in these two parts, which may be the same.
pub fn have_two_groups(homes: &[Home], one: u64, other: u64) -> bool
    ensures { result ≡ spec.have_two_groups homes.now one other }
{
    any(homes, &WithAnother(TwoParts { homes, one, other }))
}

/// Whether a group has threads in both of two parts, and no other has.
#[derive(Clone, Copy)]
struct AloneInBoth<'a>(TwoParts<'a>);

impl Asks<Home> for AloneInBoth<'_> {
    ghost holds = { λ q home. spec.is_theirs q.0.homes.now q.0.one q.0.other home };

    fn holds(&self, home: &Home) -> bool {
        let TwoParts { homes, one, other } = self.0;
        home.part == one
            && is_at_home(homes, home.group, other)
            && !has_another(homes, one, other, home.group)
    }
}

/// Whether one group has threads in both of two parts, and no other has.
pub fn have_one_group(homes: &[Home], one: u64, other: u64) -> bool
    ensures { result ≡ spec.have_one_group homes.now one other }
{
    any(homes, &AloneInBoth(TwoParts { homes, one, other }))
}
