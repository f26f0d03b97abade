//! What of a state is held to a policy, and questions about it that several modules ask.
ghost use Rattle.std.specs.Prelude.{◌==◌};

use command_parts::Take;
use list_questions::{Asks, Makes};
use query_parts::{PartMemory, PartUse};
use setup_policy::{Member, Policy};

/// That a group has a thread in a part, or in one of the joined parts that have a number.
#[derive(Clone, Copy)]
pub struct Home {
    pub group: u64,
    pub part: u64,
}

/// A thread that waits on an endpoint: to send with a badge where `sends` is set, and else to receive.
#[derive(Clone, Copy)]
pub struct Waiting {
    pub thread: u64,
    pub endpoint: u64,
    pub badge: u64,
    pub sends: bool,
}

/// That a slot of a part holds an untyped region.
#[derive(Clone, Copy)]
pub struct HeldRegion {
    pub part: u64,
    pub base: u64,
    pub bits: u32,
}

/// The parts that Grant joins: those that have one number.
#[derive(Clone, Copy)]
pub struct Block {
    pub part: u64,
    pub block: u64,
}

/// The parts of a layout, and what of its state is held to a policy.
#[derive(Drop)]
pub struct Layout {
    pub memory: Vec<PartMemory>,
    pub uses: Vec<PartUse>,
    /// The numbers of the parts.
    pub parts: Vec<u64>,
    /// The endpoints that parts may use, and those on which threads wait.
    pub endpoints: Vec<u64>,
    /// The bits of an endpoint's size.
    pub endpoint_bits: u32,
    /// In which parts groups have threads: by the groups in the order of the policy, and then by parts.
    pub homes: Vec<Home>,
    pub waits: Vec<Waiting>,
    pub regions: Vec<HeldRegion>,
    /// Which part can take slots from which by a revoke, before Grant joins any.
    pub takes: Vec<Take>,
}

/// A policy, and the layout that is held to it.
#[derive(Clone, Copy)]
pub struct Checked<'a> {
    pub policy: &'a Policy,
    pub layout: &'a Layout,
}

/// Whether something is of a group.
#[derive(Clone, Copy)]
pub struct OfGroup(pub u64);

impl Asks<Home> for OfGroup {
    ghost holds = { λ q home. home.group == q.0 };

    fn holds(&self, home: &Home) -> bool {
        home.group == self.0
    }
}

impl Asks<Member> for OfGroup {
    ghost holds = { λ q member. member.actor == q.0 };

    fn holds(&self, member: &Member) -> bool {
        member.actor == self.0
    }
}

/// Whether something is of a part, or of the joined parts that have a number.
#[derive(Clone, Copy)]
pub struct OfPart(pub u64);

impl Asks<Home> for OfPart {
    ghost holds = { λ q home. home.part == q.0 };

    fn holds(&self, home: &Home) -> bool {
        home.part == self.0
    }
}

impl Asks<Block> for OfPart {
    ghost holds = { λ q block. block.part == q.0 };

    fn holds(&self, block: &Block) -> bool {
        block.part == self.0
    }
}

/// The endpoint that is used, or on which a thread waits.
#[derive(Clone, Copy)]
pub struct EndpointOf;

impl Makes<PartUse, u64> for EndpointOf {
    ghost made = { λ m used. used.endpoint };

    fn make(&self, used: &PartUse) -> u64 {
        used.endpoint
    }
}

impl Makes<Waiting, u64> for EndpointOf {
    ghost made = { λ m wait. wait.endpoint };

    fn make(&self, wait: &Waiting) -> u64 {
        wait.endpoint
    }
}

/// The badge of a use, or that with which a thread waits.
#[derive(Clone, Copy)]
pub struct BadgeOf;

impl Makes<PartUse, u64> for BadgeOf {
    ghost made = { λ m used. used.badge.0 };

    fn make(&self, used: &PartUse) -> u64 {
        used.badge.0
    }
}

impl Makes<Waiting, u64> for BadgeOf {
    ghost made = { λ m wait. wait.badge };

    fn make(&self, wait: &Waiting) -> u64 {
        wait.badge
    }
}
