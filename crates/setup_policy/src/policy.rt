//! A policy whose words have their meaning.
ghost use Rattle.std.specs.Prelude.{◌≡◌};
ghost use Rattle.setup_policy.specs.Entries as spec;

use cap_core::Rights;

/// The version of the format that a policy is written in.
#[derive(Clone, Copy, PartialEq, Eq)]
pub enum PolicyVersion {
    One,
    Two,
}

/// A thread, and the number of the group that it belongs to, or its own where it is trusted.
#[derive(Clone, Copy)]
pub struct Member {
    pub thread: u64,
    pub actor: u64,
}

/// An untyped region that a group may hold.
#[derive(Clone, Copy)]
pub struct OwnRegion {
    pub group: u64,
    pub base: u64,
    pub bits: u32,
}

/// That `from` may send to `to`, by an endpoint with this badge, or with any where it is 0; and the rights that `from` may have to it.
#[derive(Clone, Copy, PartialEq, Eq)]
pub struct PolicyWay {
    pub from: u64,
    pub to: u64,
    pub endpoint: u64,
    pub badge: u64,
    pub rights: Rights,
}

/// A capability that a group may hold: to an endpoint, with this badge, or with any where it is 0, and with these rights at most.
#[derive(Clone, Copy, PartialEq, Eq)]
pub struct Allowance {
    pub actor: u64,
    pub endpoint: u64,
    pub badge: u64,
    pub rights: Rights,
}

/// That calls of threads of `from` may empty slots of `to`, by a revoke.
#[derive(Clone, Copy, PartialEq, Eq)]
pub struct PolicyTake {
    pub from: u64,
    pub to: u64,
}

/// The name of an object, behind a `@`.
#[derive(Drop)]
pub struct Label {
    pub base: u64,
    pub text: String,
}

/// A policy. Groups and trusted threads are numbered, the groups first, in the order of the policy.
#[derive(Drop)]
pub struct Policy {
    pub version: PolicyVersion,
    /// The name of each group, and what each trusted thread is called in the policy.
    pub actors: Vec<String>,
    /// The numbers of the groups.
    pub groups: Vec<u64>,
    /// The threads of the groups.
    pub members: Vec<Member>,
    /// The threads that are trusted to make no more calls.
    pub silent: Vec<Member>,
    /// The threads that are trusted to send and to receive, and to do nothing else.
    pub messages: Vec<Member>,
    pub regions: Vec<OwnRegion>,
    pub ways: Vec<PolicyWay>,
    pub uses: Vec<Allowance>,
    /// Who may take from whom; empty in version 1, which says nothing of takes.
    pub takes: Vec<PolicyTake>,
    /// What the ways and the uses let groups hold.
    pub allowances: Vec<Allowance>,
    /// Whether Grant hands over capabilities.
    pub grant: bool,
    /// Whether a call that is refused is a breach.
    pub calls: bool,
}

/// What objects are called.
#[derive(Drop)]
pub struct Labels {
    pub threads: Vec<Label>,
    pub endpoints: Vec<Label>,
    pub regions: Vec<Label>,
    /// CNodes, for the slots in them.
    pub nodes: Vec<Label>,
}

/// What a way lets its sender hold.
pub fn sender_entry(way: &PolicyWay) -> Allowance
    ensures { result ≡ spec.sender_entry way.now }
{
    Allowance {
        actor: way.from,
        endpoint: way.endpoint,
        badge: way.badge,
        rights: way.rights,
    }
}
