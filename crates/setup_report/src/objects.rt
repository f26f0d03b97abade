//! What the objects of a set-up are called.
ghost use Rattle.std.specs.Prelude.{◌≡◌, ◌<◌, ◌^◌, nat_lt, find, option_copied, IfOk, map};
ghost use Rattle.std.specs.List.{filter_map};
ghost use Rattle.cap_core.specs.Numbers.{slot_bits};
ghost use Rattle.kernel_abstract.specs.Boot.{boot as booted};
ghost use Rattle.kernel_abstract.specs.Plan.{IsPlan, IsWithinLimits};
ghost use Rattle.kernel_abstract.specs.State.{shown};
ghost use Rattle.kernel_forest.specs.Entries.{derivations_of};
ghost use Rattle.slot_core.specs.Calls.{derivation_view};
ghost use Rattle.setup_values.specs.Names.{names_view};
ghost use Rattle.setup_report.specs.Naming as spec;

use crate::known::ObjectNames;
use cap_core::{Cap, Profile};
use ipc_core::MakeWaiters;
use kernel_core::{BootPlan, Kernel};
use setup_values::{Name, thread_name};
use slot_core::{Derivation, DerivationStore, MakeStore};
use std::alloc::{AllocError, Global};

/// An object, by its address; a region also by the bits of its size.
#[derive(Clone, Copy)]
pub enum Object {
    Thread(u64),
    Endpoint(u64),
    CNode(u64),
    Region(u64, u64),
}

/// A CNode, by its address and the bits of the number of its slots.
#[derive(Clone, Copy)]
pub struct Node {
    pub base: u64,
    pub radix: u32,
}

impl Object {
    pub fn base(self) -> u64
        ensures { result ≡ spec.object_base self }
    {
        match self {
            Object::Thread(base) => base,
            Object::Endpoint(base) => base,
            Object::CNode(base) => base,
            Object::Region(base, _) => base,
        }
    }

    /// Whether a capability names the object.
    fn is_named_by(self, cap: Cap) -> bool
        ensures { result ≡ spec.names_object self cap }
    {
        match (self, cap) {
            (Object::Thread(base), Cap::Tcb { base: other }) => other == base,
            (Object::Endpoint(base), Cap::Endpoint { base: other, .. }) => other == base,
            (Object::CNode(base), Cap::CNode { base: other, .. }) => other == base,
            (
                Object::Region(base, bits),
                Cap::Untyped {
                    base: other,
                    bits: size,
                    ..
                },
            ) => other == base && u64::from(size) == bits,
            _ => false,
        }
    }
}

fn boot_row(boot: &[Derivation], object: Object) -> Option<&Derivation>
    ensures { option_copied result ≡ find (λ d. spec.names_object object d.cap) boot.entry.now }
{
    for row in boot {
        if object.is_named_by(row.cap) {
            return Some(row);
        }
    }
    None
}

/// The one name of the slot that boot put an object's capability into.
fn boot_name<'a>(names: &'a [Name], boot: &[Derivation], object: Object) -> Option<&'a str>
    ensures { option_copied result ≡ spec.row_name (names_view names.entry.now) boot.now object }
{
    match boot_row(boot, object) {
        None => None,
        Some(row) => thread_name(names, row.slot.index() as u64).name,
    }
}

/// The one name of an address, if it is none of a slot of the root CNode.
fn address_name(names: &[Name], slots: u64, base: u64) -> Option<&str>
    ensures { option_copied result ≡ spec.address_name (names_view names.entry.now) slots base }
{
    if base < slots {
        None
    } else {
        thread_name(names, base).name
    }
}

#[tactic(auto, using(crate::proofs::Addresses::Slots::word_below))]
fn is_below_power(word: u64, bits: u32) -> bool
    ensures { result ≡ nat_lt word (2 ^ bits) }
{
    if bits >= u64::BITS {
        return true;
    }
    word < 1u64 << bits
}

impl<'a> ObjectNames<'a> {
    /// The names of a set-up's objects. `boot` has the full slots of boot.
    pub fn new<P: Profile>(
        names: &'a [Name],
        plan: &BootPlan,
        boot: Vec<Derivation>,
        nodes: Vec<Node>,
    ) -> ObjectNames<'a>
        requires { IsWithinLimits P.profile plan.now }
        ensures names { result.names.now ≡ names.now }
        ensures slots { result.slots ≡ 2 ^ plan.now.root_radix }
        ensures boot { result.boot.items ≡ boot.items }
        ensures nodes { result.nodes.items ≡ nodes.items }
        ensures slot_bits { result.slot_bits ≡ slot_bits P.profile }
    {
        ObjectNames {
            names,
            slots: 1 << plan.root_radix(),
            boot,
            nodes,
            slot_bits: P::SLOT_BITS,
        }
    }

    /// The name of an object: the one of the set-up with its address, or else the one of the slot that boot put it into.
    pub fn name_of(&self, object: Object) -> Option<&str>
        ensures { option_copied result ≡ spec.name_by self.entry.now object }
    {
        match address_name(self.names, self.slots, object.base()) {
            Some(name) => Some(name),
            None => boot_name(self.names, self.boot.as_slice(), object),
        }
    }

    /// Whether a slot lies in a CNode.
    fn lies_in(&self, node: Node, slot: u64) -> bool
        ensures { result ≡ spec.lies_in_node self.now.slot_bits slot node }
    {
        slot >= node.base && is_below_power((slot - node.base) >> self.slot_bits, node.radix)
    }

    /// The CNode in which a slot lies.
    pub fn node_around(&self, slot: u64) -> Option<&Node>
        ensures { option_copied result ≡ find (spec.lies_in_node self.entry.now.slot_bits slot) self.entry.now.nodes.items }
    {
        let nodes = self.nodes.as_slice();
        for node in nodes {
            if self.lies_in(*node, slot) {
                return Some(node);
            }
        }
        None
    }
}

/// The full slots of boot.
pub fn boot_rows<P: Profile, S: MakeStore<P> + DerivationStore<P>, W: MakeWaiters<P>>(
    alloc: Global,
    plan: &BootPlan,
) -> Result<Vec<Derivation>, AllocError>
    requires { IsPlan P.profile plan.now }
    ensures { IfOk result (λ rows. map (derivation_view P.profile) rows.items ≡ derivations_of (shown (booted P.profile plan.now)).derivations) }
{
    let kernel = Kernel::<P, S, W>::boot(alloc, plan)?;
    kernel.derivations(alloc)
}

fn node_of(cap: Cap) -> Option<Node>
    ensures { result ≡ spec.node_of cap }
{
    match cap {
        Cap::CNode { base, radix, .. } => Some(Node { base, radix }),
        _ => None,
    }
}

/// The CNodes that some full slots name.
pub fn live_nodes(alloc: Global, rows: &[Derivation]) -> Result<Vec<Node>, AllocError>
    ensures { IfOk result (λ nodes. nodes.items ≡ filter_map (λ d. spec.node_of d.cap) rows.now) }
{
    let mut nodes = Vec::new(alloc);
    for row in rows {
        if let Some(node) = node_of(row.cap) {
            nodes.push(node)?;
        }
    }
    Ok(nodes)
}
