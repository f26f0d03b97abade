//! The memory of 2^16 bytes that the lookups of the tests go through: a CNode of sixteen slots at address 0, an
//! endpoint at 6144 and a CNode of four slots at 16384.
ghost use Rattle.std.specs.Prelude.{◌≡◌, ◌+◌, ◌*◌, ◌<◌, ◌≤◌, ◌^◌, IfOk};
ghost use Rattle.cap_core.specs.Numbers.{slot_size, word_bits};
ghost use Rattle.kernel_forest.specs.Forest.{none};
ghost use Rattle.cap_core.specs.declared.capability.Cap.TheVariants.{CNode};
ghost use Rattle.slot_core.specs.Places.{address_of};
ghost use Rattle.test_parts.specs.Memory.{memory_bits, endpoint as endpoint_cap, node as node_cap, with_root, with_endpoint, with_node, with_guarded, with_copy, with_itself};

use cap_core::{Badge, Cap, Guard, Profile, Rights};
use slot_core::{MakeStore, Slot};
use std::alloc::{AllocError, Global};

const MEMORY_BITS: u32 = 16;

const ROOT_RADIX: u32 = 4;

const NODE_RADIX: u32 = 2;

const NODE_BASE: u64 = 16384;

const ENDPOINT_BASE: u64 = 6144;

/// The CNode of sixteen slots, with a guard.
pub fn root<P: Profile>(value: u64, size: u32) -> Cap
    requires size { size + 4 ≤ word_bits P.profile }
    requires value { value < 2 ^ size }
    ensures { result ≡ CNode 0 4 (record { value = value; size = size }) }
{
    Cap::CNode {
        base: 0,
        radix: ROOT_RADIX,
        guard: Guard { value, size },
    }
}

/// The CNode of four slots, with a guard.
pub fn node(value: u64, size: u32) -> Cap
    ensures { result ≡ node_cap value size }
{
    Cap::CNode {
        base: NODE_BASE,
        radix: NODE_RADIX,
        guard: Guard { value, size },
    }
}

fn endpoint() -> Cap
    ensures { result ≡ endpoint_cap }
{
    Cap::Endpoint {
        base: ENDPOINT_BASE,
        badge: Badge(0),
        rights: Rights::ALL,
    }
}

/// A slot of the CNode of sixteen slots.
fn in_root<P: Profile>(index: u64) -> Slot
    requires { index < 16 }
    ensures { address_of P.profile result ≡ index * slot_size P.profile }
{
    Slot::of_node::<P>(0, index)
}

/// A slot of the CNode of four slots.
fn in_node<P: Profile>(index: u64) -> Slot
    requires { index < 4 }
    ensures { address_of P.profile result ≡ 16384 + index * slot_size P.profile }
{
    Slot::of_node::<P>(NODE_BASE, index)
}

/// The larger CNode's slot 1 holds that CNode with the guard that it has at boot, its slot 4 the endpoint, and its
/// slots 8 and 9 the smaller CNode, without a guard and with a guard of 101. The smaller one's slot 0 holds itself, and
/// its slot 3 the endpoint.
pub fn memory<P: Profile, S: MakeStore<P>>(alloc: Global) -> Result<S, AllocError>
    ensures { IfOk result (λ s. S.memory_bits s ≡ memory_bits) }
{
    let mut store = S::new(alloc, MEMORY_BITS)?;
    put_root_node::<P, S>(&mut store);
    put_endpoint::<P, S>(&mut store);
    put_node::<P, S>(&mut store);
    derive_guarded::<P, S>(&mut store);
    derive_copy::<P, S>(&mut store);
    derive_itself::<P, S>(&mut store);
    Ok(store)
}

fn put_root_node<P: Profile, S: MakeStore<P>>(store: &mut S)
    requires memory { S.memory_bits store.old ≡ memory_bits }
    requires forest { S.forest store.old ≡ none }
    ensures memory { S.memory_bits store.new ≡ memory_bits }
    ensures forest { S.forest store.new ≡ with_root P.profile }
{
    store.put_root(in_root::<P>(1), root::<P>(0, P::WORD_BITS - ROOT_RADIX));
}

fn put_endpoint<P: Profile, S: MakeStore<P>>(store: &mut S)
    requires memory { S.memory_bits store.old ≡ memory_bits }
    requires forest { S.forest store.old ≡ with_root P.profile }
    ensures memory { S.memory_bits store.new ≡ memory_bits }
    ensures forest { S.forest store.new ≡ with_endpoint P.profile }
{
    store.put_root(in_root::<P>(4), endpoint());
}

fn put_node<P: Profile, S: MakeStore<P>>(store: &mut S)
    requires memory { S.memory_bits store.old ≡ memory_bits }
    requires forest { S.forest store.old ≡ with_endpoint P.profile }
    ensures memory { S.memory_bits store.new ≡ memory_bits }
    ensures forest { S.forest store.new ≡ with_node P.profile }
{
    store.put_root(in_root::<P>(8), node(0, 0));
}

fn derive_guarded<P: Profile, S: MakeStore<P>>(store: &mut S)
    requires memory { S.memory_bits store.old ≡ memory_bits }
    requires forest { S.forest store.old ≡ with_node P.profile }
    ensures memory { S.memory_bits store.new ≡ memory_bits }
    ensures forest { S.forest store.new ≡ with_guarded P.profile }
{
    store.derive(in_root::<P>(8), in_root::<P>(9), node(0b101, 3));
}

fn derive_copy<P: Profile, S: MakeStore<P>>(store: &mut S)
    requires memory { S.memory_bits store.old ≡ memory_bits }
    requires forest { S.forest store.old ≡ with_guarded P.profile }
    ensures memory { S.memory_bits store.new ≡ memory_bits }
    ensures forest { S.forest store.new ≡ with_copy P.profile }
{
    store.derive(in_root::<P>(4), in_node::<P>(3), endpoint());
}

fn derive_itself<P: Profile, S: MakeStore<P>>(store: &mut S)
    requires memory { S.memory_bits store.old ≡ memory_bits }
    requires forest { S.forest store.old ≡ with_copy P.profile }
    ensures memory { S.memory_bits store.new ≡ memory_bits }
    ensures forest { S.forest store.new ≡ with_itself P.profile }
{
    store.derive(in_root::<P>(8), in_node::<P>(0), node(0, 0));
}
