//! A round of derivations and removals over the linked form of a capability store, to be measured.
ghost use Rattle.std.specs.Prelude.{◌≡◌, ◌<◌};
ghost use Rattle.cap_core.specs.declared.profile.ProfileName.TheVariants.{Wide as wide};
ghost use Rattle.kernel_forest.specs.Forest.{none};
ghost use Rattle.slot_core.specs.Places.{address_of};
ghost use Rattle.bench_kernel.specs.Cycle.{bench_memory_bits, bench_endpoint as endpoint_cap, at, whole, family};

use cap_core::{Badge, Cap, Rights, Wide};
use slot_core::{CapStore, LinkedStore, MakeStore, Slot};
use std::alloc::{AllocError, Global};

const MEMORY_BITS: u32 = 16;

/// The capabilities of a round.
const COUNT: u64 = 64;

/// Makes a store and goes through so many rounds; the number of rounds in which a derived capability was found as the first
/// child, or 0 if there was no memory for the store. The place of the first slot and the badge are handed in, so that the
/// compiler knows as little of them as it would in a kernel.
#[unsafe(no_mangle)]
pub extern "C" fn store_cycle_run(alloc: Global, place: u64, badge: u64, rounds: u64) -> u64
    requires place { place ≡ 1 }
    requires badge { badge ≡ 5 }
{
    match run(alloc, slot(place), endpoint(badge), rounds) {
        Ok(found) => found,
        Err(_) => 0,
    }
}

fn run(alloc: Global, source: Slot, cap: Cap, rounds: u64) -> Result<u64, AllocError>
    requires source { address_of wide source ≡ at 1 }
    requires cap { cap ≡ endpoint_cap 5 }
{
    let mut store = LinkedStore::<Wide>::new(alloc, MEMORY_BITS)?;
    start(&mut store, source);
    let mut found = 0;
    for i in 0..rounds {
        if round(&mut store, source, cap) {
            found += 1;
        }
    }
    Ok(found)
}

fn start<S: CapStore<Wide>>(store: &mut S, source: Slot)
    requires source { address_of wide source ≡ at 1 }
    requires memory { S.memory_bits store.old ≡ bench_memory_bits }
    requires forest { S.forest store.old ≡ none }
    ensures memory { S.memory_bits store.new ≡ bench_memory_bits }
    ensures forest { S.forest store.new ≡ whole }
{
    store.put_root(source, endpoint(0));
}

/// Derives capabilities with a badge into so many slots, looks for the first child, and removes them, the newest first.
fn round<S: CapStore<Wide>>(store: &mut S, source: Slot, cap: Cap) -> bool
    requires source { address_of wide source ≡ at 1 }
    requires cap { cap ≡ endpoint_cap 5 }
    requires memory { S.memory_bits store.old ≡ bench_memory_bits }
    requires forest { S.forest store.old ≡ whole }
    ensures memory { S.memory_bits store.new ≡ bench_memory_bits }
    ensures forest { S.forest store.new ≡ whole }
{
    derive_all(store, source, cap);
    let child = store.first_child(source);
    remove_all(store);
    child == Some(slot(COUNT + 1))
}

fn derive_all<S: CapStore<Wide>>(store: &mut S, source: Slot, cap: Cap)
    requires source { address_of wide source ≡ at 1 }
    requires cap { cap ≡ endpoint_cap 5 }
    requires memory { S.memory_bits store.old ≡ bench_memory_bits }
    requires forest { S.forest store.old ≡ whole }
    ensures memory { S.memory_bits store.new ≡ bench_memory_bits }
    ensures forest { S.forest store.new ≡ family COUNT }
{
    for i in 0..COUNT {
        store.derive(source, slot(i + 2), cap);
    }
}

fn remove_all<S: CapStore<Wide>>(store: &mut S)
    requires memory { S.memory_bits store.old ≡ bench_memory_bits }
    requires forest { S.forest store.old ≡ family COUNT }
    ensures memory { S.memory_bits store.new ≡ bench_memory_bits }
    ensures forest { S.forest store.new ≡ whole }
{
    let mut left = COUNT;
    while left > 0 {
        left -= 1;
        store.remove(slot(left + 2));
    }
}

fn slot(place: u64) -> Slot
    requires { place < 2048 }
    ensures { address_of wide result ≡ at place }
{
    Slot::of_node::<Wide>(0, place)
}

fn endpoint(badge: u64) -> Cap
    ensures { result ≡ endpoint_cap badge }
{
    Cap::Endpoint {
        base: 8192,
        badge: Badge(badge),
        rights: Rights::ALL,
    }
}
