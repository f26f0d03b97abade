//! Sequences of lawful calls, of which each store has to make the same.
ghost use Rattle.std.specs.Prelude.{◌≡◌};
ghost use Rattle.test_parts.specs.TestForests.{IsTestForest};

use crate::slots::calls::{
    derive, is_last, new_store, object, put_new, put_root, relocate, remove, set_free, slot,
};
use cap_core::{Narrow, Profile, Wide};
use slot_core::{CapStore, LinkedStore, RowStore, Slot};
use std::alloc::{AllocError, Global};
use std::test::Fail;

// A call that a number chooses: what is done, with which two of sixteen slots, and how.
fn call<P: Profile, S: CapStore<P>>(store: &mut S, number: u64)
    requires memory { S.memory_bits store.old ≡ 12 }
    requires forest { IsTestForest P.profile (S.forest store.old) }
    ensures memory { S.memory_bits store.new ≡ 12 }
    ensures forest { IsTestForest P.profile (S.forest store.new) }
{
    let source = number % 16;
    let target = number / 16 % 16;
    let choice = number / 4096 % 512;
    match number / 256 % 16 {
        0 | 1 => {
            let cap = object::<P>(choice % 16 * 256, choice / 16 % 4);
            put_root::<P, S>(store, target, cap);
        }
        2 => set_free::<P, S>(store, source, choice % 4 * 64),
        3 | 4 | 5 | 6 => put_new::<P, S>(store, source, target, choice % 8),
        7 | 8 => relocate::<P, S>(store, source, target),
        9 | 10 | 11 | 12 => remove::<P, S>(store, source),
        _ => derive::<P, S>(store, source, target, choice % 3),
    }
}

// Whether both stores answer the same of a slot.
fn agree_at<P: Profile, R: CapStore<P>, L: CapStore<P>>(rows: &R, links: &L, slot: Slot) -> bool {
    let cap = rows.get(slot);
    let held = links.get(slot);
    if cap != held || rows.first_child(slot) != links.first_child(slot) {
        return false;
    }
    is_last::<P, R>(rows, slot) == is_last::<P, L>(links, slot)
}

fn agree<P: Profile, R: CapStore<P>, L: CapStore<P>>(rows: &R, links: &L) -> bool {
    for i in 0..16 {
        if !agree_at::<P, R, L>(rows, links, slot::<P>(i)) {
            return false;
        }
    }
    true
}

// Goes through one sequence of calls on both stores, and compares every slot after each call: whether all agree.
fn agree_through_calls<P: Profile, R: CapStore<P>, L: CapStore<P>>(
    rows: &mut R,
    links: &mut L,
) -> bool
    requires rows_memory { R.memory_bits rows.old ≡ 12 }
    requires rows { IsTestForest P.profile (R.forest rows.old) }
    requires links_memory { L.memory_bits links.old ≡ 12 }
    requires links { IsTestForest P.profile (L.forest links.old) }
{
    let mut seed: u64 = 1;
    for _ in 0..6000 {
        seed = seed % 2147483648 * 1103515245 + 12345;
        call::<P, R>(rows, seed / 65536);
        call::<P, L>(links, seed / 65536);
        if !agree::<P, R, L>(rows, links) {
            return false;
        }
    }
    true
}

// Whether both forms agree after each call.
fn forms_agree<P: Profile>(alloc: Global) -> Result<bool, AllocError> {
    let mut rows = new_store::<P, RowStore<P>>(alloc)?;
    let mut links = new_store::<P, LinkedStore<P>>(alloc)?;
    Ok(agree_through_calls::<P, RowStore<P>, LinkedStore<P>>(&mut rows, &mut links))
}

#[test]
fn rows_and_links_agree(rt: HostRuntime) -> Result<(), Fail> {
    assert!(rt; forms_agree::<Wide>(rt.alloc())?, "wide words");
    assert!(rt; forms_agree::<Narrow>(rt.alloc())?, "narrow words");
    Ok(())
}
