//! What a store answers to each of its calls, through the bound, in both forms and both profiles.
ghost use Rattle.std.specs.Prelude.{◌≡◌, ◌<◌, IfOk};
ghost use Rattle.test_parts.specs.TestForests.{IsTestForest};

use crate::slots::calls::{
    derive, is_last, new_store, object, put_new, put_root, relocate, remove, set_free, slot,
};
use cap_core::{Cap, Narrow, Profile, Wide};
use slot_core::{CapStore, LinkedStore, MakeStore, RowStore, Slot};
use std::alloc::{AllocError, Global};
use std::test::Fail;

// Whether a slot stands at an address, and tells it.
fn stands_at<P: Profile>(address: u64) -> bool {
    match Slot::at::<P>(address) {
        Some(slot) => slot.address::<P>() == address,
        None => false,
    }
}

// Whether slots stand at the multiples of 32, or of 16 with narrow words, and at no other address.
fn stand_at_multiples_of_their_size() -> bool {
    stands_at::<Wide>(96)
        && !stands_at::<Wide>(80)
        && !stands_at::<Wide>(88)
        && stands_at::<Narrow>(96)
        && stands_at::<Narrow>(80)
        && !stands_at::<Narrow>(88)
}

#[test]
fn slots_stand_at_multiples_of_their_size(rt: HostRuntime) {
    assert!(rt; stand_at_multiples_of_their_size());
    assert!(rt; Slot::at::<Wide>(64) == Some(Slot::of_node::<Wide>(32, 1)));
    assert!(rt; Slot::of_node::<Narrow>(4096, 3).address::<Narrow>() == 4144);
}

// What a slot holds.
#[derive(Clone, Copy, PartialEq)]
enum Held {
    Nothing,
    Badge(u64),
    Region(u64),
    Other,
}

fn held_by(cap: Cap) -> Held {
    match cap {
        Cap::Null => Held::Nothing,
        Cap::Endpoint { badge, .. } => Held::Badge(badge.0),
        Cap::Untyped {
            base: 1024,
            bits: 10,
            free,
        } => Held::Region(free),
        _ => Held::Other,
    }
}

// Whether a slot holds so much, and has that slot for its first child.
fn answers<P: Profile, S: CapStore<P>>(
    store: &S,
    index: u64,
    what: Held,
    child: Option<Slot>,
) -> bool
    requires { index < 16 }
{
    held_by(store.get(slot::<P>(index))) == what && store.first_child(slot::<P>(index)) == child
}

// An endpoint's capability in slot 0; below it one with a badge in slot 1, and in front of that copies in slots 2 and
// 3.
fn family<P: Profile, S: MakeStore<P>>(alloc: Global) -> Result<S, AllocError> {
    let mut store = new_store::<P, S>(alloc)?;
    put_root::<P, S>(&mut store, 0, object::<P>(512, 4));
    derive::<P, S>(&mut store, 0, 1, 7);
    derive::<P, S>(&mut store, 0, 2, 0);
    derive::<P, S>(&mut store, 2, 3, 0);
    Ok(store)
}

fn holds_a_family<P: Profile, S: MakeStore<P>>(store: &S) -> bool {
    answers::<P, S>(store, 0, Held::Badge(0), Some(slot::<P>(2)))
        && answers::<P, S>(store, 1, Held::Badge(7), None)
        && answers::<P, S>(store, 2, Held::Badge(0), None)
        && answers::<P, S>(store, 3, Held::Badge(0), None)
        && answers::<P, S>(store, 4, Held::Nothing, None)
        && held_by(store.get(Slot::of_node::<P>(4096, 0))) == Held::Nothing
}

// An untyped region in slot 0, of whose first bytes an endpoint is made in slot 1; a badged capability of that is
// derived in slot 2 and moves to slot 3.
fn region<P: Profile, S: MakeStore<P>>(alloc: Global) -> Result<S, AllocError>
    ensures memory { IfOk result (λ s. S.memory_bits s ≡ 12) }
    ensures forest { IfOk result (λ s. IsTestForest P.profile (S.forest s)) }
{
    let mut store = new_store::<P, S>(alloc)?;
    put_root::<P, S>(&mut store, 0, object::<P>(1024, 2));
    put_new::<P, S>(&mut store, 0, 1, 4);
    set_free::<P, S>(&mut store, 0, 16);
    derive::<P, S>(&mut store, 1, 2, 7);
    relocate::<P, S>(&mut store, 2, 3);
    Ok(store)
}

fn holds_a_region<P: Profile, S: MakeStore<P>>(store: &S) -> bool {
    answers::<P, S>(store, 0, Held::Region(16), Some(slot::<P>(1)))
        && answers::<P, S>(store, 1, Held::Badge(0), Some(slot::<P>(3)))
        && answers::<P, S>(store, 2, Held::Nothing, None)
        && answers::<P, S>(store, 3, Held::Badge(7), None)
}

// Whether of those slots the region's alone is the last of its object.
fn tells_which_is_last<P: Profile, S: MakeStore<P>>(store: &S) -> bool {
    is_last::<P, S>(store, slot::<P>(0))
        && !is_last::<P, S>(store, slot::<P>(1))
        && !is_last::<P, S>(store, slot::<P>(3))
}

// Whether slot 1 is empty, and its child stands in its place.
fn holds_a_region_without_slot_1<P: Profile, S: MakeStore<P>>(store: &S) -> bool {
    answers::<P, S>(store, 0, Held::Region(16), Some(slot::<P>(3)))
        && answers::<P, S>(store, 1, Held::Nothing, None)
        && is_last::<P, S>(store, slot::<P>(3))
}

// Whether it stands so once slot 1 is emptied, and a copy of the store stays as it was.
fn answers_a_removal<P: Profile, S: MakeStore<P>>(mut store: S, copied: &S) -> bool
    requires memory { S.memory_bits store ≡ 12 }
    requires forest { IsTestForest P.profile (S.forest store) }
{
    remove::<P, S>(&mut store, 1);
    holds_a_region_without_slot_1::<P, S>(&store) && holds_a_region::<P, S>(copied)
}

// Whether a store with the region answers, before slot 1 is emptied and after.
fn answers_every_call<P: Profile, S: MakeStore<P>>(alloc: Global) -> Result<bool, AllocError> {
    let store = region::<P, S>(alloc)?;
    let copied = store.copy(alloc)?;
    let is_right = holds_a_region::<P, S>(&store) && tells_which_is_last::<P, S>(&store);
    Ok(is_right && answers_a_removal::<P, S>(store, &copied))
}

// Whether a form of store answers as it should.
fn answers_all<P: Profile, S: MakeStore<P>>(alloc: Global) -> Result<bool, AllocError> {
    Ok(holds_a_family::<P, S>(&family::<P, S>(alloc)?) && answers_every_call::<P, S>(alloc)?)
}

#[test]
fn stores_answer_every_call(rt: HostRuntime) -> Result<(), Fail> {
    let alloc = rt.alloc();
    assert!(rt;
        answers_all::<Wide, RowStore<Wide>>(alloc)?,
        "rows, wide words"
    );
    assert!(rt;
        answers_all::<Narrow, RowStore<Narrow>>(alloc)?,
        "rows, narrow words"
    );
    assert!(rt;
        answers_all::<Wide, LinkedStore<Wide>>(alloc)?,
        "links, wide words"
    );
    assert!(rt;
        answers_all::<Narrow, LinkedStore<Narrow>>(alloc)?,
        "links, narrow words"
    );
    Ok(())
}
