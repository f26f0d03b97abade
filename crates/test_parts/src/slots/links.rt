//! The rows of the linked store's list.
use crate::slots::calls::{derive, new_store, object, put_root, remove, slot};
use cap_core::{Cap, Wide};
use slot_core::{Link, LinkedStore, Slot};
use std::alloc::{AllocError, Global};
use std::test::Fail;

// Whether a row is an empty slot's. Each field is named and bound at its type, so a field more would not compile.
fn is_blank(link: Link) -> bool {
    let Link {
        cap,
        previous,
        next,
        revocable,
        first_badged,
    } = link;
    let cap: Cap = cap;
    let previous: Option<Slot> = previous;
    let next: Option<Slot> = next;
    let revocable: bool = revocable;
    let first_badged: bool = first_badged;
    cap == Cap::Null && previous.is_none() && next.is_none() && !revocable && !first_badged
}

// The row of slot 10: an endpoint's capability is in slot 4, and below it, once the first of three with a badge is removed,
// are the other two, in slots 9 and 10.
fn link_after_a_removal(alloc: Global) -> Result<Link, AllocError> {
    let mut store: LinkedStore<Wide> = new_store(alloc)?;
    put_root(&mut store, 4, object::<Wide>(512, 4));
    derive(&mut store, 4, 8, 5);
    derive(&mut store, 4, 9, 5);
    derive(&mut store, 8, 10, 5);
    remove(&mut store, 8);
    Ok(store.link(slot::<Wide>(10)))
}

// Whether slot 10, the next one of the removed slot, is first badged, and is the last of the list.
fn next_is_first_badged(link: Link) -> bool {
    link.previous == Some(slot::<Wide>(9))
        && link.next == None
        && !link.revocable
        && link.first_badged
}

#[test]
fn rows_of_the_list_are_as_they_should_be(rt: HostRuntime) -> Result<(), Fail> {
    let store: LinkedStore<Wide> = new_store(rt.alloc())?;
    assert!(rt; is_blank(store.link(slot::<Wide>(4))), "an empty slot");
    let link = link_after_a_removal(rt.alloc())?;
    assert!(rt; next_is_first_badged(link), "the next slot after a removal");
    Ok(())
}
