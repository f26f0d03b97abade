//! The checks of a retype.
#![tactic(auto, using(crate::proofs::Answering::answering_then))]

ghost use Rattle.std.specs.Prelude.{◌≡◌, ◌≤◌, ◌<◌, ◌+◌, ◌*◌, ◌%◌, ◌^◌, IfOk, IfSome};
ghost use Rattle.cap_core.specs.Numbers.{slot_size, word_bits};
ghost use Rattle.cap_core.specs.Kinds.{kind_numbered, size_of};
ghost use Rattle.cap_core.specs.Limits.{max_retype_count};
ghost use Rattle.cap_core.specs.declared.capability.Cap.TheVariants.{Null};
ghost use Rattle.kernel_forest.specs.Entries.{cap_at};
ghost use Rattle.slot_core.specs.Places.{address_of};
ghost use Rattle.ipc_core.specs.Waits.{IsThreadAddress};
ghost use Rattle.mem_core.specs.Shapes.{IsShape};
ghost use Rattle.mem_core.specs.Plans.{IsRetypable, placed_in};
ghost use Rattle.kernel_abstract.specs.Shown.{has_child};
ghost use Rattle.kernel_abstract.specs.Reasons.{answering, because};
ghost use Rattle.kernel_checks.specs.Seen.{slot_seen};
ghost use Rattle.kernel_abstract.specs.Retyping.{checked_shape, no_shape, least_of, node_slot, node_word, first_slot as first_slot_of, first_full as first_full_of, no_room as no_room_of, no_room, checked_objects, checked_retype};

use crate::failure::Failure;
use crate::lookup::{held, of_kind, slot_by_index, slot_by_word};
use cap_core::limits::{MAX_MEMORY_BITS, MAX_RETYPE_COUNT};
use cap_core::{Cap, Kind, Profile, kind_of};
use kernel_abstract::invocation::{NewObjects, RetypeArguments};
use kernel_abstract::reason::{Held, Reason, Word};
use mem_core::{Placed, Shape, plan, shape};
use slot_core::{CapStore, Slot};

/// The objects that a retype makes, or the first check that fails: the invoked capability is an untyped one, the extra word
/// leads to a slot, the objects have a shape, the CNode is found, the slots are within it and empty, and the untyped has
/// room.
pub fn check_retype<P: Profile, S: CapStore<P>, F: Failure>(
    store: &S,
    thread: u64,
    at: Slot,
    asked: RetypeArguments,
) -> Result<NewObjects, F>
    requires memory { S.memory_bits store.now ≤ MAX_MEMORY_BITS }
    requires thread { IsThreadAddress P.profile (S.memory_bits store.now) thread }
    ensures { result ≡ answering F.of (checked_retype P.profile (S.forest store.now) thread (address_of P.profile at) asked) }
{
    let untyped = of_kind::<F>(held::<P, S>(store, at), Kind::Untyped)?;
    let root = slot_by_word::<P, S, F>(store, Word::Root, thread, asked.root)?;
    let shape = shape_asked::<P, F>(asked.kind, asked.size_bits)?;
    check_objects::<P, S, F>(store, at, untyped, root, shape, asked)
}

/// The shape of the objects that are asked for.
#[inline(always)]
fn shape_asked<P: Profile, F: Failure>(number: u64, size_bits: u64) -> Result<Shape, F>
    ensures value { result ≡ answering F.of (checked_shape P.profile number size_bits) }
    ensures shape { IfOk result (λ s. IsShape s) }
{
    match shape::<P>(number, size_bits) {
        Ok(shape) => Ok(shape),
        Err(_) => Err(F::because(refused_shape::<P>(number, size_bits))),
    }
}

/// Why objects of a kind, by its number, and a size have no shape.
fn refused_shape<P: Profile>(number: u64, size_bits: u64) -> Reason
    ensures { result ≡ no_shape P.profile size_bits (kind_numbered number) }
{
    let Some(kind) = kind_of(number) else {
        return Reason::NoKind;
    };
    if size_bits >= P::WORD_BITS as u64 {
        let below = P::WORD_BITS;
        return Reason::NoSize { below };
    }
    let most = P::MAX_OBJECT_BITS;
    let bits = size_in_bits::<P>(kind, size_bits as u32);
    if bits > most {
        return Reason::TooLarge { kind, bits, most };
    }
    let least = least_size::<P>(kind);
    Reason::TooSmall { kind, least }
}

/// The bits of an object's size in bytes, however large it is.
fn size_in_bits<P: Profile>(kind: Kind, size_bits: u32) -> u32
    requires below { size_bits < word_bits P.profile }
    ensures { result ≡ size_of P.profile kind size_bits }
{
    match kind {
        Kind::Untyped => size_bits,
        Kind::Tcb => P::TCB_BITS,
        Kind::Endpoint => P::ENDPOINT_BITS,
        Kind::CNode => P::SLOT_BITS + size_bits,
    }
}

/// The least size of a kind that may be asked for.
fn least_size<P: Profile>(kind: Kind) -> u32
    ensures { result ≡ least_of P.profile kind }
{
    match kind {
        Kind::Untyped => P::MIN_UNTYPED_BITS,
        Kind::Tcb | Kind::Endpoint => 0,
        Kind::CNode => 1,
    }
}

/// The rest of the checks: of the slots that are filled, and of the room for the objects.
fn check_objects<P: Profile, S: CapStore<P>, F: Failure>(
    store: &S,
    at: Slot,
    untyped: Cap,
    root: Slot,
    shape: Shape,
    asked: RetypeArguments,
) -> Result<NewObjects, F>
    requires untyped { IsRetypable untyped }
    requires shape { IsShape shape }
    ensures { result ≡ answering F.of (checked_objects P.profile (S.forest store.now) (address_of P.profile at) untyped (address_of P.profile root) shape asked) }
{
    let node = node_for::<P, S, F>(store, root, asked.index, asked.depth)?;
    let word = word_of_node(asked.depth);
    let first_slot = first_slot::<P, S, F>(store, word, node, asked.offset, asked.count)?;
    let placed = place::<P, S, F>(store, at, untyped, shape, asked.count)?;
    Ok(NewObjects {
        untyped: at.address::<P>(),
        shape,
        placed,
        first_slot,
        count: asked.count,
    })
}

/// The slot of the CNode whose slots are filled.
fn node_for<P: Profile, S: CapStore<P>, F: Failure>(
    store: &S,
    root: Slot,
    index: u64,
    depth: u64,
) -> Result<Slot, F>
    ensures { slot_seen P.profile result ≡ answering F.of (node_slot P.profile (S.forest store.now) (address_of P.profile root) index depth) }
{
    if depth == 0 {
        return Ok(root);
    }
    slot_by_index::<P, S, F>(store, Word::Index, root, index, depth)
}

/// The word that names this CNode.
fn word_of_node(depth: u64) -> Word
    ensures { result ≡ node_word depth }
{
    if depth == 0 { Word::Root } else { Word::Index }
}

/// Where the objects are placed in the untyped region that the capability in a slot names.
#[inline(always)]
fn place<P: Profile, S: CapStore<P>, F: Failure>(
    store: &S,
    at: Slot,
    untyped: Cap,
    shape: Shape,
    count: u64,
) -> Result<Placed, F>
    requires untyped { IsRetypable untyped }
    requires shape { IsShape shape }
    requires some { 1 ≤ count }
    requires most { count ≤ max_retype_count }
    ensures { let at = address_of P.profile at in let has = has_child at (S.forest store.now) in
        result ≡ answering F.of (because (no_room at has shape.bits untyped) (placed_in has shape.bits count untyped)) }
{
    let has_children = store.first_child(at).is_some();
    match plan(untyped, has_children, shape, count) {
        Ok(placed) => Ok(placed),
        Err(_) => {
            let slot = at.address::<P>();
            let untyped = Held { slot, cap: untyped };
            Err(F::because(refused_room(untyped, has_children, shape)))
        }
    }
}

/// Why an untyped region has no room for objects.
fn refused_room(untyped: Held, has_children: bool, shape: Shape) -> Reason
    requires untyped { IsRetypable untyped.cap }
    requires shape { IsShape shape }
    ensures { result ≡ no_room_of untyped.slot has_children shape.bits untyped.cap }
{
    let bits = shape.bits;
    let (start, room) = match untyped.cap {
        Cap::Untyped {
            bits: region,
            free,
            ..
        } => {
            let start = if has_children { free } else { 0 };
            (start, ((1u64 << region) - start) >> bits)
        }
        _ => (0, 0),
    };
    Reason::NoRoom {
        untyped,
        has_children,
        start,
        bits,
        room,
    }
}

/// The address of the first slot that is filled, where all of them are slots of the CNode, and empty.
#[inline(always)]
fn first_slot<P: Profile, S: CapStore<P>, F: Failure>(
    store: &S,
    word: Word,
    slot: Slot,
    offset: u64,
    count: u64,
) -> Result<u64, F>
    ensures value { result ≡ answering F.of (first_slot_of P.profile (S.forest store.now) word offset count (address_of P.profile slot) (cap_at (S.forest store.now) (address_of P.profile slot))) }
    ensures some { IfOk result (λ _. 1 ≤ count) }
    ensures most { IfOk result (λ _. count ≤ max_retype_count) }
{
    let node = held::<P, S>(store, slot);
    let Cap::CNode { base, radix, .. } = store.get(slot) else {
        return Err(F::because(Reason::NoNode { word, found: node }));
    };
    let slots = 1u64 << radix;
    if offset >= slots {
        return Err(F::because(Reason::NoOffset { word, node }));
    }
    if count < 1 || count > MAX_RETYPE_COUNT {
        let most = MAX_RETYPE_COUNT;
        return Err(F::because(Reason::NoCount { most }));
    }
    if count > slots - offset {
        return Err(F::because(Reason::FewSlots { word, node }));
    }
    let first = Slot::of_node::<P>(base, offset).address::<P>();
    if let Some(place) = first_full::<P, S>(store, first, count) {
        let full = held::<P, S>(store, Slot::of_node::<P>(first, place));
        let number = offset + place;
        return Err(F::because(Reason::SomeFull {
            word,
            node,
            number,
            full,
        }));
    }
    Ok(first)
}

/// The first full slot of those that are to be filled, `count` slots from the address `first` on, by its place among them.
fn first_full<P: Profile, S: CapStore<P>>(store: &S, first: u64, count: u64) -> Option<u64>
    requires aligned { first % slot_size P.profile ≡ 0 }
    requires end { first + count * slot_size P.profile ≤ 2 ^ word_bits P.profile }
    ensures value { result ≡ first_full_of P.profile (S.forest store.now) first count }
    ensures below { IfSome result (λ place. place < count) }
{
    (0..count).find(|i| store.get(Slot::of_node::<P>(first, *i)) != Cap::Null)
}
