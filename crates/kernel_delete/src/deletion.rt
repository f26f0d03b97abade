//! Deletion and revocation, over any capability store.
ghost use Rattle.std.specs.Prelude.{◌≡◌, Bool, ◌<◌, ◌++◌, [], false};
ghost use Rattle.cap_core.specs.declared.capability.Cap.{Cap};
ghost use Rattle.cap_core.specs.Numbers.{word_bits};
ghost use Rattle.cap_core.specs.Objects.{IsLawful, same_object};
ghost use Rattle.slot_core.specs.Places.{address_of};
ghost use Rattle.kernel_forest.specs.Forest.{preorder};
ghost use Rattle.kernel_forest.specs.Derivation.{emptied};
ghost use Rattle.kernel_delete.specs.Members.{AreDistinct, AreBelow};
ghost use Rattle.kernel_forest.specs.Slots.{slots_of};
ghost use Rattle.kernel_delete.specs.Clear.{clear as cleared_forest, ended};
ghost use Rattle.kernel_delete.specs.Revoke.{revoke as revoked_forest};
ghost use Rattle.kernel_delete.specs.Work.{IsClearable};
ghost use Rattle.kernel_delete.specs.Calls.{either, HoldsNoNull, rest_after, ends_object};

use crate::chain::SlotChain;
use cap_core::{Cap, Profile};
use slot_core::{CapStore, Slot};

/// What is kept of objects beside their capabilities, as the threads that wait on an endpoint. It is told of each
/// object that ends.
pub trait Finalise {
    /// The second is what the first comes to where the objects that pass have ended.
    ghost Ended: { (Cap → Bool) → Self → Self → Type 0 };

    /// The object that a capability names has ended.
    fn finalise(&mut self, cap: Cap)
        ensures { Ended (same_object cap) self.old self.new };

    ghost none_ended: { (w : Self) → Ended (λ c. false) w w };

    ghost both_ended: { (p q : Cap → Bool) (u v w : Self) → Ended p u v → Ended q v w → Ended (either p q) u w };
}

/// Puts the slots of an object in front of the chain, by rising address.
#[tactic(auto, unfolding(kernel_forest::specs::Slots::slots_of))]
fn push_slots<P: Profile>(chain: &mut SlotChain<P>, cap: Cap)
    requires lawful { IsLawful P.profile (word_bits P.profile) cap }
    requires distinct { AreDistinct (slots_of P.profile cap ++ chain.old.0) }
    requires within { AreBelow chain.old.1 (slots_of P.profile cap) }
    ensures { chain.new ≡ (slots_of P.profile cap ++ chain.old.0, chain.old.1) }
{
    match cap {
        Cap::CNode { base, radix, .. } => chain.push_node(base, 1 << radix),
        Cap::Tcb { base } => chain.push(Slot::of_node::<P>(base, 0)),
        Cap::Null | Cap::Untyped { .. } | Cap::Endpoint { .. } => {}
    }
}

/// Looks at one slot: a full one is emptied. Where an object ends with it, the object's slots go in front of the chain.
fn clear_one<P: Profile, S: CapStore<P>, F: Finalise>(
    store: &mut S,
    rest: &mut F,
    chain: &mut SlotChain<P>,
    slot: Slot,
)
    requires no_null { HoldsNoNull P.profile slot (S.forest store.old) }
    requires distinct { AreDistinct (rest_after P.profile slot (S.forest store.old) chain.old.0) }
    requires within { AreBelow chain.old.1 (rest_after P.profile slot (S.forest store.old) chain.old.0) }
    ensures forest { S.forest store.new ≡ emptied (address_of P.profile slot) (S.forest store.old) }
    ensures memory { S.memory_bits store.new ≡ S.memory_bits store.old }
    ensures ended { F.Ended (ends_object P.profile slot (S.forest store.old)) rest.old rest.new }
    ensures chain { chain.new ≡ (rest_after P.profile slot (S.forest store.old) chain.old.0, chain.old.1) }
{
    let cap = store.get(slot);
    if let Cap::Null = cap {
        return;
    }
    let ends = store.is_last(slot);
    store.remove(slot);
    if ends {
        rest.finalise(cap);
        push_slots(chain, cap);
    }
}

/// Deletes what a slot holds (seL4 Reference Manual, on `seL4_CNode_Delete`): it is emptied, and with each object that
/// ends all that the object's slots hold. `rest` is told of each object that ends.
pub fn clear<P: Profile, S: CapStore<P>, F: Finalise>(
    store: &mut S,
    rest: &mut F,
    chain: &mut SlotChain<P>,
    slot: Slot,
)
    requires clearable { IsClearable P.profile chain.old.1 (preorder (S.forest store.old)) }
    requires within { address_of P.profile slot < chain.old.1 }
    requires empty { chain.old.0 ≡ [] }
    ensures forest { S.forest store.new ≡ cleared_forest P.profile (address_of P.profile slot) (S.forest store.old) }
    ensures memory { S.memory_bits store.new ≡ S.memory_bits store.old }
    ensures ended { F.Ended (ended (S.forest store.old) (S.forest store.new)) rest.old rest.new }
    ensures chain { chain.new ≡ chain.old }
{
    chain.push(slot);
    while let Some(next) = chain.pop() {
        clear_one(store, rest, chain, next);
    }
}

/// Deletes all that was derived from what a slot holds (seL4 Reference Manual, on `seL4_CNode_Revoke`): while the slot
/// has a child, its first child is cleared.
pub fn revoke<P: Profile, S: CapStore<P>, F: Finalise>(
    store: &mut S,
    rest: &mut F,
    chain: &mut SlotChain<P>,
    slot: Slot,
)
    requires clearable { IsClearable P.profile chain.old.1 (preorder (S.forest store.old)) }
    requires empty { chain.old.0 ≡ [] }
    ensures forest { S.forest store.new ≡ revoked_forest P.profile (address_of P.profile slot) (S.forest store.old) }
    ensures memory { S.memory_bits store.new ≡ S.memory_bits store.old }
    ensures ended { F.Ended (ended (S.forest store.old) (S.forest store.new)) rest.old rest.new }
    ensures chain { chain.new ≡ chain.old }
{
    while let Some(child) = store.first_child(slot) {
        clear(store, rest, chain, child);
    }
}
