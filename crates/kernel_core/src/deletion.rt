//! Capabilities that are deleted, and what ends with them.
ghost use Rattle.std.specs.Prelude.{◌≡◌, ◌^◌, []};
ghost use Rattle.kernel_delete.specs.Clear.{clear as cleared, ended};
ghost use Rattle.kernel_delete.specs.Revoke.{revoke as revoked};
ghost use Rattle.kernel_abstract.specs.declared.call.Reply.TheVariants.{Done};
ghost use Rattle.kernel_abstract.specs.Threads.{with_space};
ghost use Rattle.kernel_abstract.specs.Memory.{IsSlotAddress};
ghost use Rattle.kernel_abstract.specs.Private.Stores.{IsKernelStore};
ghost use Rattle.kernel_abstract.specs.Private.Endings.{after_ending};
ghost use Rattle.kernel_abstract.specs.Private.Invocations.{IsNamedSlot, IsSpace};

use crate::kernel::Kernel;
use crate::placements::set_root;
use cap_core::Profile;
use ipc_core::Waiters;
use kernel_abstract::call::Reply;
use kernel_abstract::invocation::NewSpace;
use kernel_delete::{Finalise, SlotChain, clear, revoke};
use slot_core::{CapStore, Slot};

impl<P: Profile, S: CapStore<P>, W: Waiters<P>> Kernel<P, S, W> {
    /// Clears a slot.
    pub(crate) fn delete(&mut self, slot: u64) -> Reply
        requires { IsNamedSlot P.profile self.old.derivations slot }
        ensures reply { result ≡ Done }
        ensures after { self.new ≡ after_ending self.old (cleared P.profile slot self.old.derivations) }
    {
        clear_at(&mut self.store, &mut self.threads, &mut self.chain, slot);
        Reply::Done
    }

    /// Clears what was derived from the capability in a slot.
    pub(crate) fn revoke(&mut self, slot: u64) -> Reply
        requires { IsNamedSlot P.profile self.old.derivations slot }
        ensures reply { result ≡ Done }
        ensures after { self.new ≡ after_ending self.old (revoked P.profile slot self.old.derivations) }
    {
        revoke_at(&mut self.store, &mut self.threads, &mut self.chain, slot);
        Reply::Done
    }

    /// Gives a thread another root of its capability space: its root slot is cleared, and filled anew where the slots of
    /// the invoked capability and of the CNode's are still full then.
    pub(crate) fn set_space(&mut self, new: NewSpace) -> Reply
        requires { IsSpace P.profile self.old.derivations new }
        ensures reply { result ≡ Done }
        ensures after { self.new ≡ after_ending self.old (with_space P.profile new self.old.derivations) }
    {
        clear_at(&mut self.store, &mut self.threads, &mut self.chain, new.tcb);
        set_root::<P, S>(&mut self.store, new);
        Reply::Done
    }
}

/// Clears the slot at an address.
fn clear_at<P: Profile, S: CapStore<P>, F: Finalise>(
    store: &mut S,
    rest: &mut F,
    chain: &mut SlotChain<P>,
    slot: u64,
)
    requires store { IsKernelStore P.profile (S.memory_bits store.old) (S.forest store.old) }
    requires slot { IsSlotAddress P.profile (S.memory_bits store.old) slot }
    requires chain { chain.old ≡ ([], 2 ^ S.memory_bits store.old) }
    ensures forest { S.forest store.new ≡ cleared P.profile slot (S.forest store.old) }
    ensures memory { S.memory_bits store.new ≡ S.memory_bits store.old }
    ensures ended { F.Ended (ended (S.forest store.old) (cleared P.profile slot (S.forest store.old))) rest.old rest.new }
    ensures chain { chain.new ≡ chain.old }
{
    clear(store, rest, chain, Slot::of_node::<P>(slot, 0));
}

/// Clears what was derived from the capability in the slot at an address.
pub(crate) fn revoke_at<P: Profile, S: CapStore<P>, F: Finalise>(
    store: &mut S,
    rest: &mut F,
    chain: &mut SlotChain<P>,
    slot: u64,
)
    requires store { IsKernelStore P.profile (S.memory_bits store.old) (S.forest store.old) }
    requires slot { IsSlotAddress P.profile (S.memory_bits store.old) slot }
    requires chain { chain.old ≡ ([], 2 ^ S.memory_bits store.old) }
    ensures forest { S.forest store.new ≡ revoked P.profile slot (S.forest store.old) }
    ensures memory { S.memory_bits store.new ≡ S.memory_bits store.old }
    ensures ended { F.Ended (ended (S.forest store.old) (revoked P.profile slot (S.forest store.old))) rest.old rest.new }
    ensures chain { chain.new ≡ chain.old }
{
    revoke(store, rest, chain, Slot::of_node::<P>(slot, 0));
}
