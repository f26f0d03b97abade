//! The revoke of a slot by itself.
ghost use Rattle.std.specs.Prelude.{◌≡◌, true};
ghost use Rattle.kernel_forest.specs.Entries.{is_full};
ghost use Rattle.kernel_delete.specs.Revoke.{revoke as revoked};
ghost use Rattle.kernel_abstract.specs.Reached.{IsReached};
ghost use Rattle.kernel_abstract.specs.State.{State, shown};
ghost use Rattle.kernel_abstract.specs.Step.{objects_ended};
ghost use Rattle.kernel_abstract.specs.Private.Endings.{after_ending};

use crate::deletion::revoke_at;
use crate::kernel::Kernel;
use cap_core::Profile;
use ipc_core::Waiters;
use slot_core::CapStore;

impl<P: Profile, S: CapStore<P>, W: Waiters<P>> Kernel<P, S, W> {
    /// Revokes the full slot at an address, by itself: no thread makes a call of it, and none has to be able to name the
    /// slot. What was derived from its capability is cleared, and what ends with that ends, as by a call of a thread that is
    /// a revoke of the slot.
    ///
    /// For a kernel that stands for a state that runs reach, what is shown after is what the abstract step of such a call
    /// shows. It takes no memory.
    pub fn revoke_slot(&mut self, slot: u64)
        requires { is_full slot self.old.derivations ≡ true }
        ensures { (A : State) → IsReached P.profile A → self.old ≡ shown A → self.new ≡ shown (objects_ended A (revoked P.profile slot A.derivations)).state }
    {
        self.clear_below(slot);
    }

    fn clear_below(&mut self, slot: u64)
        requires { is_full slot self.old.derivations ≡ true }
        ensures { self.new ≡ after_ending self.old (revoked P.profile slot self.old.derivations) }
    {
        revoke_at(&mut self.store, &mut self.threads, &mut self.chain, slot);
    }
}
