//! Why a kernel refuses a call.
ghost use Rattle.std.specs.Prelude.{◌≡◌, ◌≤◌, ◌∷◌, [], IfOk, IfSome, option_map};
ghost use Rattle.cap_core.specs.Numbers.{word_bits};
ghost use Rattle.kernel_forest.specs.Entries.{cap_at as cap_held};
ghost use Rattle.cspace_core.specs.Bits.{low_bits};
ghost use Rattle.kernel_abstract.specs.State.{State, shown};
ghost use Rattle.kernel_abstract.specs.Step.{step, refusal_in};
ghost use Rattle.kernel_abstract.specs.Reasons.{refusal_of};
ghost use Rattle.kernel_checks.specs.Facts.{told_by, AreThere};
ghost use Rattle.kernel_abstract.specs.Decode.{checked_call, reason_of};
ghost use Rattle.kernel_checks.specs.Paths.{path as path_of};
ghost use Rattle.kernel_checks.specs.Hints.{word_hint as word_hint_of, index_hint as index_hint_of};

use crate::addresses::slot_within;
use crate::kernel::Kernel;
use cap_core::{Cap, Profile};
use ipc_core::Waiters;
use kernel_abstract::call::{Call, ThreadState};
use kernel_abstract::invocation::Invocation;
use kernel_abstract::reason::{Held, Reason};
use kernel_checks::{Hint, index_hint, path, reason_in, reason_op, word_hint};
use slot_core::CapStore;
use std::alloc::{AllocError, Global};

impl<P: Profile, S: CapStore<P>, W: Waiters<P>> Kernel<P, S, W> {
    /// Why the kernel, as it stands, refuses a call: the first check that fails, with what was found there; `None` where
    /// all checks pass. A refused call changes nothing, so its reason can be asked for after it too.
    ///
    /// For a kernel that stands for an abstract state, there is a reason exactly where the abstract step refuses the call,
    /// and its refusal is the reply. Each slot that the reason names holds the capability that it tells. It takes no
    /// memory.
    pub fn reason(&self, call: &Call) -> Option<Reason>
        ensures reason { result ≡ reason_of P.profile self.now call.now }
        ensures refusal { (A : State) → self.now ≡ shown A → option_map refusal_of result ≡ refusal_in (step P.profile A call.now).reply }
        ensures facts { IfSome result (λ reason. AreThere self.now.derivations (told_by reason)) }
    {
        reason_in(self.explain_call(call))
    }

    /// The slots that a lookup comes to, each with what is in it: the slot at the address `slot` at which it begins, each slot
    /// that it comes to by the low `bits` bits of an address, and the last is where it ends or fails. It takes memory for
    /// them.
    pub fn lookup_path(
        &self,
        alloc: Global,
        slot: u64,
        address: u64,
        bits: u32,
    ) -> Result<Vec<Held>, AllocError>
        requires { bits ≤ word_bits P.profile }
        ensures { IfOk result (λ path. path.items ≡ path_of P.profile (cap_held self.now.derivations) slot (low_bits bits address)) }
    {
        match slot_within::<P>(self.threads.memory_bits, slot) {
            Some(root) => path::<P, S>(alloc, &self.store, root, address, bits),
            None => path_of_one(alloc, slot, Cap::Null),
        }
    }

    /// What would lead to a slot where a word does not, in the capability space whose root is in the slot at the address
    /// `root`, as a thread's is at its own address: the number of the slot whose address the word is. It takes no memory.
    pub fn word_hint(&self, root: u64, word: u64) -> Option<Hint>
        ensures { result ≡ word_hint_of P.profile self.now.derivations root word }
    {
        match slot_within::<P>(self.threads.memory_bits, root) {
            Some(root) => word_hint::<P, S>(&self.store, root, word),
            None => None,
        }
    }

    /// What would name a slot where an index and a depth do not, from the slot at the address `root` on: the least depth that
    /// cuts no bit of the index off, or the number of the slot whose address the index is. It takes no memory.
    pub fn index_hint(&self, root: u64, index: u64, depth: u64) -> Option<Hint>
        ensures { result ≡ index_hint_of P.profile (cap_held self.now.derivations) root index depth }
    {
        match slot_within::<P>(self.threads.memory_bits, root) {
            Some(root) => index_hint::<P, S>(&self.store, root, index, depth),
            None => None,
        }
    }

    /// What the kernel, as it stands, does by a call, or the first check that fails, with its reason. It takes no memory.
    pub fn explain_call(&self, call: &Call) -> Result<Invocation, Reason>
        ensures { result ≡ checked_call P.profile self.now call.now }
    {
        let Some(state) = self.thread_state(call.thread) else {
            return Err(Reason::NoThread);
        };
        match state {
            ThreadState::Ready => reason_op::<P, S>(&self.store, call.thread, &call.op),
            _ => Err(Reason::NotReady(state)),
        }
    }
}

fn path_of_one(alloc: Global, slot: u64, cap: Cap) -> Result<Vec<Held>, AllocError>
    ensures { IfOk result (λ path. path.items ≡ record { slot = slot; cap = cap } ∷ []) }
{
    let mut path = Vec::new(alloc);
    path.push(Held { slot, cap })?;
    Ok(path)
}
