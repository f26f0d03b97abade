//! Boot: a kernel from a plan.
ghost use Rattle.std.specs.Prelude.{◌≡◌, ◌-◌, ◌/◌, ◌^◌, IfOk};
ghost use Rattle.kernel_delete.specs.Housed.{IsHoused};
ghost use Rattle.kernel_core.specs.Private.BootRows.{boot_rows};
ghost use Rattle.kernel_abstract.specs.State.{shown};
ghost use Rattle.kernel_abstract.specs.Memory.{IsInMemory};
ghost use Rattle.cap_core.specs.Numbers.{tcb_bits, tcb_size};
ghost use Rattle.kernel_abstract.specs.Plan.{IsPlan, first_tcb};
ghost use Rattle.kernel_abstract.specs.Boot.{boot as booted};

use crate::ending::Threads;
use crate::kernel::Kernel;
use crate::rows::ThreadRows;
use cap_core::Profile;
use ipc_core::MakeWaiters;
use kernel_boot::{BootPlan, booted_store};
use kernel_delete::SlotChain;
use slot_core::MakeStore;
use std::alloc::{AllocError, Global};
use std::marker::PhantomData;

impl<P: Profile, S: MakeStore<P>, W: MakeWaiters<P>> Kernel<P, S, W> {
    /// A kernel with the objects of a plan, each thread ready with the root CNode as its capability space. The layout is
    /// this project's profile. What it shows is the abstract boot of the plan, and lies in the plan's memory, its full slots
    /// in live objects. All memory of the kernel is taken here.
    pub fn boot(alloc: Global, plan: &BootPlan) -> Result<Kernel<P, S, W>, AllocError>
        requires { IsPlan P.profile plan.now }
        ensures shows { IfOk result (λ kernel. kernel ≡ shown (booted P.profile plan.now)) }
        ensures within { IfOk result (λ kernel. IsInMemory P.profile plan.now.memory_bits kernel) }
        ensures housed { IfOk result (λ kernel. IsHoused P.profile kernel.derivations) }
    {
        let store = booted_store::<P, S>(alloc, plan)?;
        let waiters = W::new(alloc, plan.memory_bits())?;
        let rows = boot_threads::<P>(alloc, plan)?;
        let chain = SlotChain::new(alloc, 1 << (plan.memory_bits() - P::SLOT_BITS))?;
        Ok(Kernel {
            store,
            threads: Threads {
                waiters,
                rows,
                memory_bits: plan.memory_bits(),
                of: PhantomData,
            },
            chain,
        })
    }

    /// A kernel of its own that shows the same, with all the room that a boot takes. No call of either changes the
    /// other.
    pub fn copy(&self, alloc: Global) -> Result<Kernel<P, S, W>, AllocError>
        ensures { IfOk result (λ kernel. kernel ≡ self.now) }
    {
        let memory_bits = self.threads.memory_bits;
        let store = self.store.copy(alloc)?;
        let waiters = self.threads.waiters.copy(alloc)?;
        let rows = self.threads.rows.copy(alloc)?;
        let chain = SlotChain::new(alloc, 1 << (memory_bits - P::SLOT_BITS))?;
        Ok(Kernel {
            store,
            threads: Threads {
                waiters,
                rows,
                memory_bits,
                of: PhantomData,
            },
            chain,
        })
    }
}

/// The rows of the threads: of the boot threads, which are ready, among the places of the memory.
fn boot_threads<P: Profile>(alloc: Global, plan: &BootPlan) -> Result<ThreadRows, AllocError>
    requires { IsPlan P.profile plan.now }
    ensures { IfOk result (λ rows. rows ≡ boot_rows (first_tcb P.profile plan.now / tcb_size P.profile) plan.now.threads (2 ^ (plan.now.memory_bits - tcb_bits P.profile))) }
{
    let first = plan.first_tcb::<P>() >> P::TCB_BITS;
    let count = 1u64 << (plan.memory_bits() - P::TCB_BITS);
    ThreadRows::ready(alloc, first, u64::from(plan.threads()), count)
}
