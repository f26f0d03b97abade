//! Kernels that are copied into the room of others, and that are kept in no more room than what they hold takes.
ghost use Rattle.std.specs.Prelude.{◌≡◌, IfOk};

use crate::ending::Threads;
use crate::kernel::Kernel;
use crate::rows::LiveRow;
use cap_core::Profile;
use ipc_core::SaveWaiters;
use kernel_delete::SlotChain;
use slot_core::SaveStore;
use std::alloc::{AllocError, Global};
use std::marker::{Model, PhantomData};

/// What a kernel holds, without the room that its calls may need: it takes memory for what is there, however large the
/// simulated memory is. Contracts see it as what the kernel shows.
#[derive(Drop)]
pub struct SavedKernel<P: Profile, S: SaveStore<P>, W: SaveWaiters<P>> {
    store: S::Saved,
    waiters: W::Saved,
    rows: Vec<LiveRow>,
    memory_bits: u32,
}

impl<P: Profile, S: SaveStore<P>, W: SaveWaiters<P>> Model for SavedKernel<P, S, W> {
    ghost use Rattle.kernel_abstract.specs.Shown.{Shown};
    ghost use Rattle.std.specs.Coded.{codes};
    ghost use Rattle.std.specs.FinMap.{code as coded_map};
    ghost use Rattle.kernel_forest.specs.Evidence.Spelled.{coded_forest};

    ghost Value = { Shown };

    ghost coded = { Prim.hlevel (codes, coded_map, coded_forest) };

    ghost use Rattle.kernel_core.specs.Rows.{kernel_shown, IsKernel};
    ghost use Rattle.kernel_core.specs.SavedRows.{rows_saved};

    ghost view = { λ k. kernel_shown P.profile (S.saved_forest k.store) (rows_saved P.profile k.memory_bits k.rows.items)
        (W.saved_waits k.waiters) };

    ghost invariant = { λ k. IsKernel P.profile k.memory_bits (S.saved_memory k.store) (W.saved_memory k.waiters)
        (S.saved_forest k.store) (rows_saved P.profile k.memory_bits k.rows.items) (W.saved_waits k.waiters) };
}

impl<P: Profile, S: SaveStore<P>, W: SaveWaiters<P>> Kernel<P, S, W> {
    /// A kernel of its own that shows the same, in the room of a kernel that is given up. It takes memory only where that has
    /// too little room; the chain for slots that are cleared is taken as it is, since no slot is in it between calls.
    pub fn copy_into(
        &self,
        alloc: Global,
        spare: Kernel<P, S, W>,
    ) -> Result<Kernel<P, S, W>, AllocError>
        ensures { IfOk result (λ kernel. kernel ≡ self.now) }
    {
        let memory_bits = self.threads.memory_bits;
        if spare.threads.memory_bits != memory_bits {
            return self.copy(alloc);
        }
        let Kernel {
            store,
            threads,
            chain,
        } = spare;
        let store = self.store.copy_into(store)?;
        let waiters = self.threads.waiters.copy_into(threads.waiters)?;
        let mut rows = threads.rows;
        rows.copy_from(&self.threads.rows);
        Ok(Kernel {
            store,
            threads: Threads {
                waiters,
                rows,
                memory_bits,
                of: PhantomData,
            },
            chain,
        })
    }

    /// What the kernel holds, to be made a kernel again later.
    pub fn save(&self, alloc: Global) -> Result<SavedKernel<P, S, W>, AllocError>
        ensures { IfOk result (λ saved. saved ≡ self.now) }
    {
        let rows = self.threads.rows.live(alloc)?;
        Ok(SavedKernel {
            store: self.store.save(alloc)?,
            waiters: self.threads.waiters.save(alloc)?,
            rows,
            memory_bits: self.threads.memory_bits,
        })
    }
}

impl<P: Profile, S: SaveStore<P>, W: SaveWaiters<P>> SavedKernel<P, S, W> {
    /// A kernel that shows what was saved, in the room of a kernel that is given up. It takes memory only where that has too
    /// little room.
    pub fn restore(
        &self,
        alloc: Global,
        spare: Kernel<P, S, W>,
    ) -> Result<Kernel<P, S, W>, AllocError>
        ensures { IfOk result (λ kernel. kernel ≡ self.now) }
    {
        let memory_bits = self.memory_bits;
        let Kernel {
            store,
            threads,
            chain,
        } = spare;
        let chain = if threads.memory_bits == memory_bits {
            chain
        } else {
            SlotChain::new(alloc, 1 << (memory_bits - P::SLOT_BITS))?
        };
        let store = S::restore(&self.store, store)?;
        let waiters = W::restore(&self.waiters, threads.waiters)?;
        let mut rows = threads.rows;
        rows.clear(1 << (memory_bits - P::TCB_BITS))?;
        rows.put_live(self.rows.as_slice());
        Ok(Kernel {
            store,
            threads: Threads {
                waiters,
                rows,
                memory_bits,
                of: PhantomData,
            },
            chain,
        })
    }
}
