//! A capability store of this program's own, over which a kernel runs as over those of `slot_core`.
use crate::names::{Cap, CapStore, MakeStore, RowStore, Slot, Wide};
use std::alloc::{AllocError, Global};

/// A store that keeps its capabilities in a plain one, and hands each call on to it.
#[derive(Drop)]
pub struct OwnStore {
    kept: RowStore<Wide>,
}

impl CapStore<Wide> for OwnStore {
    ghost forest = { λ s. ⟦<RowStore<Wide> as CapStore<Wide>>⟧.forest s.kept };

    ghost memory_bits = { λ s. ⟦<RowStore<Wide> as CapStore<Wide>>⟧.memory_bits s.kept };

    fn get(&self, slot: Slot) -> Cap {
        self.kept.get(slot)
    }

    fn put_root(&mut self, slot: Slot, cap: Cap) {
        self.kept.put_root(slot, cap);
    }

    fn put_new(&mut self, parent: Slot, slot: Slot, cap: Cap) {
        self.kept.put_new(parent, slot, cap);
    }

    fn derive(&mut self, source: Slot, slot: Slot, cap: Cap) {
        self.kept.derive(source, slot, cap);
    }

    fn relocate(&mut self, source: Slot, slot: Slot, cap: Cap) {
        self.kept.relocate(source, slot, cap);
    }

    fn set_free(&mut self, slot: Slot, free: u64) {
        self.kept.set_free(slot, free);
    }

    fn remove(&mut self, slot: Slot) {
        self.kept.remove(slot);
    }

    fn first_child(&self, slot: Slot) -> Option<Slot> {
        self.kept.first_child(slot)
    }

    fn is_last(&self, slot: Slot) -> bool {
        self.kept.is_last(slot)
    }
}

impl MakeStore<Wide> for OwnStore {
    fn new(alloc: Global, memory_bits: u32) -> Result<OwnStore, AllocError> {
        let kept = RowStore::new(alloc, memory_bits)?;
        Ok(OwnStore { kept })
    }

    fn copy(&self, alloc: Global) -> Result<OwnStore, AllocError> {
        let kept = self.kept.copy(alloc)?;
        Ok(OwnStore { kept })
    }
}
