//! The capabilities and the threads of new objects.
ghost use Rattle.std.specs.Prelude.{◌≡◌, ℕ, ◌*◌, ◌/◌, ◌%◌, ◌^◌, ◌<◌, length, map};
ghost use Rattle.std.specs.List.{range_with_len};
ghost use Rattle.std.specs.FinMap.{insert};
ghost use Rattle.cap_core.specs.Numbers.{tcb_size};
ghost use Rattle.mem_core.specs.Plans.{object_at};
ghost use Rattle.kernel_abstract.specs.Retyping.{with_objects};
ghost use Rattle.kernel_abstract.specs.Private.Invocations.{IsRetype};
ghost use Rattle.kernel_core.specs.Rows.{rows_map};
ghost use Rattle.kernel_core.specs.Private.NewRows.{new_row, with_rows};
ghost use Rattle.kernel_abstract.specs.Private.Stores.{IsKernelStore};

use crate::rows::{ThreadRow, ThreadRows};
use cap_core::{Cap, Profile, fresh};
use kernel_abstract::invocation::NewObjects;
use mem_core::Placed;
use slot_core::{CapStore, Slot};

/// Makes objects in an untyped region: it is used up to the end of the last one, and their capabilities are put into their
/// slots, each the first child of the untyped.
pub fn make_objects<P: Profile, S: CapStore<P>>(store: &mut S, new: NewObjects)
    requires store { IsKernelStore P.profile (S.memory_bits store.old) (S.forest store.old) }
    requires retype { IsRetype P.profile (S.forest store.old) new }
    ensures forest { S.forest store.new ≡ with_objects P.profile new (S.forest store.old) }
    ensures memory { S.memory_bits store.new ≡ S.memory_bits store.old }
{
    let untyped = Slot::of_node::<P>(new.untyped, 0);
    store.set_free(untyped, new.placed.free);
    for i in 0..new.count {
        let cap = fresh(
            new.shape.kind,
            new.placed.first + i * new.placed.step,
            new.shape.size_bits,
        );
        store.put_new(untyped, Slot::of_node::<P>(new.first_slot, i), cap);
    }
}

/// Writes the rows of new threads, which are inactive and got no message.
pub fn add_threads<P: Profile>(rows: &mut ThreadRows, placed: Placed, count: u64)
    requires aligned { (i : ℕ) → i < count → object_at placed i % tcb_size P.profile ≡ 0 }
    requires within { (i : ℕ) → i < count → object_at placed i < length rows.old * tcb_size P.profile }
    requires addressed { (i : ℕ) → i < count → object_at placed i < 2 ^ 64 }
    ensures map { rows_map (tcb_size P.profile) rows.new ≡ with_rows (map (object_at placed) (range_with_len 0 count)) (rows_map (tcb_size P.profile) rows.old) }
    ensures length { length rows.new ≡ length rows.old }
{
    for i in 0..count {
        add_thread::<P>(rows, placed.first + i * placed.step);
    }
}

/// Writes the row of a new thread.
fn add_thread<P: Profile>(rows: &mut ThreadRows, thread: u64)
    requires aligned { thread % tcb_size P.profile ≡ 0 }
    requires within { thread / tcb_size P.profile < length rows.old }
    ensures map { rows_map (tcb_size P.profile) rows.new ≡ insert (rows_map (tcb_size P.profile) rows.old) thread new_row }
    ensures length { length rows.new ≡ length rows.old }
{
    let place = (thread >> P::TCB_BITS) as usize;
    let row = ThreadRow {
        inactive: true,
        inbox: None,
    };
    rows.put(place, row);
}
