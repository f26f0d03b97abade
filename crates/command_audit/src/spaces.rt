//! Threads that can name just the same, by the same words.
ghost use Rattle.std.specs.Prelude.{◌≡◌, find, option_copied};
ghost use Rattle.command_audit.specs.Spaces as spec;

use crate::threads::ThreadSlots;

/// Whether a thread can name something, and another one just the same.
fn name_alike(one: &ThreadSlots, other: &ThreadSlots) -> bool
    ensures { result ≡ spec.name_alike one.now other.now }
{
    !one.reached.is_empty()
        && one.reached.as_slice() == other.reached.as_slice()
        && one.held.as_slice() == other.held.as_slice()
}

/// The first of some threads that can name just what a thread can.
fn first_alike<'a>(list: &'a [ThreadSlots], slots: &ThreadSlots) -> Option<&'a ThreadSlots>
    ensures { option_copied result ≡ find (spec.name_alike slots.now) list.now }
{
    for other in list {
        if name_alike(slots, other) {
            return Some(other);
        }
    }
    None
}

/// The first of some threads that can name just what one of them can, where that is another one.
pub fn told_as(list: &[ThreadSlots], slots: &ThreadSlots) -> Option<u64>
    ensures { result ≡ spec.told_as list.now slots.now }
{
    match first_alike(list, slots) {
        Some(first) if first.thread != slots.thread => Some(first.thread),
        _ => None,
    }
}

/// Whether another one of some threads can name just what a thread can.
pub fn is_shared(list: &[ThreadSlots], slots: &ThreadSlots) -> bool
    ensures { result ≡ spec.is_shared list.now slots.now }
{
    for other in list {
        if other.thread != slots.thread && name_alike(slots, other) {
            return true;
        }
    }
    false
}
