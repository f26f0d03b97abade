//! Who may make the calls of a witness.
ghost use Rattle.std.specs.Prelude.{◌≡◌};
ghost use Rattle.command_how_witness.specs.Witness as spec;

use command_parts::is_in;
use query_parts::{PartMemory, part_at};

/// Whether a thread lies in a part, and is not trusted to make no more calls.
pub fn may_call(memory: &[PartMemory], without: &[u64], thread: u64) -> bool
    ensures { result ≡ spec.may_thread_call memory.now without.now thread }
{
    part_at(memory, thread).is_some() && !is_in(without, thread)
}
