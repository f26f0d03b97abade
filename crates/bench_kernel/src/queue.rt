//! Messages to and fro between two threads over waiting threads as queues inside tables, to be measured.
ghost use Rattle.std.specs.Prelude.{◌≡◌};
ghost use Rattle.ipc_core.specs.Waits.{no_waits};

use cap_core::{Badge, Message, Wide};
use ipc_core::{LinkedWaiters, MakeWaiters, Received, Sent, Waiters};
use std::alloc::{AllocError, Global};

const MEMORY_BITS: u32 = 14;

/// Makes the waiting threads and goes through so many rounds; the number of rounds in which both messages arrived, or 0 if
/// there was no memory.
#[unsafe(no_mangle)]
pub extern "C" fn ping_pong_run(alloc: Global, rounds: u64) -> u64 {
    match run(alloc, rounds) {
        Ok(arrived) => arrived,
        Err(_) => 0,
    }
}

fn run(alloc: Global, rounds: u64) -> Result<u64, AllocError> {
    let mut waiters = <LinkedWaiters<Wide> as MakeWaiters<Wide>>::new(alloc, MEMORY_BITS)?;
    let mut arrived = 0;
    for round in 0..rounds {
        if ping(&mut waiters, round) && pong(&mut waiters, round) {
            arrived += 1;
        }
    }
    Ok(arrived)
}

/// The second thread receives and waits, and the first sends to it.
fn ping<W: Waiters<Wide>>(waiters: &mut W, round: u64) -> bool
    requires memory { W.memory_bits waiters.old ≡ 14 }
    requires nobody { W.waits waiters.old ≡ no_waits }
    ensures memory { W.memory_bits waiters.new ≡ 14 }
    ensures nobody { W.waits waiters.new ≡ no_waits }
{
    waiters.recv(0, 4096, true);
    waiters.send(0, 2048, Badge(1), message(round), true) == Sent::Delivered { to: 4096 }
}

/// The second thread sends and waits, and the first receives from it.
fn pong<W: Waiters<Wide>>(waiters: &mut W, round: u64) -> bool
    requires memory { W.memory_bits waiters.old ≡ 14 }
    requires nobody { W.waits waiters.old ≡ no_waits }
    ensures memory { W.memory_bits waiters.new ≡ 14 }
    ensures nobody { W.waits waiters.new ≡ no_waits }
{
    waiters.send(16, 4096, Badge(2), message(round), true);
    let received = waiters.recv(16, 2048, true);
    match received {
        Received::Delivered { from, message, .. } => from == 4096 && message.label == round,
        _ => false,
    }
}

fn message(round: u64) -> Message {
    Message {
        label: round,
        words: [round, 0, 0, 0],
        count: 1,
    }
}
