//! A round of all operations over the linked forms: what `steps` and `replies` measure, each over a machine of its own.
ghost use Rattle.std.specs.Prelude.{◌<◌, ◌^◌};

use crate::machine::{LinkedKernel, WideOf};
use cap_core::{Message, Rights};
use kernel_core::{BootPlan, Call, Op, Reply};
use std::alloc::Global;

const MEMORY_BITS: u32 = 20;

const ROOT_RADIX: u32 = 12;

// Where the objects of the boot stand in that memory, and the words of their capabilities.
const FIRST_THREAD: u64 = 131072;

const SECOND_THREAD: u64 = 133120;

const ROOT: u64 = 1;

const SECOND_TCB: u64 = 3;

const ENDPOINT: u64 = 4;

const UNTYPED: u64 = 5;

/// The first slot that a round fills, how many it fills, and after how many rounds the slots come again.
const FIRST_SLOT: u32 = 8;

const SLOTS_A_ROUND: u32 = 6;

const TURN: u32 = 512;

/// The word that sets the root CNode's own guard: its bits, 0.
const GUARD_WORD: u64 = 52;

/// How deep an index is looked up: all bits of a word.
const DEPTH: u64 = 64;

/// How many calls a round makes.
pub const CALLS: usize = 20;

/// A kernel that has just booted, or `None` if memory was wanted and not there.
pub fn booted<const SUBJECT: u8>(alloc: Global) -> Option<LinkedKernel<WideOf<SUBJECT>>> {
    let mut untypeds = Vec::new(alloc);
    untypeds.push((524288, 19)).ok()?;
    let plan = BootPlan::new::<WideOf<SUBJECT>>(MEMORY_BITS, ROOT_RADIX, 2, 1, untypeds).ok()?;
    LinkedKernel::<WideOf<SUBJECT>>::boot(alloc, &plan).ok()
}

/// Whether a call was accepted.
pub fn is_accepted(reply: Reply) -> bool {
    match reply {
        Reply::Refused(_) => false,
        _ => true,
    }
}

/// The calls of a round by its number. Each round undoes what it makes.
pub fn round_of(round: u16) -> [Call; CALLS] {
    let round = u32::from(round);
    let slot = FIRST_SLOT + SLOTS_A_ROUND * (round % TURN);
    calls(u64::from(slot), u64::from(round + 1))
}

/// The calls of the round that fills the slots from one on, and empties them again. An endpoint is made, copied, minted and
/// moved; the root CNode's capability is copied, gets its guard anew, and becomes the root of the second thread's space. Then
/// one message goes to a thread that waits, one from a thread that waits, and two calls find nobody; a send with a badge is
/// cancelled, and the thread suspended and resumed. Two slots are deleted, and the untyped region revoked, with which the
/// endpoint ends.
fn calls(slot: u64, badge: u64) -> [Call; CALLS]
    requires { slot < 2 ^ 32 }
{
    [
        first(retype(slot)),
        first(copy(slot + 1, slot)),
        first(mint(slot + 2, slot, badge)),
        first(relocate(slot + 3, slot + 1)),
        first(copy(slot + 4, ROOT)),
        first(mutate(slot + 5, slot + 4, GUARD_WORD)),
        first(set_space(slot + 5)),
        second(Op::Recv { cap: ENDPOINT }),
        first(nb_send(ENDPOINT)),
        first(send(ENDPOINT)),
        second(Op::NbRecv { cap: ENDPOINT }),
        first(nb_send(ENDPOINT)),
        second(Op::NbRecv { cap: ENDPOINT }),
        second(send(slot + 2)),
        first(cancel_badged(slot + 2)),
        first(Op::Suspend { cap: SECOND_TCB }),
        first(Op::Resume { cap: SECOND_TCB }),
        first(delete(slot + 5)),
        first(delete(slot + 3)),
        first(revoke(UNTYPED)),
    ]
}

fn first(op: Op) -> Call {
    Call {
        thread: FIRST_THREAD,
        op,
    }
}

fn second(op: Op) -> Call {
    Call {
        thread: SECOND_THREAD,
        op,
    }
}

fn message() -> Message {
    Message {
        label: 7,
        words: [1, 2, 0, 0],
        count: 2,
    }
}

fn send(cap: u64) -> Op {
    Op::Send {
        cap,
        message: message(),
    }
}

fn nb_send(cap: u64) -> Op {
    Op::NbSend {
        cap,
        message: message(),
    }
}

fn retype(slot: u64) -> Op {
    Op::Retype {
        cap: UNTYPED,
        kind: 2,
        size_bits: 0,
        root: ROOT,
        index: 0,
        depth: 0,
        offset: slot,
        count: 1,
    }
}

fn copy(slot: u64, source: u64) -> Op {
    Op::CapCopy {
        cap: ROOT,
        index: slot,
        depth: DEPTH,
        src_root: ROOT,
        src_index: source,
        src_depth: DEPTH,
        rights: Rights::ALL,
    }
}

fn mint(slot: u64, source: u64, badge: u64) -> Op {
    Op::CapMint {
        cap: ROOT,
        index: slot,
        depth: DEPTH,
        src_root: ROOT,
        src_index: source,
        src_depth: DEPTH,
        rights: Rights::ALL,
        word: badge,
    }
}

fn relocate(slot: u64, source: u64) -> Op {
    Op::CapMove {
        cap: ROOT,
        index: slot,
        depth: DEPTH,
        src_root: ROOT,
        src_index: source,
        src_depth: DEPTH,
    }
}

fn mutate(slot: u64, source: u64, word: u64) -> Op {
    Op::CapMutate {
        cap: ROOT,
        index: slot,
        depth: DEPTH,
        src_root: ROOT,
        src_index: source,
        src_depth: DEPTH,
        word,
    }
}

fn set_space(root: u64) -> Op {
    Op::SetSpace {
        cap: SECOND_TCB,
        root,
        word: 0,
    }
}

fn cancel_badged(slot: u64) -> Op {
    Op::CancelBadged {
        cap: ROOT,
        index: slot,
        depth: DEPTH,
    }
}

fn delete(slot: u64) -> Op {
    Op::CapDelete {
        cap: ROOT,
        index: slot,
        depth: DEPTH,
    }
}

fn revoke(slot: u64) -> Op {
    Op::CapRevoke {
        cap: ROOT,
        index: slot,
        depth: DEPTH,
    }
}
