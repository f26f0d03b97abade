//! Calls, by what they are to do. Capabilities are named by their slots in the root CNode, which stands in slot 1.
use crate::names::{Call, Message, Op, Rights};

/// The slot of the root CNode's own capability.
const ROOT: u64 = 1;

/// How many bits of an index are looked up: all of a word.
const DEPTH: u64 = 64;

/// Derives a capability of an endpoint, with a badge and the right Write alone, from one slot into another.
pub fn mint_badge(thread: u64, source: u64, slot: u64, badge: u64) -> Call {
    let op = Op::CapMint {
        cap: ROOT,
        index: slot,
        depth: DEPTH,
        src_root: ROOT,
        src_index: source,
        src_depth: DEPTH,
        rights: Rights::WRITE,
        word: badge,
    };
    Call { thread, op }
}

/// Sends a label and the words 1 and 2, if a receiver waits.
pub fn send_now(thread: u64, cap: u64, label: u64) -> Call {
    let message = Message {
        label,
        words: [1, 2, 0, 0],
        count: 2,
    };
    Call {
        thread,
        op: Op::NbSend { cap, message },
    }
}

/// Receives, and waits if nobody sends.
pub fn receive(thread: u64, cap: u64) -> Call {
    Call {
        thread,
        op: Op::Recv { cap },
    }
}
