//! The calls that are tried from a state: each gives some thread something to name, room for it, or a call to make.
use crate::finding::named::{Named, Target, Word};
use crate::finding::places::node_of;
use cap_core::{Badge, Cap, Message, Profile, Rights, limits};
use ipc_core::MakeWaiters;
use kernel_core::{Call, Kernel, Op, ThreadState};
use slot_core::{DerivationStore, MakeStore};
use std::alloc::AllocError;

/// The kinds and the sizes in bits of the objects that are made: an endpoint, a CNode of four slots and a thread.
const MADE: [(u64, u64); 3] = [(2, 0), (4, 2), (1, 0)];

/// The message of the calls that are found: label 0, and no words.
pub fn no_message() -> Message {
    Message {
        label: 0,
        words: [0; limits::MAX_MESSAGE_WORDS],
        count: 0,
    }
}

fn is_empty(target: &Target) -> bool {
    target.cap == Cap::Null
}

/// The word that gives a CNode's capability the guard with which whole words end in the CNode's slots.
fn whole_guard<P: Profile>(radix: u32) -> u64 {
    u64::from(P::WORD_BITS.saturating_sub(radix))
}

/// A copy from one slot to another; a mint, if there is a word.
fn copy_to(from: &Target, to: &Target, word: Option<u64>) -> Op {
    let (cap, index, depth) = (to.word, to.index, to.depth);
    let (src_root, src_index, src_depth) = (from.word, from.index, from.depth);
    let rights = Rights::ALL;
    match word {
        None => Op::CapCopy {
            cap,
            index,
            depth,
            src_root,
            src_index,
            src_depth,
            rights,
        },
        Some(word) => Op::CapMint {
            cap,
            index,
            depth,
            src_root,
            src_index,
            src_depth,
            rights,
            word,
        },
    }
}

/// Adds the calls that bring a capability into an empty slot.
fn add_copies<P: Profile>(
    ops: &mut Vec<Op>,
    badge: Option<u64>,
    targets: &[Target],
    from: &Target,
    to: &Target,
) -> Result<(), AllocError> {
    match from.cap {
        Cap::Endpoint {
            badge: Badge(0),
            ..
        } if badge.is_some() => ops.push(copy_to(from, to, badge))?,
        Cap::CNode { radix, guard, .. } => {
            ops.push(copy_to(from, to, Some(whole_guard::<P>(radix))))?;
            if guard.size > 0 {
                ops.push(copy_to(from, to, Some(0)))?;
            }
        }
        _ => {}
    }
    for target in targets {
        if target.node == to.node && target.cap == from.cap {
            return Ok(());
        }
    }
    ops.push(copy_to(from, to, None))?;
    Ok(())
}

/// Adds the calls that bring each capability that can be read into an empty slot.
fn add_copies_to<P: Profile>(
    ops: &mut Vec<Op>,
    badge: Option<u64>,
    targets: &[Target],
    to: &Target,
) -> Result<(), AllocError> {
    for from in targets {
        if !is_empty(from) {
            add_copies::<P>(ops, badge, targets, from, to)?;
        }
    }
    Ok(())
}

/// The first word that leads to a CNode.
fn word_of_node(words: &[Word], node: u64) -> Option<u64> {
    for word in words {
        if node_of(word.cap) == Some(node) {
            return Some(word.word);
        }
    }
    None
}

/// Adds the calls that make objects in a region, each in the first empty slot of a CNode that a word leads to.
fn add_retypes<P: Profile>(
    ops: &mut Vec<Op>,
    words: &[Word],
    region: u64,
    to: &Target,
) -> Result<(), AllocError> {
    let Some(root) = word_of_node(words, to.node) else {
        return Ok(());
    };
    for (kind, size_bits) in MADE {
        ops.push(Op::Retype {
            cap: region,
            kind,
            size_bits,
            root,
            index: 0,
            depth: 0,
            offset: to.slot.saturating_sub(to.node).wrapping_shr(P::SLOT_BITS),
            count: 1,
        })?;
    }
    Ok(())
}

fn add_all_retypes<P: Profile>(
    ops: &mut Vec<Op>,
    named: &Named,
    region: u64,
) -> Result<(), AllocError> {
    for to in named.targets.as_slice() {
        if is_empty(to) {
            add_retypes::<P>(ops, named.words.as_slice(), region, to)?;
        }
    }
    Ok(())
}

/// Adds the calls that give a thread another space.
fn add_spaces<P: Profile>(ops: &mut Vec<Op>, words: &[Word], cap: u64) -> Result<(), AllocError> {
    for word in words {
        if let Cap::CNode { radix, guard, .. } = word.cap {
            let root = word.word;
            if guard.size.saturating_add(radix) != P::WORD_BITS {
                let word = whole_guard::<P>(radix);
                ops.push(Op::SetSpace { cap, root, word })?;
            }
            ops.push(Op::SetSpace { cap, root, word: 0 })?;
        }
    }
    Ok(())
}

/// The call that serves who waits first on an endpoint.
fn serving<P: Profile, S: MakeStore<P> + DerivationStore<P>, W: MakeWaiters<P>>(
    kernel: &Kernel<P, S, W>,
    cap: u64,
    endpoint: u64,
) -> Option<Op> {
    let first = kernel.waiting(endpoint, 0)?;
    match kernel.thread_state(first) {
        Some(ThreadState::Sending(_)) => Some(Op::NbRecv { cap }),
        Some(ThreadState::Receiving(_)) => Some(Op::NbSend {
            cap,
            message: no_message(),
        }),
        _ => None,
    }
}

/// Adds the calls by a word of a thread, but for those that fill slots.
fn add_by_word<P: Profile, S: MakeStore<P> + DerivationStore<P>, W: MakeWaiters<P>>(
    ops: &mut Vec<Op>,
    kernel: &Kernel<P, S, W>,
    named: &Named,
    word: &Word,
) -> Result<(), AllocError> {
    let cap = word.word;
    match word.cap {
        Cap::Endpoint { base, .. } => {
            if let Some(op) = serving::<P, S, W>(kernel, cap, base) {
                ops.push(op)?;
            }
            Ok(())
        }
        Cap::Tcb { base } => {
            if kernel.thread_state(base) == Some(ThreadState::Inactive) {
                ops.push(Op::Resume { cap })?;
            }
            add_spaces::<P>(ops, named.words.as_slice(), cap)
        }
        Cap::Untyped { .. } => add_all_retypes::<P>(ops, named, cap),
        _ => Ok(()),
    }
}

/// Whether an empty slot of a CNode is named.
fn has_room(targets: &[Target], node: u64) -> bool {
    for target in targets {
        if target.node == node && is_empty(target) {
            return true;
        }
    }
    false
}

/// Adds the delete of a slot whose CNode is full, and the revoke of a region's slot in which something was made.
fn add_clearing<P: Profile, S: MakeStore<P> + DerivationStore<P>, W: MakeWaiters<P>>(
    ops: &mut Vec<Op>,
    kernel: &Kernel<P, S, W>,
    targets: &[Target],
    target: &Target,
) -> Result<(), AllocError> {
    let (cap, index, depth) = (target.word, target.index, target.depth);
    if !has_room(targets, target.node) {
        ops.push(Op::CapDelete { cap, index, depth })?;
    }
    if matches!(target.cap, Cap::Untyped { .. }) && kernel.has_children(target.slot) {
        ops.push(Op::CapRevoke { cap, index, depth })?;
    }
    Ok(())
}

/// Adds the calls by an index and a depth: those that fill an empty slot, and those that make room.
fn add_by_targets<P: Profile, S: MakeStore<P> + DerivationStore<P>, W: MakeWaiters<P>>(
    ops: &mut Vec<Op>,
    kernel: &Kernel<P, S, W>,
    badge: Option<u64>,
    targets: &[Target],
) -> Result<(), AllocError> {
    for target in targets {
        if is_empty(target) {
            add_copies_to::<P>(ops, badge, targets, target)?;
        } else {
            add_clearing::<P, S, W>(ops, kernel, targets, target)?;
        }
    }
    Ok(())
}

/// Adds what a thread is made to do, in a fixed order.
pub fn add_ops<P: Profile, S: MakeStore<P> + DerivationStore<P>, W: MakeWaiters<P>>(
    ops: &mut Vec<Op>,
    kernel: &Kernel<P, S, W>,
    badge: Option<u64>,
    named: &Named,
) -> Result<(), AllocError> {
    for word in named.words.as_slice() {
        add_by_word::<P, S, W>(ops, kernel, named, word)?;
    }
    add_by_targets::<P, S, W>(ops, kernel, badge, named.targets.as_slice())
}
