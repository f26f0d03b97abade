//! The checks of a call that a ready thread makes, and what it does where they pass.
#![tactic(auto, using(crate::proofs::Answering::answering_then))]

ghost use Rattle.std.specs.Prelude.{◌≡◌, ◌≤◌};
ghost use Rattle.slot_core.specs.Places.{address_of};
ghost use Rattle.ipc_core.specs.Waits.{IsThreadAddress};
ghost use Rattle.kernel_abstract.specs.Reasons.{answering, with_refusal};
ghost use Rattle.kernel_abstract.specs.declared.invocation.Invocation.TheVariants.{Derive, Move};
ghost use Rattle.kernel_abstract.specs.CNodes.{checked_placement};
ghost use Rattle.kernel_abstract.specs.Decode.{invoking, decoded_op, checked_op, checked_invocation, reason_in as reason_in_of, service_word as service_word_of};
ghost use Rattle.kernel_checks.specs.Facts.{TellsTruly};

use crate::cnodes::{Copied, Minted, Moved, Mutated, NewCap, check_placement};
use crate::deletion::{check_badge, check_slot};
use crate::failure::Failure;
use crate::lookup::{held, slot_by_word};
use crate::messages::{check_receive, check_send};
use crate::retyping::check_retype;
use crate::threads::{check_space, check_tcb};
use cap_core::limits::MAX_MEMORY_BITS;
use cap_core::{Profile, Refusal};
use kernel_abstract::call::Op;
use kernel_abstract::invocation::{Invocation, RetypeArguments, SlotArguments};
use kernel_abstract::reason::{Reason, Word};
use slot_core::{CapStore, Slot};

/// What an operation of a thread does, or the refusal for the first check that fails: the lookup of the word that names the
/// invoked capability, and then the operation's own.
pub fn decode_op<P: Profile, S: CapStore<P>>(
    store: &S,
    thread: u64,
    op: &Op,
) -> Result<Invocation, Refusal>
    requires memory { S.memory_bits store.now ≤ MAX_MEMORY_BITS }
    requires thread { IsThreadAddress P.profile (S.memory_bits store.now) thread }
    ensures { result ≡ decoded_op P.profile (S.forest store.now) thread op.now }
{
    check_op::<P, S, Refusal>(store, thread, op)
}

/// What an operation of a ready thread does, or why it is refused: the first check that fails, with what was found there.
///
/// The refusal of the reason is the one that the abstract kernel answers, so there is a reason exactly where it refuses. Each
/// slot that a reason names holds the capability that it tells. It takes no memory, and changes nothing.
pub fn reason_op<P: Profile, S: CapStore<P>>(
    store: &S,
    thread: u64,
    op: &Op,
) -> Result<Invocation, Reason>
    requires memory { S.memory_bits store.now ≤ MAX_MEMORY_BITS }
    requires thread { IsThreadAddress P.profile (S.memory_bits store.now) thread }
    ensures reason { result ≡ checked_op P.profile (S.forest store.now) thread op.now }
    ensures refusal { with_refusal result ≡ decoded_op P.profile (S.forest store.now) thread op.now }
    ensures facts { TellsTruly (S.forest store.now) result }
{
    check_op::<P, S, Reason>(store, thread, op)
}

/// The reason of a call that does not pass its checks.
pub fn reason_in(checked: Result<Invocation, Reason>) -> Option<Reason>
    ensures { result ≡ reason_in_of checked }
{
    match checked {
        Ok(_) => None,
        Err(reason) => Some(reason),
    }
}

/// The checks of an operation: the lookup of the word that names the invoked capability, and then its own.
#[inline(always)]
fn check_op<P: Profile, S: CapStore<P>, F: Failure>(
    store: &S,
    thread: u64,
    op: &Op,
) -> Result<Invocation, F>
    requires memory { S.memory_bits store.now ≤ MAX_MEMORY_BITS }
    requires thread { IsThreadAddress P.profile (S.memory_bits store.now) thread }
    ensures { result ≡ answering F.of (checked_op P.profile (S.forest store.now) thread op.now) }
{
    let slot = slot_by_word::<P, S, F>(store, Word::Invoked, thread, service_word(op))?;
    check_invocation::<P, S, F>(store, thread, op, slot)
}

/// The word by which an operation names the capability that it invokes.
fn service_word(op: &Op) -> u64
    ensures { result ≡ service_word_of op.now }
{
    match *op {
        Op::Retype { cap, .. }
        | Op::CapCopy { cap, .. }
        | Op::CapMint { cap, .. }
        | Op::CapMove { cap, .. }
        | Op::CapMutate { cap, .. }
        | Op::CapDelete { cap, .. }
        | Op::CapRevoke { cap, .. }
        | Op::CancelBadged { cap, .. }
        | Op::Send { cap, .. }
        | Op::NbSend { cap, .. }
        | Op::Recv { cap }
        | Op::NbRecv { cap }
        | Op::SetSpace { cap, .. }
        | Op::Suspend { cap }
        | Op::Resume { cap } => cap,
    }
}

/// What an operation of a thread does with the capability in the slot that it invokes, or the first of its checks that
/// fails.
#[rattlefmt::skip]
fn check_invocation<P: Profile, S: CapStore<P>, F: Failure>(
    store: &S,
    thread: u64,
    op: &Op,
    slot: Slot,
) -> Result<Invocation, F>
    requires memory { S.memory_bits store.now ≤ MAX_MEMORY_BITS }
    requires thread { IsThreadAddress P.profile (S.memory_bits store.now) thread }
    ensures { result ≡ answering F.of (checked_invocation P.profile (S.forest store.now) thread op.now (address_of P.profile slot)) }
{
    match *op {
        Op::Retype { kind, size_bits, root, index, depth, offset, count, .. } => {
            let asked = RetypeArguments { kind, size_bits, root, index, depth, offset, count };
            Ok(Invocation::Retype(check_retype::<P, S, F>(store, thread, slot, asked)?))
        }
        Op::CapCopy { index, depth, src_root, src_index, src_depth, rights, .. } => {
            let slots = SlotArguments { index, depth, src_root, src_index, src_depth };
            check_derive::<P, S, F, Copied>(store, thread, slot, slots, Copied(rights))
        }
        Op::CapMint { index, depth, src_root, src_index, src_depth, rights, word, .. } => {
            let slots = SlotArguments { index, depth, src_root, src_index, src_depth };
            check_derive::<P, S, F, Minted>(store, thread, slot, slots, Minted(rights, word))
        }
        Op::CapMove { index, depth, src_root, src_index, src_depth, .. } => {
            let slots = SlotArguments { index, depth, src_root, src_index, src_depth };
            check_move::<P, S, F, Moved>(store, thread, slot, slots, Moved)
        }
        Op::CapMutate { index, depth, src_root, src_index, src_depth, word, .. } => {
            let slots = SlotArguments { index, depth, src_root, src_index, src_depth };
            check_move::<P, S, F, Mutated>(store, thread, slot, slots, Mutated(word))
        }
        Op::CapDelete { index, depth, .. } => {
            Ok(Invocation::Delete(check_slot::<P, S, F>(store, slot, index, depth)?.address::<P>()))
        }
        Op::CapRevoke { index, depth, .. } => {
            Ok(Invocation::Revoke(check_slot::<P, S, F>(store, slot, index, depth)?.address::<P>()))
        }
        Op::CancelBadged { index, depth, .. } => {
            Ok(Invocation::CancelBadged(check_badge::<P, S, F>(store, slot, index, depth)?))
        }
        Op::Send { message, .. } => check_send::<F>(held::<P, S>(store, slot), message, true),
        Op::NbSend { message, .. } => check_send::<F>(held::<P, S>(store, slot), message, false),
        Op::Recv { .. } => check_receive::<F>(held::<P, S>(store, slot), true),
        Op::NbRecv { .. } => check_receive::<F>(held::<P, S>(store, slot), false),
        Op::SetSpace { root, word, .. } => {
            Ok(Invocation::SetSpace(check_space::<P, S, F>(store, thread, slot, root, word)?))
        }
        Op::Suspend { .. } => Ok(Invocation::Suspend(check_tcb::<F>(held::<P, S>(store, slot))?)),
        Op::Resume { .. } => Ok(Invocation::Resume(check_tcb::<F>(held::<P, S>(store, slot))?)),
    }
}

/// A copy or a mint by the capability in a slot.
#[inline(always)]
fn check_derive<P: Profile, S: CapStore<P>, F: Failure, N: NewCap>(
    store: &S,
    thread: u64,
    at: Slot,
    slots: SlotArguments,
    new: N,
) -> Result<Invocation, F>
    requires memory { S.memory_bits store.now ≤ MAX_MEMORY_BITS }
    requires thread { IsThreadAddress P.profile (S.memory_bits store.now) thread }
    ensures { result ≡ answering F.of (invoking Derive (checked_placement P.profile (S.forest store.now) thread (address_of P.profile at) slots (N.asked new))) }
{
    let placement = check_placement::<P, S, F, N>(store, thread, at, slots, new)?;
    Ok(Invocation::Derive(placement))
}

/// A move or a mutate by the capability in a slot.
#[inline(always)]
fn check_move<P: Profile, S: CapStore<P>, F: Failure, N: NewCap>(
    store: &S,
    thread: u64,
    at: Slot,
    slots: SlotArguments,
    new: N,
) -> Result<Invocation, F>
    requires memory { S.memory_bits store.now ≤ MAX_MEMORY_BITS }
    requires thread { IsThreadAddress P.profile (S.memory_bits store.now) thread }
    ensures { result ≡ answering F.of (invoking Move (checked_placement P.profile (S.forest store.now) thread (address_of P.profile at) slots (N.asked new))) }
{
    let placement = check_placement::<P, S, F, N>(store, thread, at, slots, new)?;
    Ok(Invocation::Move(placement))
}
