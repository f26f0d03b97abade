//! The operation of a call, from the keys that hold its words.
ghost use Rattle.std.specs.Prelude.{◌≡◌};
ghost use Rattle.toml.specs.View.{table_view};
ghost use Rattle.setup_values.specs.Names.{names_view};
ghost use Rattle.setup_format.specs.Faults.{Gives};
ghost use Rattle.setup_format.specs.Operations as spec;

use crate::fault::SetupFault;
use crate::tables::Keys;
use cap_core::{Message, Profile, Rights};
use kernel_abstract::Op;
use kernel_abstract::invocation::SlotArguments;
use setup_values::kinds::{Label, RightsKind, Word, WordsKind};
use setup_values::{OpName, Words};

#[tactic(auto, unfolding(crate::specs::Operations::retype_at))]
fn retype_at<P: Profile>(keys: &Keys<'_, '_, '_, P>) -> Result<Op, SetupFault>
    ensures { Gives (λ o. o) result (spec.retype_at P.profile (names_view keys.now.names.now) keys.now.place (table_view keys.now.table.now)) }
{
    Ok(Op::Retype {
        cap: keys.required("cap", Word)?,
        kind: keys.required("kind", Word)?,
        size_bits: keys.optional("size_bits", 0, Word)?,
        root: keys.required("root", Word)?,
        index: keys.optional("index", 0, Word)?,
        depth: keys.optional("depth", 0, Word)?,
        offset: keys.required("offset", Word)?,
        count: keys.required("count", Word)?,
    })
}

/// The address of the CNode by which a copy or a move is made, and the words by which it names its slots. A depth that is
/// not given is all the bits of a word, and the source's CNode is the one that is invoked if none is given.
#[tactic(auto, unfolding(crate::specs::Operations::slots_at))]
fn slots_at<P: Profile>(keys: &Keys<'_, '_, '_, P>) -> Result<(u64, SlotArguments), SetupFault>
    ensures { Gives (λ w. w) result (spec.slots_at P.profile (names_view keys.now.names.now) keys.now.place (table_view keys.now.table.now)) }
{
    let cap = keys.required("cap", Word)?;
    let slots = SlotArguments {
        index: keys.required("index", Word)?,
        depth: keys.optional("depth", u64::from(P::WORD_BITS), Word)?,
        src_root: keys.optional("src_root", cap, Word)?,
        src_index: keys.required("src_index", Word)?,
        src_depth: keys.optional("src_depth", u64::from(P::WORD_BITS), Word)?,
    };
    Ok((cap, slots))
}

#[tactic(auto, unfolding(crate::specs::Operations::copy_at))]
fn copy_at<P: Profile>(keys: &Keys<'_, '_, '_, P>) -> Result<Op, SetupFault>
    ensures { Gives (λ o. o) result (spec.copy_at P.profile (names_view keys.now.names.now) keys.now.place (table_view keys.now.table.now)) }
{
    let (cap, slots) = slots_at(keys)?;
    Ok(Op::CapCopy {
        cap,
        index: slots.index,
        depth: slots.depth,
        src_root: slots.src_root,
        src_index: slots.src_index,
        src_depth: slots.src_depth,
        rights: keys.optional("rights", Rights::ALL, RightsKind)?,
    })
}

#[tactic(auto, unfolding(crate::specs::Operations::mint_at))]
fn mint_at<P: Profile>(keys: &Keys<'_, '_, '_, P>) -> Result<Op, SetupFault>
    ensures { Gives (λ o. o) result (spec.mint_at P.profile (names_view keys.now.names.now) keys.now.place (table_view keys.now.table.now)) }
{
    let (cap, slots) = slots_at(keys)?;
    Ok(Op::CapMint {
        cap,
        index: slots.index,
        depth: slots.depth,
        src_root: slots.src_root,
        src_index: slots.src_index,
        src_depth: slots.src_depth,
        rights: keys.optional("rights", Rights::ALL, RightsKind)?,
        word: keys.required("word", Word)?,
    })
}

#[tactic(auto, unfolding(crate::specs::Operations::move_at))]
fn move_at<P: Profile>(keys: &Keys<'_, '_, '_, P>) -> Result<Op, SetupFault>
    ensures { Gives (λ o. o) result (spec.move_at P.profile (names_view keys.now.names.now) keys.now.place (table_view keys.now.table.now)) }
{
    let (cap, slots) = slots_at(keys)?;
    Ok(Op::CapMove {
        cap,
        index: slots.index,
        depth: slots.depth,
        src_root: slots.src_root,
        src_index: slots.src_index,
        src_depth: slots.src_depth,
    })
}

#[tactic(auto, unfolding(crate::specs::Operations::mutate_at))]
fn mutate_at<P: Profile>(keys: &Keys<'_, '_, '_, P>) -> Result<Op, SetupFault>
    ensures { Gives (λ o. o) result (spec.mutate_at P.profile (names_view keys.now.names.now) keys.now.place (table_view keys.now.table.now)) }
{
    let (cap, slots) = slots_at(keys)?;
    Ok(Op::CapMutate {
        cap,
        index: slots.index,
        depth: slots.depth,
        src_root: slots.src_root,
        src_index: slots.src_index,
        src_depth: slots.src_depth,
        word: keys.required("word", Word)?,
    })
}

/// The address of a CNode, and the words by which an operation names a slot of it.
#[tactic(auto, unfolding(crate::specs::Operations::slot_at))]
fn slot_at<P: Profile>(keys: &Keys<'_, '_, '_, P>) -> Result<(u64, u64, u64), SetupFault>
    ensures { Gives (λ w. w) result (spec.slot_at P.profile (names_view keys.now.names.now) keys.now.place (table_view keys.now.table.now)) }
{
    let cap = keys.required("cap", Word)?;
    let index = keys.required("index", Word)?;
    let depth = keys.optional("depth", u64::from(P::WORD_BITS), Word)?;
    Ok((cap, index, depth))
}

/// The address of an endpoint, and the message that is sent to it.
#[tactic(auto, unfolding(crate::specs::Operations::message_at))]
fn message_at<P: Profile>(keys: &Keys<'_, '_, '_, P>) -> Result<(u64, Message), SetupFault>
    ensures { Gives (λ m. m) result (spec.message_at P.profile (names_view keys.now.names.now) keys.now.place (table_view keys.now.table.now)) }
{
    let cap = keys.required("cap", Word)?;
    let label = keys.optional("label", 0, Label)?;
    let Words { words, count } = keys.optional("words", Words::none(), WordsKind)?;
    Ok((
        cap,
        Message {
            label,
            words,
            count,
        },
    ))
}

/// An operation, from the keys of its call.
#[tactic(auto, unfolding(crate::specs::Operations::set_space_at))]
pub fn operation_at<P: Profile>(op: OpName, keys: &Keys<'_, '_, '_, P>) -> Result<Op, SetupFault>
    ensures { Gives (λ o. o) result (spec.operation_at P.profile (names_view keys.now.names.now) keys.now.place (table_view keys.now.table.now) op) }
{
    Ok(match op {
        OpName::Retype => retype_at(keys)?,
        OpName::CapCopy => copy_at(keys)?,
        OpName::CapMint => mint_at(keys)?,
        OpName::CapMove => move_at(keys)?,
        OpName::CapMutate => mutate_at(keys)?,
        OpName::CapDelete => {
            let (cap, index, depth) = slot_at(keys)?;
            Op::CapDelete { cap, index, depth }
        }
        OpName::CapRevoke => {
            let (cap, index, depth) = slot_at(keys)?;
            Op::CapRevoke { cap, index, depth }
        }
        OpName::CancelBadged => {
            let (cap, index, depth) = slot_at(keys)?;
            Op::CancelBadged { cap, index, depth }
        }
        OpName::Send => {
            let (cap, message) = message_at(keys)?;
            Op::Send { cap, message }
        }
        OpName::NbSend => {
            let (cap, message) = message_at(keys)?;
            Op::NbSend { cap, message }
        }
        OpName::Recv => Op::Recv {
            cap: keys.required("cap", Word)?,
        },
        OpName::NbRecv => Op::NbRecv {
            cap: keys.required("cap", Word)?,
        },
        OpName::SetSpace => Op::SetSpace {
            cap: keys.required("cap", Word)?,
            root: keys.required("root", Word)?,
            word: keys.optional("word", 0, Word)?,
        },
        OpName::Suspend => Op::Suspend {
            cap: keys.required("cap", Word)?,
        },
        OpName::Resume => Op::Resume {
            cap: keys.required("cap", Word)?,
        },
    })
}

/// The name of an operation. `OpName::text` is how it is spelt.
pub fn op_name(op: &Op) -> OpName
    ensures { result ≡ spec.op_name op.now }
{
    match op {
        Op::Retype { .. } => OpName::Retype,
        Op::CapCopy { .. } => OpName::CapCopy,
        Op::CapMint { .. } => OpName::CapMint,
        Op::CapMove { .. } => OpName::CapMove,
        Op::CapMutate { .. } => OpName::CapMutate,
        Op::CapDelete { .. } => OpName::CapDelete,
        Op::CapRevoke { .. } => OpName::CapRevoke,
        Op::CancelBadged { .. } => OpName::CancelBadged,
        Op::Send { .. } => OpName::Send,
        Op::NbSend { .. } => OpName::NbSend,
        Op::Recv { .. } => OpName::Recv,
        Op::NbRecv { .. } => OpName::NbRecv,
        Op::SetSpace { .. } => OpName::SetSpace,
        Op::Suspend { .. } => OpName::Suspend,
        Op::Resume { .. } => OpName::Resume,
    }
}
