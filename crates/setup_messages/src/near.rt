//! The name that looks most like a given one.
use crate::message::MAX_SHOWN;
use std::alloc::{AllocError, Global};
use strsim::osa_distance;

/// The most edits that lead from a name to one that looks like it.
const MAX_EDITS: usize = 2;

/// What seL4 and its users call keys and operations, each with what it is called in a set-up. seL4's names of methods stand
/// here without their `seL4_`.
#[rattlefmt::skip]
const SYNONYMS: [(&str, &str); 57] = [
    // The arguments of methods.
    ("badge", "word"), ("guard", "word"), ("data", "word"), ("cspace_root", "root"), ("cspace_root_data", "word"),
    ("service", "cap"), ("_service", "cap"), ("dest", "cap"), ("dest", "index"), ("dst", "cap"), ("dst", "index"),
    ("destination", "cap"), ("destination", "index"), ("dest_index", "index"), ("dst_index", "index"), ("node_index", "index"),
    ("slot", "index"), ("dest_depth", "depth"), ("dst_depth", "depth"), ("node_depth", "depth"), ("src", "src_index"),
    ("source", "src_index"), ("src_slot", "src_index"), ("type", "kind"), ("object", "kind"), ("node_offset", "offset"),
    ("num_objects", "count"), ("msg_info", "label"), ("message", "words"), ("caller", "thread"),
    // What a capability is of.
    ("ep", "cap"), ("endpoint", "cap"), ("cnode", "cap"), ("untyped", "cap"), ("tcb", "cap"),
    // Sizes.
    ("size", "size_bits"), ("size", "bits"), ("size", "memory_bits"), ("memory", "memory_bits"), ("radix", "root_radix"),
    ("tcbs", "threads"), ("ep", "endpoints"),
    // Operations.
    ("NBSend", "nbsend"), ("NBRecv", "nbrecv"), ("receive", "recv"), ("recieve", "recv"), ("Untyped_Retype", "retype"),
    ("CNode_Copy", "copy"), ("CNode_Mint", "mint"), ("CNode_Move", "move"), ("CNode_Mutate", "mutate"),
    ("CNode_Delete", "delete"), ("CNode_Revoke", "revoke"), ("CNode_CancelBadgedSends", "cancel_badged"),
    ("TCB_SetSpace", "set_space"), ("TCB_Suspend", "suspend"), ("TCB_Resume", "resume"),
];

/// Whether a name means the same in a set-up as what was found.
fn is_synonym(found: &str, name: &str) -> bool {
    SYNONYMS.contains(&(found, name))
}

/// Of some names the one that looks most like what was found, or the last one that means the same, if one does. Nothing looks
/// like a text that is too long to be shown.
pub fn nearest<'a>(
    alloc: Global,
    found: &str,
    names: &[&'a str],
) -> Result<Option<&'a str>, AllocError> {
    let (mut nearest, mut fewest) = (None, MAX_EDITS + 1);
    if found.len() > MAX_SHOWN {
        return Ok(None);
    }
    for name in names {
        let edits = osa_distance(alloc, found, *name)?;
        if is_synonym(found, *name) {
            (nearest, fewest) = (Some(*name), 0);
        } else if edits < fewest {
            (nearest, fewest) = (Some(*name), edits);
        }
    }
    Ok(nearest)
}
