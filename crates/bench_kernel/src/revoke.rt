//! Revocations of a kernel over the linked forms, to be measured.
ghost use Rattle.std.specs.Prelude.{◌<◌};

use crate::machine::{LinkedKernel, RevokeMachine};
use cap_core::Rights;
use kernel_core::{BootPlan, Call, Op, Reply};
use std::alloc::Global;

type Measured = LinkedKernel<RevokeMachine>;

const MEMORY_BITS: u32 = 20;

const ROOT_RADIX: u32 = 4;

const THREAD: u64 = 2048;

// The words of the boot's capabilities, and of those that are made before anything is measured.
const ROOT: u64 = 1;

const ENDPOINT: u64 = 4;

const LARGE_UNTYPED: u64 = 5;

const SMALL_UNTYPED: u64 = 6;

const CNODE: u64 = 7;

const BADGED: u64 = 8;

const BADGE: u64 = 5;

/// How deep an index is looked up: all bits of a word.
const DEPTH: u64 = 64;

const CNODE_RADIX: u64 = 14;

/// The slots of the CNode.
const ALL_SLOTS: u32 = 16384;

/// Boots a kernel and fills the slots of a CNode one after another, with copies of a badged capability, or with copies of an
/// untyped one, each of the copy before it (`deep`). With `revokes`, that capability is revoked each time that so many slots
/// were filled. Whether each call was accepted.
#[unsafe(no_mangle)]
pub extern "C" fn revoke_cycle_run(alloc: Global, slots: u32, deep: bool, revokes: bool) -> bool {
    if slots == 0 {
        return false;
    }
    match booted(alloc) {
        Some(mut kernel) => prepares(&mut kernel) && run(&mut kernel, slots, deep, revokes),
        None => false,
    }
}

fn booted(alloc: Global) -> Option<Measured> {
    let mut untypeds = Vec::new(alloc);
    untypeds.push((524288, 19)).ok()?;
    untypeds.push((16384, 12)).ok()?;
    let plan = BootPlan::new::<RevokeMachine>(MEMORY_BITS, ROOT_RADIX, 2, 1, untypeds).ok()?;
    Measured::boot(alloc, &plan).ok()
}

/// Makes the CNode and the badged capability.
fn prepares(kernel: &mut Measured) -> bool {
    accepts(kernel, new_cnode()) && accepts(kernel, mint())
}

fn run(kernel: &mut Measured, slots: u32, deep: bool, revokes: bool) -> bool
    requires { 0 < slots }
{
    let source = if deep { SMALL_UNTYPED } else { BADGED };
    let mut all = true;
    let mut first = 0u32;
    for _ in 0..ALL_SLOTS / slots {
        let end = first.wrapping_add(slots);
        all = fills(kernel, first, end, source, !deep, revokes || first == 0) && all;
        if revokes {
            all = accepts(kernel, revoke(source)) && all;
        }
        first = end;
    }
    all
}

/// Fills the slots from one up to another, with copies of the source, or each with a copy of what the slot before it holds,
/// and the first with one of the source if it is `fresh`. It is not inlined, so that it is the same with revocations and
/// without.
#[inline(never)]
fn fills(
    kernel: &mut Measured,
    first: u32,
    end: u32,
    source: u64,
    wide: bool,
    fresh: bool,
) -> bool {
    let mut all = true;
    for place in first..end {
        let from_source = wide || (fresh && place == first);
        all = accepts(kernel, copy_to(place, source, from_source)) && all;
    }
    all
}

fn accepts(kernel: &mut Measured, op: Op) -> bool {
    match kernel.step(Call { thread: THREAD, op }) {
        Reply::Refused(_) => false,
        _ => true,
    }
}

fn new_cnode() -> Op {
    Op::Retype {
        cap: LARGE_UNTYPED,
        kind: 4,
        size_bits: CNODE_RADIX,
        root: ROOT,
        index: 0,
        depth: 0,
        offset: CNODE,
        count: 1,
    }
}

fn mint() -> Op {
    Op::CapMint {
        cap: ROOT,
        index: BADGED,
        depth: DEPTH,
        src_root: ROOT,
        src_index: ENDPOINT,
        src_depth: DEPTH,
        rights: Rights::ALL,
        word: BADGE,
    }
}

/// A copy into a slot of the CNode: of the source, or of what the slot before it holds.
fn copy_to(place: u32, source: u64, from_source: bool) -> Op {
    if from_source || place == 0 {
        copy(place, ROOT, source, DEPTH)
    } else {
        copy(place, CNODE, u64::from(place - 1), CNODE_RADIX)
    }
}

fn copy(place: u32, src_root: u64, src_index: u64, src_depth: u64) -> Op {
    Op::CapCopy {
        cap: CNODE,
        index: u64::from(place),
        depth: CNODE_RADIX,
        src_root,
        src_index,
        src_depth,
        rights: Rights::ALL,
    }
}

fn revoke(slot: u64) -> Op {
    Op::CapRevoke {
        cap: ROOT,
        index: slot,
        depth: DEPTH,
    }
}
