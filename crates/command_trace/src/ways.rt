//! The way of each word of a call that is looked up, in bits.
ghost use Rattle.std.specs.Prelude.{◌≡◌, ◌++◌, ◌≤◌, ℕ, codes, IfOk, OnOk, Some, string_bytes};
ghost use Rattle.cap_core.specs.Numbers.{word_bits};
ghost use Rattle.kernel_forest.specs.Entries.{cap_at};
ghost use Rattle.kernel_abstract.specs.declared.call.ThreadState.TheVariants.{Ready};
ghost use Rattle.kernel_abstract.specs.declared.reason.Word.TheVariants.{Index};
ghost use Rattle.kernel_abstract.specs.Lookups.{slot_by_index};
ghost use Rattle.kernel_abstract.specs.Shown.{state_at};
ghost use Rattle.command_why.specs.Lookups.{guard_lookup_text};
ghost use Rattle.command_why.specs.Text.{guard_of, radix_of};
ghost use Rattle.setup_report.specs.Naming.{naming_view};
ghost use Rattle.command_trace.specs.Ways as spec;

use crate::bits::{BitsText, low_bits, split};
use cap_core::{Cap, Guard, Profile};
use ipc_core::Waiters;
use kernel_core::invocation::Invocation;
use kernel_core::{Call, Held, Kernel, Miss, Op, Reason, ThreadState};
use setup_report::Naming;
use slot_core::DerivationStore;
use std::alloc::{AllocError, Global};
use std::fmt::{self, Write};

/// The guard and the radix of a CNode's capability; of another one 0.
fn sizes_of(cap: Cap) -> (Guard, u32)
    ensures guard { result.0 ≡ guard_of cap }
    ensures radix { result.1 ≡ radix_of cap }
{
    match cap {
        Cap::CNode { radix, guard, .. } => (guard, radix),
        _ => (Guard { value: 0, size: 0 }, 0),
    }
}

/// A guard, the index of a slot in bits, and the slot.
#[derive(Clone, Copy)]
struct NodeText<'a, 'n> {
    naming: &'a Naming<'n>,
    guard: Guard,
    index: &'a [u64],
    slot: u64,
}

impl fmt::Display for NodeText<'_, '_> {
    ghost output = { λ n. Some (spec.node_text (naming_view n.naming.now) n.guard n.index.now n.slot) };

    #[tactic(auto, unfolding(crate::specs::Ways::node_text))]
    fn fmt<W: fmt::Write>(&self, f: &mut fmt::Formatter<W>) -> fmt::Result {
        let value = self.guard.value;
        let size = self.guard.size;
        let index = BitsText(self.index);
        let slot = self.naming.slot(self.slot);
        write!(f, " guard {value} size {size} index {index} slot {slot}")
    }
}

/// Adds a CNode of a way, by the bits that are left there and the slot that they choose: the bits that are left behind it.
fn add_node<'b>(
    out: &mut String,
    naming: &Naming<'_>,
    node: Cap,
    bits: &'b [u64],
    slot: u64,
) -> Result<&'b [u64], AllocError>
    ensures text { OnOk result (string_bytes out.new ≡ string_bytes out.old
        ++ spec.node_text (naming_view naming.now) (guard_of node) (spec.index_bits node bits.now) slot) }
    ensures left { IfOk result (λ left. left.now ≡ spec.behind_node node bits.now) }
{
    let (guard, radix) = sizes_of(node);
    let (_, behind) = split(bits, guard.size);
    let (index, left) = split(behind, radix);
    let text = NodeText {
        naming,
        guard,
        index,
        slot,
    };
    write!(out, "{text}")?;
    Ok(left)
}

/// Adds the CNodes of a way of bits, by the slots that it comes to.
fn add_nodes(
    out: &mut String,
    naming: &Naming<'_>,
    bits: &[u64],
    path: &[Held],
) -> Result<(), AllocError>
    ensures { OnOk result (string_bytes out.new ≡ string_bytes out.old ++ spec.nodes_text (naming_view naming.now) bits.now path.now) }
{
    let [first, slots @ ..] = path else {
        return Ok(());
    };
    let mut node = first.cap;
    let mut left = bits;
    for next in slots {
        left = add_node(out, naming, node, left, next.slot)?;
        node = next.cap;
    }
    Ok(())
}

/// How a guard differs from the bits that are left.
#[derive(Clone, Copy)]
struct GuardText {
    guard: Guard,
    left: u32,
    read: u64,
}

impl fmt::Display for GuardText {
    ghost output = { λ g. Some (guard_lookup_text g.guard g.left g.read) };

    #[tactic(auto, unfolding(command_why::specs::Lookups::guard_lookup_text))]
    fn fmt<W: fmt::Write>(&self, f: &mut fmt::Formatter<W>) -> fmt::Result {
        let Guard { value, size } = self.guard;
        let (left, read) = (self.left, self.read);
        if left < size {
            write!(f, "its guard has size {size}; bits left: {left}")
        } else {
            write!(
                f,
                "its guard is {value} of size {size}; the next {size} of the {left} bits left read {read}"
            )
        }
    }
}

/// Why a lookup fails.
#[derive(Clone, Copy)]
struct MissText(Miss);

impl fmt::Display for MissText {
    ghost output = { λ m. Some (spec.miss_said m.0) };

    fn fmt<W: fmt::Write>(&self, f: &mut fmt::Formatter<W>) -> fmt::Result {
        match self.0 {
            Miss::NoRoot => write!(f, "no CNode is there"),
            Miss::OtherGuard { node, left, read } => {
                let (guard, _) = sizes_of(node.cap);
                let guard = GuardText { guard, left, read };
                write!(f, "{guard}")
            }
            Miss::TooFewBits { node, left } => {
                let (_, radix) = sizes_of(node.cap);
                write!(
                    f,
                    "its radix is {radix}; bits left behind the guard: {left}"
                )
            }
            Miss::BitsLeft { left, .. } => {
                write!(f, "no CNode is there; bits left over: {left}")
            }
        }
    }
}

/// Why a way leads to no slot.
#[derive(Clone, Copy)]
struct EndText(Option<Miss>);

impl fmt::Display for EndText {
    ghost output = { λ e. Some (spec.end_text e.0) };

    fn fmt<W: fmt::Write>(&self, f: &mut fmt::Formatter<W>) -> fmt::Result {
        match self.0 {
            None => Ok(()),
            Some(miss) => {
                let miss = MissText(miss);
                write!(f, ": {miss}")
            }
        }
    }
}

/// Adds which word is looked up, how many of its bits, and from which slot.
#[tactic(auto, unfolding(crate::specs::Ways::start_text))]
fn add_start(
    out: &mut String,
    naming: &Naming<'_>,
    key: &'static str,
    number: u64,
    bits: u32,
    slot: u64,
) -> Result<(), AllocError>
    ensures { OnOk result (string_bytes out.new ≡ string_bytes out.old ++ spec.start_text (naming_view naming.now) key.now number bits slot) }
{
    let slot = naming.slot(slot);
    write!(out, "  way {key} {number} bits {bits} from {slot}")
}

fn add_end(out: &mut String, miss: Option<Miss>) -> Result<(), AllocError>
    ensures { OnOk result (string_bytes out.new ≡ string_bytes out.old ++ (spec.end_text miss ++ codes "\n")) }
{
    let end = EndText(miss);
    writeln!(out, "{end}")
}

/// Adds the way of the low bits of a word from a slot on.
#[tactic(auto, unfolding(crate::specs::Ways::way_line))]
fn add_way<P: Profile, S: DerivationStore<P> + Drop, W: Waiters<P> + Drop>(
    alloc: Global,
    out: &mut String,
    naming: &Naming<'_>,
    kernel: &Kernel<P, S, W>,
    key: &'static str,
    number: u64,
    bits: u32,
    slot: u64,
    miss: Option<Miss>,
) -> Result<(), AllocError>
    requires { bits ≤ word_bits P.profile }
    ensures { OnOk result (string_bytes out.new ≡ string_bytes out.old
        ++ spec.way_line (naming_view naming.now) P.profile kernel.now.derivations key.now number bits slot miss) }
{
    let path = kernel.lookup_path(alloc, slot, number, bits)?;
    let digits = low_bits(alloc, number, bits)?;
    add_start(out, naming, key, number, bits, slot)?;
    add_nodes(out, naming, digits.as_slice(), path.as_slice())?;
    add_end(out, miss)
}

/// The lookup that fails, where the check of a call that fails is one.
fn missed_in(checked: Result<Invocation, Reason>) -> Option<Miss>
    ensures { result ≡ spec.missed checked }
{
    match checked {
        Err(Reason::NotFound { miss, .. }) => Some(miss),
        _ => None,
    }
}

/// Why a word of a ready thread leads to no slot, where it does not. A suspend by the word looks nothing else up.
fn missed_word<P: Profile, S: DerivationStore<P> + Drop, W: Waiters<P> + Drop>(
    kernel: &Kernel<P, S, W>,
    thread: u64,
    cap: u64,
) -> Option<Miss>
    requires { state_at kernel.now thread ≡ Some Ready }
    ensures { result ≡ spec.missed (spec.word_found P.profile kernel.now.derivations thread cap) }
{
    let op = Op::Suspend { cap };
    missed_in(kernel.explain_call(&Call { thread, op }))
}

/// The slot of a CNode's capability to which a word of a ready thread leads: a suspend by the word finds one of another kind.
fn node_led<P: Profile, S: DerivationStore<P> + Drop, W: Waiters<P> + Drop>(
    kernel: &Kernel<P, S, W>,
    thread: u64,
    cap: u64,
) -> Option<u64>
    requires { state_at kernel.now thread ≡ Some Ready }
    ensures { result ≡ spec.node_led kernel.now.derivations (spec.word_found P.profile kernel.now.derivations thread cap) }
{
    let op = Op::Suspend { cap };
    match kernel.explain_call(&Call { thread, op }) {
        Err(Reason::OtherKind { found, .. }) => node_in(found),
        _ => None,
    }
}

/// A slot that holds a CNode's capability.
fn node_in(held: Held) -> Option<u64>
    ensures { result ≡ spec.node_in held }
{
    match held.cap {
        Cap::CNode { .. } => Some(held.slot),
        _ => None,
    }
}

/// Why an index leads to no slot from the CNode to which a word of a ready thread leads, where it does not. A delete there looks
/// nothing else up.
fn missed_index<P: Profile, S: DerivationStore<P> + Drop, W: Waiters<P> + Drop>(
    kernel: &Kernel<P, S, W>,
    thread: u64,
    cap: u64,
    index: u64,
    depth: u64,
) -> Option<Miss>
    requires { state_at kernel.now thread ≡ Some Ready }
    ensures { (node : ℕ) → spec.node_led kernel.now.derivations (spec.word_found P.profile kernel.now.derivations thread cap) ≡ Some node
        → result ≡ spec.missed (slot_by_index P.profile (cap_at kernel.now.derivations) Index node index depth) }
{
    let op = Op::CapDelete { cap, index, depth };
    missed_in(kernel.explain_call(&Call { thread, op }))
}

/// Adds the way of a word of a ready thread, which is looked up whole.
fn add_word_way<P: Profile, S: DerivationStore<P> + Drop, W: Waiters<P> + Drop>(
    alloc: Global,
    out: &mut String,
    naming: &Naming<'_>,
    kernel: &Kernel<P, S, W>,
    thread: u64,
    key: &'static str,
    word: u64,
) -> Result<(), AllocError>
    requires { state_at kernel.now thread ≡ Some Ready }
    ensures { OnOk result (string_bytes out.new ≡ string_bytes out.old
        ++ spec.word_way (naming_view naming.now) P.profile kernel.now.derivations thread key.now word) }
{
    let miss = missed_word::<P, S, W>(kernel, thread, word);
    let bits = P::WORD_BITS;
    add_way::<P, S, W>(alloc, out, naming, kernel, key, word, bits, thread, miss)
}

/// Adds the way of an index from the CNode to which a word of a ready thread leads, where there is one and the depth is not out of
/// range.
fn add_index_way<P: Profile, S: DerivationStore<P> + Drop, W: Waiters<P> + Drop>(
    alloc: Global,
    out: &mut String,
    naming: &Naming<'_>,
    kernel: &Kernel<P, S, W>,
    thread: u64,
    word: u64,
    key: &'static str,
    index: u64,
    depth: u64,
) -> Result<(), AllocError>
    requires { state_at kernel.now thread ≡ Some Ready }
    ensures { OnOk result (string_bytes out.new ≡ string_bytes out.old
        ++ spec.index_way (naming_view naming.now) P.profile kernel.now.derivations thread word key.now index depth) }
{
    let Some(node) = node_led::<P, S, W>(kernel, thread, word) else {
        return Ok(());
    };
    if depth == 0 || depth > P::WORD_BITS as u64 {
        return Ok(());
    }
    let miss = missed_index::<P, S, W>(kernel, thread, word, index, depth);
    let bits = depth as u32;
    add_way::<P, S, W>(alloc, out, naming, kernel, key, index, bits, node, miss)
}

/// Adds the ways of the words of a ready thread's operation, in the order in which the kernel looks them up.
#[rattlefmt::skip]
fn add_op_ways<P: Profile, S: DerivationStore<P> + Drop, W: Waiters<P> + Drop>(
    alloc: Global,
    out: &mut String,
    naming: &Naming<'_>,
    kernel: &Kernel<P, S, W>,
    thread: u64,
    op: &Op,
) -> Result<(), AllocError>
    requires { state_at kernel.now thread ≡ Some Ready }
    ensures { OnOk result (string_bytes out.new ≡ string_bytes out.old
        ++ spec.op_ways (naming_view naming.now) P.profile kernel.now.derivations thread op.now) }
{
    match *op {
        Op::Retype { cap, root, index, depth, .. } => {
            add_word_way::<P, S, W>(alloc, out, naming, kernel, thread, "cap", cap)?;
            add_word_way::<P, S, W>(alloc, out, naming, kernel, thread, "root", root)?;
            add_index_way::<P, S, W>(alloc, out, naming, kernel, thread, root, "index", index, depth)
        }
        Op::CapCopy { cap, index, depth, src_root, src_index, src_depth, .. }
        | Op::CapMint { cap, index, depth, src_root, src_index, src_depth, .. }
        | Op::CapMove { cap, index, depth, src_root, src_index, src_depth }
        | Op::CapMutate { cap, index, depth, src_root, src_index, src_depth, .. } => {
            add_word_way::<P, S, W>(alloc, out, naming, kernel, thread, "cap", cap)?;
            add_word_way::<P, S, W>(alloc, out, naming, kernel, thread, "src_root", src_root)?;
            add_index_way::<P, S, W>(alloc, out, naming, kernel, thread, cap, "index", index, depth)?;
            add_index_way::<P, S, W>(alloc, out, naming, kernel, thread, src_root, "src_index", src_index, src_depth)
        }
        Op::CapDelete { cap, index, depth }
        | Op::CapRevoke { cap, index, depth }
        | Op::CancelBadged { cap, index, depth } => {
            add_word_way::<P, S, W>(alloc, out, naming, kernel, thread, "cap", cap)?;
            add_index_way::<P, S, W>(alloc, out, naming, kernel, thread, cap, "index", index, depth)
        }
        Op::SetSpace { cap, root, .. } => {
            add_word_way::<P, S, W>(alloc, out, naming, kernel, thread, "cap", cap)?;
            add_word_way::<P, S, W>(alloc, out, naming, kernel, thread, "root", root)
        }
        Op::Send { cap, .. }
        | Op::NbSend { cap, .. }
        | Op::Recv { cap }
        | Op::NbRecv { cap }
        | Op::Suspend { cap }
        | Op::Resume { cap } => add_word_way::<P, S, W>(alloc, out, naming, kernel, thread, "cap", cap),
    }
}

/// Adds a line for each word of a call that is looked up, as the kernel stands before the call.
fn add_ways<P: Profile, S: DerivationStore<P> + Drop, W: Waiters<P> + Drop>(
    alloc: Global,
    out: &mut String,
    naming: &Naming<'_>,
    kernel: &Kernel<P, S, W>,
    call: &Call,
) -> Result<(), AllocError>
    ensures { OnOk result (string_bytes out.new ≡ string_bytes out.old
        ++ spec.ways (naming_view naming.now) P.profile kernel.now call.now) }
{
    match kernel.thread_state(call.thread) {
        Some(ThreadState::Ready) => {
            add_op_ways::<P, S, W>(alloc, out, naming, kernel, call.thread, &call.op)
        }
        _ => Ok(()),
    }
}

/// The ways of the words of a call, where they are asked for: in the state before it.
pub fn ways_asked<P: Profile, S: DerivationStore<P> + Drop, W: Waiters<P> + Drop>(
    alloc: Global,
    asked: bool,
    naming: &Naming<'_>,
    kernel: &Kernel<P, S, W>,
    call: &Call,
) -> Result<String, AllocError>
    ensures { IfOk result (λ text. string_bytes text ≡ spec.ways_asked asked (naming_view naming.now) P.profile kernel.now call.now) }
{
    let mut out = String::new(alloc);
    if asked {
        add_ways::<P, S, W>(alloc, &mut out, naming, kernel, call)?;
    }
    Ok(out)
}
