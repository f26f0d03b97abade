//! Makes calls of the libraries that the program `sel4sim` does not make.
//!
//! With no words these are calls that take memory, if a request for memory may be refused, and calls over devices that fail.
//! For each one line says how it ended: `done` if it gave what is wanted, and `out of memory, then done` if
//! it answered want of memory, left what it was given as it was, and gave what is wanted when it was made again. With
//! ample memory each is done. The settling of a shared kernel and the writes take no memory, and so are done whatever is
//! refused. The exit status is 1 if one ended otherwise.
//!
//! - `LinkedStore RowWaiters`, or the names of another pair of a capability store and a store of waiting threads, checks the
//!   set-up on standard input over this pair, as `sel4sim check` does over the linked ones;
//! - `order 0 1 0` lets the clients of the set-up on standard input make their calls in this order, and ends them after it, as
//!   `sel4sim threads` does in any order.
//!
//! The exit status is then that of the set-up's run, and 4 for other words.
#![tactic(auto)]

use cap_core::{Narrow, Profile, Wide};
use command_check::text_of;
use command_line::line;
use copies::{copy, waiting};
use ipc_core::{LinkedWaiters, MakeWaiters, RowWaiters};
use kernel_core::{BootPlan, Kernel, PlanDefect, ThreadState};
use order::Order;
use outcome::Outcome;
use pairs::Pair;
use reports::stored_outcome;
use setup_format::{SetupFault, read_setup};
use shared::{SharedOutcomes, shared_outcomes};
use slot_core::{DerivationStore, LinkedStore, MakeStore, RowStore};
use std::alloc::Global;
use std::env::{self, Env};
use std::io::Input;
use std::process::ExitCode;
use std::sync::Wait;
use std::thread::Threads;
use stored::{REPORT, SETUP};

mod copies;
mod devices;
mod order;
mod orders;
mod outcome;
mod pairs;
mod reports;
mod runs;
mod shared;
mod stored;

/// The status of a command line that is refused.
const REFUSED: u8 = 4;

/// How a call ends that is made once more if it answered want of memory. A call is `None` if it did, and else
/// whether it gave what is wanted.
macro_rules! outcome {
    ($call:expr) => {
        match $call {
            Some(true) => Outcome::Done,
            Some(false) => Outcome::Wrong,
            None => match $call {
                Some(true) => Outcome::DoneAgain,
                _ => Outcome::Wrong,
            },
        }
    };
}

/// A kernel of two threads and an endpoint, or `None`.
fn booted<P: Profile, S: MakeStore<P>, W: MakeWaiters<P>>(
    alloc: Global,
) -> Option<Kernel<P, S, W>> {
    let plan = BootPlan::new::<P>(16, 4, 2, 1, Vec::new(alloc)).ok()?;
    Kernel::<P, S, W>::boot(alloc, &plan).ok()
}

/// A boot, whose first thread is ready.
fn boot<P: Profile, S: MakeStore<P>, W: MakeWaiters<P>>(alloc: Global) -> Option<bool> {
    let kernel = booted::<P, S, W>(alloc)?;
    Some(kernel.thread_state(1 << P::TCB_BITS) == Some(ThreadState::Ready))
}

/// A plan with a region whose address no narrow set-up can say: it is outside.
fn plan(alloc: Global) -> Option<bool> {
    let region = vec![in alloc; (0xffff_ffff_ffff_f000, 12)].ok()?;
    let plan = BootPlan::new::<Narrow>(16, 4, 2, 1, region);
    Some(plan.err() == Some(PlanDefect::UntypedOutside(0)))
}

/// How the copying of a kernel ends in which a thread waits.
fn copy_outcome<S: MakeStore<Wide>, W: MakeWaiters<Wide>>(alloc: Global) -> Outcome {
    // One request alone is refused, so that the second boot has what it asks for.
    let kernel = match waiting::<S, W>(alloc) {
        None => waiting::<S, W>(alloc),
        kernel => kernel,
    };
    match kernel {
        Some(kernel) => outcome!(copy(alloc, &kernel)),
        None => Outcome::Wrong,
    }
}

/// The run of the stored set-up.
fn run<
    S: MakeStore<Wide> + DerivationStore<Wide>,
    W: MakeWaiters<Wide>,
    T: MakeStore<Narrow> + DerivationStore<Narrow>,
    V: MakeWaiters<Narrow>,
>(alloc: Global) -> Option<bool> {
    let answer = text_of::<S, W, T, V>(alloc, SETUP).ok()?;
    Some(answer.text.as_slice() == REPORT)
}

/// Set-ups, each with how many clients it has, the limit, and how many calls. If nothing is said of the limit it is as many as
/// there are calls, and one if there is none.
const COUNTS: [(&[u8], (u32, u32, usize)); 3] = [
    (SETUP, (1, 2, 2)),
    (
        b"format = 1\nmemory_bits = 16\nroot_radix = 4\nthreads = 2\nendpoints = 1\n",
        (1, 1, 0),
    ),
    (
        b"format = 1\nmemory_bits = 16\nroot_radix = 4\nthreads = 2\nendpoints = 1\nclients = 2\n\
        [[untyped]]\nbase = 16384\nbits = 12\n\
        [[call]]\nthread = \"0x800\"\nop = \"send\"\ncap = 4\nlabel = 7\nwords = [1, \"0xFfffFFFFffffFFFF\"]\n\
        [[call]]\nthread = 4096\nop = \"recv\"\ncap = 4\nclient = 1\nexpect = \"delivered 6144 from 2048\"\n",
        (2, 2, 2),
    ),
];

/// The reading of set-ups, which have so many clients and calls.
fn read(alloc: Global) -> Option<bool> {
    for (text, counts) in COUNTS {
        match read_setup(alloc, text) {
            Ok(setup) => {
                if (setup.clients(), setup.limit(), setup.calls().len()) != counts {
                    return Some(false);
                }
            }
            Err(SetupFault::Memory) => return None,
            Err(_) => return Some(false),
        }
    }
    Some(true)
}

/// Command lines, each with whether it names a command.
const LINES: [(&[&str], bool); 6] = [
    (&["sel4sim"], false),
    (&["sel4sim", "chek"], false),
    (&["sel4sim", "rows.toml", "a"], false),
    (&["sel4sim", "check"], true),
    (&["sel4sim", "rows.toml", "trace"], true),
    (FILE_LINE, true),
];

const FILE_LINE: &[&str] = &["sel4sim", "check", "setup.toml"];

/// The reading of command lines, of which the last one has a file.
fn words(alloc: Global) -> Option<bool> {
    let mut file = None;
    for (words, names_command) in LINES {
        match line(alloc, words) {
            Ok(line) => {
                if line.names_command != names_command {
                    return Some(false);
                }
                file = line.file;
            }
            Err(fault) => return if fault.status() == 3 {
                None
            } else {
                Some(false)
            },
        }
    }
    Some(file == Some("setup.toml"))
}

/// Says how a call ended: whether it gave what is wanted.
fn tell<R: Print>(rt: &R, name: &str, outcome: Outcome) -> anyhow::Result<bool> {
    let said = match outcome {
        Outcome::Done => "done",
        Outcome::DoneAgain => "out of memory, then done",
        Outcome::Wrong => "wrong",
    };
    println!(rt; "{name}: {said}")?;
    Ok(outcome != Outcome::Wrong)
}

/// Says how a start, calls and a settling ended.
fn tell_shared<R: Print>(rt: &R, outcomes: SharedOutcomes) -> anyhow::Result<bool> {
    let started = tell(rt, "start", outcomes.start)?;
    let called = tell(rt, "call", outcomes.call)?;
    let settled = tell(rt, "settle", outcomes.settle)?;
    Ok(started && called && settled)
}

/// The calls over one pair of a capability store and a store of waiting threads.
fn tell_pair<
    S: MakeStore<Wide> + DerivationStore<Wide>,
    W: MakeWaiters<Wide>,
    T: MakeStore<Narrow> + DerivationStore<Narrow>,
    V: MakeWaiters<Narrow>,
    R: Print + AllocGlobal + Wait,
>(rt: &R, pair: &str) -> anyhow::Result<bool> {
    let alloc = rt.alloc();
    println!(rt; "{pair}")?;
    let wide = tell(rt, "boot, wide", outcome!(boot::<Wide, S, W>(alloc)))?;
    let narrow = tell(rt, "boot, narrow", outcome!(boot::<Narrow, T, V>(alloc)))?;
    let copied = tell(rt, "copy", copy_outcome::<S, W>(alloc))?;
    let ran = tell(rt, "run", outcome!(run::<S, W, T, V>(alloc)))?;
    let reported = tell(rt, "report", stored_outcome::<S, W>(alloc))?;
    let shared = tell_shared(rt, shared_outcomes::<S, W, R>(rt, alloc))?;
    Ok(wide && narrow && copied && ran && reported && shared)
}

/// All calls, over each pair: whether each gave what is wanted.
fn tell_all<R: Print + AllocGlobal + Wait>(rt: &R) -> anyhow::Result<bool> {
    let taken = tell(rt, "command line", outcome!(words(rt.alloc())))?;
    let understood = tell(rt, "set-up", outcome!(read(rt.alloc())))?;
    let planned = tell(rt, "plan", outcome!(plan(rt.alloc())))?;
    let explored = tell(rt, "orders", outcome!(orders::orders(rt.alloc())))?;
    let ran = tell(rt, "check and migrate", outcome!(runs::runs(rt.alloc())))?;
    let reads = tell(rt, "reads", outcome!(devices::reads(rt.alloc())))?;
    let writes = tell(rt, "writes", outcome!(Some(devices::writes())))?;
    let links = tell_pair::<
        LinkedStore<Wide>,
        LinkedWaiters<Wide>,
        LinkedStore<Narrow>,
        LinkedWaiters<Narrow>,
        R,
    >(rt, "LinkedStore, LinkedWaiters")?;
    let rows = tell_pair::<
        RowStore<Wide>,
        RowWaiters<Wide>,
        RowStore<Narrow>,
        RowWaiters<Narrow>,
        R,
    >(rt, "RowStore, RowWaiters")?;
    Ok(taken && understood && planned && explored && ran && reads && writes && links && rows)
}

/// The words that the program was started with; none if it was out of memory.
fn words_given<R: Env + AllocGlobal>(rt: &R) -> Option<Vec<String>> {
    env::args(rt).ok()?.collect::<Vec<String>>(rt.alloc()).ok()
}

/// Runs the set-up on standard input as words say, and answers the exit status.
fn run_input<R: Input + Print + AllocGlobal + Threads + Wait + Sync>(
    rt: &R,
    first: &str,
    others: &[String],
) -> anyhow::Result<u8> {
    if first == "order" {
        return Ok(match Order::told(rt.alloc(), others) {
            Some(order) => order.run_input(rt),
            None => REFUSED,
        });
    }
    match others {
        [waiters] => match Pair::named(first, waiters.as_str()) {
            Some(pair) => pair.check_input(rt),
            None => Ok(REFUSED),
        },
        _ => Ok(REFUSED),
    }
}

/// Does what words say, and answers the exit status.
fn run_words<R: Input + Print + AllocGlobal + Threads + Wait + Sync>(
    rt: &R,
    words: &[String],
) -> anyhow::Result<u8> {
    if words.len() < 2 {
        return Ok(if tell_all(rt)? { 0 } else { 1 });
    }
    run_input(rt, words[1].as_str(), &words[2..])
}

fn main(rt: HostRuntime) -> anyhow::Result<ExitCode> {
    let status = match words_given(&rt) {
        Some(words) => run_words(&rt, words.as_slice())?,
        None => run_words(&rt, &[])?,
    };
    Ok(ExitCode::from(status))
}
