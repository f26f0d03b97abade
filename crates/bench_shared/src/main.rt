//! Calls and looks of a shared kernel, to be timed from outside.
//!
//! - `take TIMES ENTRIES` opens a book so many times, and takes so many calls each time;
//! - `call TIMES ENTRIES` shares a kernel with one client so many times, which makes so many calls each time;
//! - `look CALLS READERS` shares a kernel in which one client makes so many calls, while so many others look all the time, and
//!   prints how many looks were answered.
//!
//! With no words it does each once with a few, and prints what they gave. The exit status is 1 if a call was not taken.
#![tactic(auto)]

use cap_core::limits::MAX_HISTORY_LIMIT;
use runs::{Job, run};
use std::env::{self, Env};
use std::process::ExitCode;
use std::sync::Wait;
use std::thread::Threads;

mod calls;
mod kernel;
mod runs;

/// How many entries and how many looking clients there are if no words are given.
const FEW_ENTRIES: u32 = 100;

const FEW_READERS: u32 = 2;

/// The most clients that look.
const MOST_READERS: u32 = 64;

/// The job that words name, with how many times it is done and its number.
fn job_in(words: &[String]) -> Option<(Job, u32, u32)> {
    let job = match words.get(1)?.as_str() {
        "take" => Job::Take,
        "call" => Job::Call,
        "look" => Job::Look,
        _ => return None,
    };
    let times = words.get(2)?.as_str().parse::<u32>().ok()?;
    let number = words.get(3)?.as_str().parse::<u32>().ok()?;
    Some((job, times, number))
}

/// The job that the words of the command line name.
fn job_of<R: Env + AllocGlobal>(rt: &R) -> Option<(Job, u32, u32)> {
    let words = env::args(rt).ok()?.collect::<Vec<String>>(rt.alloc()).ok()?;
    job_in(words.as_slice())
}

/// Does a job so many times with so many calls each, or looks beside so many calls with so many clients: how many looks
/// were answered, or `None` if a call was not taken.
fn repeat<R: Threads + Wait + AllocGlobal + Sync>(
    rt: &R,
    job: Job,
    times: u32,
    number: u32,
) -> Option<u64> {
    if job == Job::Look {
        return run(
            rt,
            job,
            times.min(MAX_HISTORY_LIMIT),
            number.min(MOST_READERS),
        );
    }
    for _ in 0..times {
        run(rt, job, number.min(MAX_HISTORY_LIMIT), 0)?;
    }
    Some(0)
}

/// Each job once.
fn sample<R: Threads + Wait + Print + AllocGlobal + Sync>(rt: &R) -> anyhow::Result<bool> {
    let taken = repeat(rt, Job::Take, 1, FEW_ENTRIES).is_some();
    let called = repeat(rt, Job::Call, 1, FEW_ENTRIES).is_some();
    let looked = repeat(rt, Job::Look, FEW_ENTRIES, FEW_READERS).is_some();
    println!(rt; "taken {taken}, called {called}, looked {looked}")?;
    Ok(taken && called && looked)
}

fn main(rt: HostRuntime) -> anyhow::Result<ExitCode> {
    let all = match job_of(&rt) {
        None => sample(&rt)?,
        Some((job, times, number)) => {
            let looks = repeat(&rt, job, times, number);
            if let Some(looks) = looks {
                println!(&rt; "{looks}")?;
            }
            looks.is_some()
        }
    };
    Ok(ExitCode::from(if all { 0 } else { 1 }))
}
