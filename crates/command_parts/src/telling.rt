//! How a text of parts names threads, endpoints and parts.
ghost use Rattle.std.specs.Prelude.{◌≡◌, ℕ, [], IfOk, Some, cond, string_bytes};
ghost use Rattle.std.specs.List.{filter_map};
ghost use Rattle.setup_report.specs.Naming.{naming_view, told_as};
ghost use Rattle.setup_report.specs.Text.{held_slot_text};
ghost use Rattle.setup_report.specs.declared.objects.Object.TheVariants as objects;
ghost use Rattle.command_parts.specs.Telling as spec;

use cap_core::Cap;
use list_questions::{Line, add_each};
use query_parts::{PartMemory, part_at};
use setup_report::{HeldSlot, Naming, Object, Told};
use std::alloc::{AllocError, Global};
use std::fmt;
use std::fmt::Write;

/// A thread, and the part in whose memory it lies.
#[derive(Clone, Copy)]
pub struct Home {
    pub thread: u64,
    pub part: u64,
}

/// How threads, endpoints and parts are named.
#[derive(Drop)]
pub struct PartNaming<'a> {
    alloc: Global,
    naming: &'a Naming<'a>,
    /// Where the live threads lie, if names stand in place of addresses.
    homes: Vec<Home>,
}

/// A part, as it is written.
#[derive(Drop)]
pub enum PartTold {
    /// By its number.
    Number(u64),
    /// By its threads, with a `+` between two of them.
    Threads(String),
}

impl fmt::Display for PartTold {
    ghost output = { λ p. Some (spec.part_told_as p) };

    fn fmt<W: fmt::Write>(&self, f: &mut fmt::Formatter<W>) -> fmt::Result {
        match self {
            PartTold::Number(part) => write!(f, "{part}"),
            PartTold::Threads(text) => write!(f, "{text}"),
        }
    }
}

/// Where some threads lie, each in a part's memory.
pub fn homes(alloc: Global, memory: &[PartMemory], threads: &[u64]) -> Result<Vec<Home>, AllocError>
    ensures { IfOk result (λ homes. homes.items ≡ filter_map (spec.home_of memory.now) threads.now) }
{
    let mut homes = Vec::new(alloc);
    for thread in threads {
        if let Some(part) = part_at(memory, *thread) {
            let thread = *thread;
            homes.push(Home { thread, part })?;
        }
    }
    Ok(homes)
}

/// The same, if names stand in place of addresses; else none.
fn homes_told(
    alloc: Global,
    by_name: bool,
    memory: &[PartMemory],
    threads: &[u64],
) -> Result<Vec<Home>, AllocError>
    ensures { IfOk result (λ homes. homes.items ≡ cond by_name (filter_map (spec.home_of memory.now) threads.now) []) }
{
    if by_name {
        homes(alloc, memory, threads)
    } else {
        Ok(Vec::new(alloc))
    }
}

/// The threads of a part.
pub fn threads_of(alloc: Global, homes: &[Home], part: u64) -> Result<Vec<u64>, AllocError>
    ensures { IfOk result (λ threads. threads.items ≡ spec.threads_at_home homes.now part) }
{
    let mut threads = Vec::new(alloc);
    for home in homes {
        if home.part == part {
            threads.push(home.thread)?;
        }
    }
    Ok(threads)
}

/// A thread of a part, behind another.
#[derive(Clone, Copy)]
struct ThreadBehind<'a> {
    naming: &'a Naming<'a>,
}

impl Line<u64> for ThreadBehind<'_> {
    ghost line = { λ l thread. spec.thread_behind (naming_view l.naming.now) thread };

    fn add(&self, out: &mut String, thread: &u64) -> Result<(), AllocError> {
        let told = self.naming.about(*thread);
        write!(out, "+{told}")
    }
}

impl<'a> PartNaming<'a> {
    /// How a text names the parts with this memory, and some threads that live in them.
    pub fn new(
        alloc: Global,
        naming: &'a Naming<'a>,
        memory: &[PartMemory],
        threads: &[u64],
    ) -> Result<PartNaming<'a>, AllocError>
        ensures { IfOk result (λ told. spec.part_naming_view told ≡ spec.part_texts (naming_view naming.now) memory.now threads.now) }
    {
        let homes = homes_told(alloc, naming.is_by_name(), memory, threads)?;
        Ok(PartNaming {
            alloc,
            naming,
            homes,
        })
    }

    /// A thread.
    pub fn thread(&self, address: u64) -> Told<'_>
        ensures { told_as result ≡ (spec.part_naming_view self.entry.now).texts.about address }
    {
        self.naming.about(address)
    }

    /// An endpoint.
    pub fn endpoint(&self, address: u64) -> Told<'_>
        ensures { told_as result ≡ (spec.part_naming_view self.entry.now).texts.object (objects.Endpoint address) }
    {
        self.object(Object::Endpoint(address))
    }

    /// Any object.
    pub fn object(&self, object: Object) -> Told<'_>
        ensures { told_as result ≡ (spec.part_naming_view self.entry.now).texts.object object }
    {
        self.naming.object(object)
    }

    /// A slot, with what it holds.
    pub fn held(&self, slot: u64, cap: Cap) -> HeldSlot<'_>
        ensures { held_slot_text (naming_view result.naming.now) result.slot result.cap ≡ held_slot_text (spec.part_naming_view self.entry.now).texts slot cap }
    {
        let naming = self.naming;
        HeldSlot { naming, slot, cap }
    }

    /// A part.
    pub fn part(&self, part: u64) -> Result<PartTold, AllocError>
        ensures { IfOk result (λ told. spec.part_told_as told ≡ (spec.part_naming_view self.now).part part) }
    {
        let (alloc, naming) = (self.alloc, self.naming);
        let threads = threads_of(alloc, self.homes.as_slice(), part)?;
        match threads.as_slice() {
            [] => Ok(PartTold::Number(part)),
            [first, rest @ ..] => {
                let mut text = format!(in alloc; "{}", naming.about(*first))?;
                add_each(&mut text, rest, &ThreadBehind { naming })?;
                Ok(PartTold::Threads(text))
            }
        }
    }
}
