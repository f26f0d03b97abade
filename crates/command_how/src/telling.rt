//! What comes of a question of two threads, and what is said about it: calls that were found, as a set-up, or a line.
ghost use Rattle.std.specs.Prelude.{◌≡◌, ◌≤◌, ◌++◌, ℕ, true, false, IfOk, List, OnOk, length, string_bytes};
ghost use Rattle.kernel_abstract.specs.Memory.{IsInMemory};
ghost use Rattle.kernel_abstract.specs.Plan.{IsPlan};
ghost use Rattle.query_parts.specs.declared.listed.PartUse.{PartUse as PartUseOf};
ghost use Rattle.setup_values.specs.Names.{names_view};
ghost use Rattle.command_parts.specs.Ever.{AreRightParts};
ghost use Rattle.command_how_witness.specs.Witness.{asking_of};
ghost use Rattle.command_how_witness.specs.Excluded.{IsOutside, IsRuledOut, IsInside};
ghost use Rattle.command_how.specs.How as spec;
ghost use Rattle.command_how.specs.Line.{how_line};

use crate::finding::{Found, find, shortened};
use crate::line::{NoWitness, PartText, happening_word};
use crate::table::with_calls;
use cap_core::Profile;
use command_check::Behind;
use command_core::Verdict;
use command_how_witness::{Asked, is_excluded, is_excluded_by_flow, is_witness_text};
use ipc_core::MakeWaiters;
use kernel_core::{Call, Kernel};
use query_parts::{PartsFault, part_at};
use setup_format::{Setup, table_of};
use setup_migrate::table_text;
use setup_values::{Name, thread_name};
use slot_core::{DerivationStore, MakeStore};
use std::alloc::{AllocError, Global};
use std::fmt::Write;
use toml::Table;

/// What comes of a question: the text of a witness, or why there is none.
#[derive(Drop)]
pub enum Outcome {
    Witness(Vec<u8>),
    Without(NoWitness),
}

/// Adds the line of an answer that is no witness.
fn add_line(
    out: &mut String,
    names: &[Name],
    asked: &Asked<'_>,
    answer: NoWitness,
) -> Result<(), AllocError>
    ensures { OnOk result (string_bytes out.new ≡ string_bytes out.old ++ how_line (names_view names.now) (asking_of asked.now) answer) }
{
    let what = happening_word(asked.what);
    let from = thread_name(names, asked.from);
    let to = thread_name(names, asked.to);
    let first = PartText(part_at(asked.memory, asked.from));
    let second = PartText(part_at(asked.memory, asked.to));
    writeln!(
        out,
        "how {what} {from} part {first} -> {to} part {second} {answer}"
    )
}

/// The line of an answer that is no witness.
fn line(
    alloc: Global,
    names: &[Name],
    asked: &Asked<'_>,
    answer: NoWitness,
) -> Result<(Vec<u8>, Verdict), AllocError>
    ensures { IfOk result (λ made. spec.IsLine (names_view names.now) (asking_of asked.now) answer made.0.items made.1) }
{
    let mut text = String::new(alloc);
    add_line(&mut text, names, asked, answer)?;
    Ok((text.into_bytes(), Verdict::NotMet))
}

/// The text of a set-up that makes the first calls of another and then those that were found, without those that are not needed.
fn text_of<P: Profile, S: MakeStore<P> + DerivationStore<P>, W: MakeWaiters<P>>(
    alloc: Global,
    behind: &Behind<'_>,
    kernel: &Kernel<P, S, W>,
    asked: &Asked<'_>,
    found: Vec<Call>,
) -> Result<Vec<u8>, AllocError>
    requires { (memory : ℕ) × IsInMemory P.profile memory kernel.now }
{
    let calls = shortened::<P, S, W>(alloc, kernel, asked, found)?;
    let mut at = kernel.copy(alloc)?;
    let mut replies = Vec::with_capacity(alloc, calls.len())?;
    at.run(calls.as_slice(), &mut replies);
    let table = table_of(alloc, behind.text)?;
    let table = with_calls::<P>(
        alloc,
        &table,
        behind.names,
        behind.made,
        calls.as_slice(),
        replies.as_slice(),
    )?;
    table_text(alloc, &table)
}

/// The text of a witness, if it passes the test when it is read again; that none is found, if it does not.
fn tested<P: Profile, S: MakeStore<P> + DerivationStore<P>, W: MakeWaiters<P>>(
    alloc: Global,
    behind: &Behind<'_>,
    asked: &Asked<'_>,
    text: Vec<u8>,
) -> Result<Outcome, AllocError>
    requires plan { IsPlan P.profile behind.now.setup.now.plan }
    requires made { behind.now.made ≤ length behind.now.setup.now.calls }
    ensures { IfOk result (λ outcome. (most : ℕ) → spec.IsFound P.profile (asking_of asked.now) most behind.now.setup.now behind.now.made outcome) }
{
    let (setup, made) = (behind.setup, behind.made);
    if is_witness_text::<P, S, W>(alloc, text.as_slice(), setup, made, asked)? {
        Ok(Outcome::Witness(text))
    } else {
        Ok(Outcome::Without(NoWitness::NotFound))
    }
}

/// What is found if it is not excluded, by so many copies of the kernel at most.
fn sought<P: Profile, S: MakeStore<P> + DerivationStore<P>, W: MakeWaiters<P>>(
    alloc: Global,
    behind: &Behind<'_>,
    kernel: &Kernel<P, S, W>,
    asked: &Asked<'_>,
    most: u64,
) -> Result<Outcome, AllocError>
    requires plan { IsPlan P.profile behind.now.setup.now.plan }
    requires made { behind.now.made ≤ length behind.now.setup.now.calls }
    requires memory { (memory : ℕ) × IsInMemory P.profile memory kernel.now }
    ensures { IfOk result (spec.IsFound P.profile (asking_of asked.now) most behind.now.setup.now behind.now.made) }
{
    match find::<P, S, W>(alloc, kernel, asked, most)? {
        Found::Calls(found) => {
            let text = text_of::<P, S, W>(alloc, behind, kernel, asked, found)?;
            let outcome = tested::<P, S, W>(alloc, behind, asked, text)?;
            Ok(outcome)
        }
        Found::None => Ok(Outcome::Without(NoWitness::NotFound)),
        Found::Limit => Ok(Outcome::Without(NoWitness::NotFoundOf(most))),
    }
}

/// That a flow excludes it, if one does; or what is found.
fn sought_unless_flow<P: Profile, S: MakeStore<P> + DerivationStore<P>, W: MakeWaiters<P>>(
    alloc: Global,
    behind: &Behind<'_>,
    kernel: &Kernel<P, S, W>,
    asked: &Asked<'_>,
    most: u64,
) -> Result<Outcome, AllocError>
    requires plan { IsPlan P.profile behind.now.setup.now.plan }
    requires made { behind.now.made ≤ length behind.now.setup.now.calls }
    requires memory { (memory : ℕ) × IsInMemory P.profile memory kernel.now }
    ensures { IfOk result (spec.IsFoundUnlessFlow P.profile (asking_of asked.now) most kernel.now behind.now.setup.now behind.now.made) }
{
    if is_excluded_by_flow::<P, S, W>(alloc, kernel, asked)? {
        return Ok(Outcome::Without(NoWitness::ExcludedByFlow));
    }
    let outcome = sought::<P, S, W>(alloc, behind, kernel, asked, most)?;
    Ok(outcome)
}

/// Whether it is excluded, in a kernel whose objects lie in its memory.
fn excludes<P: Profile, S: MakeStore<P> + DerivationStore<P>, W: MakeWaiters<P>>(
    alloc: Global,
    kernel: &Kernel<P, S, W>,
    asked: &Asked<'_>,
) -> Result<bool, AllocError>
    requires { (memory : ℕ) × IsInMemory P.profile memory kernel.now }
    ensures outside { IfOk result (λ is. is ≡ true → (uses : List PartUseOf) → IsOutside P.profile (asking_of asked.now) uses kernel.now asked.now.what) }
    ensures ruled { IfOk result (λ is. is ≡ true → (uses : List PartUseOf) → IsRuledOut P.profile (asking_of asked.now) uses kernel.now asked.now.what) }
    ensures inside { IfOk result (λ is. is ≡ false → IsInside P.profile (asking_of asked.now) kernel.now asked.now.what) }
{
    match is_excluded::<P, S, W>(alloc, kernel, asked) {
        Ok(is) => Ok(is),
        Err(PartsFault::Memory) => Err(AllocError),
        Err(PartsFault::Block) => unreachable!(),
    }
}

/// What comes of a question of two threads, by so many copies of the kernel at most.
pub fn outcome_of<P: Profile, S: MakeStore<P> + DerivationStore<P>, W: MakeWaiters<P>>(
    alloc: Global,
    behind: &Behind<'_>,
    kernel: &Kernel<P, S, W>,
    asked: &Asked<'_>,
    most: u64,
) -> Result<Outcome, AllocError>
    requires plan { IsPlan P.profile behind.now.setup.now.plan }
    requires made { behind.now.made ≤ length behind.now.setup.now.calls }
    requires memory { (memory : ℕ) × IsInMemory P.profile memory kernel.now }
    ensures { IfOk result (λ outcome. (uses : List PartUseOf) → AreRightParts P.profile kernel.now asked.now.without.now asked.now.memory.now uses
        → spec.IsOutcome P.profile (asking_of asked.now) most uses kernel.now behind.now.setup.now behind.now.made outcome) }
{
    if excludes::<P, S, W>(alloc, kernel, asked)? {
        return Ok(Outcome::Without(NoWitness::Excluded));
    }
    let outcome = sought_unless_flow::<P, S, W>(alloc, behind, kernel, asked, most)?;
    Ok(outcome)
}

/// What is said about two threads, by so many copies of the kernel at most.
pub fn told<P: Profile, S: MakeStore<P> + DerivationStore<P>, W: MakeWaiters<P>>(
    alloc: Global,
    behind: &Behind<'_>,
    kernel: &Kernel<P, S, W>,
    asked: &Asked<'_>,
    most: u64,
) -> Result<(Vec<u8>, Verdict), AllocError>
    requires plan { IsPlan P.profile behind.now.setup.now.plan }
    requires made { behind.now.made ≤ length behind.now.setup.now.calls }
    requires memory { (memory : ℕ) × IsInMemory P.profile memory kernel.now }
    ensures { IfOk result (λ answer. (uses : List PartUseOf) → AreRightParts P.profile kernel.now asked.now.without.now asked.now.memory.now uses
        → spec.IsHowTold P.profile (names_view behind.now.names.now) (asking_of asked.now) most uses kernel.now behind.now.setup.now behind.now.made answer.0.items answer.1) }
{
    match outcome_of::<P, S, W>(alloc, behind, kernel, asked, most)? {
        Outcome::Witness(text) => Ok((text, Verdict::AllMet)),
        Outcome::Without(answer) => line(alloc, behind.names, asked, answer),
    }
}
