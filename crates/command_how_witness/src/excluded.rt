//! What the laws exclude.
ghost use Rattle.std.specs.Prelude.{◌≡◌, ◌==◌, ◌⊎◌, ℕ, true, false, [], IfErr, IfOk, List, map};
ghost use Rattle.std.specs.List.{list_any, IsDistinct};
ghost use Rattle.kernel_forest.specs.Forest.{Forest};
ghost use Rattle.kernel_forest.specs.Entries.{Entry, derivations_of, slots};
ghost use Rattle.slot_core.specs.Calls.{derivation_view};
ghost use Rattle.query_parts.specs.declared.listed.PartUse.{PartUse as PartUseOf};
ghost use Rattle.query_parts.specs.Listed.{parts_listed};
ghost use Rattle.query_parts.specs.Below.{StandsNoneBelow};
ghost use Rattle.kernel_abstract.specs.Memory.{IsInMemory};
ghost use Rattle.command_never.specs.declared.parts_kept.never.Never.TheVariants.{Excluded as ExcludedOf, Possible as PossibleOf};
ghost use Rattle.command_never.specs.Answer.{is_excluded as is_excluded_of};
ghost use Rattle.command_how_witness.specs.Witness.{asking_of};
ghost use Rattle.command_how_witness.specs.Excluded.{IsKept, IsNeverSaid, IsOutside, IsRuledOut, IsInside, StandsOneBelow, TakesFrom};
ghost use Rattle.command_how_witness.specs.Private as spec;

use crate::asked::{Asked, Happening};
use cap_core::Profile;
use command_never::{Never, never_by_parts};
use command_parts::{is_in, is_of_part};
use ipc_core::MakeWaiters;
use kernel_core::Kernel;
use query_parts::{PartMemory, PartsFault, part_at};
use slot_core::{Derivation, DerivationStore, MakeStore};
use std::alloc::{AllocError, Global};

fn is_excluded_by(answer: Never) -> bool
    ensures { result ≡ is_excluded_of answer }
{
    matches!(answer, Never::Excluded)
}

/// Whether the part of the one thread is kept from that of the other, but by the endpoints that are named.
fn is_kept<P: Profile, S: MakeStore<P> + DerivationStore<P>, W: MakeWaiters<P>>(
    alloc: Global,
    kernel: &Kernel<P, S, W>,
    asked: &Asked<'_>,
) -> Result<bool, PartsFault>
    ensures kept { IfOk result (λ is. is ≡ true → IsKept P.profile (asking_of asked.now) kernel.now) }
    ensures excluded { IfOk result (λ is. is ≡ true → IsNeverSaid P.profile (asking_of asked.now) kernel.now ExcludedOf) }
    ensures possible { IfOk result (λ is. is ≡ false → IsNeverSaid P.profile (asking_of asked.now) kernel.now PossibleOf) }
    ensures fault { IfErr result (λ fault. fault ≡ PartsFault.Block → (memory : ℕ) → IsInMemory P.profile memory kernel.now → ⊥) }
{
    let Asked {
        without,
        from,
        to,
        by,
        ..
    } = *asked;
    let answer = never_by_parts::<P, S, W>(alloc, without, from, to, by, kernel)?;
    Ok(is_excluded_by(answer))
}

/// Whether the one thread lies in no part, or the other does not lie in its part.
fn is_hold_excluded(asked: &Asked<'_>) -> bool
    ensures { result ≡ spec.is_elsewhere asked.now.memory.now asked.now.from asked.now.to }
{
    match part_at(asked.memory, asked.from) {
        None => true,
        Some(part) => !is_of_part(asked.memory, part, asked.to),
    }
}

/// Whether a slot is of the part, or is listed.
fn is_above(memory: &[PartMemory], part: u64, below: &[u64], slot: u64) -> bool
    ensures { result ≡ spec.is_above memory.now part below.now slot }
{
    is_of_part(memory, part, slot) || is_in(below, slot)
}

fn is_parent_above<P: Profile>(
    memory: &[PartMemory],
    part: u64,
    below: &[u64],
    derivation: &Derivation,
) -> bool
    ensures { result ≡ spec.is_parent_above memory.now part below.now (derivation_view P.profile derivation.now).1 }
{
    match derivation.parent {
        None => false,
        Some(parent) => is_above(memory, part, below, parent.address::<P>()),
    }
}

/// The full slots that stand below slots of a part, for derivations each of which comes behind that of its parent.
fn slots_below<P: Profile>(
    alloc: Global,
    memory: &[PartMemory],
    derivations: &[Derivation],
    part: u64,
) -> Result<Vec<u64>, AllocError>
    ensures { IfOk result (λ below. below.items ≡ spec.slots_listed memory.now part [] (map (derivation_view P.profile) derivations.now)) }
{
    let mut below = Vec::new(alloc);
    for derivation in derivations {
        if is_parent_above::<P>(memory, part, below.as_slice(), derivation) {
            below.push(derivation.slot.address::<P>())?;
        }
    }
    Ok(below)
}

/// Whether one of some slots is of a part.
fn has_one_of(memory: &[PartMemory], part: u64, slots: &[u64]) -> bool
    ensures { result ≡ list_any (spec.is_slot_within memory.now part) slots.now }
{
    for slot in slots {
        if is_of_part(memory, part, *slot) {
            return true;
        }
    }
    false
}

/// Whether no full slot of one part stands below a slot of another, for derivations as a kernel gives them.
fn stands_none_below<P: Profile>(
    alloc: Global,
    memory: &[PartMemory],
    derivations: &[Derivation],
    part: u64,
    other: u64,
) -> Result<bool, AllocError>
    ensures none { IfOk result (λ is. is ≡ true → (uses : List PartUseOf) (f : Forest Entry) → map (derivation_view P.profile) derivations.now ≡ derivations_of f
        → IsDistinct (λ (a b : ℕ). a == b) (slots f) → StandsNoneBelow (parts_listed memory.now uses) part other f) }
    ensures one { IfOk result (λ is. is ≡ false → (f : Forest Entry) → map (derivation_view P.profile) derivations.now ≡ derivations_of f
        → IsDistinct (λ (a b : ℕ). a == b) (slots f) → StandsOneBelow memory.now part other f) }
{
    let below = slots_below::<P>(alloc, memory, derivations, part)?;
    Ok(!has_one_of(memory, other, below.as_slice()))
}

/// Whether two parts are two, and no slot of the other stands below one of the one.
fn are_two_apart<P: Profile, S: MakeStore<P> + DerivationStore<P>, W: MakeWaiters<P>>(
    alloc: Global,
    kernel: &Kernel<P, S, W>,
    memory: &[PartMemory],
    part: u64,
    other: u64,
) -> Result<bool, AllocError>
    ensures apart { IfOk result (λ is. is ≡ true → (uses : List PartUseOf) → spec.AreTwoApart memory.now uses kernel.now part other) }
    ensures below { IfOk result (λ is. is ≡ false → (part ≡ other) ⊎ StandsOneBelow memory.now part other kernel.now.derivations) }
{
    if part == other {
        return Ok(false);
    }
    let derivations = kernel.derivations(alloc)?;
    stands_none_below::<P>(alloc, memory, derivations.as_slice(), part, other)
}

/// Whether the one thread lies in no part; or both lie in parts, and no slot of the other's part stands below one of the one's.
fn is_loss_excluded<P: Profile, S: MakeStore<P> + DerivationStore<P>, W: MakeWaiters<P>>(
    alloc: Global,
    kernel: &Kernel<P, S, W>,
    asked: &Asked<'_>,
) -> Result<bool, AllocError>
    ensures outside { IfOk result (λ is. is ≡ true → (uses : List PartUseOf) → spec.IsLossOutside asked.now.memory.now uses kernel.now asked.now.from asked.now.to) }
    ensures inside { IfOk result (λ is. is ≡ false → TakesFrom asked.now.memory.now kernel.now asked.now.from asked.now.to) }
{
    match (
        part_at(asked.memory, asked.from),
        part_at(asked.memory, asked.to),
    ) {
        (None, _) => Ok(true),
        (Some(part), Some(other)) => {
            are_two_apart::<P, S, W>(alloc, kernel, asked.memory, part, other)
        }
        (Some(_), None) => Ok(false),
    }
}

/// Whether the laws say that it can't happen from the state of a kernel.
///
/// # Errors
///
/// `Memory` if memory was refused; `Block` if the control block of a live thread would end past the last address. No kernel
/// whose objects lie in its memory has such a thread (`fault`).
pub fn is_excluded<P: Profile, S: MakeStore<P> + DerivationStore<P>, W: MakeWaiters<P>>(
    alloc: Global,
    kernel: &Kernel<P, S, W>,
    asked: &Asked<'_>,
) -> Result<bool, PartsFault>
    ensures outside { IfOk result (λ is. is ≡ true → (uses : List PartUseOf) → IsOutside P.profile (asking_of asked.now) uses kernel.now asked.now.what) }
    ensures ruled { IfOk result (λ is. is ≡ true → (uses : List PartUseOf) → IsRuledOut P.profile (asking_of asked.now) uses kernel.now asked.now.what) }
    ensures inside { IfOk result (λ is. is ≡ false → IsInside P.profile (asking_of asked.now) kernel.now asked.now.what) }
    ensures fault { IfErr result (λ fault. fault ≡ PartsFault.Block → (memory : ℕ) → IsInMemory P.profile memory kernel.now → ⊥) }
{
    match asked.what {
        Happening::Message => is_kept::<P, S, W>(alloc, kernel, asked),
        Happening::Hold => Ok(is_hold_excluded(asked)),
        Happening::Loss => Ok(is_loss_excluded::<P, S, W>(alloc, kernel, asked)?),
    }
}
