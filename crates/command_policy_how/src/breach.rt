//! Which breach a line of a policy's text tells of.
ghost use Rattle.std.specs.Prelude.{◌≡◌, ◌++◌, IfOk, OnOk};
ghost use Rattle.command_policy_how.specs.Breach as spec;

use command_policy_breaches::Passage;
use command_policy_text::{Held, Told, kinds, told_text};
use std::alloc::{AllocError, Global};

/// The breaches of which it is asked how they happen.
pub fn asked_breaches(
    alloc: Global,
    held: Held<'_>,
    passages: &[Passage],
) -> Result<Vec<Told>, AllocError>
    ensures { IfOk result (λ v. v.items ≡ spec.asked_breaches held.entry.policy.now held.entry.layout.now held.entry.homes.now passages.now) }
{
    let mut all = kinds::joined(alloc, held)?;
    let badges = kinds::badges(alloc, held)?;
    let ways = kinds::ways(alloc, held, passages)?;
    let waits = kinds::waits(alloc, held)?;
    let takes = kinds::takes(alloc, held)?;
    all.extend_from_slice(badges.as_slice())?;
    all.extend_from_slice(ways.as_slice())?;
    all.extend_from_slice(waits.as_slice())?;
    all.extend_from_slice(takes.as_slice())?;
    Ok(all)
}

/// The first of some breaches whose line is given.
pub fn told_by(
    alloc: Global,
    held: Held<'_>,
    breaches: &[Told],
    line: &str,
) -> Result<Option<Told>, AllocError>
    ensures { IfOk result (spec.IsToldBy held.entry.policy.now held.entry.layout.now held.entry.labels.now held.entry.homes.now breaches.now line.now) }
{
    for told in breaches {
        let text = told_text(alloc, held, *told)?;
        if text.as_str() == line {
            return Ok(Some(*told));
        }
    }
    Ok(None)
}
