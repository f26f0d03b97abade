//! The sizes that the options of `new` ask for.
ghost use Rattle.std.specs.Prelude.{◌≡◌, ◌≤◌, ◌^◌, ℕ, IfOk, MatchOption, map, option_map, unwrap_or};
ghost use Rattle.program.specs.Commas.{words_in as words_in_definition};
ghost use Rattle.program.specs.NewWords.{AreRegionWords, AsksFor, IsProfileNamed, IsRegionWord, NothingFits};
ghost use Rattle.program.specs.Private.{SayNoSizes};
ghost use Rattle.cap_core.specs.declared.profile.ProfileName.{ProfileName as Profile};

use crate::commas::words_in;
use crate::marks::{around, number_said};
use cap_core::ProfileName;
use command_line::Options;
use command_new::NewSetup;
use std::alloc::{AllocError, Global};

/// How many threads a new set-up has, if no number is given.
const USUAL_THREADS: u64 = 2;

/// How many endpoints a new set-up has, if no number is given.
const USUAL_ENDPOINTS: u64 = 1;

/// The profile of a name; the wide one, if none is given.
fn profile_named(name: Option<&str>) -> Option<ProfileName>
    ensures { MatchOption result ((profile : Profile) → ¬ IsProfileNamed (option_map (λ s. s.now) name.entry) profile) (IsProfileNamed (option_map (λ s. s.now) name.entry)) }
{
    match name {
        None => Some(ProfileName::Wide),
        Some(name) => {
            if name == "wide" {
                Some(ProfileName::Wide)
            } else if name == "narrow" {
                Some(ProfileName::Narrow)
            } else {
                None
            }
        }
    }
}

/// The region whose base and bits a word says, with a colon between them; none if it says none whose bits are a number of 32
/// bits.
fn region_in(word: &str) -> Option<(u64, u32)>
    ensures { MatchOption result ((region : ℕ × ℕ) → IsRegionWord word.now region → 2 ^ 32 ≤ region.1) (λ region. IsRegionWord word.now (region.0, region.1)) }
{
    let (before, behind) = around(word, ':');
    let base = number_said(before)?;
    let said = number_said(behind)?;
    let bits = u32::try_from(said).ok()?;
    Some((base, bits))
}

/// The regions that words say; none if a word says no region.
fn regions_of(alloc: Global, words: &[&str]) -> Result<Option<Vec<(u64, u32)>>, AllocError>
    ensures { IfOk result (λ found. MatchOption found (SayNoSizes (map (λ w. w.now) words.now)) (λ v. AreRegionWords (map (λ w. w.now) words.now) v.items)) }
{
    let mut regions = Vec::new(alloc);
    for word in words {
        let Some(region) = region_in(word) else {
            return Ok(None);
        };
        regions.push(region)?;
    }
    Ok(Some(regions))
}

/// The regions that a text says, with commas between them.
fn regions_in(alloc: Global, text: Option<&str>) -> Result<Option<Vec<(u64, u32)>>, AllocError>
    ensures { IfOk result (λ found. MatchOption found (SayNoSizes (words_in_definition (option_map (λ s. s.now) text.entry))) (λ v. AreRegionWords (words_in_definition (option_map (λ s. s.now) text.entry)) v.items)) }
{
    let words = words_in(alloc, text)?;
    regions_of(alloc, words.as_slice())
}

/// The number that an option gives, or the usual one; none if it is no number of 32 bits.
fn count_in(given: Option<u64>, usual: u64) -> Option<u32>
    ensures { MatchOption result (2 ^ 32 ≤ unwrap_or given usual) (λ count. count ≡ unwrap_or given usual) }
{
    u32::try_from(given.unwrap_or(usual)).ok()
}

/// A set-up of these sizes, if the options give them all; none if no plan fits what they give.
fn with_regions(options: Options<'_>, untypeds: Vec<(u64, u32)>) -> Option<NewSetup>
    requires { AreRegionWords (words_in_definition (option_map (λ s. s.now) options.untyped)) untypeds.items }
    ensures { MatchOption result (NothingFits options.entry) (AsksFor options.entry) }
{
    let profile = profile_named(options.profile)?;
    let threads = count_in(options.threads, USUAL_THREADS)?;
    let endpoints = count_in(options.endpoints, USUAL_ENDPOINTS)?;
    Some(NewSetup {
        profile,
        threads,
        endpoints,
        untypeds,
    })
}

/// What the options ask for; none if an option says no profile, no region or no number of 32 bits, so that no plan fits.
pub(crate) fn asked_by(alloc: Global, options: Options<'_>) -> Result<Option<NewSetup>, AllocError>
    ensures { IfOk result (λ found. MatchOption found (NothingFits options.entry) (AsksFor options.entry)) }
{
    match regions_in(alloc, options.untyped)? {
        None => Ok(None),
        Some(untypeds) => Ok(with_regions(options, untypeds)),
    }
}
