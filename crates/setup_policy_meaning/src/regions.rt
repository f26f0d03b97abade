//! Which untyped region a word of a policy means.
ghost use Rattle.std.specs.Prelude.{◌≡◌, ◌<◌, ◌≤◌, ◌^◌, ◌*◌, [], IfOk, IsErr, MatchOption, Some, true, false, map};
ghost use Rattle.std.specs.List.{cons_option, filter_map};
ghost use Rattle.cap_core.specs.Numbers.{slot_size};
ghost use Rattle.kernel_abstract.specs.Plan.{IsWithinLimits};
ghost use Rattle.slot_core.specs.Calls.{derivation_view};
ghost use Rattle.slot_core.specs.declared.derivations.Derivation.{Derivation as TheDerivation};
ghost use Rattle.setup_values.specs.Names.{names_view};
ghost use Rattle.setup_report.specs.Meant as numbers;
ghost use Rattle.setup_report.specs.State as state;
ghost use Rattle.setup_policy_meaning.specs.Meant.{word_text};
ghost use Rattle.setup_policy_meaning.specs.Regions as spec;

use crate::objects::{Kind, Meaning, Unmeant, slot_address, slot_count, text_of_word};
use cap_core::{Cap, Profile};
use ipc_core::Waiters;
use kernel_core::BootPlan;
use setup_policy::PolicyVersion;
use setup_policy_file::Word;
use setup_report::number_meant;
use slot_core::{CapStore, Derivation};
use std::alloc::{AllocError, Global};

/// The first slot of the root CNode that boot puts an object into.
const FIRST_SLOT: u64 = 2;

/// The region that a capability names: its address, and the bits of its size.
fn region_named(cap: Cap) -> Option<(u64, u32)>
    ensures { result ≡ spec.region_named cap }
{
    match cap {
        Cap::Untyped { base, bits, .. } => Some((base, bits)),
        _ => None,
    }
}

/// The region that a capability names, where it begins at an address.
fn region_at(base: u64, cap: Cap) -> Option<(u64, u32)>
    ensures { result ≡ spec.region_at base cap }
{
    match cap {
        Cap::Untyped {
            base: other,
            bits,
            ..
        } if other == base => Some((other, bits)),
        _ => None,
    }
}

/// The regions that begin at an address.
fn regions_at(alloc: Global, rows: &[Derivation], base: u64) -> Result<Vec<(u64, u32)>, AllocError>
    ensures { IfOk result (λ v. v.items ≡ filter_map (λ (d : TheDerivation). spec.region_at base d.cap) rows.now) }
{
    let mut regions = Vec::new(alloc);
    for row in rows {
        if let Some(region) = region_at(base, row.cap) {
            regions.push(region)?;
        }
    }
    Ok(regions)
}

/// The first slot of the root CNode that boot puts a region into, where there is one.
fn first_region<P: Profile>(plan: &BootPlan) -> u64
    requires { IsWithinLimits P.profile plan.now }
    ensures { result ≡ numbers.first_region plan.now }
{
    FIRST_SLOT + u64::from(plan.threads()) + u64::from(plan.endpoints())
}

/// Whether boot puts an object into the slot.
fn is_boot_slot<P: Profile>(plan: &BootPlan, index: u64) -> bool
    requires { IsWithinLimits P.profile plan.now }
    ensures { result ≡ numbers.is_boot_slot plan.now index }
{
    index >= FIRST_SLOT && index < first_region::<P>(plan) + plan.untypeds().len() as u64
}

/// The region that boot puts into a slot.
fn boot_region<P: Profile>(plan: &BootPlan, index: u64) -> Option<(u64, u32)>
    requires { IsWithinLimits P.profile plan.now }
    ensures { result ≡ spec.boot_region plan.now index }
{
    let first = first_region::<P>(plan);
    if index < first {
        return None;
    }
    plan.untypeds().get((index - first) as usize).copied()
}

/// Whether all have this size.
fn have_size(regions: &[(u64, u32)], bits: u32) -> bool
    ensures { result ≡ spec.have_size bits regions.now }
{
    for region in regions {
        if region.1 != bits {
            return false;
        }
    }
    true
}

/// The first of them, where all have its size.
fn only_region(regions: &[(u64, u32)]) -> Option<(u64, u32)>
    ensures { result ≡ spec.only_region regions.now }
{
    let region = *regions.first()?;
    if have_size(regions, region.1) {
        Some(region)
    } else {
        None
    }
}

/// The first 2^bits bytes, where a region is as large.
fn first_bytes(bits: u64, regions: &[(u64, u32)]) -> Option<(u64, u32)>
    ensures { result ≡ spec.first_bytes bits regions.now }
{
    for region in regions {
        if bits <= u64::from(region.1) {
            return Some((region.0, bits as u32));
        }
    }
    None
}

/// The texts before and behind the first stroke.
fn at_stroke(name: &str) -> Option<(&str, &str)>
    ensures { MatchOption result (spec.has_stroke name.now ≡ false) (λ x. (spec.has_stroke name.now ≡ true) × (x.0.now ≡ spec.before_stroke name.now) × (x.1.now ≡ spec.behind_stroke name.now)) }
{
    name.split_once('/')
}

/// The first bytes of a region, where a number of bits is given.
fn part_of(bits: Option<u64>, regions: &[(u64, u32)]) -> Option<(u64, u32)>
    ensures { result ≡ spec.part_of bits regions.now }
{
    first_bytes(bits?, regions)
}

/// The bits of the largest region.
fn largest(regions: &[(u64, u32)]) -> Option<u32> {
    let mut largest: Option<u32> = None;
    for (_, bits) in regions {
        let is_larger = match largest {
            None => true,
            Some(other) => *bits > other,
        };
        if is_larger {
            largest = Some(*bits);
        }
    }
    largest
}

/// A region as a list, where there is one.
fn listed(alloc: Global, region: Option<(u64, u32)>) -> Result<Vec<(u64, u32)>, AllocError>
    ensures { IfOk result (λ v. v.items ≡ cons_option region []) }
{
    let mut regions = Vec::new(alloc);
    match region {
        Some(region) => {
            regions.push(region)?;
            Ok(regions)
        }
        None => Ok(regions),
    }
}

impl<P: Profile, S: CapStore<P> + Drop, W: Waiters<P> + Drop> Meaning<'_, P, S, W> {
    /// The region that boot put into a slot of the root CNode, or the one that another slot holds.
    fn region_in_slot(&self, index: u64) -> Option<(u64, u32)>
        requires { index < 2 ^ 32 }
        ensures { result ≡ spec.region_in_slot P.profile self.now.setup.now.plan self.now.kernel.now index }
    {
        let plan = self.setup.plan();
        if is_boot_slot::<P>(plan, index) {
            boot_region::<P>(plan, index)
        } else {
            region_named(self.kernel.cap_at(slot_address::<P>(index)))
        }
    }

    /// The regions of the state that begin at an address.
    fn regions_there(&self, rows: &[Derivation], base: u64) -> Result<Vec<(u64, u32)>, AllocError>
        requires { map (derivation_view P.profile) rows.now ≡ state.slot_rows self.now.kernel.now }
        ensures { IfOk result (λ v. v.items ≡ spec.regions_at self.now.kernel.now base) }
    {
        let regions = regions_at(self.objects.alloc, rows, base)?;
        Ok(regions)
    }

    /// The regions that a number stands for.
    fn regions_by_number(
        &self,
        rows: &[Derivation],
        number: u64,
    ) -> Result<Vec<(u64, u32)>, AllocError>
        requires { map (derivation_view P.profile) rows.now ≡ state.slot_rows self.now.kernel.now }
        ensures { IfOk result (λ v. v.items ≡ spec.regions_of P.profile self.now.setup.now.plan self.now.kernel.now (Some number)) }
    {
        if number < slot_count::<P>(self.setup.plan()) {
            let regions = listed(self.objects.alloc, self.region_in_slot(number))?;
            return Ok(regions);
        }
        let regions = self.regions_there(rows, number)?;
        Ok(regions)
    }

    /// The regions that a number stands for, where there is one.
    fn regions_of(
        &self,
        rows: &[Derivation],
        number: Option<u64>,
    ) -> Result<Vec<(u64, u32)>, AllocError>
        requires { map (derivation_view P.profile) rows.now ≡ state.slot_rows self.now.kernel.now }
        ensures { IfOk result (λ v. v.items ≡ spec.regions_of P.profile self.now.setup.now.plan self.now.kernel.now number) }
    {
        match number {
            Some(number) => self.regions_by_number(rows, number),
            None => Ok(Vec::new(self.objects.alloc)),
        }
    }

    /// The words for several regions at an address, of which the policy has to name one: each with its bits, the smallest first.
    fn one_of_several(
        &self,
        word: &Word,
        number: Option<u64>,
        regions: &[(u64, u32)],
    ) -> Result<String, AllocError> {
        let alloc = self.objects.alloc;
        let mut sizes = Vec::new(alloc);
        for (_, bits) in regions {
            sizes.push(*bits)?;
        }
        sizes.sort_unstable();
        sizes.dedup();
        let mut words = match (word, number) {
            (Word::Name(name), Some(number)) => format!(in alloc;
                "several regions begin at {name}, which is {number}: write "
            )?,
            _ => format!(in alloc; "several regions begin at {word}: write ")?,
        };
        for (i, bits) in sizes.as_slice().iter().enumerate() {
            let behind = if i == 0 { "" } else { " or " };
            let size = format!(in alloc; "{behind}\"{word}/{bits}\"")?;
            words.push_str(size.as_str())?;
        }
        Ok(words)
    }

    /// That a word means no region: none is there, or several of them.
    fn no_region<T>(
        &self,
        word: &Word,
        number: Option<u64>,
        regions: &[(u64, u32)],
        version: PolicyVersion,
    ) -> Result<T, Unmeant>
        ensures { IsErr result }
    {
        match (largest(regions), version) {
            (None, _) => self.objects.unmeant(Kind::Region, word, number),
            (Some(bits), PolicyVersion::One) => {
                let words = format!(in self.objects.alloc;
                    "{word}: several untyped regions begin there; write the bits of one behind a stroke, as \"{word}/{bits}\""
                )?;
                Err(Unmeant::Words(words))
            }
            (Some(_), PolicyVersion::Two) => {
                let words = self.one_of_several(word, number, regions)?;
                Err(Unmeant::Words(words))
            }
        }
    }

    /// The region that a word without a size means. An address at which regions of several sizes begin means none of them.
    fn whole_region(
        &self,
        rows: &[Derivation],
        word: &Word,
        version: PolicyVersion,
    ) -> Result<(u64, u32), Unmeant>
        requires { map (derivation_view P.profile) rows.now ≡ state.slot_rows self.now.kernel.now }
        ensures { IfOk result (λ r. spec.whole_region P.profile (names_view self.now.objects.names.now) self.now.setup.now.plan self.now.kernel.now (word_text word.now) ≡ Some r) }
    {
        let text = text_of_word(self.objects.alloc, word)?;
        let number = number_meant(self.objects.names, text.as_bytes());
        let regions = self.regions_of(rows, number)?;
        match only_region(regions.as_slice()) {
            Some(region) => Ok(region),
            None => self.no_region(word, number, regions.as_slice(), version),
        }
    }

    /// That there is no such part of a region, whose largest has so many bits.
    fn no_part<T>(
        &self,
        text: &str,
        first: &str,
        number: Option<u64>,
        largest: Option<u32>,
    ) -> Result<T, Unmeant>
        ensures { IsErr result }
    {
        let alloc = self.objects.alloc;
        match largest {
            Some(most) => {
                let words = format!(in alloc; "{text}: the region {first} has {most} bits")?;
                Err(Unmeant::Words(words))
            }
            None => {
                let word = match first.parse::<u64>() {
                    Ok(number) => Word::Number(number),
                    Err(_) => Word::Name(String::from_str(alloc, first)?),
                };
                self.objects.unmeant(Kind::Region, &word, number)
            }
        }
    }

    /// The part of a region that a text with a stroke means: `NAME/BITS`.
    fn part_region(
        &self,
        rows: &[Derivation],
        text: &str,
        first: &str,
        bits: &str,
    ) -> Result<(u64, u32), Unmeant>
        requires { map (derivation_view P.profile) rows.now ≡ state.slot_rows self.now.kernel.now }
        ensures { IfOk result (λ r. spec.part_region P.profile (names_view self.now.objects.names.now) self.now.setup.now.plan self.now.kernel.now first.now bits.now ≡ Some r) }
    {
        let number = number_meant(self.objects.names, first.as_bytes());
        let regions = self.regions_of(rows, number)?;
        let bits = number_meant(&[], bits.as_bytes());
        match part_of(bits, regions.as_slice()) {
            Some(region) => Ok(region),
            None => self.no_part(text, first, number, largest(regions.as_slice())),
        }
    }

    /// The region that a word means, by its address and the bits of its size: the one that begins there, or of `NAME/BITS` its first
    /// 2^BITS bytes. The words of a fault are those of the policy's version.
    #[tactic(auto, using(crate::proofs::Called::by_part, crate::proofs::Called::by_whole))]
    pub fn region(
        &self,
        rows: &[Derivation],
        word: &Word,
        version: PolicyVersion,
    ) -> Result<(u64, u32), Unmeant>
        requires { map (derivation_view P.profile) rows.now ≡ state.slot_rows self.now.kernel.now }
        ensures { IfOk result (λ r. spec.region_meant P.profile (names_view self.now.objects.names.now) self.now.setup.now.plan self.now.kernel.now word.now ≡ Some r) }
    {
        match word {
            Word::Name(name) => match at_stroke(name.as_str()) {
                Some((first, bits)) => {
                    let region = self.part_region(rows, name.as_str(), first, bits)?;
                    Ok(region)
                }
                None => {
                    let region = self.whole_region(rows, word, version)?;
                    Ok(region)
                }
            },
            Word::Number(_) => {
                let region = self.whole_region(rows, word, version)?;
                Ok(region)
            }
        }
    }
}
