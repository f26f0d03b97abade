//! What is asked of a new set-up.
ghost use Rattle.std.specs.Prelude.{◌≡◌, ◌≤◌, ◌↔◌, All, IsTrue};
ghost use Rattle.kernel_abstract.specs.Plan.{IsUntypedSize};
ghost use Rattle.command_new.specs.New.{HasObjects};
ghost use Rattle.command_new.specs.Private.{IsAskedWithin};

use cap_core::limits::{
    MAX_BOOT_ENDPOINTS, MAX_BOOT_THREADS, MAX_BOOT_UNTYPEDS, MAX_ROOT_RADIX, MIN_BOOT_THREADS,
    MIN_ROOT_RADIX,
};
use cap_core::{Profile, ProfileName};
use kernel_boot::BootPlan;

/// The least radix of the root CNode of a new set-up that has room for it.
const LEAST_RADIX: u32 = 4;

/// The sizes of a new set-up, and its untyped regions.
#[derive(Drop)]
pub struct NewSetup {
    /// The machine that it is for.
    pub profile: ProfileName,
    /// How many threads a boot makes.
    pub threads: u32,
    /// How many endpoints a boot makes.
    pub endpoints: u32,
    /// The base and the bits of each untyped region.
    pub untypeds: Vec<(u64, u32)>,
}

/// Whether two lists of regions are the same.
fn are_alike(some: &[(u64, u32)], others: &[(u64, u32)]) -> bool
    ensures { IsTrue result ↔ some.now ≡ others.now }
{
    some == others
}

/// Whether the bits of each region lie within the profile.
fn are_sized<P: Profile>(untypeds: &[(u64, u32)]) -> bool
    ensures { IsTrue result ↔ All (IsUntypedSize P.profile) untypeds.now }
{
    for region in untypeds {
        if region.1 < P::MIN_UNTYPED_BITS || region.1 > P::MAX_OBJECT_BITS {
            return false;
        }
    }
    true
}

impl NewSetup {
    /// How many slots of the root CNode a boot fills, with the empty slot 0.
    fn slots(&self) -> u64 {
        let objects = u64::from(self.threads).saturating_add(u64::from(self.endpoints));
        objects
            .saturating_add(self.untypeds.len() as u64)
            .saturating_add(2)
    }

    /// The least radix from `LEAST_RADIX` on of a root CNode of which half of the slots are free at the least, or the
    /// greatest one.
    pub(crate) fn root_radix(&self) -> u32
        ensures least { MIN_ROOT_RADIX ≤ result }
        ensures most { result ≤ MAX_ROOT_RADIX }
    {
        let slots = self.slots().saturating_mul(2);
        for radix in LEAST_RADIX..MAX_ROOT_RADIX {
            if slots <= 1 << radix {
                return radix;
            }
        }
        MAX_ROOT_RADIX
    }

    /// Whether the sizes and the regions lie within the limits of a simulation.
    pub(crate) fn is_within_limits<P: Profile>(&self) -> bool
        ensures { IsTrue result ↔ IsAskedWithin P.profile self.now }
    {
        MIN_BOOT_THREADS <= self.threads
            && self.threads <= MAX_BOOT_THREADS
            && self.endpoints <= MAX_BOOT_ENDPOINTS
            && self.untypeds.len() <= MAX_BOOT_UNTYPEDS as usize
            && are_sized::<P>(self.untypeds.as_slice())
    }

    /// Whether a plan has the numbers and the regions that are asked for.
    pub(crate) fn is_met_by(&self, plan: &BootPlan) -> bool
        ensures { IsTrue result ↔ HasObjects self.now plan.now }
    {
        plan.threads() == self.threads
            && plan.endpoints() == self.endpoints
            && are_alike(plan.untypeds(), self.untypeds.as_slice())
    }
}
