//! What a kernel is booted from.
ghost use Rattle.std.specs.Prelude.{◌≡◌, ◌^◌, ◌<◌, length, Some, IfOk, IfErr};

use cap_core::Profile;
pub use kernel_abstract::PlanDefect;
use kernel_abstract::plan::Extent;
use std::marker::Model;

/// The sizes of a simulation, and the base and the bits of each untyped region.
///
/// Contracts see it as a `Plan`. It has no profile: the calls that lay it out have one.
#[derive(Drop)]
pub struct BootPlan {
    memory_bits: u32,
    root_radix: u32,
    threads: u32,
    endpoints: u32,
    untypeds: Vec<(u64, u32)>,
}

impl Model for BootPlan {
    ghost use Rattle.kernel_abstract.specs.Plan.{Plan};

    ghost Value = { Plan };

    ghost view = { λ a. record { memory_bits = a.memory_bits; root_radix = a.root_radix; threads = a.threads; endpoints = a.endpoints; untypeds = a.untypeds.items } };
}

impl BootPlan {
    ghost use Rattle.kernel_abstract.specs.Plan.{planned, first_defect, IsWithinLimits, IsPlan, IsUntypedSize, first_tcb, boot_end, slots_taken, untypeds_defect, untyped_defect, overlaps_boot_object, overlaps_tcb, overlaps_endpoint, overlaps_earlier, tcb_place, endpoint_place};

    /// A plan for a memory of 2^`memory_bits` bytes, a root CNode of 2^`root_radix` slots, and so many threads and endpoints.
    /// `untypeds` has the base and the bits of each untyped region. The layout is this project's profile.
    ///
    /// # Errors
    ///
    /// The first defect: `Outside`; for each untyped region in order `Unaligned`, `UntypedOutside` and `Overlap`; `Slots`.
    pub fn new<P: Profile>(
        memory_bits: u32,
        root_radix: u32,
        threads: u32,
        endpoints: u32,
        untypeds: Vec<(u64, u32)>,
    ) -> Result<BootPlan, PlanDefect>
        requires { IsWithinLimits P.profile (planned memory_bits root_radix threads endpoints untypeds.items) }
        ensures plan { IfOk result (λ plan. plan ≡ planned memory_bits root_radix threads endpoints untypeds.items) }
        ensures sound { IfOk result (IsPlan P.profile) }
        ensures defect { IfErr result (λ defect. first_defect P.profile (planned memory_bits root_radix threads endpoints untypeds.items) ≡ Some defect) }
    {
        let plan = BootPlan {
            memory_bits,
            root_radix,
            threads,
            endpoints,
            untypeds,
        };
        if plan.boot_end::<P>() > 1 << memory_bits {
            return Err(PlanDefect::Outside);
        }
        if let Some(defect) = plan.untypeds_defect::<P>() {
            return Err(defect);
        }
        if plan.slots_taken() > 1 << root_radix {
            return Err(PlanDefect::Slots);
        }
        Ok(plan)
    }

    /// The bits of the memory's size in bytes.
    pub fn memory_bits(&self) -> u32
        ensures { result ≡ self.now.memory_bits }
    {
        self.memory_bits
    }

    /// The radix of the root CNode.
    pub fn root_radix(&self) -> u32
        ensures { result ≡ self.now.root_radix }
    {
        self.root_radix
    }

    /// How many threads a boot makes.
    pub fn threads(&self) -> u32
        ensures { result ≡ self.now.threads }
    {
        self.threads
    }

    /// How many endpoints a boot makes.
    pub fn endpoints(&self) -> u32
        ensures { result ≡ self.now.endpoints }
    {
        self.endpoints
    }

    /// The base and the bits of each untyped region.
    pub fn untypeds(&self) -> &[(u64, u32)]
        ensures { result.now ≡ self.now.untypeds }
    {
        self.untypeds.as_slice()
    }

    /// The address of the first thread control block.
    pub fn first_tcb<P: Profile>(&self) -> u64
        requires { IsWithinLimits P.profile self.now }
        ensures { result ≡ first_tcb P.profile self.now }
    {
        let node_end = 1u64 << (P::SLOT_BITS + self.root_radix);
        let size = 1u64 << P::TCB_BITS;
        (node_end + size - 1) / size * size
    }

    /// The address of the thread control block of boot thread `index`.
    pub fn tcb_place<P: Profile>(&self, index: u32) -> u64
        requires { IsWithinLimits P.profile self.now }
        ensures { result ≡ tcb_place P.profile self.now index }
    {
        self.first_tcb::<P>() + (u64::from(index) << P::TCB_BITS)
    }

    /// The address of boot endpoint `index`.
    pub fn endpoint_place<P: Profile>(&self, index: u32) -> u64
        requires { IsWithinLimits P.profile self.now }
        ensures { result ≡ endpoint_place P.profile self.now index }
    {
        self.tcb_place::<P>(self.threads) + (u64::from(index) << P::ENDPOINT_BITS)
    }

    /// The first address past the boot objects.
    fn boot_end<P: Profile>(&self) -> u64
        requires { IsWithinLimits P.profile self.now }
        ensures { result ≡ boot_end P.profile self.now }
    {
        self.endpoint_place::<P>(self.endpoints)
    }

    /// How many slots of the root CNode are taken.
    fn slots_taken(&self) -> usize
        requires { slots_taken self.now < 2 ^ 64 }
        ensures { result ≡ slots_taken self.now }
    {
        2 + self.threads as usize + self.endpoints as usize + self.untypeds.len()
    }

    /// The first defect of the untyped regions.
    fn untypeds_defect<P: Profile>(&self) -> Option<PlanDefect>
        requires { IsWithinLimits P.profile self.now }
        ensures { result ≡ untypeds_defect P.profile self.now 0 self.now.untypeds }
    {
        for (place, region) in self.untypeds.iter().enumerate() {
            let (base, bits) = *region;
            let defect = self.untyped_defect::<P>(place, base, bits);
            if defect.is_some() {
                return defect;
            }
        }
        None
    }

    /// The first defect of the untyped region that stands at a place of the plan.
    fn untyped_defect<P: Profile>(&self, place: usize, base: u64, bits: u32) -> Option<PlanDefect>
        requires limits { IsWithinLimits P.profile self.now }
        requires place { place < length self.now.untypeds }
        requires size { IsUntypedSize P.profile (base, bits) }
        ensures { result ≡ untyped_defect P.profile self.now place (base, bits) }
    {
        let region = Extent::new(base, bits);
        if base % (1 << bits) != 0 {
            Some(PlanDefect::Unaligned(place))
        } else if region.end > 1 << self.memory_bits {
            Some(PlanDefect::UntypedOutside(place))
        } else if self.overlaps_boot_object::<P>(region)
            || self.overlaps_earlier::<P>(place, region)
        {
            Some(PlanDefect::Overlap(place))
        } else {
            None
        }
    }

    /// Whether a region has an address in common with the root CNode, a thread control block or an endpoint.
    fn overlaps_boot_object<P: Profile>(&self, region: Extent) -> bool
        requires { IsWithinLimits P.profile self.now }
        ensures { result ≡ overlaps_boot_object P.profile self.now region }
    {
        region.overlaps(Extent::new(0, P::SLOT_BITS + self.root_radix))
            || self.overlaps_tcb::<P>(region)
            || self.overlaps_endpoint::<P>(region)
    }

    fn overlaps_tcb<P: Profile>(&self, region: Extent) -> bool
        requires { IsWithinLimits P.profile self.now }
        ensures { result ≡ overlaps_tcb P.profile self.now region }
    {
        (0..self.threads).any(|i| region.overlaps(Extent::new(self.tcb_place::<P>(i), P::TCB_BITS)))
    }

    fn overlaps_endpoint<P: Profile>(&self, region: Extent) -> bool
        requires { IsWithinLimits P.profile self.now }
        ensures { result ≡ overlaps_endpoint P.profile self.now region }
    {
        (0..self.endpoints).any(|j| region.overlaps(Extent::new(
            self.endpoint_place::<P>(j),
            P::ENDPOINT_BITS,
        )))
    }

    /// Whether a region has an address in common with an untyped region that stands before a place of the plan.
    fn overlaps_earlier<P: Profile>(&self, place: usize, region: Extent) -> bool
        requires limits { IsWithinLimits P.profile self.now }
        requires place { place < length self.now.untypeds }
        ensures { result ≡ overlaps_earlier self.now place region }
    {
        for i in 0..place {
            let (base, bits) = self.untypeds[i];
            if region.overlaps(Extent::new(base, bits)) {
                return true;
            }
        }
        false
    }
}
