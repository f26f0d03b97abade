//! What the names of a new set-up stand for.
ghost use Rattle.std.specs.Prelude.{◌≡◌, ◌<◌, ℕ, Some, slice_get};
ghost use Rattle.cap_core.specs.declared.profile.ProfileName.{ProfileName};
ghost use Rattle.cap_core.specs.declared.capability.Cap.TheVariants.{Tcb, Untyped};
ghost use Rattle.kernel_abstract.specs.Plan.{Plan, tcb_place, endpoint_place};
ghost use Rattle.kernel_abstract.specs.Boot.{whole_endpoint};
ghost use Rattle.command_new.specs.Slots.{root_slots, tcb_slot, endpoint_slot, untyped_slot};

/// The slots that have names hold at boot the capabilities of what the names say: thread, endpoint and untyped region by
/// its number.
pub fn named_slots_hold_what_their_names_tell()
    ensures tcbs { (p : ProfileName) (plan : Plan) (i : ℕ) → i < plan.threads → slice_get (root_slots p plan) (tcb_slot i) ≡ Some (Tcb (tcb_place p plan i)) }
    ensures endpoints { (p : ProfileName) (plan : Plan) (j : ℕ) → j < plan.endpoints → slice_get (root_slots p plan) (endpoint_slot plan j) ≡ Some (whole_endpoint (endpoint_place p plan j)) }
    ensures untypeds { (p : ProfileName) (plan : Plan) (k : ℕ) (region : ℕ × ℕ) → slice_get plan.untypeds k ≡ Some region → slice_get (root_slots p plan) (untyped_slot plan k) ≡ Some (Untyped region.0 region.1 0) }
{}
