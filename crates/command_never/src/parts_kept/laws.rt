//! What an answer that excludes promises. Nothing is done.
ghost use Rattle.std.specs.Prelude.{◌≡◌, ℕ, false, List};
ghost use Rattle.cap_core.specs.declared.profile.ProfileName.{ProfileName};
ghost use Rattle.kernel_abstract.specs.Shown.{Shown};
ghost use Rattle.query_parts.specs.declared.listed.PartMemory.{PartMemory};
ghost use Rattle.query_parts.specs.declared.listed.PartUse.{PartUse};
ghost use Rattle.query_parts.specs.Ever.{AreConfinedEver};
ghost use Rattle.command_never.specs.Waits.{waits};
ghost use Rattle.command_never.specs.Never.{are_open};
ghost use Rattle.command_never.specs.Kept.{AreKeptEver};

/// If parts are confined, and nothing is open from one part to another but by the endpoints that are named, then, whatever
/// calls the threads of the parts make: no slot of the one part ever holds a capability to an object that has bytes in the
/// other's memory, and no message of a thread of the one is ever delivered to a thread of the other, but by those endpoints.
pub fn what_is_not_open_is_kept()
    ensures { (p : ProfileName) (memory : List PartMemory) (uses : List PartUse) (v : Shown) (by : List ℕ) (i j : ℕ) →
        AreConfinedEver p memory uses v → are_open p memory uses (waits p v) by i j ≡ false →
        AreKeptEver p memory uses v by i j }
{}
