//! Which shared kernel it is.
use std::marker::Brand;
use std::sync::ledger::Ledger;

/// Names one shared kernel, beside the ledger of its clients' calls: the profile, what the kernel shows at the opening, a
/// reached state that it then stands for, and the most entries of its history. Each call of a program picks them.
///
/// A client came from a shared kernel's start where both have the same name.
pub trait Naming: Ledger {
    ghost use Rattle.std.specs.Prelude.{ℕ};
    ghost use Rattle.cap_core.specs.declared.profile.ProfileName.{ProfileName};
    ghost use Rattle.kernel_abstract.specs.Shown.{Shown};
    ghost use Rattle.kernel_abstract.specs.State.{State};

    ghost profile: { ProfileName };

    ghost opening: { Shown };

    ghost start: { State };

    ghost limit: { ℕ };
}

impl Naming for Brand {
    ghost use Rattle.std.specs.Prelude.{[]};
    ghost use Rattle.cap_core.specs.declared.profile.ProfileName.TheVariants.{Wide};
    ghost use Rattle.kernel_abstract.specs.Plan.{planned};
    ghost use Rattle.kernel_abstract.specs.Boot.{boot};
    ghost use Rattle.kernel_abstract.specs.State.{shown};

    ghost profile = { Wide };

    ghost opening = { shown (boot Wide (planned 0 0 0 0 [])) };

    ghost start = { boot Wide (planned 0 0 0 0 []) };

    ghost limit = { 0 };
}
