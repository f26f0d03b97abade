//! The first line of an audit.
ghost use Rattle.std.specs.Prelude.{◌≡◌, ◌++◌, OnOk, string_bytes};
ghost use Rattle.setup_report.specs.Naming.{naming_view};
ghost use Rattle.command_audit.specs.Text as spec;

use crate::text::SlotAsked;
use setup_format::Setup;
use setup_report::Naming;
use setup_values::profile_text;
use std::alloc::AllocError;
use std::fmt::Write;

/// Adds the first line: the version of the audit's form, how large the set-up is, how many of its calls are made, and the
/// slot that is asked for, where one is.
pub fn add_head(
    out: &mut String,
    naming: &Naming<'_>,
    setup: &Setup,
    made: usize,
    slot: Option<u64>,
) -> Result<(), AllocError>
    ensures { OnOk result (string_bytes out.new ≡ string_bytes out.old ++ spec.audit_head_line (naming_view naming.now) setup.now made slot) }
{
    let profile = profile_text(setup.profile());
    let memory_bits = setup.plan().memory_bits();
    let calls = setup.calls().len();
    let asked = SlotAsked { naming, slot };
    writeln!(
        out,
        "audit 2 {profile} memory_bits {memory_bits} calls {calls} after {made}{asked}"
    )
}
