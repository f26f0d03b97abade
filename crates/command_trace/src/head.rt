//! The first line of a trace: what machine the set-up is of.
ghost use Rattle.std.specs.Prelude.{◌≡◌, ◌++◌, OnOk, string_bytes};
ghost use Rattle.command_trace.specs.Trace as spec;

use setup_format::Setup;
use setup_values::profile_text;
use std::alloc::AllocError;
use std::fmt::Write;

/// Adds the first line: the version of the trace's form, and how large the set-up is.
pub fn add_head(out: &mut String, setup: &Setup) -> Result<(), AllocError>
    ensures { OnOk result (string_bytes out.new ≡ string_bytes out.old ++ spec.trace_head_line setup.now) }
{
    let profile = profile_text(setup.profile());
    let memory_bits = setup.plan().memory_bits();
    let calls = setup.calls().len();
    writeln!(
        out,
        "trace 2 {profile} memory_bits {memory_bits} calls {calls}"
    )
}
