//! The slot that a word stands for.
ghost use Rattle.std.specs.Prelude.{◌≡◌};
ghost use Rattle.std.specs.List.{list_all};
ghost use Rattle.kernel_abstract.specs.Plan.{IsWithinLimits};
ghost use Rattle.setup_values.specs.Names.{names_view};
ghost use Rattle.setup_values.specs.Kinds.{between};
ghost use Rattle.setup_report.specs.Slots as spec;

use crate::meanings::meant::{slot_address, slot_count};
use crate::meanings::words::number_meant;
use cap_core::Profile;
use kernel_boot::BootPlan;
use setup_format::Setup;
use setup_values::Name;

/// Whether a byte is a decimal digit.
fn is_digit(byte: u8) -> bool
    ensures { result ≡ between 48 57 byte }
{
    matches!(byte, b'0'..=b'9')
}

/// Whether all bytes of a word are decimal digits.
fn is_number(word: &[u8]) -> bool
    ensures { result ≡ list_all (between 48 57) word.now }
{
    for byte in word {
        if !is_digit(*byte) {
            return false;
        }
    }
    true
}

/// The address of the slot that the number of a name stands for.
fn slot_named<P: Profile>(plan: &BootPlan, number: u64) -> u64
    requires { IsWithinLimits P.profile plan.now }
    ensures { result ≡ spec.slot_or_address P.profile plan.now number }
{
    if number < slot_count::<P>(plan) {
        slot_address::<P>(number)
    } else {
        number
    }
}

/// The address of the slot that a word stands for: the number, of decimal digits; of a name of the set-up, also after a `@`, the
/// slot of the root CNode that it names, or the address. `None` if the word is neither a number nor a name.
pub fn slot_meant<P: Profile>(names: &[Name], setup: &Setup, word: &[u8]) -> Option<u64>
    requires { IsWithinLimits P.profile setup.now.plan }
    ensures { result ≡ spec.slot_meant P.profile (names_view names.now) setup.now.plan word.now }
{
    let number = number_meant(names, word)?;
    if is_number(word) {
        Some(number)
    } else {
        Some(slot_named::<P>(setup.plan(), number))
    }
}
