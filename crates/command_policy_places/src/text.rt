//! How a place is told, below the line of a breach.
ghost use Rattle.std.specs.Prelude.{◌≡◌, ◌++◌, OnOk, Some, string_bytes};
ghost use Rattle.setup_report.specs.Report.{terminated};
ghost use Rattle.command_policy_places.specs.Places as spec;

use crate::calls::PlaceCalls;
use crate::known::SiteNames;
use crate::places::{Place, Role};
use std::alloc::AllocError;
use std::fmt;
use std::fmt::Write;

/// The number of a call; where no call did it, that boot did.
#[derive(Clone, Copy)]
struct SinceText(Option<usize>);

impl fmt::Display for SinceText {
    ghost output = { λ s. Some (spec.since_text s.0) };

    fn fmt<W: fmt::Write>(&self, f: &mut fmt::Formatter<W>) -> fmt::Result {
        match self.0 {
            None => write!(f, "boot"),
            Some(call) => write!(f, "call {call}"),
        }
    }
}

fn role_text(role: Role) -> &'static str
    ensures { result.now ≡ spec.role_text role }
{
    match role {
        Role::Alone => "",
        Role::From => "from ",
        Role::To => "to ",
    }
}

/// A place with its calls: `  from slot @cn_a[1] call 3`.
#[derive(Clone, Copy)]
pub struct PlaceText<'a> {
    pub names: SiteNames<'a>,
    pub place: PlaceCalls,
}

impl fmt::Display for PlaceText<'_> {
    ghost output = { λ t. Some (spec.place_text (spec.texts_told t.names) t.place) };

    fn fmt<W: fmt::Write>(&self, f: &mut fmt::Formatter<W>) -> fmt::Result {
        let PlaceCalls { sited, call, above } = self.place;
        let role = role_text(sited.role);
        let (call, other) = (SinceText(call), SinceText(above));
        match sited.place {
            Place::Slot(slot) => {
                let slot = self.names.slot(slot);
                write!(f, "  {role}slot {slot} {call}")
            }
            Place::Thread(thread) => {
                let thread = self.names.about(thread);
                write!(f, "  {role}thread {thread} {call}")
            }
            Place::Under { slot, above } => {
                let slot = self.names.slot(slot);
                let above = self.names.slot(above);
                write!(f, "  {role}slot {slot} {call} under slot {above} {other}")
            }
        }
    }
}

/// Adds the line of a place.
pub fn add_place(
    out: &mut String,
    names: SiteNames<'_>,
    place: PlaceCalls,
) -> Result<(), AllocError>
    ensures { OnOk result (string_bytes out.new ≡ string_bytes out.old ++ terminated (spec.place_text (spec.texts_told names.entry) place)) }
{
    let text = PlaceText { names, place };
    writeln!(out, "{text}")
}
