//! The mark that a set-up of `import --flows` carries: a name that means nothing else. The importer writes it, and no object of a layout
//! has it for its name; who asks of a set-up what does not hold of one with the mark looks for it.
#![tactic(auto)]

ghost use Rattle.std.specs.Prelude.{◌≡◌, string_bytes};
ghost use Rattle.std.specs.Str.{bytes_eq};
ghost use Rattle.std.specs.List.{list_any};
ghost use Rattle.setup_values.specs.Names.{names_view};
ghost use Rattle.setup_marks.specs.Marks as spec;

use setup_values::Name;

/// The name by which a set-up says that `import --flows` made it.
pub const IMPORT_FLOWS: &str = "import_flows";

/// The word of that name: the first one behind the largest memory, so that no object, no slot and no address has it.
pub const IMPORT_FLOWS_WORD: u64 = 1 << 20;

/// Whether one of some names is a text.
fn has_name(names: &[Name], text: &str) -> bool
    ensures { result ≡ list_any (λ n. bytes_eq (string_bytes n.text) text.now) names.now }
{
    for name in names {
        if name.text.as_str() == text {
            return true;
        }
    }
    false
}

/// Whether `import --flows` made the set-up that gives these names. Each object of the layout counts there, so a thread also uses what
/// no word of it leads to, as a frame that it maps.
#[tactic(auto, using(crate::proofs::Marked::marked))]
pub fn is_for_flows(names: &[Name]) -> bool
    ensures { result ≡ spec.is_for_flows (names_view names.now) }
{
    has_name(names, IMPORT_FLOWS)
}
