//! Laws of a listing's lines, over the definitions alone. Nothing is done.
ghost use Rattle.std.specs.Prelude.{◌≡◌, ℕ, List, map};
ghost use Rattle.cap_core.specs.declared.profile.ProfileName.{ProfileName};
ghost use Rattle.kernel_abstract.specs.Plan.{Plan};
ghost use Rattle.kernel_abstract.specs.Shown.{Shown};
ghost use Rattle.setup_layout.specs.declared.layout.Layout.{Layout};
ghost use Rattle.command_import.specs.Listing.{listing_lines};
ghost use Rattle.command_import.specs.Laid.{IsLaidOut};
ghost use Rattle.command_import.specs.Told.{AreAtTheirNames, CanBeTold, HasItsParts, listing_tells, told_object};

/// The lines of a listing tell what they were made of: of each slot its holder, its number, and its capability with the name of the
/// object; which threads make no calls; and which slot is derived from which. Two layouts with the same listing are told alike, if
/// their names are words, and their numbers and rights are those of a machine.
pub fn listings_tell_layouts()
    ensures { (prefix : List ℕ) (a b : Layout) → CanBeTold a → CanBeTold b
        → listing_lines prefix a ≡ listing_lines prefix b → listing_tells a ≡ listing_tells b }
{}

/// Two layouts with the same listing, of the same objects at the addresses that their names have, are laid out by the same states: what
/// a listing leaves out is where objects stand, and which are in no slot.
pub fn layouts_of_one_listing_are_laid_out_alike()
    ensures { (p : ProfileName) (plan : Plan) (v : Shown) (place : List ℕ → ℕ) (prefix : List ℕ) (a b : Layout)
        → AreAtTheirNames place a → AreAtTheirNames place b → map told_object a.objects.items ≡ map told_object b.objects.items
        → HasItsParts a → HasItsParts b → CanBeTold a → CanBeTold b
        → listing_lines prefix a ≡ listing_lines prefix b → IsLaidOut p plan a v → IsLaidOut p plan b v }
{}
