//! What the words tell. Nothing is done.
ghost use Rattle.std.specs.Prelude.{◌≡◌, ◌==◌, ℕ};
ghost use Rattle.std.specs.List.{IsDistinct};
ghost use Rattle.cap_core.specs.declared.profile.ProfileName.{ProfileName};
ghost use Rattle.kernel_forest.specs.Forest.{Forest};
ghost use Rattle.kernel_forest.specs.Entries.{Entry, slots, derivations_of};
ghost use Rattle.kernel_abstract.specs.State.{State};
ghost use Rattle.query_orders.specs.SameWords.{TellsWhatIsShown};

/// Where no slot comes twice, the list of derivations, each with the slot that it is derived from, tells the forest.
pub fn derivations_tell_the_forest()
    ensures { (f g : Forest Entry) → IsDistinct (λ (a b : ℕ). a == b) (slots f) → IsDistinct (λ (a b : ℕ). a == b) (slots g)
        → derivations_of f ≡ derivations_of g → f ≡ g }
{}

/// Of states that runs reach, those that have the same words are shown to be the same.
pub fn words_tell_what_is_shown()
    ensures { (p : ProfileName) (A B : State) → TellsWhatIsShown p A B }
{}
