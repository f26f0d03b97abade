//! The theory of derivation forests: what a forest of capabilities is, its edits, disjoint objects, and the marked
//! lists that stand for forests.
#![tactic(auto)]

ghost use Rattle.std.specs.Prelude.{◌≡◌, ℕ, Bool, not, ◌||◌, eqb, List};
ghost use Rattle.std.specs.List.{filter, IsDistinct};
ghost use Rattle.kernel_forest.specs.Forest.{Forest, preorder};
ghost use Rattle.kernel_forest.specs.Entries.{Entry, is_at, slots};
ghost use Rattle.kernel_forest.specs.Derivation.{emptied};
ghost use Rattle.kernel_forest.specs.Without.{without};
ghost use Rattle.kernel_forest.specs.Marked.{Marked, forest_of, StandsForEntries};

use cap_core::Profile;

/// A marked list stands for exactly one forest: whatever the list, the one of `forest_of` and no other.
pub fn lists_stand_for_forests<P: Profile>()
    ensures stands { (l : List Marked) → StandsForEntries P.profile l (forest_of P.profile l) }
    ensures alone { (l : List Marked) (f : Forest Entry) → StandsForEntries P.profile l f → f ≡ forest_of P.profile l }
{}

/// Several slots leave a forest as they would one by one: what is left is in the order that it had, one set after
/// another is both at once, and where no slot stands twice, to empty one is to take out what stands there.
pub fn slots_leave_together()
    ensures left { (p : Entry → Bool) (f : Forest Entry) →
        preorder (without p f) ≡ filter (λ e. not (p e)) (preorder f) }
    ensures both { (p q : Entry → Bool) (f : Forest Entry) → without p (without q f) ≡ without (λ e. q e || p e) f }
    ensures one { (s : ℕ) (f : Forest Entry) → IsDistinct eqb (slots f) → emptied s f ≡ without (is_at s) f }
{}
