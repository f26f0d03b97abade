//! Laws of the listing of a policy, over the definitions alone. Nothing is done.
ghost use Rattle.std.specs.Prelude.{ℕ};
ghost use Rattle.setup_format.specs.Views.{SetupView};
ghost use Rattle.setup_policy.specs.declared.policy.Labels.{Labels};
ghost use Rattle.setup_policy.specs.declared.policy.Policy.{Policy};
ghost use Rattle.command_policy_listing.specs.Told.{ListingsTellPolicies};

/// Two policies with the same listing, by the same names of objects, say the same: their version, who is trusted, which threads and
/// regions groups have, by which endpoints, with which badges and rights they may send to whom, what else they may hold, whose slots
/// they may empty, and both switches. The names have to be words, no two objects called alike, and the numbers and rights those of a
/// machine.
pub fn listings_tell_policies()
    ensures { (a b : Policy) (n : Labels) (setup : SetupView) (made : ℕ) → ListingsTellPolicies a b n setup made }
{}
