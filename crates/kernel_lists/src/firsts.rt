//! Lists of which the first of each kind is kept, alone or with a count for each kind.
ghost use Rattle.std.specs.Prelude.{◌≡◌, ℕ, Bool, List, [], true, find};
ghost use Rattle.std.specs.List.{flat_map, sum_by, AllByRecursion as Each};
ghost use Rattle.kernel_lists.specs.Firsts.{with_firsts, firsts, IsKindTest, KeepsKinds, with_counts, each_times, weight};

/// Where elements of one kind have followers of the same kinds, the first of each kind among all followers are those among
/// the followers of the first of each kind; and what a test finds that elements of one kind pass alike is the same in a list
/// and in the first of each kind in it.
pub fn firsts_of_followers<X, Y>()
    ensures follow { (same : X → X → Bool) (alike : Y → Y → Bool) (fine : X → Bool) (next : X → List Y) (ys : List Y) (xs : List X) → IsKindTest alike
        → KeepsKinds same alike (λ x. fine x ≡ true) next → Each (λ x. fine x ≡ true) xs
        → with_firsts alike ys (flat_map next (firsts same xs)) ≡ with_firsts alike ys (flat_map next xs) }
    ensures found { (same : X → X → Bool) (test : X → Bool) (fine : X → Bool) (xs : List X)
        → ((x y : X) → fine x ≡ true → fine y ≡ true → same x y ≡ true → test x ≡ test y) → Each (λ x. fine x ≡ true) xs
        → find test (firsts same xs) ≡ find test xs }
{}

/// Where elements of one kind have one weight, the followers of elements with counts, counted by their kinds, weigh as much
/// as the elements do when each is given the weight of all its followers.
pub fn weights_of_followers<X, Y>()
    ensures { (same : Y → Y → Bool) (f : Y → ℕ) (next : X → List Y) (xs : List (X × ℕ)) → ((x y : Y) → same x y ≡ true → f x ≡ f y)
        → weight f (with_counts same [] (flat_map (λ x. each_times x.1 (next x.0)) xs)) ≡ weight (λ x. sum_by f (next x)) xs }
{}
