//! Lists whose elements belong to keys, of which each key made some.
ghost use Rattle.std.specs.Prelude.{◌≡◌, ℕ, ◌<◌, ◌≤◌, ◌++◌, List, length, map};
ghost use Rattle.kernel_lists.specs.Shares.{HasMade, of_key, total};

/// Where a list has no more elements than its keys made, each key's elements carry a beginning of that key's own list.
pub fn keys_carry_beginnings<X, C>()
    ensures { (key : X → ℕ) (call : X → C) (list : List X) (keys : ℕ) (done : ℕ → ℕ) (own : ℕ → List C)
        → ((i : ℕ) → i < keys → HasMade key call list i (done i) (own i)) → length list ≤ total keys done
        → (i : ℕ) → (rest : List C) × (own i ≡ map call (of_key key i list) ++ rest) }
{}
