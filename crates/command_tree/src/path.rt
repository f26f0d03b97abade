//! The slots above a full slot, from the top down.
ghost use Rattle.std.specs.Prelude.{◌≡◌, ◌==◌};
ghost use Rattle.std.specs.List.{position};
ghost use Rattle.command_tree.specs.Private.Path.{kept};

fn place_of(path: &[u64], slot: u64) -> Option<usize>
    ensures { result ≡ position (λ s. s == slot) path.now }
{
    path.iter().position(|s| *s == slot)
}

/// Keeps the slots of a path down to a slot; none if no slot is given.
pub fn keep_to(path: &mut Vec<u64>, slot: Option<u64>)
    ensures { path.new.items ≡ kept slot path.old.items }
{
    let place = match slot {
        None => None,
        Some(slot) => place_of(path.as_slice(), slot),
    };
    match place {
        None => path.clear(),
        Some(place) => path.truncate(place + 1),
    }
}
