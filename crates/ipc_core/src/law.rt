//! Laws of the definitions.
ghost use Rattle.std.specs.Prelude.{◌≡◌, ◌++◌, ◌∷◌, ℕ, List, map};
ghost use Rattle.ipc_core.specs.Records.{SendRecord, ReceiveRecord, paired};
ghost use Rattle.ipc_core.specs.Waits.{no_waits};
ghost use Rattle.ipc_core.specs.Deliveries.{Request, CancelsEndpoint, delivery_of_pair, deliveries, standing, no_history};

/// Whatever is sent, received and cancelled, on whichever endpoints and in whatever order, what an endpoint delivers is one
/// delivery for each pair of a standing send and the standing receive at its place, in the order of the pairs.
///
/// So a message is delivered once at most, to one receiver, with its own badge, and sends are served in their order.
pub fn each_pair_is_delivered_once()
    ensures { (e : ℕ) (requests : List Request) → let h = standing e no_history requests in deliveries e no_waits requests ≡ map delivery_of_pair (paired h.sends h.receives) }
{}

/// Whatever is called later, the pairs that stand on an endpoint go on standing, before all that are made later.
pub fn pairs_go_on_standing()
    ensures { (e : ℕ) (requests : List Request) (later : List Request) → let h = standing e no_history requests in let k = standing e no_history (requests ++ later) in (more : List (SendRecord × ReceiveRecord)) × (paired k.sends k.receives ≡ paired h.sends h.receives ++ more) }
{}

/// An endpoint that was emptied starts anew: what it delivers later is what an endpoint delivers on which nothing was ever called.
pub fn emptied_endpoint_starts_anew()
    ensures { (e : ℕ) (requests : List Request) (later : List Request) → deliveries e no_waits (requests ++ CancelsEndpoint e ∷ later) ≡ deliveries e no_waits requests ++ deliveries e no_waits later }
{}
