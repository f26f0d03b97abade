//! The calls of each client of a set-up, after the first of all.
ghost use Rattle.std.specs.Prelude.{ℕ, ◌≡◌, ◌==◌, Some, drop, IfOk, slice_get, vec_len};
ghost use Rattle.command_threads.specs.SharedRuns.{client_calls};

use kernel_core::Call;
use setup_format::Setup;
use std::alloc::{AllocError, Global};

/// The calls of one client after the first `made` calls of the set-up, in order.
fn calls_of_client(
    alloc: Global,
    setup: &Setup,
    made: usize,
    client: u32,
) -> Result<Vec<Call>, AllocError>
    ensures { IfOk result (λ v. v.items ≡ client_calls client (drop made setup.now.calls)) }
{
    let mut own = Vec::new(alloc);
    let begin = made.min(setup.calls().len());
    for (i, call) in setup.calls()[begin..].iter().enumerate() {
        if setup.client_of(begin + i) == client {
            own.push(*call)?;
        }
    }
    Ok(own)
}

/// A list for each client of the set-up, of its calls in order, after the first `made` calls of the set-up.
pub fn calls_of_clients(
    alloc: Global,
    setup: &Setup,
    made: usize,
) -> Result<Vec<Vec<Call>>, AllocError>
    ensures len { IfOk result (λ v. vec_len v ≡ setup.now.clients) }
    ensures each { IfOk result (λ v. (i : ℕ) (own : _) → slice_get v.items i ≡ Some own
        → own.items ≡ client_calls i (drop made setup.now.calls)) }
{
    let mut lists = Vec::new(alloc);
    for client in 0..setup.clients() {
        let own = calls_of_client(alloc, setup, made, client)?;
        lists.push(own)?;
    }
    Ok(lists)
}
