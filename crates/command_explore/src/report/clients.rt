//! The calls of a set-up by the clients that make them.
ghost use Rattle.std.specs.Prelude.{◌≡◌, IfOk};
ghost use Rattle.query_orders.specs.Nodes.{own_calls as items_of};
ghost use Rattle.command_explore.specs.Clients.{calls_of_client, calls_of_each, first_clients};

use kernel_core::Call;
use setup_format::Setup;
use std::alloc::{AllocError, Global};

/// The calls of one client, in order.
fn calls_of_client(alloc: Global, setup: &Setup, client: u32) -> Result<Vec<Call>, AllocError>
    ensures { IfOk result (λ own. own.items ≡ calls_of_client setup.now.calls client) }
{
    let mut own = Vec::new(alloc);
    for (i, call) in setup.calls().iter().enumerate() {
        if setup.client_of(i) == client {
            own.push(*call)?;
        }
    }
    Ok(own)
}

/// A list for each client of a set-up, of its calls in order.
pub fn calls_of_clients(alloc: Global, setup: &Setup) -> Result<Vec<Vec<Call>>, AllocError>
    ensures { IfOk result (λ lists. items_of lists.items ≡ calls_of_each setup.now) }
{
    let mut lists = Vec::new(alloc);
    for client in 0..setup.clients() {
        let own = calls_of_client(alloc, setup, client)?;
        lists.push(own)?;
    }
    Ok(lists)
}

/// The clients of the first `count` calls of a set-up, in the set-up's order; of all calls where it has fewer.
pub fn first_clients(alloc: Global, setup: &Setup, count: usize) -> Result<Vec<usize>, AllocError>
    ensures { IfOk result (λ first. first.items ≡ first_clients setup.now count) }
{
    let mut first = Vec::new(alloc);
    for i in 0..count.min(setup.calls().len()) {
        first.push(setup.client_of(i) as usize)?;
    }
    Ok(first)
}
