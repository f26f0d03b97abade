//! The numbers of a set-up's calls, from 1 on, by the clients that make them, and what is expected of the call with a number.
ghost use Rattle.std.specs.Prelude.{◌≡◌, IfOk, option_copied};
ghost use Rattle.command_check.specs.Numbers.{call_number_at, client_numbers, client_numbers_of, expectation_of, numbers_in};

use setup_format::Setup;
use std::alloc::{AllocError, Global};

/// The numbers of one client's calls.
fn numbers_of_client(alloc: Global, setup: &Setup, client: u32) -> Result<Vec<usize>, AllocError>
    ensures { IfOk result (λ own. own.items ≡ client_numbers client 1 setup.now.calls) }
{
    let mut own = Vec::new(alloc);
    for i in 0..setup.calls().len() {
        if setup.client_of(i) == client {
            own.push(i + 1)?;
        }
    }
    Ok(own)
}

/// A list for each client of a set-up, of the numbers of its calls in order.
pub fn numbers_of_clients(alloc: Global, setup: &Setup) -> Result<Vec<Vec<usize>>, AllocError>
    ensures { IfOk result (λ lists. numbers_in lists.items ≡ client_numbers_of setup.now) }
{
    let mut lists = Vec::new(alloc);
    for client in 0..setup.clients() {
        let own = numbers_of_client(alloc, setup, client)?;
        lists.push(own)?;
    }
    Ok(lists)
}

/// The number of the call of a client at a place among its calls; 0 if there is none.
pub fn number_at(numbers: &[Vec<usize>], client: usize, place: usize) -> usize
    ensures { result ≡ call_number_at (numbers_in numbers.now) client place }
{
    match numbers.get(client) {
        Some(own) => own.get(place).copied().unwrap_or(0),
        None => 0,
    }
}

/// What is expected of the call with a number, from 1 on; nothing if there is no such call.
#[tactic(auto, using(crate::proofs::Numbered::expected_at, crate::proofs::Numbered::none_expected_past, crate::proofs::Numbered::none_expected_of_none))]
pub fn expected_of(setup: &Setup, number: usize) -> Option<&str>
    ensures { option_copied result ≡ expectation_of setup.now.calls number }
{
    let i = number.checked_sub(1)?;
    if i < setup.calls().len() {
        setup.expect(i)
    } else {
        None
    }
}
