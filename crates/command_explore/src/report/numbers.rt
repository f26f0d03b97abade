//! The numbers of the calls of an order.
ghost use Rattle.std.specs.Prelude.{◌≡◌, ◌++◌, ◌+◌, ◌≤◌, ℕ, IfOk, IfSome, OnOk, [], codes, slice_get, string_bytes};
ghost use Rattle.std.specs.Fmt.{decimal};
ghost use Rattle.query_orders.specs.World.{next_place, one_more};
ghost use Rattle.command_explore.specs.Numbers.{numbers_in, call_number_at, count_up as count_up_from, numbers_text, order_numbers as numbers_of_order, order_text};

use command_check::number_at;
use query_orders::Order;
use std::alloc::{AllocError, Global};
use std::fmt::Write;

/// The number of the next call of a client, by how many calls each has made; 0 where there is none. It has then made one more.
fn take_number(numbers: &[Vec<usize>], made: &mut Vec<usize>, client: usize) -> usize
    requires { IfSome (slice_get made.old.items client) (λ (n : ℕ). n + 1 ≤ usize.MAX) }
    ensures number { result ≡ call_number_at (numbers_in numbers.now) client (next_place made.old.items client) }
    ensures made { made.new.items ≡ one_more client (slice_get made.old.items client) made.old.items }
{
    let place = made.get(client).copied().unwrap_or(0);
    if let Some(count) = made.get_mut(client) {
        *count += 1;
    }
    number_at(numbers, client, place)
}

/// The numbers of the calls that clients make in turn.
fn call_numbers(
    alloc: Global,
    numbers: &[Vec<usize>],
    clients: &[usize],
) -> Result<Vec<usize>, AllocError>
    ensures { IfOk result (λ own. own.items ≡ numbers_of_order (numbers_in numbers.now) [] clients.now) }
{
    let mut own = Vec::new(alloc);
    let mut made = vec![in alloc; 0; numbers.len()]?;
    for i in 0..clients.len() {
        own.push(take_number(numbers, &mut made, clients[i]))?;
    }
    Ok(own)
}

/// The numbers of an order's calls.
pub fn order_numbers(
    alloc: Global,
    numbers: &[Vec<usize>],
    order: &Order,
) -> Result<Vec<usize>, AllocError>
    ensures { IfOk result (λ own. own.items ≡ numbers_of_order (numbers_in numbers.now) [] order.now) }
{
    let clients = order.clients(alloc)?;
    call_numbers(alloc, numbers, clients.as_slice())
}

/// Whether numbers count up by one, from 1 on.
#[tactic(auto, using(crate::proofs::Counted::count_goes_on, crate::proofs::Counted::count_stops, crate::proofs::Counted::count_ends))]
fn count_up(numbers: &[usize]) -> bool
    ensures { result ≡ count_up_from 1 numbers.now }
{
    for (i, number) in numbers.iter().enumerate() {
        if *number != i + 1 {
            return false;
        }
    }
    true
}

/// Adds numbers, each after a space.
fn add_numbers(out: &mut String, numbers: &[usize]) -> Result<(), AllocError>
    ensures { OnOk result (string_bytes out.new ≡ string_bytes out.old ++ numbers_text numbers.now) }
{
    for number in numbers {
        write!(out, " {number}")?;
    }
    Ok(())
}

/// Adds an order of the first calls of the set-up, as it makes them, by the number of the last one.
fn add_own_order(out: &mut String, last: usize) -> Result<(), AllocError>
    ensures { OnOk result (string_bytes out.new ≡ string_bytes out.old ++ (codes " in order to " ++ decimal last)) }
{
    write!(out, " in order to {last}")
}

/// Adds an order, by the numbers of its calls after `by`. If these are the first calls of the set-up, in its own order, only the last
/// one is written.
pub fn add_order(
    alloc: Global,
    out: &mut String,
    numbers: &[Vec<usize>],
    by: &str,
    order: &Order,
) -> Result<(), AllocError>
    ensures { OnOk result (string_bytes out.new ≡ string_bytes out.old ++ order_text by.now (numbers_of_order (numbers_in numbers.now) [] order.now)) }
{
    let own = order_numbers(alloc, numbers, order)?;
    let calls = own.as_slice();
    if count_up(calls) {
        let last = calls.len();
        return add_own_order(out, last);
    }
    write!(out, " {by}")?;
    add_numbers(out, calls)
}
