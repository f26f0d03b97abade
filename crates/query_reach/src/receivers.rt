//! Words that lead to endpoints' capabilities, by rising endpoint. So those of one endpoint are found by halving.
ghost use Rattle.std.specs.Prelude.{◌≡◌, ℕ, IfOk, filter};
ghost use Rattle.query_reach.specs.Channels.{receivers};
ghost use Rattle.query_reach.specs.ByEndpoint.{AreByEndpoint, leads_to, may_receive, same_receiver};
ghost use Rattle.std.specs.List.{dedup};

use crate::endpoints::EndpointWord;
use bitflags::Flags;
use cap_core::Rights;
use std::alloc::{AllocError, Global};

/// The words by rising endpoint. Those of one endpoint stay in their order.
pub fn by_endpoint(alloc: Global, words: &[EndpointWord]) -> Result<Vec<EndpointWord>, AllocError>
    ensures order { IfOk result (λ list. AreByEndpoint list.items) }
    ensures same { IfOk result (λ list. (e : ℕ) → filter (leads_to e) list.items ≡ filter (leads_to e) words.now) }
{
    let mut list = Vec::from_slice(alloc, words)?;
    list.sort_by_key(|word| word.endpoint)?;
    Ok(list)
}

/// Those of one endpoint, of words by rising endpoint.
pub fn words_at(list: &[EndpointWord], endpoint: u64) -> &[EndpointWord]
    requires { AreByEndpoint list.now }
    ensures { result.now ≡ filter (leads_to endpoint) list.entry.now }
{
    let start = list.partition_point(|word| word.endpoint < endpoint);
    let rest = &list[start..];
    let end = rest.partition_point(|word| word.endpoint <= endpoint);
    &rest[..end]
}

/// The words by which threads may receive.
fn receiving(alloc: Global, words: &[EndpointWord]) -> Result<Vec<EndpointWord>, AllocError>
    ensures { IfOk result (λ list. list.items ≡ filter may_receive words.now) }
{
    let mut list = Vec::new(alloc);
    for word in words {
        if word.rights.contains(Rights::READ) {
            list.push(*word)?;
        }
    }
    Ok(list)
}

/// Keeps the first of words of one thread that follow one another and lead to one endpoint.
fn keep_first(list: &mut Vec<EndpointWord>)
    ensures { list.new.items ≡ dedup same_receiver list.old.items }
{
    list.dedup_by_key(|word| (word.endpoint, word.thread));
}

/// The first word of each thread by which it may receive from an endpoint, of all endpoints, by rising endpoint. `words` has
/// the words of all threads, each thread's together.
pub fn first_receivers(
    alloc: Global,
    words: &[EndpointWord],
) -> Result<Vec<EndpointWord>, AllocError>
    ensures order { IfOk result (λ list. AreByEndpoint list.items) }
    ensures receivers { IfOk result (λ list. (e : ℕ) → filter (leads_to e) list.items ≡ receivers words.now e) }
{
    let reading = receiving(alloc, words)?;
    let mut list = by_endpoint(alloc, reading.as_slice())?;
    keep_first(&mut list);
    Ok(list)
}
