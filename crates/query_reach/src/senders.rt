//! Who can send to whom.
ghost use Rattle.std.specs.Prelude.{◌≡◌, ◌++◌, IfOk, OnOk};
ghost use Rattle.std.specs.List.{list_any};
ghost use Rattle.query_reach.specs.Channels.{other_words, is_between_two as are_of_two, channels_to, channels as all_channels, is_sender_to, receivers_without_sender as unserved};

use crate::endpoints::EndpointWord;
use crate::receivers::{first_receivers, words_at};
use bitflags::Flags;
use cap_core::Rights;
use std::alloc::{AllocError, Global};

/// A way of messages: a word by which a thread may send to an endpoint, and the first word by which another thread may
/// receive from it, or none if no other thread may. What is received has the badge of the sender's capability.
#[derive(Clone, Copy)]
pub struct Channel {
    pub sender: EndpointWord,
    pub receiver: Option<EndpointWord>,
}

/// Whether one thread may send by a word and another one receive by a word: the words are of two threads, or of one that stands
/// for several.
fn is_between_two(sender: &EndpointWord, receiver: &EndpointWord) -> bool
    ensures { result ≡ are_of_two sender.now receiver.now }
{
    sender.shared || receiver.thread != sender.thread
}

/// Adds the channels of a sender to the receivers of its endpoint.
fn add_channels(
    channels: &mut Vec<Channel>,
    receivers: &[EndpointWord],
    sender: EndpointWord,
) -> Result<(), AllocError>
    ensures { OnOk result (channels.new.items ≡ channels.old.items ++ channels_to sender (other_words sender receivers.now)) }
{
    let mut alone = true;
    for receiver in receivers {
        if is_between_two(&sender, receiver) {
            alone = false;
            channels.push(Channel {
                sender,
                receiver: Some(*receiver),
            })?;
        }
    }
    if alone {
        channels.push(Channel {
            sender,
            receiver: None,
        })?;
    }
    Ok(())
}

/// The channels between threads: of each word by which a thread may send, to each other thread that may receive from its
/// endpoint, and if there is none, to nobody. `words` has the words of all threads, as `endpoint_words` gives them, each
/// thread's together; the channels stand in the order of the senders, and of one sender in that of the receivers.
pub fn channels(alloc: Global, words: &[EndpointWord]) -> Result<Vec<Channel>, AllocError>
    ensures { IfOk result (λ list. list.items ≡ all_channels words.now) }
{
    let receivers = first_receivers(alloc, words)?;
    let mut list = Vec::new(alloc);
    for word in words {
        if word.rights.contains(Rights::WRITE) {
            let own = words_at(receivers.as_slice(), word.endpoint);
            add_channels(&mut list, own, *word)?;
        }
    }
    Ok(list)
}

/// Whether another thread may send to a receiver.
fn has_sender(words: &[EndpointWord], receiver: &EndpointWord) -> bool
    ensures { result ≡ list_any (is_sender_to receiver.now) words.now }
{
    for word in words {
        if word.rights.contains(Rights::WRITE)
            && word.endpoint == receiver.endpoint
            && is_between_two(word, receiver)
        {
            return true;
        }
    }
    false
}

/// The words by which threads may receive from an endpoint, each thread's first, to which no other thread may send.
/// `words` has the words of all threads, each thread's together.
pub fn receivers_without_sender(
    alloc: Global,
    words: &[EndpointWord],
    endpoint: u64,
) -> Result<Vec<EndpointWord>, AllocError>
    ensures { IfOk result (λ list. list.items ≡ unserved words.now endpoint) }
{
    let list = first_receivers(alloc, words)?;
    let receivers = words_at(list.as_slice(), endpoint);
    let mut unserved = Vec::new(alloc);
    for receiver in receivers {
        if !has_sender(words, receiver) {
            unserved.push(*receiver)?;
        }
    }
    Ok(unserved)
}
