//! Who can send to whom.
ghost use Rattle.std.specs.Prelude.{◌≡◌, ◌++◌, IfOk, OnOk, flat_map, string_bytes};
ghost use Rattle.kernel_forest.specs.Forest.{Forest};
ghost use Rattle.kernel_forest.specs.Entries.{Entry};
ghost use Rattle.query_reach.specs.FullSlots.{AreFullSlots, AreRising};
ghost use Rattle.query_reach.specs.ByEndpoint.{AreByEndpoint};
ghost use Rattle.setup_report.specs.Naming.{naming_view};
ghost use Rattle.command_audit.specs.Channels as spec;

use crate::spaces::{is_shared, told_as};
use crate::text::SenderText;
use crate::threads::ThreadSlots;
use query_reach::{
    Channel, EndpointWord, FullSlot, by_endpoint, channels, endpoint_words,
    receivers_without_sender, words_at,
};
use setup_report::{Naming, Object};
use std::alloc::{AllocError, Global};
use std::collections::BTreeSet;
use std::fmt::Write;

/// The words of a thread that lead to endpoints' capabilities; none, where it is told as another thread.
fn words_of(
    alloc: Global,
    filled: &[FullSlot],
    list: &[ThreadSlots],
    slots: &ThreadSlots,
) -> Result<Vec<EndpointWord>, AllocError>
    requires { AreRising filled.now }
    ensures { IfOk result (λ words. (f : Forest Entry) → AreFullSlots f filled.now → words.items ≡ spec.endpoint_words_of f list.now slots.now) }
{
    if told_as(list, slots).is_some() {
        return Ok(Vec::new(alloc));
    }
    let shared = is_shared(list, slots);
    endpoint_words(
        alloc,
        filled,
        slots.thread,
        shared,
        slots.reached.as_slice(),
    )
}

/// The words of threads that lead to endpoints' capabilities, each thread's together; of threads that can name just the same,
/// those of the first one. `filled` has all full slots, as `full_slots` of `query_reach` gives them.
pub fn channel_words(
    alloc: Global,
    filled: &[FullSlot],
    list: &[ThreadSlots],
) -> Result<Vec<EndpointWord>, AllocError>
    requires { AreRising filled.now }
    ensures { IfOk result (λ words. (f : Forest Entry) → AreFullSlots f filled.now → words.items ≡ flat_map (spec.endpoint_words_of f list.now) list.now) }
{
    let mut words = Vec::new(alloc);
    for slots in list {
        let own = words_of(alloc, filled, list, slots)?;
        words.extend_from_slice(own.as_slice())?;
    }
    Ok(words)
}

fn add_channel(out: &mut String, naming: &Naming<'_>, channel: &Channel) -> Result<(), AllocError>
    ensures { OnOk result (string_bytes out.new ≡ string_bytes out.old ++ spec.channel_line (naming_view naming.now) channel.now) }
{
    let word = channel.sender;
    let sender = SenderText {
        naming: &*naming,
        word,
    };
    match channel.receiver {
        None => writeln!(out, "channel {sender} -> none"),
        Some(receiver) => {
            let word = receiver.word;
            let thread = naming.about(receiver.thread);
            writeln!(out, "channel {sender} -> {thread} {word}")
        }
    }
}

/// Adds a line for each channel.
fn add_senders(out: &mut String, naming: &Naming<'_>, list: &[Channel]) -> Result<(), AllocError>
    ensures { OnOk result (string_bytes out.new ≡ string_bytes out.old ++ flat_map (spec.channel_line (naming_view naming.now)) list.now) }
{
    for channel in list {
        add_channel(out, naming, channel)?;
    }
    Ok(())
}

fn add_receiver(
    out: &mut String,
    naming: &Naming<'_>,
    receiver: &EndpointWord,
) -> Result<(), AllocError>
    ensures { OnOk result (string_bytes out.new ≡ string_bytes out.old ++ spec.receiver_line (naming_view naming.now) receiver.now) }
{
    let endpoint = naming.object(Object::Endpoint(receiver.endpoint));
    let word = receiver.word;
    let thread = naming.about(receiver.thread);
    writeln!(out, "channel none -> {endpoint} -> {thread} {word}")
}

/// Adds a line for each of some receivers to which no other thread can send.
fn add_receivers(
    out: &mut String,
    naming: &Naming<'_>,
    list: &[EndpointWord],
) -> Result<(), AllocError>
    ensures { OnOk result (string_bytes out.new ≡ string_bytes out.old ++ flat_map (spec.receiver_line (naming_view naming.now)) list.now) }
{
    for receiver in list {
        add_receiver(out, naming, receiver)?;
    }
    Ok(())
}

/// Adds those of each of some endpoints. `words` are those of all threads, by rising endpoint.
fn add_unserved(
    alloc: Global,
    out: &mut String,
    naming: &Naming<'_>,
    words: &[EndpointWord],
    endpoints: &BTreeSet<u64>,
) -> Result<(), AllocError>
    requires { AreByEndpoint words.now }
    ensures { OnOk result (string_bytes out.new ≡ string_bytes out.old
        ++ flat_map (spec.unserved_lines (naming_view naming.now) words.now) endpoints.now.keys) }
{
    for endpoint in endpoints {
        let own = words_at(words, *endpoint);
        let receivers = receivers_without_sender(alloc, own, *endpoint)?;
        add_receivers(out, naming, receivers.as_slice())?;
    }
    Ok(())
}

/// Adds who can send to whom, and behind that who can receive where no other thread can send.
pub fn add_channels(
    alloc: Global,
    out: &mut String,
    naming: &Naming<'_>,
    words: &[EndpointWord],
    endpoints: &BTreeSet<u64>,
) -> Result<(), AllocError>
    ensures { OnOk result (string_bytes out.new ≡ string_bytes out.old
        ++ spec.channel_lines (naming_view naming.now) words.now endpoints.now.keys) }
{
    let list = channels(alloc, words)?;
    add_senders(out, naming, list.as_slice())?;
    let words = by_endpoint(alloc, words)?;
    add_unserved(alloc, out, naming, words.as_slice(), endpoints)
}
