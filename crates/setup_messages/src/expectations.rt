//! Expectations that no reply can meet.
ghost use Rattle.std.specs.Prelude.{◌<◌, length};
ghost use Rattle.kernel_abstract.specs.Plan.{IsPlan};

use crate::message::{is_decimal, question};
use crate::near::nearest;
use cap_core::limits::MAX_MESSAGE_WORDS;
use cap_core::{Narrow, ProfileName, Wide};
use setup_format::{ReadSetup, Setup, asks, op_name, read};
use setup_values::OpName;
use std::alloc::{AllocError, Global};
use std::fmt::Write;

/// The first words of replies.
#[rattlefmt::skip]
const WORDS: [&str; 6] = ["done", "waiting", "dropped", "empty", "refused", "delivered"];

/// The refusals that a reply gives: of a failed lookup with the kind of its failure.
const REFUSALS: [&str; 13] = [
    "1", "2", "3", "4", "6/1", "6/2", "6/3", "6/4", "8", "9", "10", "100", "101",
];

/// The words of a reply that delivers a message; a number stands if a word is empty, and the words of the message
/// behind them all.
#[rattlefmt::skip]
const DELIVERED: [&str; 11] = ["delivered", "", "from", "", "to", "", "badge", "", "label", "", "words"];

/// The place of the endpoint's address among them, 0 the first.
const ENDPOINT_PLACE: usize = 1;

/// What is said of a text that begins as a delivery, and is none.
const DELIVERY: &str = "; a delivery reads delivered E from F to T badge B label L words W ..";

/// seL4's names of refusals, without `seL4_`, and the number of failed lookups alone, each with the reply to write in its place.
const NAMED: [(&str, &str); 9] = [
    ("InvalidArgument", "refused 1"),
    ("InvalidCapability", "refused 2"),
    ("IllegalOperation", "refused 3"),
    ("RangeError", "refused 4"),
    ("FailedLookup", "refused 6/1, 6/2, 6/3 or 6/4"),
    ("6", "refused 6/1, 6/2, 6/3 or 6/4"),
    ("DeleteFirst", "refused 8"),
    ("RevokeFirst", "refused 9"),
    ("NotEnoughMemory", "refused 10"),
];

/// The slot of the first capability that a boot puts behind that of the root CNode: the first thread's. Behind the threads come
/// the endpoints.
const FIRST_SLOT: u64 = 2;

/// Whether a text is a number as a reply has it.
fn is_number(text: &str) -> bool {
    is_decimal(text) && (text == "0" || !text.starts_with('0'))
}

/// Whether a word stands at a place of a reply that delivers a message, 0 the first.
fn is_delivered(place: usize, word: &str) -> bool {
    match DELIVERED.get(place) {
        Some(&"") => is_number(word),
        Some(wanted) => word == *wanted,
        None => place < DELIVERED.len() + MAX_MESSAGE_WORDS && is_number(word),
    }
}

/// Whether a reply that delivers a message can begin with a text.
fn begins_delivery(text: &str) -> bool {
    for (place, word) in text.split(' ').enumerate() {
        if !is_delivered(place, word) {
            return false;
        }
    }
    true
}

/// The reply of an operation that neither refuses the call nor delivers a message. It is `done` for those that deliver none.
fn word_of(op: OpName) -> &'static str {
    match op {
        OpName::Send | OpName::Recv => "waiting",
        OpName::NbSend => "dropped",
        OpName::NbRecv => "empty",
        _ => "done",
    }
}

/// Whether a reply of an operation that has this other reply can begin with a text.
fn is_beginning(word: &str, text: &str) -> bool {
    match text.strip_prefix("refused ") {
        Some(refusal) => REFUSALS.contains(&refusal),
        None if text == "refused" || text == word => true,
        None => word != "done" && begins_delivery(text),
    }
}

/// The address of the boot endpoint whose capability a boot puts into a slot of the root CNode.
fn endpoint_at(setup: &Setup, slot: u64) -> Option<u64>
    requires { IsPlan setup.now.profile setup.now.plan }
{
    let plan = setup.plan();
    let number = slot.checked_sub(FIRST_SLOT + u64::from(plan.threads()))?;
    if number >= u64::from(plan.endpoints()) {
        return None;
    }
    Some(match setup.profile() {
        ProfileName::Wide => plan.endpoint_place::<Wide>(number as u32),
        ProfileName::Narrow => plan.endpoint_place::<Narrow>(number as u32),
    })
}

/// The number that a reply has at a place, 0 the first, for a text of `@` and a name. An endpoint's name stands for its slot, and
/// a reply has its address.
fn number_of_name(named: &ReadSetup, place: usize, text: &str) -> Option<u64>
    requires { IsPlan named.now.setup.profile named.now.setup.plan }
{
    let text = text.strip_prefix('@')?;
    for name in named.names.as_slice() {
        if name.text.as_str() == text {
            return match place {
                ENDPOINT_PLACE => endpoint_at(&named.setup, name.word),
                _ => Some(name.word),
            };
        }
    }
    None
}

/// An expectation with numbers in the place of names.
fn with_numbers(alloc: Global, named: &ReadSetup, text: &str) -> Result<String, AllocError>
    requires { IsPlan named.now.setup.profile named.now.setup.plan }
{
    let mut numbered = String::new(alloc);
    for (place, word) in text.split(' ').enumerate() {
        let space = if place > 0 { " " } else { "" };
        match number_of_name(named, place, word) {
            Some(number) => write!(numbered, "{space}{number}")?,
            None => write!(numbered, "{space}{word}")?,
        }
    }
    Ok(numbered)
}

/// The refusal to write in the place of seL4's name of it.
fn refusal_named(name: &str) -> Option<&'static str> {
    for (known, refusal) in NAMED {
        if known == name {
            return Some(refusal);
        }
    }
    None
}

/// What may have been meant by a text with which no reply begins of an operation that has this other reply.
fn hint(alloc: Global, word: &str, text: &str) -> Result<String, AllocError> {
    if is_beginning(word, text) {
        return question(alloc, Some(text));
    }
    if let Some(name) = text.strip_prefix("refused ") {
        let name = name.strip_prefix("seL4_").unwrap_or(name);
        return question(alloc, refusal_named(name));
    }
    match nearest(alloc, text.split(' ').next().unwrap_or(""), &WORDS)? {
        Some("delivered") if word != "done" => String::from_str(alloc, DELIVERY),
        Some(name) if !is_beginning(word, name) => question(alloc, Some(word)),
        near => question(alloc, near),
    }
}

/// The expectation of a call, if it does not ask and no reply of the call's operation begins with it.
fn unmeetable(setup: &Setup, i: usize) -> Option<&str>
    requires { i < length setup.now.calls }
{
    let expectation = setup.expect(i)?;
    let word = word_of(op_name(&setup.calls()[i].op));
    if asks(expectation) || is_beginning(word, expectation) {
        None
    } else {
        Some(expectation)
    }
}

/// Says of a call, by its number, that no reply to its operation begins with its expectation, and what may have been meant;
/// nothing if a reply can, or if there is no such call.
fn unmeetable_words(
    alloc: Global,
    named: &ReadSetup,
    call: usize,
) -> Result<Option<String>, AllocError>
    requires { IsPlan named.now.setup.profile named.now.setup.plan }
{
    let i = call.saturating_sub(1);
    if i >= named.setup.calls().len() {
        return Ok(None);
    }
    let Some(expectation) = unmeetable(&named.setup, i) else {
        return Ok(None);
    };
    let op = op_name(&named.setup.calls()[i].op);
    let (name, word) = (op.text(), word_of(op));
    let numbered = with_numbers(alloc, named, expectation.trim())?;
    let hint = hint(alloc, word, numbered.as_str())?;
    let words = format!(in alloc; "no reply to {name} begins with {expectation:?}{hint}")?;
    Ok(Some(words))
}

/// Of each of some calls of the set-up that the bytes are, by their numbers: that no reply to its operation begins with its
/// expectation, and what may have been meant; nothing if a reply can.
pub fn unmeetable_expectations(
    alloc: Global,
    bytes: &[u8],
    calls: &[usize],
) -> Result<Vec<Option<String>>, AllocError> {
    let mut words = Vec::new(alloc);
    let Ok(named) = read(alloc, bytes) else {
        return Ok(words);
    };
    for call in calls {
        words.push(unmeetable_words(alloc, &named, *call)?)?;
    }
    Ok(words)
}
