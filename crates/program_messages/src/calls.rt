//! What is said of calls of a set-up: each at its place in the text, with the line underlined there.
use crate::messages::complain;
use crate::origins::note_on_origin;
use command_core::CallNote;
use setup_format::Place;
use setup_messages::unmeetable_expectations;
use setup_positions::{NamedText, Part, SoughtKey, span_at};
use std::alloc::{AllocError, Global};
use std::fmt::Write;
use std::io::{self, Eprint};
use std::ops::Range;

/// How many calls of a kind are told at the most.
const MOST_TOLD: usize = 20;

/// The line and the column of a byte of a text, both counted from 1. A column counts characters.
fn line_and_column(text: &str, start: usize) -> (usize, usize) {
    let (above, _) = text.split_at_checked(start).unwrap_or((text, ""));
    let before = above.rsplit('\n').next().unwrap_or(above);
    let column = before.chars().count().saturating_add(1);
    (above.split('\n').count(), column)
}

/// Shows the line of some bytes of a text, and underlines them.
fn show<R: Eprint + AllocGlobal>(rt: &R, source: NamedText<'_>, span: Range<usize>) {
    let excerpt = source.excerpt(span);
    let Ok(shown) = format!(in rt.alloc(); "{excerpt}") else {
        return;
    };
    // The first line of an excerpt is its place.
    for line in shown.as_str().lines().skip(1) {
        let _ = eprintln!(rt; "{line}");
    }
}

/// Says something of a call, by its number: at its expectation, or where its table begins if it has none.
fn note_on_call<R: Eprint + AllocGlobal>(
    rt: &R,
    source: NamedText<'_>,
    kind: &str,
    call: usize,
    text: &str,
) {
    let name = source.name;
    let sought = SoughtKey {
        place: Place::Call(call),
        key: "expect",
        part: Part::Key,
    };
    match span_at(rt.alloc(), source.text, sought) {
        Ok(Some(span)) => {
            let (line, column) = line_and_column(source.text, span.start);
            let _ = eprintln!(rt; "{name}:{line}:{column}: {kind}: call {call}: {text}");
            show(rt, source, span);
        }
        _ => complain(rt, format_args!("{name}: {kind}: call {call}: {text}")),
    }
}

/// Says something of a call by which a policy is broken, where its table begins; without words, where in the layout its slot stands, if
/// the set-up is one of import from a file.
pub fn note_on_broken<R: Eprint + AllocGlobal>(rt: &R, source: NamedText<'_>, note: &CallNote) {
    let sought = SoughtKey {
        place: Place::Call(note.call),
        key: "",
        part: Part::Key,
    };
    if let Ok(span) = span_at(rt.alloc(), source.text, sought) {
        let start = match span {
            Some(span) => span.start,
            None => 0,
        };
        let ((line, column), name) = (line_and_column(source.text, start), source.name);
        if note.text.is_empty() {
            note_on_origin(rt, source.text, line);
        } else {
            let _ = eprintln!(rt; "{name}:{line}:{column}: {}", note.text);
        }
    }
}

/// Says how many calls of a kind are not told, where there are such.
fn note_on_others(rt: &impl Eprint, count: usize) {
    if let Some(more) = count.checked_sub(MOST_TOLD)
        && more > 0
    {
        complain(rt, format_args!("{more} more"));
    }
}

/// Of the first of some calls whether no reply can meet the expectation, and what may have been meant.
fn unmeetable<R: AllocGlobal>(
    rt: &R,
    source: NamedText<'_>,
    unmet: &[CallNote],
) -> Result<Vec<Option<String>>, AllocError> {
    let alloc = rt.alloc();
    let mut calls = Vec::new(alloc);
    for note in unmet.iter().take(MOST_TOLD) {
        calls.push(note.call)?;
    }
    unmeetable_expectations(alloc, source.text.as_bytes(), calls.as_slice())
}

/// Says of a call whose expectation is not met what it came to, and these words behind it, where there are some.
fn note_on_answer<R: Eprint + AllocGlobal>(
    rt: &R,
    source: NamedText<'_>,
    note: &CallNote,
    words: Option<&Option<String>>,
) {
    let text = note.text.as_str();
    match words {
        Some(Some(words)) => {
            if let Ok(text) = format!(in rt.alloc(); "{text}; {words}") {
                note_on_call(rt, source, "error", note.call, text.as_str());
            }
        }
        _ => note_on_call(rt, source, "error", note.call, text),
    }
}

/// Says of the calls of a set-up whose expectation is not met what they came to, and, where they were made in one order, whether a
/// reply can meet it.
pub fn note_on_unmet<R: Eprint + AllocGlobal>(
    rt: &R,
    source: NamedText<'_>,
    unmet: &[CallNote],
    is_one_order: bool,
) {
    if unmet.is_empty() {
        return;
    }
    let words = if is_one_order {
        unmeetable(rt, source, unmet)
    } else {
        Ok(Vec::new(rt.alloc()))
    };
    let Ok(words) = words else {
        return;
    };
    for (i, note) in unmet.iter().take(MOST_TOLD).enumerate() {
        note_on_answer(rt, source, note, words.get(i));
    }
    note_on_others(rt, unmet.len());
}

/// The first of some numbers of calls, and how many more there are.
fn call_numbers(alloc: Global, calls: &[usize]) -> Result<String, AllocError> {
    let mut text = String::new(alloc);
    for (i, call) in calls.iter().take(MOST_TOLD).enumerate() {
        let comma = if i > 0 { ", " } else { "" };
        write!(text, "{comma}{call}")?;
    }
    if let Some(more) = calls.len().checked_sub(MOST_TOLD)
        && more > 0
    {
        write!(text, " and {more} more")?;
    }
    Ok(text)
}

/// Says which calls of a set-up ask what the reply is, and which command tells no reply.
pub fn note_on_questions<R: Eprint + AllocGlobal>(rt: &R, name: &str, file: &str, calls: &[usize]) {
    if calls.is_empty() {
        return;
    }
    if let Ok(numbers) = call_numbers(rt.alloc(), calls) {
        complain(
            rt,
            format_args!(
                "{name}: calls that ask: {numbers}; the report shows their replies, and sel4sim marks{file} does not"
            ),
        );
    }
}

/// Says of the calls of a set-up that were refused and of which nothing was expected what tells why.
pub fn note_on_refusals<R: Eprint + AllocGlobal>(
    rt: &R,
    source: NamedText<'_>,
    file: &str,
    calls: &[usize],
) {
    for call in calls.iter().take(MOST_TOLD) {
        let text = format!(in rt.alloc();
            "refused, and nothing is expected of it; sel4sim why --call {call}{file} tells why"
        );
        if let Ok(text) = text {
            note_on_call(rt, source, "warning", *call, text.as_str());
        }
    }
    note_on_others(rt, calls.len());
}
