//! Why a set-up is refused, in words.
use crate::document::{Document, Formats, read_at};
use crate::mending::{Mended, mend};
use crate::message::{question, quoted, with_list};
use crate::near::nearest;
use crate::regions::{key_of, layout_words};
use crate::spot::Spot;
use crate::texts::text_words;
use crate::values::value_words;
use setup_format::limits::{FIRST_FORMAT, NEWEST_FORMAT};
use setup_format::{
    Key, Place, SetupFault, Wrong, read_document, read_first_format, read_table, top_keys,
    untyped_keys,
};
use setup_positions::{NamedText, Part, SoughtKey};
use setup_values::kinds::{Number, OpKind};
use std::alloc::{AllocError, Global};
use toml::Table;

/// The most faults of a set-up that are listed.
const MAX_FAULTS: usize = 20;

/// What is said if more are not.
const NO_MORE: &str = "more faults are not looked for";

/// What is said of names in a set-up of format 1.
const NO_NAMES: &str = "names are a key of format 2, and this set-up has format 1";

/// The keys that the table at a place has.
fn keys_at(document: Document<'_>, place: Place) -> &'static [&'static str] {
    let table = document.table_at(place).unwrap_or(document.table);
    let format = read_at(table, "format", Number(FIRST_FORMAT, NEWEST_FORMAT));
    match (place, read_at(table, "op", OpKind)) {
        (Place::Top, _) => top_keys(format.unwrap_or(NEWEST_FORMAT)),
        (Place::Untyped(_), _) => untyped_keys(),
        (Place::Call(_), Some(op)) => op.keys(),
        (Place::Call(_), None) => &[],
    }
}

/// What is said of a key of another table that the top table has.
fn hint_on_top(place: Place, key: &str) -> &'static str {
    match (place, key) {
        (Place::Top, _) => "",
        (_, "call") =>
            "; call is a key of the top table: put it above the first [..], or write [[call]]",
        _ if top_keys(NEWEST_FORMAT).contains(&key) =>
            "; it is a key of the top table: put it above the first [..]",
        _ => "",
    }
}

/// Why a key of a table is unknown: the keys that it has, and the one that looks like it.
fn unknown_words(spot: Spot<'_>) -> Result<String, AllocError> {
    let (place, key, alloc) = (spot.place, spot.key, spot.document.alloc);
    if let (Place::Top, "names") = (place, key) {
        return format!(in alloc; "{place}: {NO_NAMES}");
    }
    let names = keys_at(spot.document, place);
    let question = question(alloc, nearest(alloc, key, names)?)?;
    let hint = format!(in alloc; "{}{question}", hint_on_top(place, key))?;
    let key = quoted(alloc, key)?;
    let fault = format!(in alloc; "{place}: there is no key {key}")?;
    let keys = names.join(alloc, ", ")?;
    with_list(alloc, fault.as_str(), hint.as_str(), "keys", keys.as_str())
}

/// A key as text.
pub fn text_of(key: &Key) -> &str {
    match key {
        Key::Known(key) => *key,
        Key::Found(key) => key.as_str(),
    }
}

/// The words on a fault of a document, and the line of the text at which it stands, if that is found.
fn fault_words(
    document: Document<'_>,
    source: NamedText<'_>,
    fault: &SetupFault,
) -> Result<String, AllocError> {
    let alloc = document.alloc;
    let (words, place, key, part) = match fault {
        SetupFault::At { wrong, place, key } => {
            let spot = Spot::at(document, *place, text_of(key));
            match wrong {
                Wrong::Unknown => (unknown_words(spot)?, *place, spot.key, Part::Key),
                _ => (value_words(spot)?, *place, spot.key, spot.part()),
            }
        }
        SetupFault::Layout(defect) => {
            let (place, key) = key_of(*defect);
            (layout_words(document, *defect)?, place, key, Part::Key)
        }
        // No fault of a document is one of its text.
        SetupFault::Memory | SetupFault::Text => return Err(AllocError),
    };
    match source.excerpt_at(alloc, SoughtKey { place, key, part })? {
        Some(excerpt) => format!(in alloc; "{words}\n{excerpt}\n"),
        None => format!(in alloc; "{words}\n"),
    }
}

/// The first fault of a document that is read by these formats.
fn first_fault(document: Document<'_>) -> Option<SetupFault> {
    match document.formats {
        Formats::All => read_table(document.alloc, document.table).err(),
        Formats::First => read_first_format(document.alloc, document.table).err(),
    }
}

/// The words on the faults of a document.
fn document_words(
    alloc: Global,
    table: Table,
    formats: Formats,
    source: NamedText<'_>,
) -> Result<String, AllocError> {
    let (mut table, mut words) = (table, String::new(alloc));
    let mut is_size_mended = false;
    for _told in 0..MAX_FAULTS {
        let document = Document {
            alloc,
            table: &table,
            formats,
        };
        let Some(fault) = first_fault(document) else {
            return Ok(words);
        };
        if !(is_size_mended && matches!(fault, SetupFault::Layout(_))) {
            words.push_str(fault_words(document, source, &fault)?.as_str())?;
        }
        match mend(alloc, &mut table, &fault)? {
            Mended::Nothing => return Ok(words),
            Mended::Fault => {}
            Mended::Size => is_size_mended = true,
        }
    }
    words.push_str(NO_MORE)?;
    Ok(words)
}

/// Says in words why a set-up is refused that is read by these formats: each fault with the line of the text at which it
/// stands, or what is wrong with a text that is no TOML document; nothing if it is not refused. `name` is the file's.
///
/// The first fault is the one for which the set-up is refused. The others are those that are found once it is mended:
/// of a call each unknown key and one other, and `MAX_FAULTS` in all. Behind a fault of a region, or of the layout, the regions
/// are not looked at any more, and behind one of another key of the top table than a size nothing is.
pub fn refusal_words(
    alloc: Global,
    bytes: &[u8],
    formats: Formats,
    name: &str,
) -> Result<String, AllocError> {
    match read_document(alloc, bytes) {
        Ok(table) => {
            let text = str::from_utf8(bytes).unwrap_or("");
            document_words(alloc, table, formats, NamedText { name, text })
        }
        Err(SetupFault::Memory) => Err(AllocError),
        Err(_) => text_words(alloc, bytes, name),
    }
}
