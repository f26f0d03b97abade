//! What a thread can name by one call.
use crate::finding::places::{Place, goes_on, node_of, places, shifted};
use cap_core::{Cap, Profile};
use query_reach::FullSlot;
use std::alloc::{AllocError, Global};

/// A full slot to which a word leads, with what it holds.
#[derive(Clone, Copy)]
pub struct Word {
    pub word: u64,
    pub left: u32,
    pub slot: u64,
    pub cap: Cap,
}

/// A slot that is named by an index and a depth from the CNode to which a word leads; `Null` if it is empty.
#[derive(Clone, Copy)]
pub struct Target {
    pub word: u64,
    pub index: u64,
    pub depth: u64,
    pub slot: u64,
    pub node: u64,
    pub cap: Cap,
}

/// What a thread can name: by words, and by an index and a depth.
#[derive(Drop)]
pub struct Named {
    pub thread: u64,
    pub words: Vec<Word>,
    pub targets: Vec<Target>,
}

/// The words that lead to full slots of the space at a capability, those that lead through the fewest CNodes last.
fn words_of<P: Profile>(
    alloc: Global,
    filled: &[FullSlot],
    root: Cap,
) -> Result<Vec<Word>, AllocError> {
    let places = places::<P>(alloc, filled, root, P::WORD_BITS)?;
    let mut words = Vec::new(alloc);
    for place in &places {
        if place.cap != Cap::Null && !goes_on(place) {
            words.push(Word {
                word: shifted(place.index, place.left),
                left: place.left,
                slot: place.slot,
                cap: place.cap,
            })?;
        }
    }
    words.sort_by_key(|word| (word.left, word.word))?;
    Ok(words)
}

fn is_named(targets: &[Target], slot: u64) -> bool {
    for target in targets {
        if target.slot == slot {
            return true;
        }
    }
    false
}

/// Adds the slots that are named from a word's CNode, but for those that are named already.
fn add_targets<P: Profile>(
    targets: &mut Vec<Target>,
    word: u64,
    places: &[Place],
) -> Result<(), AllocError> {
    for place in places {
        if !is_named(targets.as_slice(), place.slot) {
            targets.push(Target {
                word,
                index: place.index,
                depth: u64::from(P::WORD_BITS.saturating_sub(place.left)),
                slot: place.slot,
                node: place.node,
                cap: place.cap,
            })?;
        }
    }
    Ok(())
}

/// What a thread can name whose root slot holds a capability. `filled` has all full slots, by rising addresses.
pub fn names_of<P: Profile>(
    alloc: Global,
    filled: &[FullSlot],
    thread: u64,
    root: Cap,
) -> Result<Named, AllocError> {
    let words = words_of::<P>(alloc, filled, root)?;
    let mut targets = Vec::new(alloc);
    for word in words.as_slice() {
        if node_of(word.cap).is_some() {
            let places = places::<P>(alloc, filled, word.cap, P::WORD_BITS)?;
            add_targets::<P>(&mut targets, word.word, places.as_slice())?;
        }
    }
    Ok(Named {
        thread,
        words,
        targets,
    })
}
