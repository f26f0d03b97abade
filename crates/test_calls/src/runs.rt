//! The check of a set-up and its migration, each from a reader of std to a writer.
use crate::stored::{REPORT, SETUP};
use command_check::{ReaderSource, Verdict, WriterSink, check};
use command_marks::migrate_run;
use std::alloc::Global;

/// What is written of a set-up that is checked; `None` if it was out of memory.
fn checked(alloc: Global, setup: &[u8]) -> Option<Vec<u8>> {
    let mut text = Vec::new(alloc);
    let mut source = ReaderSource::new(setup);
    let mut sink = WriterSink::new(&mut text);
    match check(alloc, &mut source, &mut sink) {
        Ok(_) => Some(text),
        Err(_) => None,
    }
}

/// What a set-up is migrated to; `None` if it was out of memory, or is refused.
fn migrated(alloc: Global, setup: &[u8]) -> Option<Vec<u8>> {
    let mut text = Vec::new(alloc);
    let mut source = ReaderSource::new(setup);
    let mut sink = WriterSink::new(&mut text);
    match migrate_run(alloc, &mut source, &mut sink) {
        Ok(Verdict::AllMet) => Some(text),
        _ => None,
    }
}

/// Whether the stored set-up has its report, as it is and as what it is migrated to; `None` if it was out of memory.
pub fn runs(alloc: Global) -> Option<bool> {
    let setup = migrated(alloc, SETUP)?;
    let before = checked(alloc, SETUP)?;
    let behind = checked(alloc, setup.as_slice())?;
    Some(before.as_slice() == REPORT && behind.as_slice() == REPORT)
}
