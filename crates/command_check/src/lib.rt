//! The run of a set-up from the bytes that come in to the bytes that go out. Of `command_core`, on which it stands, the names
//! are here too.
#![tactic(auto)]

mod checking;
mod command;
mod notes;
mod numbers;
mod run;
mod state;

pub use checking::{Checker, check, checked_text};
pub use command::{Command, OnSetup};
pub use command_core::{
    Answer, CallNote, DeviceFault, Engine, Found, INPUT_LIMIT, Notes, ReaderSource, RunFault, Sink,
    Source, Verdict, WriterSink, read_below, run_engine, status_of, status_of_found, write_all,
};
pub use notes::{add_unmet, notes_on, unmet_calls};
pub use numbers::{expected_of, number_at, numbers_of_clients};
pub use run::{CountedText, counted_text_of, refused, run_calls, run_setup, text_of, verdict_on};
pub use state::{Behind, OnState, StateCommand};
