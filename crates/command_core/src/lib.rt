//! A run from bytes to bytes: the devices that they come from and go to, the engine that makes a text of an input, and
//! how the run ends.
#![tactic(auto)]

mod answer;
mod device;
mod engines;
mod fault;
mod kept;
mod limits;
mod sink;
mod source;
mod streams;

pub use answer::{Answer, CallNote, Found, Notes, PolicyNote};
pub use device::DeviceFault;
pub use engines::{Engine, run_engine};
pub use fault::{RunFault, Verdict, status_of, status_of_found};
pub use kept::{KeptReader, KeptWriter};
pub use limits::{INPUT_LIMIT, limit_is_that_of_the_definitions};
pub use sink::{Sink, WriterSink};
pub use source::{ReaderSource, Source};
pub use streams::{read_below, write_all};
