//! The engine that lets the clients of a set-up share one kernel, each in a thread of its own.
#![tactic(auto)]

mod beginning;
mod client_calls;
mod numbered;
mod open_gate;
mod returning;
mod sharing;
mod threads;
mod unmet;

pub use open_gate::OpenGate;
pub use threads::{threads_found, threads_found_open, threads_run};
