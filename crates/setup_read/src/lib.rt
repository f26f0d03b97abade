//! Set-ups, their migration and the reports of a run: what `setup_format` reads, `setup_migrate` makes of it and `setup_report`
//! writes, under one name; and the report of a kernel that clients shared (`shared`): the history of their calls, and what the
//! kernel shows at the end.
#![tactic(auto)]

mod shared;

pub use setup_format::{
    Key, Place, Setup, SetupFault, Wrong, fault, limits, read_setup, read_table, setup,
};
pub use setup_migrate::migrate;
pub use setup_report::{ExpectationCount, counted_report, expectations, report};
pub use shared::{history_report, shared_report};
