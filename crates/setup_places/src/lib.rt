//! Layouts in a set-up: where their objects stand there, what they are called, and what stands beside them where each object counts.
//! All this is tested, and no clause says what it is.
#![tactic(auto)]

mod flows;
mod names;
mod places;
mod placing;

pub use names::{LOADER, SetupName, SetupNames};
pub use places::{FIRST_REGION_SLOT, Places, Region, Source};
pub use placing::{ReadLayout, placed};
