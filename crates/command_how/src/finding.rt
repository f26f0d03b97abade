//! The search for calls after which it has happened, over copies of a kernel. Nothing is promised of what it finds: each call is
//! tried, and who asks for them puts them to the test.

mod ends;
mod named;
mod places;
mod search;
mod shorter;
mod tries;

pub use search::{Found, find};
pub use shorter::shortened;
