//! The words of the kernel: profiles, rights, capabilities, messages and refusals.
#![tactic(auto)]

pub mod capability;
pub mod limits;
pub mod message;
pub mod mint;
pub mod object;
pub mod profile;
pub mod refusal;
pub mod rights;

pub use capability::{Badge, Cap, Guard, Kind};
pub use message::Message;
pub use mint::{mask, set_data};
pub use object::{Range, fresh, in_region, kind_of, object_bits, range_of, same_object};
pub use profile::{Narrow, Profile, ProfileName, Wide};
pub use refusal::{LookupFault, Refusal};
pub use rights::Rights;
