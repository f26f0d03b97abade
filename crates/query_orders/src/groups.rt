//! Groups of clients whose calls share no thread and no endpoint, and the exploration of each group by itself.

mod alone;
mod clients;
mod exploring;
mod grouping;
pub mod objects;

pub use self::alone::is_in_group;
pub(crate) use self::clients::capabilities_may_change;
pub use self::exploring::{GroupExplored, GroupsExplored, explore_groups};
pub use self::objects::CallObject;
