//! Whether one thread's part is kept from another's, but for the endpoints that are named, whatever calls threads make.

mod answering;
mod chain_text;
mod laws;
mod never;
mod open;
mod still;
mod waits;

pub use answering::never_by_parts;
pub use laws::what_is_not_open_is_kept;
pub use never::Never;
pub use open::never_gets;
