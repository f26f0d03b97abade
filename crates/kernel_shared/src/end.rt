//! Why a client's thread ended.

/// The end of a client's calls. A fault stands here without its front, which the client has too.
#[derive(Clone, Copy, PartialEq, Eq)]
pub enum End {
    Done,
    Gate,
    Full,
    Stray,
    NameTaken,
    Memory,
    NoEntry,
}
