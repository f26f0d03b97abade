//! Why a call was not answered.
use crate::Naming;
use crate::front::Front;
use crate::history_copy::HistoryCopy;

/// Why a call was not answered. All but `Stray` take no step.
#[derive(Drop)]
pub enum SharedFault<N: Naming, T: HistoryCopy<N>> {
    /// 300: the history has as many entries as it may.
    Full,
    /// 301: the call was published, and the reader gave no entry after it, or one that does not hold the call. The front
    /// was read last.
    Stray(Front<N, T>),
    /// 302: the front has more entries of the client than it made.
    NameTaken(Front<N, T>),
    /// 303: memory was wanted and not there.
    Memory,
    /// 305: the reader gave no entry.
    NoEntry,
}
