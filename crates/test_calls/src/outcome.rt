//! How a call ends, if a request for memory may be refused.

/// How a call ended.
#[derive(Clone, Copy, PartialEq, Eq, Drop)]
pub enum Outcome {
    /// It gave what is wanted.
    Done,
    /// It was out of memory, and gave what is wanted when it was made again.
    DoneAgain,
    Wrong,
}
