//! The forms of a derivation forest.

/// How a derivation forest is written.
#[derive(Clone, Copy, Drop)]
pub enum Form {
    /// A line for each full slot, below the slot that it is derived from.
    Lines,
    /// A graph in Graphviz' language DOT.
    Dot,
}
