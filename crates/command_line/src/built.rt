//! What a build says of itself. A build without proofs is made of the same sources, but for a file of this name in which
//! `proved` and `Proved with ..` are replaced (`tools/unproved.py`).

/// The version of the product, as CHANGELOG.md has it, and how it was proved.
pub const VERSION: &str = "2026-11-30, proved with Rattle, logic dac8208d650f15bf";

/// The first lines of the help.
pub const ABOUT: &str = "\
Simulates the capability part of the seL4 microkernel
Proved with Rattle, logic dac8208d650f15bf, by make prove";
