//! Tests of lookups in capability spaces.

mod lookups;
mod memory;
