//! Tests of the capability stores: what they answer to each call, and that both forms answer alike through sequences
//! of calls.

mod answers;
mod calls;
mod derivations;
mod links;
mod sequences;
