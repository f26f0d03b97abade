//! Tests of the parts of a kernel: words and capabilities, where a retype places objects, the capability stores (`slots`), lookups
//! (`spaces`), and threads that wait on endpoints (`waiters`), in both forms and both profiles.
#![tactic(auto)]

#[cfg(test)]
mod capabilities;
#[cfg(test)]
mod minting;
#[cfg(test)]
mod numbers;
#[cfg(test)]
mod objects;
#[cfg(test)]
mod retypes;
#[cfg(test)]
mod slots;
#[cfg(test)]
mod spaces;
#[cfg(test)]
mod waiters;
