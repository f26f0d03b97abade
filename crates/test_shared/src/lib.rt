//! Tests of shared kernels: calls, looks, drives and settling, each over a kernel with two threads and one endpoint.
#![tactic(auto)]

#[cfg(test)]
mod crowd;
#[cfg(test)]
mod gates;
#[cfg(test)]
mod looks;
#[cfg(test)]
mod observed;
#[cfg(test)]
mod played;
#[cfg(test)]
mod setup;
