//! What is measured of a kernel over the linked forms, and of these forms by themselves: messages to and fro (`queue`), derivations
//! and removals (`store`), rounds of all operations with each reply dropped (`steps`) and with the replies kept (`replies`), and
//! revocations (`revoke`).
#![tactic(auto)]

mod machine;
mod queue;
mod replies;
mod revoke;
mod rounds;
mod steps;
mod store;
