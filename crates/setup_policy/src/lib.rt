//! A policy whose words have their meaning: who is of which group, what each may hold, and what objects are called.
#![tactic(auto)]

mod policy;

pub use policy::{
    Allowance, Label, Labels, Member, OwnRegion, Policy, PolicyTake, PolicyVersion, PolicyWay,
    sender_entry,
};
