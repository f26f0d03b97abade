//! What a policy file says, in its own words.
use crate::fault::Place;
use cap_core::Rights;
use setup_policy::PolicyVersion;
use std::alloc::{AllocError, Global};
use std::fmt;

/// A word for a thread, an endpoint or a region: a number, or a name of the set-up.
#[derive(Drop, PartialEq, Eq)]
pub enum Word {
    Number(u64),
    Name(String),
}

impl fmt::Display for Word {
    fn fmt<W: fmt::Write>(&self, f: &mut fmt::Formatter<W>) -> fmt::Result {
        match self {
            Word::Number(number) => write!(f, "{number}"),
            Word::Name(name) => write!(f, "{name}"),
        }
    }
}

/// Threads that may be one part, and the regions that they may hold.
#[derive(Drop)]
pub struct GroupEntry {
    pub name: String,
    pub threads: Vec<Word>,
    pub regions: Vec<Word>,
    /// Where it stands: an element of `alone`, or a table of `group`.
    pub place: Place,
}

/// Who may send to whom.
#[derive(Drop)]
pub struct WayEntry {
    pub from: String,
    pub to: String,
    pub by: Word,
    /// 0 stands for any.
    pub badge: u64,
    pub rights: Rights,
    /// The table that says it: one with lists says several.
    pub place: Place,
}

/// A capability that opens no way by itself.
#[derive(Drop)]
pub struct UseEntry {
    pub group: String,
    pub of: Word,
    /// 0 stands for any.
    pub badge: u64,
    pub rights: Rights,
    /// The table that says it: one with lists says several.
    pub place: Place,
}

/// Who may empty slots of whom, by a revoke.
#[derive(Drop)]
pub struct TakeEntry {
    pub from: String,
    pub to: String,
    /// The table that says it: one with lists says several.
    pub place: Place,
}

/// A policy file. Lists in its tables are written out: an entry is of single words.
#[derive(Drop)]
pub struct PolicyFile {
    pub version: PolicyVersion,
    pub after: Option<u64>,
    pub silent: Vec<Word>,
    pub messages: Vec<Word>,
    pub grant: bool,
    pub calls: bool,
    /// Those of `alone` first.
    pub groups: Vec<GroupEntry>,
    pub ways: Vec<WayEntry>,
    pub uses: Vec<UseEntry>,
    /// None in version 1.
    pub takes: Vec<TakeEntry>,
}
