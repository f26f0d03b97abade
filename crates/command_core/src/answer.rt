//! What is made of an input: the text that is written, the verdict, and what standard error says besides them.
ghost use Rattle.std.specs.Prelude.{◌≡◌, [], None};

use crate::fault::Verdict;
use std::alloc::Global;

/// A call of a set-up, and what standard error says about it.
#[derive(Drop)]
pub struct CallNote {
    /// The call's number, counted from 1.
    pub call: usize,
    /// What is said about it.
    pub text: String,
}

/// What standard error says about a policy.
#[derive(Drop)]
pub enum PolicyNote {
    /// What is said about a place of the policy's text: its line and column, counted from 1.
    Place {
        line: usize,
        column: usize,
        text: String,
    },
    /// What is said about a call of the set-up.
    Call(CallNote),
    /// How many more there are to be listed.
    More(usize),
}

/// What standard error says about an answer. No clause of a command says what it is, unless the command's own says so.
#[derive(Drop)]
pub struct Notes {
    /// The numbers, counted from 1, of the calls that were refused and of which nothing was expected.
    pub refused: Vec<usize>,
    /// The calls whose expectation is not met.
    pub unmet: Vec<CallNote>,
    /// The numbers, counted from 1, of the calls whose expectation asks what the reply is.
    pub asking: Vec<usize>,
    /// What the command line names and the input does not have.
    pub absent: Option<String>,
    /// What is said about a policy, in this order.
    pub policy: Vec<PolicyNote>,
}

impl Notes {
    /// Nothing is said.
    pub fn none(alloc: Global) -> Notes
        ensures refused { result.refused.items ≡ [] }
        ensures unmet { result.unmet.items ≡ [] }
        ensures asking { result.asking.items ≡ [] }
        ensures absent { result.absent ≡ None }
        ensures policy { result.policy.items ≡ [] }
    {
        Notes {
            refused: Vec::new(alloc),
            unmet: Vec::new(alloc),
            asking: Vec::new(alloc),
            absent: None,
            policy: Vec::new(alloc),
        }
    }
}

/// What a run found, besides the text that it wrote.
#[derive(Drop)]
pub struct Found {
    /// The verdict.
    pub verdict: Verdict,
    /// What standard error says.
    pub notes: Notes,
}

/// What is made of an input.
#[derive(Drop)]
pub struct Answer {
    /// What is written.
    pub text: Vec<u8>,
    /// What was found.
    pub verdict: Verdict,
    /// What standard error says.
    pub notes: Notes,
}

impl Answer {
    /// An answer of which standard error says nothing.
    pub fn new(alloc: Global, text: Vec<u8>, verdict: Verdict) -> Answer
        ensures text { result.text ≡ text }
        ensures verdict { result.verdict ≡ verdict }
        ensures unmet { result.notes.unmet.items ≡ [] }
    {
        Answer {
            text,
            verdict,
            notes: Notes::none(alloc),
        }
    }

    /// An answer of which standard error says that these calls have an expectation that is not met.
    pub fn with_unmet(
        alloc: Global,
        text: Vec<u8>,
        verdict: Verdict,
        unmet: Vec<CallNote>,
    ) -> Answer
        ensures text { result.text ≡ text }
        ensures verdict { result.verdict ≡ verdict }
        ensures unmet { result.notes.unmet ≡ unmet }
    {
        let notes = Notes {
            unmet,
            ..Notes::none(alloc)
        };
        Answer {
            text,
            verdict,
            notes,
        }
    }

    /// An answer of which standard error says this of a policy.
    pub fn with_policy(
        alloc: Global,
        text: Vec<u8>,
        verdict: Verdict,
        policy: Vec<PolicyNote>,
    ) -> Answer
        ensures text { result.text ≡ text }
        ensures verdict { result.verdict ≡ verdict }
        ensures policy { result.notes.policy ≡ policy }
    {
        let notes = Notes {
            policy,
            ..Notes::none(alloc)
        };
        Answer {
            text,
            verdict,
            notes,
        }
    }

    /// An answer to a command line that names what the input does not have: nothing is written.
    pub fn absent(alloc: Global, absent: String) -> Answer
        ensures text { result.text.items ≡ [] }
        ensures verdict { result.verdict ≡ Verdict.Absent }
    {
        Answer {
            text: Vec::new(alloc),
            verdict: Verdict::Absent,
            notes: Notes {
                absent: Some(absent),
                ..Notes::none(alloc)
            },
        }
    }

    /// What is left when the text is written.
    pub fn found(self) -> Found
        ensures verdict { result.verdict ≡ self.verdict }
        ensures notes { result.notes ≡ self.notes }
    {
        Found {
            verdict: self.verdict,
            notes: self.notes,
        }
    }
}
