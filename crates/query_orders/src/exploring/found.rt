//! What calls come to, as far as it is found.
ghost use Rattle.std.specs.Prelude.{◌≡◌, ◌++◌, ◌∷◌, [], IfOk, OnOk, OnErr, cond, true};
ghost use Rattle.std.specs.HashSet.{contains};
ghost use Rattle.query_orders.specs.declared.exploring.found.CallAnswer.{CallAnswer as CallAnswerOf};
ghost use Rattle.query_orders.specs.contracts.exploring.found.CallAnswerPartialEq.TheImpl as call_answer_eq;
ghost use Rattle.query_orders.specs.Known.{call_answer};

use crate::Answer;
use crate::exploring::order::Order;
use std::alloc::{AllocError, Global};
use std::collections::HashSet;
use std::marker::Model;

/// What a call comes to, the call being that of a client at a place among the client's calls, and the first order that tells
/// it: by its last call, or where it ends.
#[derive(Drop)]
pub struct FoundAnswer {
    pub order: Order,
    pub client: usize,
    pub place: usize,
    pub answer: Answer,
}

impl FoundAnswer {
    /// The same answer, whose order takes no memory of its own.
    ///
    /// # Errors
    ///
    /// The order is shared 2^64 - 1 times already.
    pub fn share(&self) -> Result<FoundAnswer, AllocError>
        ensures { IfOk result (λ answer. answer ≡ self.now) }
    {
        let order = self.order.share()?;
        Ok(FoundAnswer {
            order,
            client: self.client,
            place: self.place,
            answer: self.answer,
        })
    }
}

/// What a call comes to, in whatever order. The call alone is hashed, so an answer is compared with the few of its call.
#[derive(Clone, Copy, PartialEq, Eq)]
#[derive_where(Hash)]
struct CallAnswer {
    client: usize,
    place: usize,
    #[derive_where(skip(Hash))]
    answer: Answer,
}

/// The answers that are found, in the order in which they are, each with the first order that tells it. Whether one is known
/// is looked up, and so takes no longer where many calls have answers.
#[derive(Drop)]
pub struct FoundAnswers {
    found: Vec<FoundAnswer>,
    known: HashSet<CallAnswer>,
}

impl Model for FoundAnswers {
    ghost use Rattle.std.specs.Prelude.{List};
    ghost use Rattle.query_orders.specs.declared.exploring.found.FoundAnswer.{FoundAnswer};
    ghost use Rattle.query_orders.specs.Known.{AreKnown};

    ghost Value = { List FoundAnswer };

    ghost view = { λ a. a.found.items };

    ghost invariant = { λ a. AreKnown a.known a.found.items };
}

/// Puts an answer at the end. Where memory is refused, all stays as it was.
fn add(
    found: &mut Vec<FoundAnswer>,
    known: &mut HashSet<CallAnswer>,
    answer: FoundAnswer,
) -> Result<(), AllocError>
    ensures found { OnOk result (found.new.items ≡ found.old.items ++ answer ∷ []) }
    ensures known { OnOk result ((q : CallAnswerOf) → contains call_answer_eq.ghosts.eq known.new q
        ≡ cond (call_answer_eq.ghosts.eq (call_answer answer) q) true (contains call_answer_eq.ghosts.eq known.old q)) }
    ensures found_stays { OnErr result (found.new.items ≡ found.old.items) }
    ensures known_stays { OnErr result (known.new.keys ≡ known.old.keys) }
{
    let told = CallAnswer {
        client: answer.client,
        place: answer.place,
        answer: answer.answer,
    };
    found.push(answer)?;
    if known.insert(told).is_err() {
        found.pop();
        return Err(AllocError);
    }
    Ok(())
}

impl FoundAnswers {
    ghost use Rattle.std.specs.Prelude.{◌≡◌, ◌==◌, ◌&&◌, ◌++◌, ◌∷◌, [], OnOk};
    ghost use Rattle.std.specs.List.{list_any};

    /// No answers.
    pub fn new(alloc: Global) -> FoundAnswers
        ensures { result ≡ [] }
    {
        FoundAnswers {
            found: Vec::new(alloc),
            known: HashSet::new(alloc),
        }
    }

    /// Whether a call is known to come to this.
    pub fn knows(&self, client: usize, place: usize, answer: Answer) -> bool
        ensures { result ≡ list_any (λ a. (a.client == client) && (a.place == place) && ⟦<Answer as PartialEq>⟧.eq a.answer answer) self.now }
    {
        self.known.contains(&CallAnswer {
            client,
            place,
            answer,
        })
    }

    /// Puts an answer at the end.
    pub fn push(&mut self, answer: FoundAnswer) -> Result<(), AllocError>
        ensures { OnOk result (self.new ≡ self.old ++ answer ∷ []) }
    {
        add(&mut self.found, &mut self.known, answer)?;
        Ok(())
    }

    /// The answers, in the order in which they were found.
    pub fn answers(&self) -> &[FoundAnswer]
        ensures { result.now ≡ self.now }
    {
        self.found.as_slice()
    }
}
