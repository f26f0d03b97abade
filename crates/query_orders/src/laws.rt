//! Laws of orders, which say in a reader's words what the definitions give. Nothing is done.
ghost use Rattle.std.specs.Prelude.{◌≡◌, ◌<◌, ℕ, Bool, true, List, [], Contains, length, ◌↔◌};
ghost use Rattle.std.specs.List.{sum_by};
ghost use Rattle.cap_core.specs.declared.profile.ProfileName.{ProfileName};
ghost use Rattle.kernel_abstract.specs.declared.call.Call.{Call};
ghost use Rattle.kernel_abstract.specs.State.{State};
ghost use Rattle.query_orders.specs.declared.answer.Answer.{Answer as AnswerOf};
ghost use Rattle.query_orders.specs.declared.left.LeftCall.{LeftCall as LeftCallOf};
ghost use Rattle.query_orders.specs.World.{World, start};
ghost use Rattle.query_orders.specs.Orders.{orders};
ghost use Rattle.query_orders.specs.Apart.{BeginsAlike, HasPart, GoesOn, FirstTellTheSame, TellTheSame, LeaveTheSame};
ghost use Rattle.query_orders.specs.Laws.{EachCanBeMade, IsShuffle, AnswersEachOnce, AreShortest, AreShortestStuck, IsBehind};

use crate::answer::Answer;
use crate::left::LeftCall;

/// The orders of so many calls are exactly the lists of so many clients in which each call can be made where it stands.
pub fn orders_are_those_that_can_be_made()
    ensures { (p : ProfileName) (own : List (List Call)) (w : World) (count : ℕ) (order : List ℕ)
        → Contains (orders p own w [] count) order ↔ ((length order ≡ count) × EachCanBeMade p own w order) }
{}

/// Where no client has a call left, the calls that an order made are a shuffle of the clients' calls: those of each client
/// are that client's own, all of them and in its own order.
pub fn complete_orders_are_shuffles()
    ensures { (p : ProfileName) (own : List (List Call)) (A : State) (order : List ℕ) → IsShuffle p own A order }
{}

/// The orders that begin in one way are exactly those that go on from there by calls each of which can be made where it
/// stands.
pub fn orders_go_on_from_their_beginning()
    ensures { (p : ProfileName) (own : List (List Call)) (w : World) (first : List ℕ) (count : ℕ) (order : List ℕ)
        → Contains (orders p own w first count) order ↔ IsBehind p own w first count order }
{}

/// In each order each call of the clients comes to just one answer: what it is answered, where it does not wait, what its
/// wait came to, or that it waits or is not made where the order ends.
pub fn each_call_comes_to_one_answer()
    ensures { (p : ProfileName) (own : List (List Call)) (A : State) (order : List ℕ) → AnswersEachOnce p own A order }
{}

/// No order has more calls than the clients have.
pub fn orders_have_no_more_calls_than_the_clients()
    ensures { (p : ProfileName) (own : List (List Call)) (A : State) (first : List ℕ) (count : ℕ)
        → sum_by length own < count → orders p own (start own A) first count ≡ [] }
{}

/// Of each answer, and of each way to end stuck, the order that is told with it is one of the shortest that have it.
pub fn first_orders_are_the_shortest()
    ensures answers { (p : ProfileName) (own : List (List Call)) (w : World) (first : List ℕ) (count : ℕ) → AreShortest p own w first count }
    ensures stuck { (p : ProfileName) (own : List (List Call)) (w : World) (first : List ℕ) (count : ℕ) → AreShortestStuck p own w first count }
{}

/// Two answers that `==` takes for equal are the same, and so are two calls that are left.
pub fn answers_that_compare_equal_are_the_same()
    ensures answers { (a b : AnswerOf) → ⟦<Answer as PartialEq>⟧.eq a b ≡ true → a ≡ b }
    ensures left { (a b : LeftCallOf) → ⟦<LeftCall as PartialEq>⟧.eq a b ≡ true → a ≡ b }
{}

/// Clients of different groups share no thread and no endpoint, and change no capability. Of each order the part that the clients
/// of one group make is an order of these clients by themselves: each of them can go on alike behind both, and is told the same.
/// And orders of several groups can be made one behind the other.
pub fn groups_do_not_see_each_other()
    ensures begins { (p : ProfileName) (own : List (List Call)) (A : State) (first : List ℕ) (has : ℕ → Bool) → BeginsAlike p own A first has }
    ensures part { (p : ProfileName) (own : List (List Call)) (A : State) (first groups : List ℕ) (group : ℕ) (order : List ℕ) → HasPart p own A first groups group order }
    ensures goes_on { (p : ProfileName) (own : List (List Call)) (A : State) (first groups : List ℕ) (group : ℕ) (order more : List ℕ) → GoesOn p own A first groups group order more }
{}

/// All orders of one group's clients by themselves tell of these clients' calls just what all orders of all clients tell of them, and
/// leave just the same of them at their ends. The calls that each order begins with tell the same.
pub fn groups_tell_what_all_orders_tell()
    ensures first { (p : ProfileName) (own : List (List Call)) (A : State) (first : List ℕ) (has : ℕ → Bool) → FirstTellTheSame p own A first has }
    ensures told { (p : ProfileName) (own : List (List Call)) (A : State) (first groups : List ℕ) (group : ℕ) → TellTheSame p own A first groups group }
    ensures left { (p : ProfileName) (own : List (List Call)) (A : State) (first groups : List ℕ) (group : ℕ) → LeaveTheSame p own A first groups group }
{}
