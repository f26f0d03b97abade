//! Whether a new set-up has the call that is promised as an example.
ghost use Rattle.std.specs.Prelude.{◌≡◌, ◌≢◌, ◌↔◌, ℕ, IsTrue, MatchOption};
ghost use Rattle.cap_core.specs.declared.message.Message.{Message as MessageView};
ghost use Rattle.kernel_abstract.specs.declared.call.Call.{Call as CallValue};
ghost use Rattle.kernel_abstract.specs.Plan.{IsPlan};
ghost use Rattle.setup_values.specs.Names.{names_view};
ghost use Rattle.command_new.specs.New as spec;
ghost use Rattle.command_new.specs.New.{lone_call};

use cap_core::limits::MAX_MESSAGE_WORDS;
use cap_core::{Message, Profile};
use kernel_abstract::{Call, Op};
use kernel_boot::BootPlan;
use setup_format::Setup;
use setup_values::KnownNames;

/// The message that is sent.
fn example_message() -> Message
    ensures { result ≡ spec.example_message }
{
    let mut words = [0; MAX_MESSAGE_WORDS];
    words[0] = 1;
    Message {
        label: 7,
        words,
        count: 1,
    }
}

/// The name by which the call is made.
fn example_name(plan: &BootPlan) -> &'static str
    ensures { result.now ≡ spec.example_name plan.now }
{
    if plan.endpoints() == 0 {
        "tcb_0"
    } else {
        "ep_0"
    }
}

/// The capability and the message by which a call sends.
fn sent(op: Op) -> Option<(u64, Message)>
    ensures { MatchOption result ((cap : ℕ) (message : MessageView) → op ≢ Op.Send cap message) (λ made. op ≡ Op.Send made.0 made.1) }
{
    match op {
        Op::Send { cap, message } => Some((cap, message)),
        _ => None,
    }
}

/// The capability by which a call suspends a thread.
fn suspended(op: Op) -> Option<u64>
    ensures { MatchOption result ((cap : ℕ) → op ≢ Op.Suspend cap) (λ cap. op ≡ Op.Suspend cap) }
{
    match op {
        Op::Suspend { cap } => Some(cap),
        _ => None,
    }
}

/// Whether a call does by a capability what the example does.
fn is_example_op(plan: &BootPlan, cap: u64, op: Op) -> bool
    ensures { IsTrue result ↔ op ≡ spec.example_op plan.now cap }
{
    if plan.endpoints() == 0 {
        suspended(op).is_some_and(|named| named == cap)
    } else {
        match sent(op) {
            Some((named, message)) => named == cap && message == example_message(),
            None => false,
        }
    }
}

/// The one call of a set-up, if the first client makes it, and if nothing is expected of it.
fn only_call(setup: &Setup) -> Option<Call>
    ensures { MatchOption result ((call : CallValue) → setup.now.calls ≢ lone_call call) (λ call. setup.now.calls ≡ lone_call call) }
{
    let [call] = setup.calls() else {
        return None;
    };
    if setup.client_of(0) != 0 {
        return None;
    }
    if setup.expect(0).is_some() {
        return None;
    }
    Some(*call)
}

/// Whether the calls of a set-up are the one that is promised.
pub(crate) fn has_example<P: Profile>(known: &KnownNames<'_>, setup: &Setup) -> bool
    requires { IsPlan P.profile setup.now.plan }
    ensures { IsTrue result ↔ spec.IsExample P.profile setup.now.plan (names_view known.now) setup.now.calls }
{
    let plan = setup.plan();
    let Some(call) = only_call(setup) else {
        return false;
    };
    let Some(cap) = known.word_of(example_name(plan).as_bytes()) else {
        return false;
    };
    call.thread == plan.tcb_place::<P>(0) && is_example_op(plan, cap, call.op)
}
