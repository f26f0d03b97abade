//! The text of capabilities, messages, calls, replies and threads. Objects and slots stand as a naming writes them.
ghost use Rattle.std.specs.Prelude.{◌≡◌, Some, take};
ghost use Rattle.setup_report.specs.Naming.{naming_view};
ghost use Rattle.setup_report.specs.Text as text;

use crate::naming::Naming;
use crate::objects::Object;
use bitflags::Flags;
use cap_core::limits::MAX_MESSAGE_WORDS;
use cap_core::{Cap, Message, Refusal, Rights};
use kernel_core::{Call, Inbox, Reply, ThreadState};
use setup_format::op_name;
use std::fmt;

/// The rights of an endpoint capability: a letter for each right, or `-` if it is missing.
#[derive(Clone, Copy)]
pub struct RightsText(pub Rights);

fn right_text(rights: Rights, right: Rights, letter: &'static str) -> &'static str
    ensures { result.now ≡ text.right_text rights right.0 letter.now }
{
    if rights.contains(right) { letter } else { "-" }
}

impl fmt::Display for RightsText {
    ghost output = { λ r. Some (text.rights_text r.0) };

    fn fmt<W: fmt::Write>(&self, f: &mut fmt::Formatter<W>) -> fmt::Result {
        let write = right_text(self.0, Rights::WRITE, "w");
        let read = right_text(self.0, Rights::READ, "r");
        let grant = right_text(self.0, Rights::GRANT, "g");
        let grant_reply = right_text(self.0, Rights::GRANT_REPLY, "p");
        write!(f, "{write}{read}{grant}{grant_reply}")
    }
}

/// Each number after a space.
#[derive(Clone, Copy)]
pub struct NumbersText<'a>(pub &'a [u64]);

impl fmt::Display for NumbersText<'_> {
    ghost output = { λ w. Some (text.numbers_text w.0.now) };

    fn fmt<W: fmt::Write>(&self, f: &mut fmt::Formatter<W>) -> fmt::Result {
        for number in self.0 {
            write!(f, " {number}")?;
        }
        Ok(())
    }
}

/// The words that a message has.
fn words_of(message: &Message) -> &[u64]
    ensures { result.now ≡ take message.now.count message.now.words }
{
    let count = message.count as usize;
    if count < MAX_MESSAGE_WORDS {
        &message.words[..count]
    } else {
        &message.words
    }
}

/// A message: its label, and the words that it has.
#[derive(Clone, Copy)]
pub struct MessageText(pub Message);

impl fmt::Display for MessageText {
    ghost output = { λ m. Some (text.message_text m.0) };

    fn fmt<W: fmt::Write>(&self, f: &mut fmt::Formatter<W>) -> fmt::Result {
        let label = self.0.label;
        let words = NumbersText(words_of(&self.0));
        write!(f, "label {label} words{words}")
    }
}

/// A capability. Full slots hold no `Null`.
#[derive(Clone, Copy)]
pub struct CapText<'a> {
    pub naming: &'a Naming<'a>,
    pub cap: Cap,
}

impl fmt::Display for CapText<'_> {
    ghost output = { λ h. Some (text.cap_text (naming_view h.naming.now) h.cap) };

    fn fmt<W: fmt::Write>(&self, f: &mut fmt::Formatter<W>) -> fmt::Result {
        match self.cap {
            Cap::Null => write!(f, "null"),
            Cap::Untyped { base, bits, free } => {
                let region = self.naming.object(Object::Region(base, u64::from(bits)));
                write!(f, "untyped {region} bits {bits} free {free}")
            }
            Cap::Endpoint {
                base,
                badge,
                rights,
            } => {
                let endpoint = self.naming.object(Object::Endpoint(base));
                let badge = badge.0;
                let rights = RightsText(rights);
                write!(f, "endpoint {endpoint} badge {badge} rights {rights}")
            }
            Cap::CNode { base, radix, guard } => {
                let node = self.naming.object(Object::CNode(base));
                let value = guard.value;
                let size = guard.size;
                write!(f, "cnode {node} radix {radix} guard {value} size {size}")
            }
            Cap::Tcb { base } => {
                let thread = self.naming.object(Object::Thread(base));
                write!(f, "tcb {thread}")
            }
        }
    }
}

/// A slot, with what it holds.
#[derive(Clone, Copy)]
pub struct HeldSlot<'a> {
    pub naming: &'a Naming<'a>,
    pub slot: u64,
    pub cap: Cap,
}

impl fmt::Display for HeldSlot<'_> {
    ghost output = { λ h. Some (text.held_slot_text (naming_view h.naming.now) h.slot h.cap) };

    fn fmt<W: fmt::Write>(&self, f: &mut fmt::Formatter<W>) -> fmt::Result {
        let (naming, cap) = (self.naming, self.cap);
        let slot = naming.slot(self.slot);
        let held = CapText { naming, cap };
        write!(f, "{slot} {held}")
    }
}

/// The number of a refusal, and of a lookup failure the number of its kind.
#[derive(Clone, Copy)]
pub struct RefusalText(pub Refusal);

impl fmt::Display for RefusalText {
    ghost output = { λ r. Some (text.refusal_text r.0) };

    fn fmt<W: fmt::Write>(&self, f: &mut fmt::Formatter<W>) -> fmt::Result {
        let code = self.0.code();
        let kind = self.0.kind();
        if kind == 0 {
            write!(f, "{code}")
        } else {
            write!(f, "{code}/{kind}")
        }
    }
}

/// What a call is answered.
#[derive(Clone, Copy)]
pub struct ReplyText<'a> {
    pub naming: &'a Naming<'a>,
    pub reply: Reply,
}

impl fmt::Display for ReplyText<'_> {
    ghost output = { λ r. Some (text.reply_told (naming_view r.naming.now) r.reply) };

    fn fmt<W: fmt::Write>(&self, f: &mut fmt::Formatter<W>) -> fmt::Result {
        match self.reply {
            Reply::Done => write!(f, "done"),
            Reply::Waiting => write!(f, "waiting"),
            Reply::Dropped => write!(f, "dropped"),
            Reply::Empty => write!(f, "empty"),
            Reply::Refused(refusal) => {
                let refusal = RefusalText(refusal);
                write!(f, "refused {refusal}")
            }
            Reply::Delivered {
                endpoint,
                from,
                to,
                badge,
                message,
            } => {
                let endpoint = self.naming.object(Object::Endpoint(endpoint));
                let from = self.naming.object(Object::Thread(from));
                let to = self.naming.object(Object::Thread(to));
                let badge = badge.0;
                let message = MessageText(message);
                write!(
                    f,
                    "delivered {endpoint} from {from} to {to} badge {badge} {message}"
                )
            }
        }
    }
}

/// A call that was made: the thread that makes it, the operation, and what it is answered.
#[derive(Clone, Copy)]
pub struct AnsweredText<'a> {
    pub naming: &'a Naming<'a>,
    pub call: &'a Call,
    pub reply: Reply,
}

impl fmt::Display for AnsweredText<'_> {
    ghost output = { λ a. Some (text.answered_text (naming_view a.naming.now) a.call.now a.reply) };

    fn fmt<W: fmt::Write>(&self, f: &mut fmt::Formatter<W>) -> fmt::Result {
        let (naming, reply) = (self.naming, self.reply);
        let thread = naming.object(Object::Thread(self.call.thread));
        let op = op_name(&self.call.op).text();
        let reply = ReplyText { naming, reply };
        write!(f, "{thread} {op}: {reply}")
    }
}

/// What a thread does.
#[derive(Clone, Copy)]
pub struct StateText<'a> {
    pub naming: &'a Naming<'a>,
    pub state: ThreadState,
}

impl fmt::Display for StateText<'_> {
    ghost output = { λ d. Some (text.state_text (naming_view d.naming.now) d.state) };

    fn fmt<W: fmt::Write>(&self, f: &mut fmt::Formatter<W>) -> fmt::Result {
        match self.state {
            ThreadState::Ready => write!(f, "ready"),
            ThreadState::Inactive => write!(f, "inactive"),
            ThreadState::Sending(address) => {
                let endpoint = self.naming.object(Object::Endpoint(address));
                write!(f, "sending {endpoint}")
            }
            ThreadState::Receiving(address) => {
                let endpoint = self.naming.object(Object::Endpoint(address));
                write!(f, "receiving {endpoint}")
            }
        }
    }
}

/// A thread after a space.
#[derive(Clone, Copy)]
struct NextThreadText<'a, 'n> {
    naming: &'a Naming<'n>,
    thread: u64,
}

impl fmt::Display for NextThreadText<'_, '_> {
    ghost output = { λ t. Some (text.next_thread_text (naming_view t.naming.now) t.thread) };

    fn fmt<W: fmt::Write>(&self, f: &mut fmt::Formatter<W>) -> fmt::Result {
        let thread = self.naming.object(Object::Thread(self.thread));
        write!(f, " {thread}")
    }
}

/// Each of some threads after a space.
#[derive(Clone, Copy)]
pub struct ThreadsText<'a, 'n> {
    pub naming: &'a Naming<'n>,
    pub threads: &'a [u64],
}

impl fmt::Display for ThreadsText<'_, '_> {
    ghost output = { λ t. Some (text.threads_text (naming_view t.naming.now) t.threads.now) };

    fn fmt<W: fmt::Write>(&self, f: &mut fmt::Formatter<W>) -> fmt::Result {
        for address in self.threads {
            let naming = self.naming;
            let next = NextThreadText {
                naming,
                thread: *address,
            };
            write!(f, "{next}")?;
        }
        Ok(())
    }
}

/// The last message that was delivered to a thread, if there is one.
#[derive(Clone, Copy)]
pub struct InboxText(pub Option<Inbox>);

impl fmt::Display for InboxText {
    ghost output = { λ i. Some (text.inbox_text i.0) };

    fn fmt<W: fmt::Write>(&self, f: &mut fmt::Formatter<W>) -> fmt::Result {
        match self.0 {
            None => Ok(()),
            Some(inbox) => {
                let badge = inbox.badge.0;
                let message = MessageText(inbox.message);
                write!(f, " inbox badge {badge} {message}")
            }
        }
    }
}
