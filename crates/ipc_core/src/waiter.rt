//! What waits, and what a call on an endpoint answers.
ghost use Rattle.std.specs.Prelude.{◌≡◌};
ghost use Rattle.ipc_core.specs.Waits.{thread_of, role_at, endpoint_of};
ghost use Rattle.ipc_core.specs.Cancelled.{is_sender_with};
ghost use Rattle.ipc_core.specs.Offers.{offer_by};

use cap_core::{Badge, Message};

/// A thread that waits on an endpoint, by the address of its thread control block.
#[derive(Clone, Copy)]
pub enum Waiter {
    /// It sends a message, with the badge of the capability that it used.
    Sender {
        thread: u64,
        badge: Badge,
        message: Message,
    },
    /// It receives.
    Receiver {
        thread: u64,
    },
}

impl Waiter {
    /// The address of the thread control block.
    pub fn thread(&self) -> u64
        ensures { result ≡ thread_of self.now }
    {
        match self {
            Waiter::Sender { thread, .. } => *thread,
            Waiter::Receiver { thread } => *thread,
        }
    }

    /// How the thread waits, where it does so on this endpoint.
    pub fn role_at(&self, endpoint: u64) -> Role
        ensures { result ≡ role_at endpoint self.now }
    {
        match self {
            Waiter::Sender { .. } => Role::Sending(endpoint),
            Waiter::Receiver { .. } => Role::Receiving(endpoint),
        }
    }

    /// What it sends, if it sends.
    pub fn offer(&self) -> Option<Offer>
        ensures { result ≡ offer_by self.now }
    {
        match *self {
            Waiter::Sender {
                thread,
                badge,
                message,
            } => Some(Offer {
                thread,
                badge,
                message,
            }),
            Waiter::Receiver { .. } => None,
        }
    }

    /// Whether it is a sender with this badge.
    pub fn is_sender_with(&self, badge: Badge) -> bool
        ensures { result ≡ is_sender_with badge self.now }
    {
        match self {
            Waiter::Sender { badge: kept, .. } => *kept == badge,
            Waiter::Receiver { .. } => false,
        }
    }
}

/// A waiting sender, and what it sends.
#[derive(Clone, Copy)]
pub struct Offer {
    pub thread: u64,
    pub badge: Badge,
    pub message: Message,
}

/// How a thread waits, and the address of the endpoint on which it does.
#[derive(Clone, Copy, Debug, PartialEq, Eq)]
pub enum Role {
    Sending(u64),
    Receiving(u64),
}

impl Role {
    /// The address of the endpoint on which the thread waits.
    pub fn endpoint(&self) -> u64
        ensures { result ≡ endpoint_of self.now }
    {
        match self {
            Role::Sending(endpoint) => *endpoint,
            Role::Receiving(endpoint) => *endpoint,
        }
    }
}

/// What became of a send.
#[derive(Clone, Copy, Debug, PartialEq, Eq)]
pub enum Sent {
    /// The receiver that waited first has it.
    Delivered { to: u64 },
    /// The sender waits, after all others.
    Waiting,
    /// No receiver waited, and the send did not wait: it leaves no trace.
    Dropped,
}

/// What became of a receive.
#[derive(Clone, Copy, Debug, PartialEq, Eq)]
pub enum Received {
    /// The message of the sender that waited first, with the badge kept when it was sent.
    Delivered {
        from: u64,
        badge: Badge,
        message: Message,
    },
    /// The receiver waits, after all others.
    Waiting,
    /// No sender waited, and the receive did not wait: it leaves no trace.
    Empty,
}
