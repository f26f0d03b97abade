//! Tables with a row for each thread and a row for each endpoint, and the queues that lie in them.
ghost use Rattle.std.specs.Prelude.{◌≡◌, ◌≢◌, ℕ, ◌/◌, Option, None, Some, IfSome, length, option_map, slice_get};
ghost use Rattle.cap_core.specs.Numbers.{tcb_size, endpoint_size};
ghost use Rattle.ipc_core.specs.declared.waiter.Role.{Role};
ghost use Rattle.ipc_core.specs.Representation.Chains.{removed};
ghost use Rattle.ipc_core.specs.Representation.Linked.{HasRow, links_of, set_row, led, led_back, with_next, with_previous, with_role, IsLinked, waits_in, orders_in, waiter_of, free_row, sending_row, receiving_row, receiver_in, offer_in};
ghost use Rattle.ipc_core.specs.Waits.{endpoint_of, queued, first_receiver as receiver_first, first_sender as sender_first, IsNextBehind};
ghost use Rattle.ipc_core.specs.Cancelled.{after_cancel_thread, after_cancel_badge, after_cancel_endpoint, is_sender_with};

use crate::waiter::{Offer, Role};
use cap_core::limits::MAX_MESSAGE_WORDS;
use cap_core::{Badge, Message, Profile};

/// How a thread waits, if it does, what it sends, and the threads before and after it in its endpoint's queue.
///
/// Where it does not wait, the other fields mean nothing.
#[derive(Clone, Copy)]
pub struct QueueRow {
    pub role: Option<Role>,
    pub badge: Badge,
    pub message: Message,
    pub previous: Option<u64>,
    pub next: Option<u64>,
}

impl QueueRow {
    /// The row of a thread that waits nowhere.
    pub fn free() -> QueueRow
        ensures { result ≡ free_row }
    {
        QueueRow {
            role: None,
            badge: Badge(0),
            message: Message {
                label: 0,
                words: [0; MAX_MESSAGE_WORDS],
                count: 0,
            },
            previous: None,
            next: None,
        }
    }

    /// A row of a thread that sends; its links are to be set.
    pub fn sending(endpoint: u64, badge: Badge, message: Message) -> QueueRow
        ensures { result ≡ sending_row endpoint badge message }
    {
        QueueRow {
            role: Some(Role::Sending(endpoint)),
            badge,
            message,
            previous: None,
            next: None,
        }
    }

    /// A row of a thread that receives; its links are to be set.
    pub fn receiving(endpoint: u64) -> QueueRow
        ensures { result ≡ receiving_row endpoint }
    {
        QueueRow {
            role: Some(Role::Receiving(endpoint)),
            ..QueueRow::free()
        }
    }

    fn receiver(&self, thread: u64) -> Option<u64>
        ensures { result ≡ receiver_in thread self.now }
    {
        match self.role {
            Some(Role::Receiving(_)) => Some(thread),
            _ => None,
        }
    }

    /// What the thread sends, where it waits to send.
    pub fn offer(&self, thread: u64) -> Option<Offer>
        ensures { result ≡ offer_in thread self.now }
    {
        match self.role {
            Some(Role::Sending(_)) => Some(Offer {
                thread,
                badge: self.badge,
                message: self.message,
            }),
            _ => None,
        }
    }

    fn sends_with(&self, badge: Badge) -> bool
        ensures { (thread : ℕ) → result ≡ is_sender_with badge (waiter_of self.now thread) }
    {
        match self.role {
            Some(Role::Sending(_)) => self.badge == badge,
            _ => false,
        }
    }
}

/// The first and the last thread that wait on an endpoint, if any does.
#[derive(Clone, Copy)]
pub struct EndpointRow {
    pub first: Option<u64>,
    pub last: Option<u64>,
}

/// The rows of threads and of endpoints, row k for the k-th place where one can stand.
#[derive(Drop)]
pub struct Tables {
    pub threads: Vec<QueueRow>,
    pub endpoints: Vec<EndpointRow>,
}

fn thread_place<P: Profile>(thread: u64) -> usize
    ensures { result ≡ thread / tcb_size P.profile }
{
    (thread >> P::TCB_BITS) as usize
}

fn endpoint_place<P: Profile>(endpoint: u64) -> usize
    ensures { result ≡ endpoint / endpoint_size P.profile }
{
    (endpoint >> P::ENDPOINT_BITS) as usize
}

impl Tables {
    /// A thread's row.
    pub fn thread<P: Profile>(&self, thread: u64) -> QueueRow
        requires { HasRow (tcb_size P.profile) self.now.threads.items thread }
        ensures { result ≡ (links_of P.profile self.now).thread thread }
    {
        self.threads[thread_place::<P>(thread)]
    }

    /// An endpoint's row.
    pub fn endpoint<P: Profile>(&self, endpoint: u64) -> EndpointRow
        requires { HasRow (endpoint_size P.profile) self.now.endpoints.items endpoint }
        ensures { result ≡ (links_of P.profile self.now).endpoint endpoint }
    {
        self.endpoints[endpoint_place::<P>(endpoint)]
    }

    fn set_next<P: Profile>(&mut self, thread: u64, next: Option<u64>)
        requires { HasRow (tcb_size P.profile) self.old.threads.items thread }
        ensures links { links_of P.profile self.new ≡ set_row thread (with_next next) (links_of P.profile self.old) }
        ensures threads { length self.new.threads.items ≡ length self.old.threads.items }
        ensures endpoints { length self.new.endpoints.items ≡ length self.old.endpoints.items }
    {
        let row = &mut self.threads[thread_place::<P>(thread)];
        row.next = next;
    }

    fn set_previous<P: Profile>(&mut self, thread: u64, previous: Option<u64>)
        requires { HasRow (tcb_size P.profile) self.old.threads.items thread }
        ensures links { links_of P.profile self.new ≡ set_row thread (with_previous previous) (links_of P.profile self.old) }
        ensures threads { length self.new.threads.items ≡ length self.old.threads.items }
        ensures endpoints { length self.new.endpoints.items ≡ length self.old.endpoints.items }
    {
        let row = &mut self.threads[thread_place::<P>(thread)];
        row.previous = previous;
    }

    fn set_role<P: Profile>(&mut self, thread: u64, role: Option<Role>)
        requires { HasRow (tcb_size P.profile) self.old.threads.items thread }
        ensures links { links_of P.profile self.new ≡ set_row thread (with_role role) (links_of P.profile self.old) }
        ensures threads { length self.new.threads.items ≡ length self.old.threads.items }
        ensures endpoints { length self.new.endpoints.items ≡ length self.old.endpoints.items }
    {
        let row = &mut self.threads[thread_place::<P>(thread)];
        row.role = role;
    }

    fn set_thread<P: Profile>(&mut self, thread: u64, row: QueueRow)
        requires { HasRow (tcb_size P.profile) self.old.threads.items thread }
        ensures links { links_of P.profile self.new ≡ set_row thread (λ _. row) (links_of P.profile self.old) }
        ensures threads { length self.new.threads.items ≡ length self.old.threads.items }
        ensures endpoints { length self.new.endpoints.items ≡ length self.old.endpoints.items }
    {
        self.threads[thread_place::<P>(thread)] = row;
    }

    fn set_first<P: Profile>(&mut self, endpoint: u64, first: Option<u64>)
        requires { HasRow (endpoint_size P.profile) self.old.endpoints.items endpoint }
        ensures links { links_of P.profile self.new ≡ led endpoint None first (links_of P.profile self.old) }
        ensures threads { length self.new.threads.items ≡ length self.old.threads.items }
        ensures endpoints { length self.new.endpoints.items ≡ length self.old.endpoints.items }
    {
        let row = &mut self.endpoints[endpoint_place::<P>(endpoint)];
        row.first = first;
    }

    fn set_last<P: Profile>(&mut self, endpoint: u64, last: Option<u64>)
        requires { HasRow (endpoint_size P.profile) self.old.endpoints.items endpoint }
        ensures links { links_of P.profile self.new ≡ led_back endpoint None last (links_of P.profile self.old) }
        ensures threads { length self.new.threads.items ≡ length self.old.threads.items }
        ensures endpoints { length self.new.endpoints.items ≡ length self.old.endpoints.items }
    {
        let row = &mut self.endpoints[endpoint_place::<P>(endpoint)];
        row.last = last;
    }

    /// What comes after a thread, or first on an endpoint.
    fn lead<P: Profile>(&mut self, endpoint: u64, previous: Option<u64>, next: Option<u64>)
        requires endpoint { HasRow (endpoint_size P.profile) self.old.endpoints.items endpoint }
        requires previous { IfSome previous (HasRow (tcb_size P.profile) self.old.threads.items) }
        ensures links { links_of P.profile self.new ≡ led endpoint previous next (links_of P.profile self.old) }
        ensures threads { length self.new.threads.items ≡ length self.old.threads.items }
        ensures endpoints { length self.new.endpoints.items ≡ length self.old.endpoints.items }
    {
        match previous {
            Some(thread) => self.set_next::<P>(thread, next),
            None => self.set_first::<P>(endpoint, next),
        }
    }

    /// What comes before a thread, or last on an endpoint.
    fn lead_back<P: Profile>(&mut self, endpoint: u64, next: Option<u64>, previous: Option<u64>)
        requires endpoint { HasRow (endpoint_size P.profile) self.old.endpoints.items endpoint }
        requires next { IfSome next (HasRow (tcb_size P.profile) self.old.threads.items) }
        ensures links { links_of P.profile self.new ≡ led_back endpoint next previous (links_of P.profile self.old) }
        ensures threads { length self.new.threads.items ≡ length self.old.threads.items }
        ensures endpoints { length self.new.endpoints.items ≡ length self.old.endpoints.items }
    {
        match next {
            Some(thread) => self.set_previous::<P>(thread, previous),
            None => self.set_last::<P>(endpoint, previous),
        }
    }

    /// A thread waits no more; nothing changes where it waits nowhere.
    pub fn take_out<P: Profile>(&mut self, thread: u64)
        requires row { HasRow (tcb_size P.profile) self.old.threads.items thread }
        requires linked { IsLinked P.profile self.old }
        ensures linked { IsLinked P.profile self.new }
        ensures waits { waits_in P.profile self.new ≡ after_cancel_thread thread (waits_in P.profile self.old) }
        ensures orders { orders_in P.profile self.new ≡ (λ e. removed thread (orders_in P.profile self.old e)) }
        ensures others { (t : ℕ) → t ≢ thread → waiter_of ((links_of P.profile self.new).thread t) t ≡ waiter_of ((links_of P.profile self.old).thread t) t }
        ensures threads { length self.new.threads.items ≡ length self.old.threads.items }
        ensures endpoints { length self.new.endpoints.items ≡ length self.old.endpoints.items }
    {
        let row = self.thread::<P>(thread);
        if let Some(role) = row.role {
            let endpoint = role.endpoint();
            self.lead::<P>(endpoint, row.previous, row.next);
            self.lead_back::<P>(endpoint, row.next, row.previous);
            self.set_role::<P>(thread, None);
        }
    }

    /// A thread that waits nowhere waits, after all others of an endpoint.
    pub fn wait_last<P: Profile>(&mut self, endpoint: u64, thread: u64, row: QueueRow)
        requires endpoint { HasRow (endpoint_size P.profile) self.old.endpoints.items endpoint }
        requires thread { HasRow (tcb_size P.profile) self.old.threads.items thread }
        requires linked { IsLinked P.profile self.old }
        requires free { ((links_of P.profile self.old).thread thread).role ≡ None }
        requires role { option_map endpoint_of row.role ≡ Some endpoint }
        ensures linked { IsLinked P.profile self.new }
        ensures waits { (r : Role) → row.role ≡ Some r → waits_in P.profile self.new ≡ queued endpoint thread r (waiter_of row thread) (waits_in P.profile self.old) }
        ensures threads { length self.new.threads.items ≡ length self.old.threads.items }
        ensures endpoints { length self.new.endpoints.items ≡ length self.old.endpoints.items }
    {
        let last = self.endpoint::<P>(endpoint).last;
        self.set_thread::<P>(
            thread,
            QueueRow {
                previous: last,
                next: None,
                ..row
            },
        );
        self.lead::<P>(endpoint, last, Some(thread));
        self.lead_back::<P>(endpoint, None, Some(thread));
    }

    /// The receiver that waits first on an endpoint, if it is one that waits first.
    pub fn first_receiver<P: Profile>(&self, endpoint: u64) -> Option<u64>
        requires endpoint { HasRow (endpoint_size P.profile) self.now.endpoints.items endpoint }
        requires linked { IsLinked P.profile self.now }
        ensures { result ≡ receiver_first ((waits_in P.profile self.now).queue endpoint) }
    {
        let first = self.endpoint::<P>(endpoint).first?;
        self.thread::<P>(first).receiver(first)
    }

    /// The sender that waits first on an endpoint, if it is one that waits first.
    pub fn first_sender<P: Profile>(&self, endpoint: u64) -> Option<Offer>
        requires endpoint { HasRow (endpoint_size P.profile) self.now.endpoints.items endpoint }
        requires linked { IsLinked P.profile self.now }
        ensures { result ≡ sender_first ((waits_in P.profile self.now).queue endpoint) }
    {
        let first = self.endpoint::<P>(endpoint).first?;
        self.thread::<P>(first).offer(first)
    }

    /// The thread that waits at a place of an endpoint's queue, 0 the first.
    pub fn waiting_at<P: Profile>(&self, endpoint: u64, place: u64) -> Option<u64>
        requires endpoint { HasRow (endpoint_size P.profile) self.now.endpoints.items endpoint }
        requires linked { IsLinked P.profile self.now }
        ensures { result ≡ slice_get (orders_in P.profile self.now endpoint) place }
    {
        let mut here = self.endpoint::<P>(endpoint).first;
        for _ in 0..place {
            let thread = here?;
            here = self.thread::<P>(thread).next;
        }
        here
    }

    /// The thread that comes next in the queue of a thread.
    pub fn next_waiting<P: Profile>(&self, thread: u64) -> Option<u64>
        requires row { HasRow (tcb_size P.profile) self.now.threads.items thread }
        requires linked { IsLinked P.profile self.now }
        ensures behind { IsNextBehind (waits_in P.profile self.now) thread result }
        ensures nowhere { (waits_in P.profile self.now).role thread ≡ None → result ≡ None }
    {
        let row = self.thread::<P>(thread);
        match row.role {
            Some(_) => row.next,
            None => None,
        }
    }

    /// The senders with a badge wait no more on an endpoint; the others keep their order.
    pub fn cancel_badge<P: Profile>(&mut self, endpoint: u64, badge: Badge)
        requires endpoint { HasRow (endpoint_size P.profile) self.old.endpoints.items endpoint }
        requires linked { IsLinked P.profile self.old }
        ensures linked { IsLinked P.profile self.new }
        ensures waits { waits_in P.profile self.new ≡ after_cancel_badge endpoint badge (waits_in P.profile self.old) }
        ensures threads { length self.new.threads.items ≡ length self.old.threads.items }
        ensures endpoints { length self.new.endpoints.items ≡ length self.old.endpoints.items }
    {
        let mut here = self.endpoint::<P>(endpoint).first;
        while let Some(thread) = here {
            let row = self.thread::<P>(thread);
            here = row.next;
            if row.sends_with(badge) {
                self.take_out::<P>(thread);
            }
        }
    }

    /// Nobody waits on an endpoint any more.
    pub fn cancel_endpoint<P: Profile>(&mut self, endpoint: u64)
        requires endpoint { HasRow (endpoint_size P.profile) self.old.endpoints.items endpoint }
        requires linked { IsLinked P.profile self.old }
        ensures linked { IsLinked P.profile self.new }
        ensures waits { waits_in P.profile self.new ≡ after_cancel_endpoint endpoint (waits_in P.profile self.old) }
        ensures threads { length self.new.threads.items ≡ length self.old.threads.items }
        ensures endpoints { length self.new.endpoints.items ≡ length self.old.endpoints.items }
    {
        while let Some(thread) = self.endpoint::<P>(endpoint).first {
            self.take_out::<P>(thread);
        }
    }
}
