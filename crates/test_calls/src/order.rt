//! The run of a set-up's clients in an order that a gate makes.
use command_check::{ReaderSource, WriterSink, status_of};
use command_threads::threads_run;
use kernel_shared::Gate;
use std::alloc::Global;
use std::io::{self, Input};
use std::sync::Wait;
use std::sync::atomic::{AtomicU64, Ordering};
use std::thread::{self, Threads};

/// The most turns that a client gives up for the others.
const TURNS: u32 = 100_000_000;

/// A gate that makes the order: the call at a place is that of the client named there, and waits until those before it are
/// answered. Behind the last place it ends each client.
#[derive(Drop)]
pub struct Order {
    clients: Vec<u32>,
    answered: AtomicU64,
}

impl Gate for Order {
    fn before(&self, client: u32, _number: u32) -> bool {
        for _ in 0..TURNS {
            let place = self.answered.load(Ordering::SeqCst) as usize;
            match self.clients.get(place) {
                Some(next) if *next == client => return true,
                Some(_) => thread::yield_now(),
                None => return false,
            }
        }
        false
    }

    fn after(&self, _client: u32, _number: u32) {
        self.answered.fetch_add(1, Ordering::SeqCst);
    }
}

impl Order {
    /// The order that words tell, each with the number of a client.
    pub fn told(alloc: Global, words: &[String]) -> Option<Order> {
        let mut clients = Vec::new(alloc);
        for word in words {
            clients.push(word.as_str().parse::<u32>().ok()?).ok()?;
        }
        Some(Order {
            clients,
            answered: AtomicU64::new(0),
        })
    }

    /// Lets the clients of the set-up on standard input make their calls in this order, writes the report, and answers the exit
    /// status.
    pub fn run_input<R: Input + Print + AllocGlobal + Threads + Wait + Sync>(&self, rt: &R) -> u8 {
        let mut source = ReaderSource::new(rt.reader());
        let mut sink = WriterSink::new(io::writer(rt));
        status_of(&threads_run(rt, rt.alloc(), &mut source, &mut sink, self))
    }
}
