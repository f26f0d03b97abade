//! A gate that lets every call through.
use kernel_shared::Gate;
use std::sync::atomic::{AtomicU64, Ordering};
use std::thread;

/// How often a client gives up its turn before its first call, at most.
const TURNS: u32 = 10_000;

/// A gate that is always open. Before its first call a client gives up its turn until all clients have come to theirs, but
/// not for ever; and after each call it gives up its turn once. So the calls of different clients come between one
/// another also if each client makes only a few.
#[derive(Drop)]
pub struct OpenGate {
    clients: u64,
    come: AtomicU64,
}

impl OpenGate {
    /// A gate for so many clients.
    pub fn among(clients: u32) -> OpenGate {
        OpenGate {
            clients: u64::from(clients),
            come: AtomicU64::new(0),
        }
    }

    /// Waits for the other clients, at most `TURNS` turns: a client whose list is empty never comes.
    fn meet(&self) {
        self.come.fetch_add(1, Ordering::SeqCst);
        for _ in 0..TURNS {
            if self.come.load(Ordering::SeqCst) >= self.clients {
                return;
            }
            thread::yield_now();
        }
    }
}

impl Gate for OpenGate {
    ghost ends = { λ _ _. ⊥ };

    fn before(&self, _client: u32, number: u32) -> bool {
        if number == 0 {
            self.meet();
        }
        true
    }

    fn after(&self, _client: u32, _number: u32) {
        thread::yield_now();
    }
}
