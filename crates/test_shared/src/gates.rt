//! Gates that let a client's call through when other clients have come so far.
use kernel_shared::Gate;
use std::sync::atomic::{AtomicBool, Ordering};
use std::thread;

/// The most turns of a wait.
pub const TURNS: u32 = 100_000_000;

/// It is always open.
pub struct Open;

impl Gate for Open {
    fn before(&self, _client: u32, _number: u32) -> bool {
        true
    }

    fn after(&self, _client: u32, _number: u32) {}
}

/// A client raises its flag for the number of its call and waits for those of all clients, at most eight, with two
/// calls each. If client 1 goes first, client 0 then waits until client 1's call is answered.
#[derive(Drop)]
pub struct Meeting {
    clients: usize,
    second_first: bool,
    raised: [AtomicBool; 16],
    answered: AtomicBool,
}

fn lowered() -> AtomicBool {
    AtomicBool::new(false)
}

/// Whether a flag comes up in time.
fn comes(flag: &AtomicBool) -> bool {
    for _ in 0..TURNS {
        if flag.load(Ordering::SeqCst) {
            return true;
        }
        thread::yield_now();
    }
    false
}

impl Meeting {
    pub fn of(clients: usize, second_first: bool) -> Meeting {
        let row = || {
            [
                lowered(),
                lowered(),
                lowered(),
                lowered(),
                lowered(),
                lowered(),
                lowered(),
                lowered(),
            ]
        };
        let [a, b, c, d, e, f, g, h] = row();
        let [i, j, k, l, m, n, o, p] = row();
        Meeting {
            clients,
            second_first,
            raised: [a, b, c, d, e, f, g, h, i, j, k, l, m, n, o, p],
            answered: lowered(),
        }
    }
}

impl Gate for Meeting {
    fn before(&self, client: u32, number: u32) -> bool {
        let row = 8 * (number as usize % 2);
        self.raised[row + client as usize % 8].store(true, Ordering::SeqCst);
        for other in 0..8 {
            if other < self.clients && !comes(&self.raised[row + other]) {
                return false;
            }
        }
        !self.second_first || client != 0 || comes(&self.answered)
    }

    fn after(&self, client: u32, _number: u32) {
        if client == 1 {
            self.answered.store(true, Ordering::SeqCst);
        }
    }
}
