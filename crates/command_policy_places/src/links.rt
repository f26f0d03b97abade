//! Why threads are one part: what capabilities make them one, as few as do. No clause says which these are.
use cap_core::{Cap, Profile};
use command_parts::PartSlot;
use setup_report::Object;
use std::alloc::{AllocError, Global};
use std::collections::BTreeSet;

/// A capability that makes two threads one: `thread` reaches the slot that holds it, and `other` reaches memory of the object that it
/// names.
#[derive(Clone, Copy)]
pub struct Link {
    pub thread: u64,
    pub other: u64,
    pub object: Object,
    pub slot: u64,
}

impl Link {
    /// Whether it is to the control block of the other thread.
    pub fn is_hold(&self) -> bool {
        match self.object {
            Object::Thread(base) => base == self.other,
            _ => false,
        }
    }
}

/// Memory that a thread reaches, from its first address to its last.
#[derive(Clone, Copy, PartialEq, Eq, PartialOrd, Ord)]
struct Reached {
    first: u64,
    last: u64,
    thread: u64,
}

/// A thread, and the first of those that it is one with.
#[derive(Clone, Copy)]
struct Member {
    thread: u64,
    first: u64,
}

/// Which threads are one.
#[derive(Drop)]
pub struct United(Vec<Member>);

impl United {
    /// Threads each of which is by itself.
    pub fn new(alloc: Global, threads: &[u64]) -> Result<United, AllocError> {
        let mut members = Vec::new(alloc);
        for thread in threads {
            members.push(Member {
                thread: *thread,
                first: *thread,
            })?;
        }
        Ok(United(members))
    }

    fn first_of(&self, thread: u64) -> u64 {
        for member in self.0.as_slice() {
            if member.thread == thread {
                return member.first;
            }
        }
        thread
    }

    /// Makes two threads one, with all that they are one with. Whether they were not.
    pub fn unite(&mut self, thread: u64, other: u64) -> bool {
        let (first, second) = (self.first_of(thread), self.first_of(other));
        for member in self.0.iter_mut() {
            if member.first == second {
                member.first = first;
            }
        }
        first != second
    }
}

/// The object that a capability names, with the last address of its memory; none of an endpoint, by which two threads are not one.
fn object_of<P: Profile>(cap: Cap) -> Option<(Object, u64)> {
    let (object, bits) = match cap {
        Cap::Untyped { base, bits, .. } => (Object::Region(base, u64::from(bits)), bits),
        Cap::CNode { base, radix, .. } => (Object::CNode(base), radix.wrapping_add(P::SLOT_BITS)),
        Cap::Tcb { base } => (Object::Thread(base), P::TCB_BITS),
        _ => return None,
    };
    let more = 1u64.checked_shl(bits).unwrap_or(0).wrapping_sub(1);
    Some((object, object.base().saturating_add(more)))
}

/// What is found so far of what threads reach.
#[derive(Drop)]
struct Search<'a> {
    alloc: Global,
    /// In the order of addresses.
    slots: &'a [PartSlot],
    united: United,
    /// By addresses.
    memory: BTreeSet<Reached>,
    /// In the order in which it was reached.
    steps: Vec<Reached>,
    links: Vec<Link>,
}

impl Search<'_> {
    fn reach(&mut self, first: u64, last: u64, thread: u64) -> Result<(), AllocError> {
        let reached = Reached {
            first,
            last,
            thread,
        };
        self.memory.insert(reached)?;
        self.steps.push(reached)?;
        Ok(())
    }

    /// The threads that reach some of these addresses.
    fn threads_at(&self, first: u64, last: u64) -> Result<Vec<u64>, AllocError> {
        let mut threads = Vec::new(self.alloc);
        for reached in &self.memory {
            if reached.first <= last && first <= reached.last {
                threads.push(reached.thread)?;
            }
        }
        Ok(threads)
    }

    /// Whether all of these addresses are reached.
    fn has_all(&self, first: u64, last: u64) -> bool {
        let mut next = first;
        for reached in &self.memory {
            if reached.first <= next && next <= reached.last {
                if last <= reached.last {
                    return true;
                }
                next = reached.last.saturating_add(1);
            }
        }
        false
    }

    /// Looks at what a slot holds that a thread reaches.
    fn look_at<P: Profile>(&mut self, thread: u64, held: &PartSlot) -> Result<(), AllocError> {
        let Some((object, last)) = object_of::<P>(held.cap) else {
            return Ok(());
        };
        let others = self.threads_at(object.base(), last)?;
        for other in others.as_slice() {
            if self.united.unite(thread, *other) {
                self.links.push(Link {
                    thread,
                    other: *other,
                    object,
                    slot: held.slot,
                })?;
            }
        }
        if self.has_all(object.base(), last) {
            return Ok(());
        }
        self.reach(object.base(), last, thread)
    }

    /// Looks at the slots in memory that a thread reaches.
    fn follow<P: Profile>(&mut self, reached: Reached) -> Result<(), AllocError> {
        for held in self.slots {
            if reached.first <= held.slot && held.slot <= reached.last {
                self.look_at::<P>(reached.thread, held)?;
            }
        }
        Ok(())
    }
}

/// What makes threads one, as few as do, in the order in which the capabilities are reached from their control blocks; and which threads
/// are one by it. The full slots are in the order of their addresses.
pub fn links_of<P: Profile>(
    alloc: Global,
    slots: &[PartSlot],
    threads: &[u64],
) -> Result<(Vec<Link>, United), AllocError> {
    let mut search = Search {
        alloc,
        slots,
        united: United::new(alloc, threads)?,
        memory: BTreeSet::new(alloc),
        steps: Vec::new(alloc),
        links: Vec::new(alloc),
    };
    let more = 1u64.checked_shl(P::TCB_BITS).unwrap_or(0).wrapping_sub(1);
    for thread in threads {
        search.reach(*thread, thread.saturating_add(more), *thread)?;
    }
    // Memory is added if not all of it was reached before, so of each object once.
    for step in 0..threads.len().saturating_add(slots.len()) {
        let Some(reached) = search.steps.get(step).copied() else {
            break;
        };
        if search.links.len() < threads.len().saturating_sub(1) {
            search.follow::<P>(reached)?;
        }
    }
    let Search { links, united, .. } = search;
    Ok((links, united))
}
