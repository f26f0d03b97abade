//! Virtual machines, and the lines that are made of them.
use crate::making::{Domain, FAULT};
use setup_layout::{Lines, Spot};
use std::alloc::{AllocError, Global};

/// The first slots of a domain's CNode for the threads and for the processors of virtual machines.
const MACHINE_THREADS: u32 = 266;

const PROCESSORS: u32 = 330;

/// The first slot of a machine's CNode for what its threads tell their faults.
const FAULTS: u32 = 1;

/// A virtual machine, of which a domain is told the faults.
#[derive(Drop)]
pub struct Machine<'a> {
    pub name: &'a str,
    pub spot: Spot,
    /// The domain, by its place among them.
    pub domain: usize,
    /// The numbers of its processors, and where they stand.
    pub processors: Vec<(u32, Spot)>,
    /// The memory regions that it sees.
    pub maps: Lines,
}

impl<'a> Machine<'a> {
    /// A machine that sees nothing yet.
    pub fn new(alloc: Global, name: &'a str, spot: Spot, domain: usize) -> Machine<'a> {
        Machine {
            name,
            spot,
            domain,
            processors: Vec::new(alloc),
            maps: Lines::new(alloc),
        }
    }
}

/// The name of the thread of a processor: the first one's has no number.
fn thread_of(alloc: Global, name: &str, id: u32, is_first: bool) -> Result<String, AllocError> {
    if is_first {
        format!(in alloc; "{name}_tcb")
    } else {
        format!(in alloc; "{name}_tcb_{id}")
    }
}

impl<'a> Domain<'a> {
    /// Has it control a virtual machine: it holds the threads and the processors, and is told their faults.
    pub fn add_machine(&mut self, alloc: Global, machine: &Machine<'_>) -> Result<(), AllocError> {
        let (name, spot) = (machine.name, machine.spot);
        self.is_server = true;
        self.has_high_slots = true;
        self.objects.put(
            spot,
            format_args!("{name}_cnode = cnode (6 bits)\n{name}_vspace = pt"),
        )?;
        self.others.put(spot, format_args!("{name}_cnode {{"))?;
        for (id, at) in machine.processors.as_slice() {
            let (slot, badge, above) = (
                FAULTS.saturating_add(*id),
                FAULT | u64::from(*id),
                self.name,
            );
            let rights = self.rights.call;
            let words = format_args!("{slot}: {above}_ep ({rights}, badge: {badge})");
            self.others.put(*at, words)?;
        }
        self.others.put(spot, "}")?;
        for (rank, (id, at)) in machine.processors.as_slice().iter().enumerate() {
            let thread = thread_of(alloc, name, *id, rank == 0)?;
            self.add_processor(name, thread.as_str(), *id, *at)?;
        }
        self.others.put(spot, format_args!("{name}_vspace {{"))?;
        self.others.append(&machine.maps)?;
        self.others.put(spot, "}")
    }

    /// Has it control a processor of a virtual machine, and the thread that runs on it.
    fn add_processor(
        &mut self,
        name: &str,
        thread: &str,
        id: u32,
        spot: Spot,
    ) -> Result<(), AllocError> {
        let objects = format_args!("{thread} = tcb\n{name}_vcpu_{id} = vcpu");
        self.objects.put(spot, objects)?;
        let (first, second) = (
            MACHINE_THREADS.saturating_add(id),
            PROCESSORS.saturating_add(id),
        );
        let slots = format_args!("{first}: {thread}\n{second}: {name}_vcpu_{id}");
        self.more_slots.put(spot, slots)?;
        let words = format_args!(
            "{thread} {{\ncspace: {name}_cnode (guard: 0, guard_size: 58)\nvspace: {name}_vspace\nvcpu: {name}_vcpu_{id}\n}}"
        );
        self.others.put(spot, words)
    }
}
