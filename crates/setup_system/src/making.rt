//! The capDL text of a system. The places of slots are those that Microkit's tool gives them, as far as its description says so.
use setup_layout::{Lines, Spot};
use std::alloc::{AllocError, Global};

/// The first slots of a domain's CNode for what it may notify, for what it may call, for interrupts, and for the threads of the domains
/// in it. The monitor's CNode has the threads of all domains, from the first of these numbers on.
const NOTIFIED: u32 = 10;

const CALLED: u32 = 74;

const INTERRUPTS: u32 = 138;

const THREADS: u32 = 202;

/// The first slot of a domain's CNode for ports.
const PORTS: u32 = 394;

/// What is set in the badges of calls, and of faults of domains in others.
const CALL: u64 = 1 << 63;

pub const FAULT: u64 = 1 << 62;

/// The bits of a CNode.
pub const LARGE_BITS: u32 = 9;

const SMALL_BITS: u32 = 8;

/// The most domains of which each has a CNode of the larger size.
const MOST_LARGE: usize = 56;

/// An end of a channel.
#[derive(Clone, Copy)]
pub struct End {
    /// The domain, by its place among them, and by which number it knows the channel.
    pub domain: usize,
    pub id: u32,
    pub does_notify: bool,
    pub does_call: bool,
    pub spot: Spot,
}

/// The rights that capabilities have, of which a file says nothing.
#[derive(Clone, Copy)]
pub struct Assumed {
    pub notify: &'static str,
    pub call: &'static str,
    pub hear: &'static str,
}

impl Assumed {
    /// All rights, or the least.
    pub fn new(all: bool) -> Assumed {
        if all {
            Assumed {
                notify: "RWGP",
                call: "RWGP",
                hear: "RWGP",
            }
        } else {
            Assumed {
                notify: "W",
                call: "WP",
                hear: "R",
            }
        }
    }
}

/// A protection domain, and the lines that are made of it.
#[derive(Drop)]
pub struct Domain<'a> {
    pub name: &'a str,
    pub spot: Spot,
    pub rights: Assumed,
    /// Whether others call it, or fail under it.
    pub is_server: bool,
    /// Its interrupts, ports and virtual machines: the objects, and what is in slots of these.
    pub objects: Lines,
    pub others: Lines,
    /// The slots of its CNode: the first ones, and those of the threads of domains in it, of virtual machines and of channels.
    slots: Lines,
    pub more_slots: Lines,
    /// Whether a slot of its CNode has a number of more than 8 bits.
    pub has_high_slots: bool,
    /// The memory regions that it sees.
    pub maps: Lines,
}

/// The badge of a notification by a number.
fn bit(id: u32) -> u64 {
    1u64.checked_shl(id).unwrap_or(0)
}

impl<'a> Domain<'a> {
    /// A domain by itself.
    pub fn new(
        alloc: Global,
        name: &'a str,
        spot: Spot,
        is_server: bool,
        rights: Assumed,
    ) -> Domain<'a> {
        Domain {
            name,
            spot,
            rights,
            is_server,
            has_high_slots: false,
            objects: Lines::new(alloc),
            others: Lines::new(alloc),
            slots: Lines::new(alloc),
            more_slots: Lines::new(alloc),
            maps: Lines::new(alloc),
        }
    }

    /// Has the monitor hear of its faults; the domain is the one of this number.
    pub fn add_to_monitor(&mut self, number: usize) -> Result<(), AllocError> {
        let (badge, rights) = (number.saturating_add(1), self.rights.call);
        let slot = format_args!("2: monitor_ep ({rights}, badge: {badge})");
        self.slots.put(self.spot, slot)
    }

    /// Has a domain that stands in it tell it its faults.
    pub fn add_inner(&mut self, inner: &mut Domain<'_>, id: u32) -> Result<(), AllocError> {
        let (above, below, spot) = (self.name, inner.name, inner.spot);
        let (badge, slot) = (FAULT | u64::from(id), THREADS.saturating_add(id));
        let rights = self.rights.call;
        self.is_server = true;
        self.has_high_slots |= slot >> SMALL_BITS > 0;
        self.more_slots
            .put(spot, format_args!("{slot}: {below}_tcb"))?;
        inner.slots.put(
            spot,
            format_args!("2: {above}_ep ({rights}, badge: {badge})"),
        )
    }

    /// Has it hear an interrupt, which is an object of this name and kind.
    pub fn add_interrupt(
        &mut self,
        interrupt: &str,
        kind: &str,
        id: u32,
        spot: Spot,
    ) -> Result<(), AllocError> {
        let (name, slot, badge) = (self.name, INTERRUPTS.saturating_add(id), bit(id));
        self.objects
            .put(spot, format_args!("{interrupt} = {kind}"))?;
        self.slots.put(spot, format_args!("{slot}: {interrupt}"))?;
        self.others.put(
            spot,
            format_args!("{interrupt} {{\n0: {name}_ntfn (badge: {badge})\n}}"),
        )
    }

    /// Has it read and write ports, of which these are the first and the last.
    pub fn add_ports(
        &mut self,
        first: u64,
        last: u64,
        id: u32,
        spot: Spot,
    ) -> Result<(), AllocError> {
        let (name, slot) = (self.name, PORTS.saturating_add(id));
        self.has_high_slots = true;
        self.objects.put(
            spot,
            format_args!("{name}_ports_{id} = io_ports (ports: [{first}-{last}])"),
        )?;
        self.slots
            .put(spot, format_args!("{slot}: {name}_ports_{id}"))
    }

    /// Adds what an end of a channel may do to the other one, which is a domain's of this name.
    pub fn add_channel(&mut self, here: End, there: End, name: &str) -> Result<(), AllocError> {
        if here.does_notify {
            let (slot, badge) = (NOTIFIED.saturating_add(here.id), bit(there.id));
            let rights = self.rights.notify;
            let words = format_args!("{slot}: {name}_ntfn ({rights}, badge: {badge})");
            self.more_slots.put(here.spot, words)?;
        }
        if here.does_call {
            let (slot, badge) = (CALLED.saturating_add(here.id), CALL | u64::from(there.id));
            let rights = self.rights.call;
            let words = format_args!("{slot}: {name}_ep ({rights}, badge: {badge})");
            self.more_slots.put(here.spot, words)?;
        }
        Ok(())
    }

    /// Adds the objects.
    fn add_objects(&self, objects: &mut Lines, bits: u32) -> Result<(), AllocError> {
        let (name, spot) = (self.name, self.spot);
        let words = format_args!(
            "{name}_tcb = tcb\n{name}_cnode = cnode ({bits} bits)\n{name}_ntfn = notification\n{name}_vspace = pt"
        );
        objects.put(spot, words)?;
        if self.is_server {
            objects.put(spot, format_args!("{name}_ep = ep"))?;
        }
        objects.append(&self.objects)
    }

    /// Adds the slots.
    fn add_slots(&self, slots: &mut Lines, bits: u32) -> Result<(), AllocError> {
        let (name, spot) = (self.name, self.spot);
        let heard = if self.is_server { "ep" } else { "ntfn" };
        let rights = self.rights.hear;
        let words = format_args!("{name}_cnode {{\n1: {name}_{heard} ({rights})\n3: {name}_vspace");
        slots.put(spot, words)?;
        slots.append(&self.slots)?;
        slots.append(&self.more_slots)?;
        let size = 64u32.saturating_sub(bits);
        let words = format_args!(
            "}}\n{name}_tcb {{\ncspace: {name}_cnode (guard: 0, guard_size: {size})\nvspace: {name}_vspace\nbound_notification: {name}_ntfn ({rights})\n}}"
        );
        slots.put(spot, words)?;
        slots.put(spot, format_args!("{name}_vspace {{"))?;
        slots.append(&self.maps)?;
        slots.put(spot, "}")?;
        slots.append(&self.others)
    }
}

/// The bits of the domains' CNodes: fewer, where there are so many domains that they have no room else.
pub fn cnode_bits(domains: &[Domain<'_>]) -> u32 {
    let mut are_high = false;
    for domain in domains {
        are_high |= domain.has_high_slots;
    }
    if domains.len() > MOST_LARGE && !are_high {
        SMALL_BITS
    } else {
        LARGE_BITS
    }
}

/// The text of all domains and memory regions, and of the monitor, which holds all threads and hears faults.
pub fn text_of(
    alloc: Global,
    spot: Spot,
    regions: &Lines,
    domains: &[Domain<'_>],
    rights: Assumed,
    bits: u32,
) -> Result<Lines, AllocError> {
    let (mut text, mut slots, mut threads) = (
        Lines::new(alloc),
        Lines::new(alloc),
        Lines::new(alloc),
    );
    text.put(
        spot,
        "arch aarch64\nobjects {\nmonitor_ep = ep\nmonitor_cnode = cnode (7 bits)\nmonitor_tcb = tcb",
    )?;
    text.append(regions)?;
    for (number, domain) in domains.iter().enumerate() {
        let (name, slot) = (domain.name, number.saturating_add(NOTIFIED as usize));
        threads.put(domain.spot, format_args!("{slot}: {name}_tcb"))?;
        domain.add_objects(&mut text, bits)?;
        domain.add_slots(&mut slots, bits)?;
    }
    let hear = rights.hear;
    text.put(
        spot,
        format_args!("}}\ncaps {{\nmonitor_cnode {{\n1: monitor_ep ({hear})"),
    )?;
    text.append(&threads)?;
    text.put(
        spot,
        "}\nmonitor_tcb {\ncspace: monitor_cnode (guard: 0, guard_size: 57)\n}",
    )?;
    text.append(&slots)?;
    text.put(spot, "}")?;
    Ok(text)
}
