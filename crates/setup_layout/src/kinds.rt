//! What the words of a layout mean.
use cap_core::Kind;

/// The kinds of object: first those that a kernel has, in the order of `KINDS`, and then others, which a set-up leaves out.
#[rattlefmt::skip]
pub const KIND_WORDS: [&str; 43] = [
    "cnode", "tcb", "ep", "ut",
    "notification", "aep", "frame", "rtreply", "reply", "sc", "sched_context", "io_ports", "vcpu", "sid", "cb", "arm_sid",
    "arm_cb", "arm_smc", "domain", "pt", "pd", "pdpt", "pml4", "pud", "pgd", "page_table", "irq", "arm_irq", "ioapic_irq",
    "msi_irq", "riscv_irq", "asid_pool", "io_pt", "io_device", "arm_io_device", "irq_cnode", "sgi_signal", "arm_sgi",
    "irq_slot", "vspace", "large_page", "small_page", "io_space",
];

/// The kinds of object that a kernel has.
pub const KINDS: [Kind; 4] = [Kind::CNode, Kind::Tcb, Kind::Endpoint, Kind::Untyped];

/// The kinds of object whose capabilities have rights, and those of which one is an interrupt.
pub const RIGHTS_WORDS: [&str; 6] = [
    "ep",
    "notification",
    "aep",
    "frame",
    "large_page",
    "small_page",
];

#[rattlefmt::skip]
pub const INTERRUPT_WORDS: [&str; 6] = ["irq", "arm_irq", "ioapic_irq", "msi_irq", "riscv_irq", "irq_slot"];

/// The kinds of object of which a parameter may say where in the hardware one stands, and the parameters that do not.
#[rattlefmt::skip]
pub const HARDWARE_WORDS: [&str; 7] = ["frame", "large_page", "small_page", "ut", "io_ports", "sgi_signal", "arm_sgi"];

#[rattlefmt::skip]
pub const SAY_NO_PLACE: [&str; 4] = ["fill", "cached", "uncached", "target"];

/// The objects that a layout need not declare, and that a set-up leaves out.
#[rattlefmt::skip]
pub const BUILT_IN: [&str; 7] = [
    "irq_control", "asid_control", "sched_control", "domain", "io_space_master", "io_port_control", "smc",
];

/// The slots of a thread. A set-up leaves out all but the first, in which the thread's space begins.
#[rattlefmt::skip]
pub const SLOT_WORDS: [&str; 10] = [
    "cspace", "vspace", "reply_slot", "caller_slot", "ipc_buffer_slot", "fault_ep_slot", "sc_slot", "temp_fault_ep_slot",
    "bound_notification", "vcpu",
];

/// The machines: first those whose words have 32 bits.
pub const ARCHES: [&str; 9] = [
    "arm11", "arm", "aarch32", "ia32", "riscv32", "x86_64", "aarch64", "riscv", "riscv64",
];

/// How many of the machines, the first ones, have words of 32 bits.
pub const NARROW_ARCHES: usize = 5;

/// The place of a word in a list, where it is there.
pub fn place_of(words: &[&str], word: &str) -> Option<usize> {
    for (place, known) in words.iter().enumerate() {
        if *known == word {
            return Some(place);
        }
    }
    None
}

/// What a kind of object is called in a layout.
pub fn kind_word(kind: Kind) -> &'static str {
    match kind {
        Kind::CNode => "cnode",
        Kind::Tcb => "tcb",
        Kind::Endpoint => "ep",
        Kind::Untyped => "ut",
    }
}
