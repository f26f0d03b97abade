//! What the words of the form mean, as far as they are known: each list has an entry for each kind of object.

/// The kinds of object, in small letters and without `_`. A capability of an interrupt has `handler` behind its kind.
#[rattlefmt::skip]
pub const WORDS: [&str; 18] = [
    "untyped", "endpoint", "notification", "cnode", "tcb", "irq", "vcpu", "frame", "pagetable", "asidpool", "armirq", "irqmsi",
    "irqioapic", "riscvirq", "ioports", "schedcontext", "reply", "armsmc",
];

/// The place of untyped regions among the kinds.
pub const UNTYPED: usize = 0;

/// What they are called in capDL text.
#[rattlefmt::skip]
pub const TEXTS: [&str; 18] = [
    "ut", "ep", "notification", "cnode", "tcb", "irq", "vcpu", "frame", "pt", "asid_pool", "arm_irq", "msi_irq",
    "ioapic_irq", "riscv_irq", "io_ports", "sc", "reply", "arm_smc",
];

/// What may be said of an object.
#[rattlefmt::skip]
pub const FIELDS: [&str; 18] = [
    "size_bits paddr", "", "", "size_bits slots", "slots extra", "slots", "", "size_bits paddr init", "is_root level slots", "high",
    "slots extra", "slots extra", "slots extra", "slots extra", "start_port end_port", "size_bits extra", "", "",
];

/// What may be said in its `extra`: but for `resume` this says nothing of capabilities.
#[rattlefmt::skip]
pub const EXTRAS: [&str; 18] = [
    "", "", "", "", "ipc_buffer_addr affinity prio max_prio resume ip sp gprs master_fault_ep", "", "", "", "", "",
    "trigger target", "handle pci_bus pci_dev pci_func", "ioapic pin level polarity", "trigger", "", "period budget badge", "", "",
];

/// What may be said of a capability.
#[rattlefmt::skip]
pub const CAP_FIELDS: [&str; 18] = [
    "object", "object badge rights", "object badge rights", "object guard guard_size", "object", "object", "object",
    "object rights cached executable", "object", "object", "object", "object", "object", "object", "object", "object", "object", "object",
];

/// The parts of a text in the form. The last two say nothing that others do not: what no region covers, and which pool a kernel takes.
pub const PARTS: &str = "objects irqs untyped_covers root_objects asid_slots";

/// The rights of a capability, and their letters in capDL text.
pub const RIGHTS: [(&str, &str); 4] = [
    ("read", "R"),
    ("write", "W"),
    ("grant", "G"),
    ("grant_reply", "P"),
];
