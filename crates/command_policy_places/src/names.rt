//! How the slots and the threads of a layout are told: by what its objects are called.
ghost use Rattle.std.specs.Prelude.{◌≡◌, ◌==◌, ◌<◌, option_copied};
ghost use Rattle.setup_report.specs.Naming.{lies_in_node as in_node, space_or_number, told_as};
ghost use Rattle.command_policy_places.specs.Places as spec;

use crate::known::SiteNames;
use crate::searches::lies_in;
use cap_core::Cap;
use command_parts::PartSlot;
use list_questions::{Asks, first};
use setup_policy::Label;
use setup_report::{Node, Told};

/// Whether a name is of the object at an address.
#[derive(Clone, Copy)]
struct NameAt(u64);

impl Asks<Label> for NameAt {
    ghost holds = { λ q label. label.base == q.0 };

    fn holds(&self, label: &Label) -> bool {
        label.base == self.0
    }
}

/// What the object at an address is called.
pub fn label_of(labels: &[Label], base: u64) -> Option<&str>
    ensures { option_copied result ≡ spec.label_of labels.entry.now base }
{
    match first(labels, &NameAt(base)) {
        None => None,
        Some(label) => Some(label.text.as_str()),
    }
}

/// Whether a slot lies in a CNode.
fn lies_in_node(slot_bits: u32, slot: u64, node: Node) -> bool
    requires { slot_bits < 64 }
    ensures { result ≡ in_node slot_bits slot node }
{
    slot >= node.base && lies_in(0, node.radix, (slot - node.base) >> slot_bits)
}

/// Whether a full slot has a capability to a CNode in which a slot lies.
#[derive(Clone, Copy)]
struct Around {
    slot: u64,
    slot_bits: u32,
    ghost shifts: { slot_bits < 64 },
}

impl Asks<PartSlot> for Around {
    ghost holds = { λ q other. spec.is_around q.slot_bits q.slot other.cap };

    fn holds(&self, other: &PartSlot) -> bool {
        match other.cap {
            Cap::CNode { base, radix, .. } => {
                lies_in_node(self.slot_bits, self.slot, Node { base, radix })
            }
            _ => false,
        }
    }
}

impl<'a> SiteNames<'a> {
    /// A thread.
    pub fn about(self, thread: u64) -> Told<'a>
        ensures { told_as result ≡ (spec.texts_told self.entry).about thread }
    {
        match label_of(self.labels.threads.as_slice(), thread) {
            None => Told::Number(thread),
            Some(name) => Told::Name(name),
        }
    }

    /// The slot of a thread's CSpace.
    fn space(self, slot: u64) -> Told<'a>
        ensures { told_as result ≡ space_or_number slot (spec.label_of self.entry.labels.now.threads.items slot) }
    {
        match label_of(self.labels.threads.as_slice(), slot) {
            None => Told::Number(slot),
            Some(name) => Told::Space(name),
        }
    }

    /// The CNode in which a slot lies.
    fn node_around(self, slot: u64) -> Option<Node>
        ensures { result ≡ spec.node_around self.entry.slot_bits self.entry.slots.now slot }
    {
        let question = Around {
            slot,
            slot_bits: self.slot_bits,
        };
        match first(self.slots, &question)?.cap {
            Cap::CNode { base, radix, .. } => Some(Node { base, radix }),
            _ => None,
        }
    }

    /// A slot.
    pub fn slot(self, slot: u64) -> Told<'a>
        ensures { told_as result ≡ (spec.texts_told self.entry).slot slot }
    {
        let Some(node) = self.node_around(slot) else {
            return self.space(slot);
        };
        match label_of(self.labels.nodes.as_slice(), node.base) {
            None => Told::Number(slot),
            Some(name) => Told::Index(name, slot.saturating_sub(node.base) >> self.slot_bits),
        }
    }
}
