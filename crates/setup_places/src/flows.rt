//! A layout in which each object counts, also one that a kernel here lacks: for what threads can ever get from each other.
use cap_core::{Guard, Kind, ProfileName, Rights};
use setup_layout::{Layout, OTHER_BITS, Object, Slot, kept_pairs};
use std::alloc::{AllocError, Global};

/// The rights to write and to read, those by which capabilities are handed over, and by which a call can be answered.
const WRITE: u8 = 1;

const READ: u8 = 2;

const GRANT: u8 = 4;

const GRANT_REPLY: u8 = 8;

const ALL_RIGHTS: u8 = 15;

/// The badge of capabilities that have none and stand in rows of the `cdt` that are kept, if no kernel here has their object: from a
/// capability with a badge others are derived that keep it.
const ROW_BADGE: u64 = 1;

/// The bits of an address that a CNode of one level takes.
const WORD_BITS: u32 = 64;

/// A capability that is held: by which object, and of which, with its rights and its badge; the line that says so; and the slot of the
/// layout, by its place among the slots, if a row of the `cdt` has it.
type Held = (usize, usize, u8, u64, usize, Option<usize>);

/// A layout, and the capabilities that are held with what messages can hand over.
#[derive(Drop)]
struct Flows<'a> {
    alloc: Global,
    layout: &'a mut Layout,
    held: Vec<Held>,
    /// The CNode with what the slots of a thread hold, or the endpoint of the answers to calls by an endpoint, by the place of the
    /// thread or the endpoint.
    beside: Vec<Option<usize>>,
    /// The capabilities that lead to each object, by their places among those that are held.
    leads: Vec<Vec<usize>>,
    /// Which slots of the layout a row of the `cdt` has, and where each of these stands among the slots that are made.
    in_rows: Vec<bool>,
    made: Vec<Option<usize>>,
}

/// Marks an object that is reached, from which more is to be looked for where it was not reached yet.
fn reach(reached: &mut [bool], next: &mut Vec<usize>, object: usize) -> Result<(), AllocError> {
    if let Some(entry) = reached.get_mut(object) {
        if !*entry {
            *entry = true;
            next.push(object)?;
        }
    }
    Ok(())
}

/// The slot that is made of one of the layout, if there is one.
fn made_of(made: &[Option<usize>], slot: Option<usize>) -> Option<usize> {
    made.get(slot?).copied().flatten()
}

/// Says that capabilities can be handed over by an endpoint.
fn say_joined(layout: &mut Layout, endpoint: usize, from: usize, to: usize) {
    let objects = layout.objects.as_slice();
    if let (Some(object), Some(from), Some(to)) = (
        objects.get(endpoint),
        objects.get(from),
        objects.get(to),
    ) {
        let (name, from, to) = (object.name.as_str(), from.name.as_str(), to.name.as_str());
        layout.notes.say(
            object.spot,
            format_args!(
                "{name}: by G the threads of {from} and {to} can hand over capabilities, so they are one part"
            ),
        );
    }
}

impl<'a> Flows<'a> {
    /// The object beside another one, which is made where there is none yet.
    fn beside(&mut self, number: usize, kind: Kind, what: &str) -> Result<usize, AllocError> {
        let made = self.layout.objects.len();
        if let Some(Some(beside)) = self.beside.get(number) {
            return Ok(*beside);
        }
        let Some(object) = self.layout.objects.get(number) else {
            return Ok(number);
        };
        let name = format!(in self.alloc; "{}.{what}", object.name)?;
        let spot = object.spot;
        self.layout.objects.push(Object {
            name,
            kind,
            bits: 0,
            cover: None,
            is_inactive: false,
            spot,
            place: 0,
        })?;
        if let Some(entry) = self.beside.get_mut(number) {
            *entry = Some(made);
        }
        Ok(made)
    }

    /// The kind of an object, where a kernel here has it.
    fn kind_of(&self, number: usize) -> Option<Kind> {
        match self.layout.objects.get(number) {
            Some(object) if object.bits < OTHER_BITS => Some(object.kind),
            _ => None,
        }
    }

    /// Gives each thread a CNode with what its slots hold, and makes CNodes of other objects with slots.
    fn make_nodes(&mut self) -> Result<(), AllocError> {
        for number in 0..self.layout.slots.len() {
            let Some(slot) = self.layout.slots.get(number).copied() else {
                continue;
            };
            let mut node = slot.holder;
            if self.kind_of(node) == Some(Kind::Tcb) {
                node = self.beside(node, Kind::CNode, "slots")?;
            } else if let Some(other) = self.layout.objects.get_mut(node) {
                other.kind = Kind::CNode;
            }
            let (rights, badge) = (slot.rights.0, slot.badge);
            let row = match self.in_rows.get(number) {
                Some(true) => Some(number),
                _ => None,
            };
            self.held
                .push((node, slot.object, rights, badge, slot.line, row))?;
        }
        Ok(())
    }

    /// The object that is reached by a capability of an object: of a thread, the CNode with what its slots hold.
    fn target(&self, object: usize) -> usize {
        match self.kind_of(object) {
            Some(Kind::Tcb) => {
                let node = self.beside.get(object).copied().flatten();
                node.unwrap_or(object)
            }
            _ => object,
        }
    }

    /// Notes which capabilities lead to each object.
    fn note_leads(&mut self) -> Result<(), AllocError> {
        for _object in self.layout.objects.as_slice() {
            self.leads.push(Vec::new(self.alloc))?;
        }
        for number in 0..self.held.len() {
            let Some((_, object, ..)) = self.held.get(number).copied() else {
                continue;
            };
            let target = self.target(object);
            if let Some(leads) = self.leads.get_mut(target) {
                leads.push(number)?;
            }
        }
        Ok(())
    }

    /// The capabilities that lead to an object.
    fn leads_to(&self, object: usize) -> &[usize] {
        match self.leads.get(object) {
            Some(leads) => leads.as_slice(),
            None => &[],
        }
    }

    /// The capabilities of an endpoint with all of the first rights, and, if there are second ones, with one of these.
    fn with_rights(&self, endpoint: usize, all: u8, some: u8) -> Result<Vec<Held>, AllocError> {
        let mut found = Vec::new(self.alloc);
        for number in self.leads_to(endpoint) {
            if let Some(held) = self.held.get(*number).copied() {
                if held.2 & all == all && (some == 0 || held.2 & some > 0) {
                    found.push(held)?;
                }
            }
        }
        Ok(found)
    }

    /// Marks the holders of the capabilities that lead to an object.
    fn reach_holders(
        &self,
        object: usize,
        above: &mut [bool],
        next: &mut Vec<usize>,
    ) -> Result<(), AllocError> {
        for number in self.leads_to(object) {
            if let Some(held) = self.held.get(*number) {
                reach(above, next, held.0)?;
            }
        }
        Ok(())
    }

    /// The objects from which the holder of one of these capabilities is reached.
    fn above(&self, calls: &[Held]) -> Result<Vec<bool>, AllocError> {
        let mut above = vec![in self.alloc; false; self.layout.objects.len()]?;
        let mut next = Vec::new(self.alloc);
        for call in calls {
            reach(above.as_mut_slice(), &mut next, call.0)?;
        }
        for _object in 0..self.layout.objects.len() {
            match next.pop() {
                Some(object) => self.reach_holders(object, above.as_mut_slice(), &mut next)?,
                None => break,
            }
        }
        Ok(above)
    }

    /// The CNodes of the threads from which the holder of one of these capabilities is reached.
    fn threads_above(&self, calls: &[Held]) -> Result<Vec<usize>, AllocError> {
        let above = self.above(calls)?;
        let mut nodes = Vec::new(self.alloc);
        for (number, node) in self.beside.iter().enumerate() {
            if let (Some(Kind::Tcb), Some(node)) = (self.kind_of(number), *node) {
                if above.get(node).copied() == Some(true) {
                    nodes.push(node)?;
                }
            }
        }
        Ok(nodes)
    }

    /// How many capabilities to receive by an endpoint there are, and how many of these have G.
    fn count_receivers(&self, endpoint: usize) -> (usize, usize) {
        let (mut all, mut granting) = (0usize, 0usize);
        for number in self.leads_to(endpoint) {
            let Some((_, _, rights, ..)) = self.held.get(*number).copied() else {
                continue;
            };
            if rights & READ > 0 {
                all = all.saturating_add(1);
            }
            if rights & (READ | GRANT) == READ | GRANT {
                granting = granting.saturating_add(1);
            }
        }
        (all, granting)
    }

    /// Says to whom capabilities can be handed over by a call: to so many that receive.
    fn say_joined(&mut self, call: Held, count: usize) {
        let (caller, endpoint, rights, ..) = call;
        let mut left = count;
        for place in 0..self.leads_to(endpoint).len() {
            if left == 0 || self.layout.notes.is_full() {
                break;
            }
            let number = self.leads_to(endpoint).get(place).copied();
            let Some(held) = self.held.get(number.unwrap_or(usize::MAX)).copied() else {
                continue;
            };
            if held.2 & READ > 0 && (rights | held.2) & GRANT > 0 {
                say_joined(self.layout, endpoint, caller, held.0);
                left = left.saturating_sub(1);
            }
        }
        self.layout.notes.count(left);
    }

    /// Gives who receives by an endpoint what an answer needs, and capabilities of these CNodes.
    fn give(&mut self, receiver: Held, answers: usize, nodes: &[usize]) -> Result<(), AllocError> {
        let (holder, _, _, _, line, _) = receiver;
        self.held.push((holder, answers, WRITE, 0, line, None))?;
        for node in nodes {
            self.held.push((holder, *node, ALL_RIGHTS, 0, line, None))?;
        }
        Ok(())
    }

    /// Gives those that receive by an endpoint what the answers to calls by it need, and, where capabilities can be handed over, the
    /// CNodes of the threads that reach a capability to call.
    fn answer(&mut self, endpoint: usize, answers: usize) -> Result<(), AllocError> {
        let calls = self.with_rights(endpoint, WRITE, GRANT | GRANT_REPLY)?;
        let granting = self.with_rights(endpoint, WRITE | GRANT, 0)?;
        let by_all = self.threads_above(calls.as_slice())?;
        let by_granting = self.threads_above(granting.as_slice())?;
        let receivers = self.with_rights(endpoint, READ, 0)?;
        for (caller, _, _, _, line, _) in calls.as_slice() {
            self.held.push((*caller, answers, READ, 0, *line, None))?;
        }
        for receiver in receivers.as_slice() {
            let nodes = if receiver.2 & GRANT > 0 {
                by_all.as_slice()
            } else {
                by_granting.as_slice()
            };
            self.give(*receiver, answers, nodes)?;
        }
        Ok(())
    }

    /// Adds what messages hand over: the answer to each call, and capabilities.
    fn add_messages(&mut self) -> Result<(), AllocError> {
        self.note_leads()?;
        let mut receivers = vec![in self.alloc; None; self.beside.len()]?;
        for number in 0..self.held.len() {
            let Some(call) = self.held.get(number).copied() else {
                continue;
            };
            let (_, endpoint, rights, ..) = call;
            let is_call = rights & WRITE > 0 && rights & (GRANT | GRANT_REPLY) > 0;
            if is_call && self.kind_of(endpoint) == Some(Kind::Endpoint) {
                self.beside(endpoint, Kind::Endpoint, "reply")?;
                let (all, granting) = match receivers.get(endpoint).copied().flatten() {
                    Some(counts) => counts,
                    None => self.count_receivers(endpoint),
                };
                if let Some(entry) = receivers.get_mut(endpoint) {
                    *entry = Some((all, granting));
                }
                let count = if rights & GRANT > 0 { all } else { granting };
                self.say_joined(call, count);
            }
        }
        for endpoint in 0..self.beside.len() {
            let answers = self.beside.get(endpoint).copied().flatten();
            if let (Some(Kind::Endpoint), Some(answers)) = (self.kind_of(endpoint), answers) {
                self.answer(endpoint, answers)?;
            }
        }
        Ok(())
    }

    /// Puts a capability into a slot of a CNode, which is made as large as it has to be.
    fn put(&mut self, held: Held, index: u32) -> Result<(), AllocError> {
        let (holder, object, rights, badge, line, row) = held;
        let is_endpoint = self.kind_of(object) == Some(Kind::Endpoint);
        if let Some(node) = self.layout.objects.get_mut(holder) {
            node.bits = node.bits.max(index.checked_ilog2().unwrap_or(0) + 1);
        }
        let place = self.layout.slots.len();
        if let Some(entry) = self.made.get_mut(row.unwrap_or(usize::MAX)) {
            *entry = Some(place);
        }
        self.layout.slots.push(Slot {
            holder,
            index,
            object,
            badge: if is_endpoint { badge } else { 0 },
            rights: if is_endpoint {
                Rights(rights)
            } else {
                Rights(0)
            },
            guard: Guard { value: 0, size: 0 },
            line,
        })?;
        Ok(())
    }

    /// Puts each capability into a slot, from the first one on: one of several that are alike, but for those that a row of the `cdt` has;
    /// and of an untyped region one.
    fn put_all(&mut self) -> Result<(), AllocError> {
        self.held.sort_unstable();
        let (mut before, mut index) = (None, 0u32);
        for number in 0..self.held.len() {
            let Some(held) = self.held.get(number).copied() else {
                continue;
            };
            let is_untyped = self.kind_of(held.1) == Some(Kind::Untyped);
            match before {
                Some((holder, _, _, _, _, _)) if holder != held.0 => index = 0,
                Some((_, object, rights, badge, _, _))
                    if object == held.1
                        && (is_untyped
                            || held.5.is_none() && (rights, badge) == (held.2, held.3)) => {
                    continue;
                }
                Some(_) => index = index.saturating_add(1),
                None => {}
            }
            self.put(held, index)?;
            before = Some(held);
        }
        Ok(())
    }

    /// Has each row of the `cdt` name the slots that are made of its own, if the set-up has both.
    fn move_rows(&mut self) -> Result<(), AllocError> {
        let made = self.made.as_slice();
        for row in self.layout.rows.iter_mut() {
            row.above = made_of(made, row.above);
            row.below = made_of(made, row.below);
        }
        self.layout.derived = kept_pairs(self.alloc, self.layout.rows.as_slice())?;
        Ok(())
    }

    /// Has the space of each thread begin in the CNode with what its slots hold.
    fn put_spaces(&mut self) -> Result<(), AllocError> {
        for number in 0..self.beside.len() {
            let node = self.beside.get(number).copied().flatten();
            if let (Some(Kind::Tcb), Some(node)) = (self.kind_of(number), node) {
                let (bits, line) = match self.layout.objects.get(node) {
                    Some(object) => (object.bits, object.spot.line),
                    None => (0, 0),
                };
                self.layout.slots.push(Slot {
                    holder: number,
                    index: 0,
                    object: node,
                    badge: 0,
                    rights: Rights(0),
                    guard: Guard {
                        value: 0,
                        size: WORD_BITS.saturating_sub(bits),
                    },
                    line,
                })?;
            }
        }
        Ok(())
    }
}

/// Marks the slots that rows of the `cdt` have.
fn slots_in_rows(alloc: Global, layout: &Layout) -> Result<Vec<bool>, AllocError> {
    let mut marks = vec![in alloc; false; layout.slots.len()]?;
    for row in layout.rows.as_slice() {
        for slot in [row.above, row.below] {
            if let Some(mark) = marks.get_mut(slot.unwrap_or(usize::MAX)) {
                *mark = true;
            }
        }
    }
    Ok(marks)
}

/// Gives capabilities of rows that are kept a badge, if they have none and no kernel here has their object.
fn give_badges(layout: &mut Layout) {
    for (above, below) in layout.derived.as_slice() {
        for number in [*above, *below] {
            if let Some(slot) = layout.slots.get_mut(number) {
                let only_counts = match layout.objects.get(slot.object) {
                    Some(object) => object.bits == OTHER_BITS,
                    None => false,
                };
                if only_counts && slot.badge == 0 {
                    slot.badge = ROW_BADGE;
                }
            }
        }
    }
}

/// Makes the layout one in which each object counts. Its machine has words of 64 bits.
pub fn add_flows(alloc: Global, layout: &mut Layout) -> Result<(), AllocError> {
    give_badges(layout);
    let beside = vec![in alloc; None; layout.objects.len()]?;
    let in_rows = slots_in_rows(alloc, layout)?;
    let made = vec![in alloc; None; layout.slots.len()]?;
    let mut flows = Flows {
        alloc,
        layout,
        held: Vec::new(alloc),
        beside,
        leads: Vec::new(alloc),
        in_rows,
        made,
    };
    flows.make_nodes()?;
    flows.add_messages()?;
    flows.layout.profile = ProfileName::Wide;
    flows.layout.slots.clear();
    for object in flows.layout.objects.as_mut_slice() {
        // Each CNode is as small as it can be, and what only counts as an endpoint is one.
        if object.kind == Kind::CNode {
            object.bits = 1;
        } else if object.bits == OTHER_BITS {
            object.bits = 0;
        }
    }
    flows.put_all()?;
    flows.move_rows()?;
    flows.put_spaces()
}
