//! The system that a `.system` file describes: the file becomes capDL text, which is read as every layout.
use crate::elements::{Element, Elements};
use crate::machines::Machine;
use crate::making::{Assumed, Domain, End, LARGE_BITS, cnode_bits, text_of};
use setup_layout::{
    Lines, MadeText, Reading, Remarks, Said, Scanner, Spot, front_length, number_of, place_of,
};
use std::alloc::{AllocError, Global};
use std::collections::HashMap;
use std::fmt::Write;

/// The greatest number by which a domain knows a channel, an interrupt or a domain in it.
const MOST_ID: u64 = 61;

/// The most domains.
const MOST_DOMAINS: usize = 63;

/// The objects that are made of a domain.
const OBJECTS: [&str; 5] = ["tcb", "cnode", "ntfn", "vspace", "ep"];

/// What is told of what a file does not say.
const TOOL_ASSUMED: &str =
    "what the file leaves to Microkit's tool is assumed: the places of slots, CNodes of 9 bits, and the monitor, which has all threads and hears faults";

/// What is told of rights, of which a file says none: they are assumed, or they are taken as it is asked for.
const RIGHTS_ASSUMED: &str =
    "the file says no rights: all are assumed, to notify, to call and to hear; --rights all or --rights least asks for what is taken";

const ALL_TAKEN: &str = "the file says no rights: all are taken, to notify, to call and to hear";

const LEAST_TAKEN: &str = "the file says no rights: W is taken to notify, WP to call and R to hear";

/// What is told where objects do not count that a kernel here lacks.
const PLAIN: &str =
    "--plain leaves out memory regions, notifications and interrupts: what passes by them is told by no audit of the set-up";

/// The elements that are read.
#[rattlefmt::skip]
const ELEMENTS: [&str; 12] = [
    "system", "memory_region", "protection_domain", "program_image", "map", "irq", "setvar", "channel", "end",
    "virtual_machine", "vcpu", "ioport",
];

/// Their attributes. What is no name, number, permission or answer says nothing of capabilities.
#[rattlefmt::skip]
const ATTRIBUTES: [&str; 12] = [
    "", "name size page_size phys_addr prefill_path", "name id pp priority budget period stack_size passive cpu fpu", "path",
    "mr vaddr perms cached setvar_vaddr setvar_size",
    "irq id trigger pin ioapic polarity vector pcidev handle setvar_id", "symbol region_paddr region_size", "",
    "pd id pp notify setvar_id", "name id priority budget period", "id cpu", "id addr size setvar_id setvar_addr",
];

/// Where an element stands, as far as it decides what may stand in it.
#[derive(Clone, Copy)]
enum Place {
    /// In no other element.
    File,
    System,
    /// In a domain, by its place among them.
    Domain(usize),
    /// In a channel, by its place among them.
    Channel(usize),
    /// In a virtual machine, by its place among them.
    Machine(usize),
    /// In an element in which nothing stands.
    Inside,
    /// In an element that is left out.
    LeftOut,
}

/// A channel.
#[derive(Drop)]
struct Channel {
    ends: Vec<End>,
    spot: Spot,
}

/// Names, with their places among them.
#[derive(Drop)]
struct Names<'a> {
    /// What they are names of.
    kind: &'static str,
    numbers: HashMap<&'a str, usize>,
    list: Vec<&'a str>,
}

impl<'a> Names<'a> {
    /// No names.
    fn new(alloc: Global, kind: &'static str) -> Names<'a> {
        Names {
            kind,
            numbers: HashMap::new(alloc),
            list: Vec::new(alloc),
        }
    }

    /// Adds a name.
    fn add(&mut self, name: &'a str) -> Result<(), AllocError> {
        self.numbers.insert(name, self.list.len())?;
        self.list.push(name)?;
        Ok(())
    }

    /// The place of a name.
    fn find(&self, faults: &mut Remarks, spot: Spot, name: &str) -> Option<usize> {
        let number = self.numbers.get(name).copied();
        if number.is_none() {
            let hint = faults.hint(name, self.list.as_slice());
            let kind = self.kind;
            faults.say(spot, format_args!("there is no {kind} {name}{hint}"));
        }
        number
    }
}

/// What is read of a file.
#[derive(Drop)]
struct System<'a> {
    alloc: Global,
    /// How the file is read.
    reading: Reading,
    /// Where the outermost element stands.
    spot: Spot,
    region_names: Names<'a>,
    domain_names: Names<'a>,
    /// The memory regions, as objects.
    regions: Lines,
    domains: Vec<Domain<'a>>,
    channels: Vec<Channel>,
    machines: Vec<Machine<'a>>,
    /// In which line a name is made, or an id is given.
    taken: HashMap<String, usize>,
    /// Where the elements stand that are read.
    places: Vec<Place>,
    said: Said,
}

impl<'a> System<'a> {
    /// Takes what no other element may take. Answers whether none has.
    fn take(&mut self, spot: Spot, what: String) -> Result<bool, AllocError> {
        let first = self.taken.get(what.as_str()).copied();
        match first {
            Some(line) => {
                let told = format_args!(
                    "{what} is taken in line {line} already; change one of the two"
                );
                self.said.faults.say(spot, told);
            }
            None => {
                self.taken.insert(what, spot.line)?;
            }
        }
        Ok(first.is_none())
    }

    /// Takes the names of what is made of a domain.
    fn take_objects(&mut self, spot: Spot, name: &str) -> Result<(), AllocError> {
        for object in OBJECTS {
            let made = format!(in self.alloc; "{name}_{object}")?;
            if !self.take(spot, made)? {
                break;
            }
        }
        Ok(())
    }

    /// The value of an attribute that is needed.
    fn needed(&mut self, element: &Element<'a>, name: &str) -> &'a str {
        let value = element.value(name).unwrap_or("");
        if value.is_empty() {
            let kind = element.name;
            let told = format_args!("this {kind} needs an attribute {name}");
            self.said.faults.say(element.spot, told);
        }
        value
    }

    /// The name that an element gives to what it declares.
    fn name(&mut self, element: &Element<'a>) -> &'a str {
        let name = self.needed(element, "name");
        let begins = matches!(name.bytes().next(), None | Some(b'a'..=b'z' | b'A'..=b'Z' | b'_'));
        if !begins || front_length(name, b"_-.") < name.len() {
            let told =
                "a name begins with a letter or _, and has letters, digits, _, - and . alone";
            self.said.faults.say(element.spot, told);
        }
        name
    }

    /// The number by which a domain knows something: a channel or an interrupt, or a domain in it.
    fn id(&mut self, element: &Element<'a>, domain: usize, of: &str) -> Result<u32, AllocError> {
        let id = number_of(self.needed(element, "id")).unwrap_or(u64::MAX);
        if id > MOST_ID {
            let told = format_args!("an id is a number from 0 to {MOST_ID}");
            self.said.faults.say(element.spot, told);
            return Ok(0);
        }
        let name = match self.domains.get(domain) {
            Some(domain) => domain.name,
            None => "",
        };
        let given = format!(in self.alloc; "id {id} of {of}{name}")?;
        self.take(element.spot, given)?;
        Ok(id as u32)
    }

    /// The number that is the value of an attribute; it may have `_` between its digits.
    fn value_of(&mut self, element: &Element<'a>, name: &str) -> Result<u64, AllocError> {
        let value = self.needed(element, name);
        let mut digits = String::new(self.alloc);
        for letter in value.chars() {
            if letter != '_' {
                digits.push(letter)?;
            }
        }
        let number = number_of(digits.as_str());
        if number.is_none() && !value.is_empty() {
            let told = format_args!("{name} is a number of at most 64 bits");
            self.said.faults.say(element.spot, told);
        }
        Ok(number.unwrap_or(0))
    }

    /// Whether an attribute says so.
    fn is_so(&mut self, element: &Element<'a>, name: &str, is_else: bool) -> bool {
        match element.value(name) {
            None => is_else,
            Some("true") => true,
            Some("false") => false,
            Some(_) => {
                let told = format_args!("{name} is true or false");
                self.said.faults.say(element.spot, told);
                is_else
            }
        }
    }

    /// Says which attributes of an element are left out.
    fn note_others(&mut self, element: &Element<'a>) -> Result<(), AllocError> {
        let kind = element.name;
        let number = place_of(&ELEMENTS, kind).unwrap_or(0);
        let words = ATTRIBUTES.get(number).copied().unwrap_or("");
        let known: Vec<&str> = words.split_ascii_whitespace().collect(self.alloc)?;
        for attribute in element.attributes.as_slice() {
            let (name, spot) = (attribute.name, attribute.spot);
            if !known.as_slice().contains(&name) {
                let hint = self.said.gaps.hint(name, known.as_slice());
                self.said.gaps.say(
                    spot,
                    format_args!("{name} of this {kind} is left out{hint}"),
                );
            }
        }
        Ok(())
    }

    /// Begins with the outermost element.
    fn add_system(&mut self, element: &Element<'a>) -> Result<Place, AllocError> {
        let (name, spot) = (element.name, element.spot);
        self.spot = spot;
        if name != "system" {
            let told = format_args!("a .system file is one element system, and not {name}");
            self.said.faults.say(spot, told);
        }
        if !self.reading.flows {
            self.said.notes.say(spot, PLAIN);
        }
        self.said.notes.say(spot, TOOL_ASSUMED);
        if !self.reading.are_rights_asked {
            self.said.gaps.say(spot, RIGHTS_ASSUMED);
        } else if self.reading.all_rights {
            self.said.notes.say(spot, ALL_TAKEN);
        } else {
            self.said.notes.say(spot, LEAST_TAKEN);
        }
        self.take_objects(spot, "monitor")?;
        Ok(Place::System)
    }

    /// Adds a memory region.
    fn add_region(&mut self, element: &Element<'a>) -> Result<Place, AllocError> {
        let (name, spot) = (self.name(element), element.spot);
        self.take(spot, String::from_str(self.alloc, name)?)?;
        self.region_names.add(name)?;
        match element.value("phys_addr") {
            None => self.regions.put(spot, format_args!("{name} = frame"))?,
            Some(_) => {
                let address = self.value_of(element, "phys_addr")?;
                let size = self.value_of(element, "size")?;
                let words = format_args!("{name} = frame ({size} bytes, paddr: {address})");
                self.regions.put(spot, words)?;
            }
        }
        Ok(Place::Inside)
    }

    /// Adds a protection domain, which may stand in another one.
    fn add_domain(
        &mut self,
        element: &Element<'a>,
        outer: Option<usize>,
    ) -> Result<Place, AllocError> {
        let (name, spot, number) = (self.name(element), element.spot, self.domains.len());
        self.take_objects(spot, name)?;
        let is_server = self.is_so(element, "pp", false);
        let rights = Assumed::new(self.reading.all_rights);
        let mut domain = Domain::new(self.alloc, name, spot, is_server, rights);
        if let Some(outer) = outer {
            let id = self.id(element, outer, "a domain in ")?;
            if let Some(outer) = self.domains.get_mut(outer) {
                outer.add_inner(&mut domain, id)?;
            }
        } else {
            domain.add_to_monitor(number)?;
        }
        if number == MOST_DOMAINS {
            let told = format_args!("a system has {MOST_DOMAINS} protection domains at most");
            self.said.faults.say(spot, told);
        }
        self.domain_names.add(name)?;
        self.domains.push(domain)?;
        Ok(Place::Domain(number))
    }

    /// Adds a memory region that a domain or a virtual machine sees.
    fn add_map(&mut self, element: &Element<'a>, place: Place) -> Result<Place, AllocError> {
        let (region, spot) = (self.needed(element, "mr"), element.spot);
        self.region_names.find(&mut self.said.faults, spot, region);
        let letters = element.value("perms").unwrap_or("rw");
        let mut are_known = !letters.is_empty();
        for letter in letters.bytes() {
            are_known &= b"rwx".contains(&letter);
        }
        if !are_known {
            self.said
                .faults
                .say(spot, "perms has letters of r, w and x, one at least");
        }
        let letters = letters.to_ascii_uppercase(self.alloc)?;
        match place {
            Place::Domain(number) => {
                if let Some(domain) = self.domains.get_mut(number) {
                    domain.maps.put_map(region, letters.as_str(), spot)?;
                }
            }
            Place::Machine(number) => {
                if let Some(machine) = self.machines.get_mut(number) {
                    machine.maps.put_map(region, letters.as_str(), spot)?;
                }
            }
            _ => {}
        }
        Ok(Place::Inside)
    }

    /// The name and the kind of an interrupt: by its number, by a pin of an interrupt controller, or by a message of a device.
    fn interrupt_of(
        &mut self,
        element: &Element<'a>,
    ) -> Result<(String, &'static str), AllocError> {
        if element.value("pin").is_some() {
            let pin = self.value_of(element, "pin")?;
            let controller = match element.value("ioapic") {
                Some(_) => self.value_of(element, "ioapic")?,
                None => 0,
            };
            return Ok((
                format!(in self.alloc; "irq_ioapic_{controller}_{pin}")?,
                "ioapic_irq",
            ));
        }
        if let Some(device) = element.value("pcidev") {
            let handle = self.value_of(element, "handle")?;
            let mut made = String::from_str(self.alloc, "irq_msi_")?;
            for letter in device.chars() {
                made.push(if letter.is_ascii_alphanumeric() {
                    letter
                } else {
                    '_'
                })?;
            }
            write!(&mut made, "_{handle}")?;
            return Ok((made, "msi_irq"));
        }
        let number = self.value_of(element, "irq")?;
        Ok((format!(in self.alloc; "irq_{number}")?, "arm_irq"))
    }

    /// Adds an interrupt that a domain hears.
    fn add_interrupt(&mut self, element: &Element<'a>, domain: usize) -> Result<Place, AllocError> {
        let (made, kind) = self.interrupt_of(element)?;
        let (id, spot) = (self.id(element, domain, "")?, element.spot);
        self.take(spot, made.clone()?)?;
        if let Some(domain) = self.domains.get_mut(domain) {
            domain.add_interrupt(made.as_str(), kind, id, spot)?;
        }
        Ok(Place::Inside)
    }

    /// Adds ports that a domain reads and writes.
    fn add_ports(&mut self, element: &Element<'a>, domain: usize) -> Result<Place, AllocError> {
        let first = self.value_of(element, "addr")?;
        let size = self.value_of(element, "size")?;
        let (id, spot) = (self.id(element, domain, "ports of ")?, element.spot);
        let last = first.saturating_add(size.saturating_sub(1));
        if let Some(domain) = self.domains.get_mut(domain) {
            let made = format!(in self.alloc; "{}_ports_{id}", domain.name)?;
            domain.add_ports(first, last, id, spot)?;
            self.take(spot, made)?;
        }
        Ok(Place::Inside)
    }

    /// Adds a virtual machine under a domain.
    fn add_machine(&mut self, element: &Element<'a>, domain: usize) -> Result<Place, AllocError> {
        let (name, spot, number) = (self.name(element), element.spot, self.machines.len());
        self.take_objects(spot, name)?;
        let machine = Machine::new(self.alloc, name, spot, domain);
        self.machines.push(machine)?;
        Ok(Place::Machine(number))
    }

    /// Adds a processor of a virtual machine.
    fn add_processor(&mut self, element: &Element<'a>, number: usize) -> Result<Place, AllocError> {
        let spot = element.spot;
        let (domain, name) = match self.machines.get(number) {
            Some(machine) => (machine.domain, machine.name),
            None => return Ok(Place::Inside),
        };
        let id = self.id(element, domain, "a processor in ")?;
        for made in ["tcb", "vcpu"] {
            let made = format!(in self.alloc; "{name}_{made}_{id}")?;
            self.take(spot, made)?;
        }
        if let Some(machine) = self.machines.get_mut(number) {
            machine.processors.push((id, spot))?;
        }
        Ok(Place::Inside)
    }

    /// Has each domain control its virtual machines. One without processors has one.
    fn join_machines(&mut self) -> Result<(), AllocError> {
        for machine in self.machines.iter_mut() {
            if machine.processors.is_empty() {
                machine.processors.push((0, machine.spot))?;
            }
            if let Some(domain) = self.domains.get_mut(machine.domain) {
                domain.add_machine(self.alloc, machine)?;
            }
        }
        Ok(())
    }

    /// Adds a channel.
    fn add_channel(&mut self, element: &Element<'a>) -> Result<Place, AllocError> {
        let (ends, spot, number) = (Vec::new(self.alloc), element.spot, self.channels.len());
        self.channels.push(Channel { ends, spot })?;
        Ok(Place::Channel(number))
    }

    /// Adds an end of a channel.
    fn add_end(&mut self, element: &Element<'a>, channel: usize) -> Result<Place, AllocError> {
        let (name, spot) = (self.needed(element, "pd"), element.spot);
        let Some(domain) = self.domain_names.find(&mut self.said.faults, spot, name) else {
            return Ok(Place::Inside);
        };
        let end = End {
            domain,
            id: self.id(element, domain, "")?,
            does_notify: self.is_so(element, "notify", true),
            does_call: self.is_so(element, "pp", false),
            spot,
        };
        if let Some(channel) = self.channels.get_mut(channel) {
            channel.ends.push(end)?;
        }
        Ok(Place::Inside)
    }

    /// Leaves out an element.
    fn leave_out(&mut self, element: &Element<'a>) -> Place {
        let name = element.name;
        let hint = self.said.gaps.hint(name, &ELEMENTS);
        let told = format_args!("{name} is left out here, with all that is in it{hint}");
        self.said.gaps.say(element.spot, told);
        Place::LeftOut
    }

    /// Adds what an element describes. Answers where what is in it stands.
    fn add(&mut self, element: &Element<'a>, place: Place) -> Result<Place, AllocError> {
        let inside = match (place, element.name) {
            (Place::LeftOut, _) => return Ok(Place::LeftOut),
            (Place::File, _) => self.add_system(element)?,
            (Place::System, "memory_region") => self.add_region(element)?,
            (Place::System, "protection_domain") => self.add_domain(element, None)?,
            (Place::System, "channel") => self.add_channel(element)?,
            (Place::Domain(outer), "protection_domain") => self.add_domain(element, Some(outer))?,
            (Place::Domain(_) | Place::Machine(_), "map") => self.add_map(element, place)?,
            (Place::Domain(domain), "irq") => self.add_interrupt(element, domain)?,
            (Place::Domain(domain), "ioport") => self.add_ports(element, domain)?,
            (Place::Domain(domain), "virtual_machine") => self.add_machine(element, domain)?,
            (Place::Machine(machine), "vcpu") => self.add_processor(element, machine)?,
            (Place::Domain(_), "program_image" | "setvar") => Place::Inside,
            (Place::Channel(channel), "end") => self.add_end(element, channel)?,
            _ => return Ok(self.leave_out(element)),
        };
        self.note_others(element)?;
        Ok(inside)
    }

    /// Adds what elements describe: those that name what may be declared behind them, or the others.
    fn add_all(&mut self, elements: &[Element<'a>], are_late: bool) -> Result<(), AllocError> {
        for element in elements {
            let place = match element.outer {
                None => Place::File,
                Some(outer) => self.places.get(outer).copied().unwrap_or(Place::LeftOut),
            };
            let is_late = element.name == "map" || element.name == "end";
            let mut inside = Place::Inside;
            if is_late == are_late {
                inside = self.add(element, place)?;
            }
            if !are_late {
                self.places.push(inside)?;
            }
        }
        Ok(())
    }

    /// Adds what an end of a channel may do to the other one.
    fn join(&mut self, here: End, there: End) -> Result<(), AllocError> {
        let mut name = "";
        if let Some(domain) = self.domains.get_mut(there.domain) {
            name = domain.name;
            domain.is_server |= here.does_call;
        }
        match self.domains.get_mut(here.domain) {
            Some(domain) => domain.add_channel(here, there, name),
            None => Ok(()),
        }
    }

    /// Joins the ends of all channels.
    fn join_all(&mut self) -> Result<(), AllocError> {
        for number in 0..self.channels.len() {
            let Some(Channel { ends, spot }) = self.channels.get(number) else {
                continue;
            };
            if let [one, other] = ends.as_slice() {
                let (one, other) = (*one, *other);
                self.join(one, other)?;
                self.join(other, one)?;
            } else {
                let told = "a channel has two ends, of protection domains";
                self.said.faults.say(*spot, told);
            }
        }
        Ok(())
    }

    /// Says that CNodes are smaller than usual, where they are.
    fn say_small(&mut self) {
        let bits = cnode_bits(self.domains.as_slice());
        if bits < LARGE_BITS {
            let told = format_args!("CNodes have {bits} bits here, so that all have room");
            self.said.notes.say(self.spot, told);
        }
    }

    /// The capDL text of the system; that of none, where it has faults.
    fn text(&self) -> Result<Lines, AllocError> {
        let (alloc, spot, domains) = (self.alloc, self.spot, self.domains.as_slice());
        if !self.said.has_faults() {
            let rights = Assumed::new(self.reading.all_rights);
            return text_of(
                alloc,
                spot,
                &self.regions,
                domains,
                rights,
                cnode_bits(domains),
            );
        }
        let mut nothing = Lines::new(alloc);
        nothing.put(spot, "arch aarch64")?;
        Ok(nothing)
    }

    /// Adds what all elements describe.
    fn add_file(&mut self, elements: &[Element<'a>]) -> Result<(), AllocError> {
        if elements.is_empty() && !self.said.has_faults() {
            let told = "there is no element here; a .system file is one element system";
            self.said.faults.say(self.spot, told);
        }
        if !self.said.has_faults() {
            self.add_all(elements, false)?;
            self.add_all(elements, true)?;
        }
        if !self.said.has_faults() {
            self.join_machines()?;
            self.join_all()?;
            self.say_small();
        }
        Ok(())
    }
}

/// The capDL text of the system that a file describes, and what is said of the file.
pub fn system_text(alloc: Global, text: &str, reading: Reading) -> Result<MadeText, AllocError> {
    let Elements { list, faults, .. } = Elements::read(alloc, text)?;
    let mut system = System {
        alloc,
        reading,
        spot: Scanner::new(text).spot(0),
        region_names: Names::new(alloc, "memory region"),
        domain_names: Names::new(alloc, "protection domain"),
        regions: Lines::new(alloc),
        domains: Vec::new(alloc),
        channels: Vec::new(alloc),
        machines: Vec::new(alloc),
        taken: HashMap::new(alloc),
        places: Vec::new(alloc),
        said: Said {
            faults,
            ..Said::new(alloc)
        },
    };
    system.add_file(list.as_slice())?;
    let lines = system.text()?;
    let System { said, .. } = system;
    Ok(MadeText { lines, said })
}
