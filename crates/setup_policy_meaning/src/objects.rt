//! Which object a word of a policy means, and what objects are called.
ghost use Rattle.std.specs.Prelude.{◌≡◌, ◌++◌, ◌*◌, ◌^◌, ◌<◌, ◌≤◌, codes, All, IfOk, IfSome, IsErr, IsTrue, string_bytes};
ghost use Rattle.cap_core.specs.Numbers.{slot_size};
ghost use Rattle.kernel_abstract.specs.Plan.{IsPlan, IsWithinLimits};
ghost use Rattle.setup_values.specs.Names.{names_view};
ghost use Rattle.setup_policy_meaning.specs.Meant as spec;

use cap_core::{Cap, Profile};
use ipc_core::Waiters;
use kernel_core::{BootPlan, Kernel};
use setup_format::Setup;
use setup_policy::{Label, Labels};
use setup_policy_file::{Word, did_you_mean};
use setup_report::{ObjectKind, number_meant, object_meant};
use setup_values::Name;
use slot_core::{CapStore, Derivation};
use std::alloc::{AllocError, Global};
use std::fmt;

/// What kind of object it is.
#[derive(Clone, Copy, PartialEq, Eq)]
pub enum Kind {
    Thread,
    Endpoint,
    Region,
    Node,
}

impl Kind {
    /// What it is called where a word is to mean one.
    fn asked(self) -> &'static str {
        match self {
            Kind::Thread => "thread",
            Kind::Endpoint => "endpoint",
            Kind::Region => "untyped region",
            Kind::Node => "CNode",
        }
    }
}

impl fmt::Display for Kind {
    fn fmt<W: fmt::Write>(&self, f: &mut fmt::Formatter<W>) -> fmt::Result {
        let word = match self {
            Kind::Thread => "tcb",
            Kind::Endpoint => "endpoint",
            Kind::Region => "untyped",
            Kind::Node => "cnode",
        };
        write!(f, "{word}")
    }
}

/// An object: its kind, its address, and the bits of its size.
#[derive(Clone, Copy)]
pub struct Object {
    pub kind: Kind,
    pub base: u64,
    pub bits: u32,
}

/// The object that a capability names.
pub fn object_of<P: Profile>(cap: Cap) -> Option<Object> {
    let (kind, base, bits) = match cap {
        Cap::Null => return None,
        Cap::Untyped { base, bits, .. } => (Kind::Region, base, bits),
        Cap::Endpoint { base, .. } => (Kind::Endpoint, base, P::ENDPOINT_BITS),
        Cap::CNode { base, radix, .. } => (Kind::Node, base, radix.wrapping_add(P::SLOT_BITS)),
        Cap::Tcb { base } => (Kind::Thread, base, P::TCB_BITS),
    };
    Some(Object { kind, base, bits })
}

/// The objects of a state, by the names and the slots of its set-up, as they are told.
#[derive(Clone, Copy)]
pub struct Objects<'a> {
    pub alloc: Global,
    pub names: &'a [Name],
    /// The objects that full slots name.
    pub live: &'a [Object],
    /// What boot put into the first slots of the root CNode; of another slot, what it holds.
    pub slots: &'a [Option<Object>],
}

/// What boot puts into the slots of the root CNode, slot 1 of which is for itself, and what others of them hold.
pub fn root_slots<P: Profile>(
    alloc: Global,
    plan: &BootPlan,
    slots: &[Derivation],
) -> Result<Vec<Option<Object>>, AllocError>
    requires { IsPlan P.profile plan.now }
{
    let mut objects = Vec::new(alloc);
    objects.push(None)?;
    objects.push(Some(Object {
        kind: Kind::Node,
        base: 0,
        bits: plan.root_radix().wrapping_add(P::SLOT_BITS),
    }))?;
    add_threads::<P>(&mut objects, plan)?;
    add_endpoints::<P>(&mut objects, plan)?;
    for (base, bits) in plan.untypeds() {
        objects.push(Some(Object {
            kind: Kind::Region,
            base: *base,
            bits: *bits,
        }))?;
    }
    add_others::<P>(&mut objects, plan, slots)?;
    Ok(objects)
}

fn add_threads<P: Profile>(
    objects: &mut Vec<Option<Object>>,
    plan: &BootPlan,
) -> Result<(), AllocError>
    requires { IsPlan P.profile plan.now }
{
    for i in 0..plan.threads() {
        objects.push(Some(Object {
            kind: Kind::Thread,
            base: plan.tcb_place::<P>(i),
            bits: P::TCB_BITS,
        }))?;
    }
    Ok(())
}

fn add_endpoints<P: Profile>(
    objects: &mut Vec<Option<Object>>,
    plan: &BootPlan,
) -> Result<(), AllocError>
    requires { IsPlan P.profile plan.now }
{
    for i in 0..plan.endpoints() {
        objects.push(Some(Object {
            kind: Kind::Endpoint,
            base: plan.endpoint_place::<P>(i),
            bits: P::ENDPOINT_BITS,
        }))?;
    }
    Ok(())
}

/// What the slot of the root CNode with a number holds.
fn held_in_slot<P: Profile>(slots: &[Derivation], number: u64) -> Option<Object> {
    for slot in slots {
        if slot.slot.address::<P>() >> P::SLOT_BITS == number {
            return object_of::<P>(slot.cap);
        }
    }
    None
}

/// Adds what the slots behind those of boot's objects hold.
fn add_others<P: Profile>(
    objects: &mut Vec<Option<Object>>,
    plan: &BootPlan,
    slots: &[Derivation],
) -> Result<(), AllocError> {
    let count = 1usize.checked_shl(plan.root_radix()).unwrap_or(0);
    let first = objects.len();
    for i in first..count {
        objects.push(held_in_slot::<P>(slots, i as u64))?;
    }
    Ok(())
}

/// Why a word means no object, in words.
pub enum Unmeant {
    Memory,
    Words(String),
}

impl From<AllocError> for Unmeant {
    fn from(_refused: AllocError) -> Unmeant {
        Unmeant::Memory
    }
}

impl<'a> Objects<'a> {
    /// Whether a number is a slot of the root CNode, and not an address.
    fn is_slot(self, number: u64) -> bool {
        number < self.slots.len() as u64
    }

    fn at_slot(self, number: u64) -> Option<Object> {
        self.slots.get(number as usize).copied().flatten()
    }

    /// The largest live object of a kind at an address.
    fn at_address(self, kind: Kind, base: u64) -> Option<Object>
        ensures { IfSome result (λ o. o.base ≡ base) }
    {
        let mut largest: Option<Object> = None;
        for live in self.live {
            let is_larger = match largest {
                None => true,
                Some(other) => other.bits < live.bits,
            };
            if live.kind == kind && live.base == base && is_larger {
                largest = Some(*live);
            }
        }
        largest
    }

    /// What there is in place of an object that is not there.
    fn in_place(self, number: u64) -> Result<String, AllocError> {
        if self.is_slot(number) {
            return match self.at_slot(number) {
                Some(Object { kind, base, .. }) => format!(in self.alloc;
                    ": slot {number} of the root CNode is for {kind} {base}"
                ),
                None => format!(in self.alloc; ": slot {number} of the root CNode is empty"),
            };
        }
        for Object { kind, base, .. } in self.live {
            if *base == number {
                return format!(in self.alloc; ": {kind} {number} is there");
            }
        }
        Ok(String::new(self.alloc))
    }

    /// That a number means no object of a kind.
    fn nothing_there<T>(self, kind: Kind, number: u64, text: &str) -> Result<T, Unmeant>
        ensures { IsErr result }
    {
        let (what, more) = (kind.asked(), self.in_place(number)?);
        let words = format!(in self.alloc; "no {what} is live at {text}{more}")?;
        Err(Unmeant::Words(words))
    }

    /// The names of the set-up.
    fn texts(self) -> Result<Vec<&'a str>, AllocError> {
        let mut texts = Vec::new(self.alloc);
        for name in self.names {
            texts.push(name.text.as_str())?;
        }
        Ok(texts)
    }

    /// That the set-up has no such name.
    fn no_name<T>(self, name: &str) -> Result<T, Unmeant>
        ensures { IsErr result }
    {
        let names = self.texts()?;
        let question = did_you_mean(
            self.alloc,
            name,
            names.as_slice(),
            "; write a name of its [names], or an address",
        )?;
        let words = format!(in self.alloc; "the set-up has no name {name}{question}")?;
        Err(Unmeant::Words(words))
    }

    /// That a word, whose number this is, means no object of a kind.
    pub(crate) fn unmeant<T>(
        self,
        kind: Kind,
        word: &Word,
        number: Option<u64>,
    ) -> Result<T, Unmeant>
        ensures { IsErr result }
    {
        match (word, number) {
            (Word::Number(number), _) => {
                let text = format!(in self.alloc; "{number}")?;
                self.nothing_there(kind, *number, text.as_str())
            }
            (Word::Name(name), Some(number)) => {
                let text = format!(in self.alloc; "{name}, which is {number}")?;
                self.nothing_there(kind, number, text.as_str())
            }
            (Word::Name(name), None) => self.no_name(name.as_str()),
        }
    }

    /// Whether a name means an object: by its address, or by its slot.
    fn is_named(self, name: &Name, object: Object, by_slot: bool) -> bool {
        if self.is_slot(name.word) != by_slot {
            return false;
        }
        if !by_slot {
            return name.word == object.base;
        }
        match self.at_slot(name.word) {
            Some(other) => other.kind == object.kind && other.base == object.base,
            None => false,
        }
    }

    fn only_name(self, object: Object, by_slot: bool) -> Option<&'a str> {
        let mut only = None;
        for name in self.names {
            if self.is_named(name, object, by_slot) {
                if only.is_some() {
                    return None;
                }
                only = Some(name.text.as_str());
            }
        }
        only
    }

    /// What an object is called: the one name with its address, or, where none has it, the one name of its slot.
    pub fn name(self, object: Object) -> Option<&'a str> {
        for name in self.names {
            if self.is_named(name, object, false) {
                return self.only_name(object, false);
            }
        }
        self.only_name(object, true)
    }
}

/// The state that the words of a policy are about.
#[derive(Drop)]
pub struct Meaning<'a, P: Profile, S: CapStore<P> + Drop, W: Waiters<P> + Drop> {
    pub objects: Objects<'a>,
    pub setup: &'a Setup,
    pub kernel: &'a Kernel<P, S, W>,
    ghost limits: { IsWithinLimits P.profile setup.now.plan },
}

/// How many slots the root CNode has.
pub(crate) fn slot_count<P: Profile>(plan: &BootPlan) -> u64
    requires { IsWithinLimits P.profile plan.now }
    ensures count { result ≡ 2 ^ plan.now.root_radix }
    ensures small { result ≤ 4096 }
{
    1 << plan.root_radix()
}

/// The address of a slot of the root CNode.
pub(crate) fn slot_address<P: Profile>(index: u64) -> u64
    requires { index < 2 ^ 32 }
    ensures { result ≡ slot_size P.profile * index }
{
    index << P::SLOT_BITS
}

/// The address of the CNode that a word means: a number below the count of the root CNode's slots means the one that this slot holds.
fn node_meant<P: Profile, S: CapStore<P> + Drop, W: Waiters<P> + Drop>(
    names: &[Name],
    setup: &Setup,
    kernel: &Kernel<P, S, W>,
    word: &[u8],
) -> Option<u64>
    requires { IsWithinLimits P.profile setup.now.plan }
    ensures { result ≡ spec.node_meant P.profile (names_view names.now) setup.now.plan kernel.now word.now }
{
    let number = number_meant(names, word)?;
    if number >= slot_count::<P>(setup.plan()) {
        return Some(number);
    }
    match kernel.cap_at(slot_address::<P>(number)) {
        Cap::CNode { base, .. } => Some(base),
        _ => None,
    }
}

/// A word as it stands for a number: a name behind a `@`.
pub(crate) fn text_of_word(alloc: Global, word: &Word) -> Result<String, AllocError>
    ensures { IfOk result (λ text. string_bytes text ≡ spec.word_text word.now) }
{
    match word {
        Word::Number(number) => format!(in alloc; "{number}"),
        Word::Name(name) => format!(in alloc; "@{name}"),
    }
}

impl<'a, P: Profile, S: CapStore<P> + Drop, W: Waiters<P> + Drop> Meaning<'a, P, S, W> {
    /// The objects of a kernel, by the names and the slots of its set-up.
    pub fn new(
        objects: Objects<'a>,
        setup: &'a Setup,
        kernel: &'a Kernel<P, S, W>,
    ) -> Meaning<'a, P, S, W>
        requires { IsPlan P.profile setup.now.plan }
        ensures objects { result.objects ≡ objects.entry }
        ensures setup { result.setup.now ≡ setup.now }
        ensures kernel { result.kernel.now ≡ kernel.now }
    {
        Meaning {
            objects,
            setup,
            kernel,
        }
    }

    /// The address of the object of a kind that a text means.
    fn meant(&self, kind: Kind, text: &str) -> Option<u64>
        ensures { result ≡ spec.meant kind P.profile (names_view self.now.objects.names.now) self.now.setup.now.plan self.now.kernel.now text.now }
    {
        let (names, setup, kernel) = (self.objects.names, self.setup, self.kernel);
        let asked = match kind {
            Kind::Thread => ObjectKind::Thread,
            Kind::Endpoint => ObjectKind::Endpoint,
            Kind::Region => ObjectKind::Region,
            Kind::Node => return node_meant::<P, S, W>(names, setup, kernel, text.as_bytes()),
        };
        object_meant::<P, S, W>(names, setup, kernel, asked, text.as_bytes())
    }

    /// The live object of a kind that a text means.
    fn found(&self, kind: Kind, text: &str) -> Option<Object>
        ensures { IfSome result (λ o. spec.IsMeant kind P.profile (names_view self.now.objects.names.now) self.now.setup.now.plan self.now.kernel.now text.now o.base) }
    {
        let base = self.meant(kind, text)?;
        let object = self.objects.at_address(kind, base)?;
        Some(object)
    }

    /// The live object of a kind that a word means (`object_meant`).
    pub fn of_word(&self, kind: Kind, word: &Word) -> Result<Object, Unmeant>
        ensures { IfOk result (λ o. spec.IsMeant kind P.profile (names_view self.now.objects.names.now) self.now.setup.now.plan self.now.kernel.now (spec.word_text word.now) o.base) }
    {
        let text = text_of_word(self.objects.alloc, word)?;
        match self.found(kind, text.as_str()) {
            Some(object) => Ok(object),
            None => {
                let number = number_meant(self.objects.names, text.as_bytes());
                self.objects.unmeant(kind, word, number)
            }
        }
    }

    /// Whether a name, with a `@` before it, means the object of a kind at an address.
    fn is_called(&self, kind: Kind, base: u64, name: &str) -> Result<bool, AllocError>
        ensures { IfOk result (λ is. IsTrue is → spec.IsMeant kind P.profile (names_view self.now.objects.names.now) self.now.setup.now.plan self.now.kernel.now (codes "@" ++ name.now) base) }
    {
        let text = format!(in self.objects.alloc; "@{name}")?;
        match self.meant(kind, text.as_str()) {
            Some(meant) => Ok(meant == base),
            None => Ok(false),
        }
    }

    /// What an object of a kind is called, where it has a name.
    fn label(&self, kind: Kind, object: Object) -> Result<Option<Label>, AllocError>
        ensures { IfOk result (λ found. IfSome found (spec.IsLabel kind P.profile (names_view self.now.objects.names.now) self.now.setup.now.plan self.now.kernel.now)) }
    {
        if object.kind != kind {
            return Ok(None);
        }
        let (base, alloc) = (object.base, self.objects.alloc);
        let Some(name) = self.objects.name(object) else {
            return Ok(None);
        };
        if self.is_called(kind, base, name)? {
            let text = String::from_str(alloc, name)?;
            return Ok(Some(Label { base, text }));
        }
        Ok(None)
    }

    fn labels_of(&self, kind: Kind) -> Result<Vec<Label>, AllocError>
        ensures { IfOk result (λ v. All (spec.IsLabel kind P.profile (names_view self.now.objects.names.now) self.now.setup.now.plan self.now.kernel.now) v.items) }
    {
        let mut labels = Vec::new(self.objects.alloc);
        for object in self.objects.live {
            if let Some(label) = self.label(kind, *object)? {
                labels.push(label)?;
            }
        }
        for object in self.objects.slots {
            if let Some(object) = object
                && let Some(label) = self.label(kind, *object)?
            {
                labels.push(label)?;
            }
        }
        Ok(labels)
    }

    /// What the live objects are called, and those that boot put into slots.
    ///
    /// # Errors
    /// Memory was refused.
    pub fn labels(&self) -> Result<Labels, AllocError>
        ensures { IfOk result (spec.AreLabels P.profile (names_view self.now.objects.names.now) self.now.setup.now.plan self.now.kernel.now) }
    {
        Ok(Labels {
            threads: self.labels_of(Kind::Thread)?,
            endpoints: self.labels_of(Kind::Endpoint)?,
            regions: self.labels_of(Kind::Region)?,
            nodes: self.labels_of(Kind::Node)?,
        })
    }
}
