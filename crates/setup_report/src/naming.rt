//! How texts name objects, slots and threads: by addresses, or by names.
ghost use Rattle.std.specs.Prelude.{◌≡◌, IfOk, Some};
ghost use Rattle.kernel_abstract.specs.Plan.{IsPlan};
ghost use Rattle.setup_values.specs.Names.{names_view};
ghost use Rattle.setup_report.specs.Naming as spec;

use crate::known::ObjectNames;
use crate::objects::{Object, boot_rows, live_nodes};
use cap_core::Profile;
use ipc_core::MakeWaiters;
use kernel_core::{BootPlan, Kernel};
use setup_values::{Name, ThreadName, thread_name};
use slot_core::{DerivationStore, MakeStore};
use std::alloc::{AllocError, Global};
use std::fmt;

/// How addresses are written.
#[derive(Drop)]
pub enum Naming<'a> {
    /// As numbers, a thread that a line is about also by its name.
    Addresses(&'a [Name]),
    /// By the name of the object that is there, if it has one.
    Named(ObjectNames<'a>),
}

/// An address, as it is written.
#[derive(Clone, Copy)]
pub enum Told<'a> {
    /// As a number.
    Number(u64),
    /// As a number with a name after it, if there is one.
    Thread(ThreadName<'a>),
    /// By the name of the object.
    Name(&'a str),
    /// The slot of the CSpace of a thread of that name.
    Space(&'a str),
    /// The slot with that index of a CNode of that name.
    Index(&'a str, u64),
}

impl fmt::Display for Told<'_> {
    ghost output = { λ t. Some (spec.told_as t) };

    fn fmt<W: fmt::Write>(&self, f: &mut fmt::Formatter<W>) -> fmt::Result {
        match self {
            Told::Number(number) => write!(f, "{number}"),
            Told::Thread(thread) => write!(f, "{thread}"),
            Told::Name(name) => write!(f, "@{name}"),
            Told::Space(name) => write!(f, "@{name}.cspace"),
            Told::Index(name, index) => write!(f, "@{name}[{index}]"),
        }
    }
}

/// An object, by its name if it has one.
fn object_told<'a>(known: &'a ObjectNames<'a>, object: Object) -> Told<'a>
    ensures { spec.told_as result ≡ spec.object_told (spec.name_by known.entry.now) object }
{
    match known.name_of(object) {
        None => Told::Number(object.base()),
        Some(name) => Told::Name(name),
    }
}

/// The slot of a thread's CSpace, by the thread's name if it has one.
fn space_told<'a>(known: &'a ObjectNames<'a>, slot: u64) -> Told<'a>
    ensures { spec.told_as result ≡ spec.space_or_number slot (spec.name_by known.entry.now (Object.Thread slot)) }
{
    match known.name_of(Object::Thread(slot)) {
        None => Told::Number(slot),
        Some(name) => Told::Space(name),
    }
}

/// A slot, by the name of the CNode or of the thread that has it.
fn slot_told<'a>(known: &'a ObjectNames<'a>, slot: u64) -> Told<'a>
    ensures { spec.told_as result ≡ (spec.naming_view (Naming.Named known.entry.now)).slot slot }
{
    let Some(node) = known.node_around(slot) else {
        return space_told(known, slot);
    };
    match known.name_of(Object::CNode(node.base)) {
        None => Told::Number(slot),
        Some(name) => Told::Index(name, slot.saturating_sub(node.base) >> known.slot_bits),
    }
}

impl<'a> Naming<'a> {
    /// Addresses alone.
    pub fn plain() -> Naming<'a>
        ensures { spec.naming_view result ≡ spec.plain }
    {
        Naming::Addresses(&[])
    }

    /// How a kernel's state is written: by the names of its objects, or by addresses.
    pub fn of<P: Profile, S: MakeStore<P> + DerivationStore<P>, W: MakeWaiters<P>>(
        alloc: Global,
        by_name: bool,
        names: &'a [Name],
        plan: &BootPlan,
        kernel: &Kernel<P, S, W>,
    ) -> Result<Naming<'a>, AllocError>
        requires { IsPlan P.profile plan.now }
        ensures { IfOk result (λ naming. spec.naming_view naming ≡ spec.texts_of by_name P.profile (names_view names.now) plan.now kernel.now) }
    {
        if !by_name {
            return Ok(Naming::Addresses(names));
        }
        let boot = boot_rows::<P, S, W>(alloc, plan)?;
        let rows = kernel.derivations(alloc)?;
        let nodes = live_nodes(alloc, rows.as_slice())?;
        let known = ObjectNames::new::<P>(names, plan, boot, nodes);
        Ok(Naming::Named(known))
    }

    /// How a report names a kernel's state: by addresses alone, or by the names of its objects.
    pub fn in_report<P: Profile, S: MakeStore<P> + DerivationStore<P>, W: MakeWaiters<P>>(
        alloc: Global,
        by_name: bool,
        names: &'a [Name],
        plan: &BootPlan,
        kernel: &Kernel<P, S, W>,
    ) -> Result<Naming<'a>, AllocError>
        requires { IsPlan P.profile plan.now }
        ensures { IfOk result (λ naming. spec.naming_view naming ≡ spec.report_texts by_name P.profile (names_view names.now) plan.now kernel.now) }
    {
        if by_name {
            Naming::of::<P, S, W>(alloc, true, names, plan, kernel)
        } else {
            Ok(Naming::plain())
        }
    }

    /// Whether names stand in place of addresses.
    pub fn is_by_name(&self) -> bool
        ensures { result ≡ (spec.naming_view self.now).by_name }
    {
        matches!(self, Naming::Named(_))
    }

    /// The thread that a line is about.
    pub fn about(&self, address: u64) -> Told<'_>
        ensures { spec.told_as result ≡ (spec.naming_view self.entry.now).about address }
    {
        match self {
            Naming::Addresses(names) => Told::Thread(thread_name(names, address)),
            Naming::Named(known) => object_told(known, Object::Thread(address)),
        }
    }

    /// Another object.
    pub fn object(&self, object: Object) -> Told<'_>
        ensures { spec.told_as result ≡ (spec.naming_view self.entry.now).object object }
    {
        match self {
            Naming::Addresses(_) => Told::Number(object.base()),
            Naming::Named(known) => object_told(known, object),
        }
    }

    /// A slot.
    pub fn slot(&self, address: u64) -> Told<'_>
        ensures { spec.told_as result ≡ (spec.naming_view self.entry.now).slot address }
    {
        match self {
            Naming::Addresses(_) => Told::Number(address),
            Naming::Named(known) => slot_told(known, address),
        }
    }
}
