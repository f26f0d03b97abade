//! The object that a word stands for.
ghost use Rattle.std.specs.Prelude.{◌≡◌, ◌^◌, ◌*◌, ◌<◌, ◌≤◌, ◌++◌, [], IfOk, OnOk, is_some, map};
ghost use Rattle.std.specs.List.{cons_option, filter_map, list_all};
ghost use Rattle.cap_core.specs.Numbers.{slot_size as slot_size_of};
ghost use Rattle.kernel_abstract.specs.Plan.{IsWithinLimits};
ghost use Rattle.setup_values.specs.Names.{names_view};
ghost use Rattle.setup_report.specs.Meant as spec;

use crate::meanings::words::number_meant;
use cap_core::{Cap, Profile};
use ipc_core::Waiters;
use kernel_boot::BootPlan;
use kernel_core::Kernel;
use setup_format::Setup;
use setup_values::Name;
use slot_core::CapStore;
use std::alloc::{AllocError, Global};

/// The first slot of the root CNode that boot puts a thread into.
const FIRST_THREAD: u64 = 2;

/// What kind of object a word is asked to stand for.
#[derive(Clone, Copy, PartialEq, Eq, Debug)]
pub enum ObjectKind {
    /// A thread, by its control block.
    Thread,
    /// An endpoint.
    Endpoint,
    /// An untyped region.
    Region,
}

/// The address of the object that a capability names, if it is of the kind.
fn object_of(kind: ObjectKind, cap: Cap) -> Option<u64>
    ensures { result ≡ spec.object_of_kind kind cap }
{
    match (kind, cap) {
        (ObjectKind::Thread, Cap::Tcb { base }) => Some(base),
        (ObjectKind::Endpoint, Cap::Endpoint { base, .. }) => Some(base),
        (ObjectKind::Region, Cap::Untyped { base, .. }) => Some(base),
        _ => None,
    }
}

/// The first slot of the root CNode that boot puts an endpoint into, if it makes one.
fn first_endpoint<P: Profile>(plan: &BootPlan) -> u64
    requires { IsWithinLimits P.profile plan.now }
    ensures { result ≡ spec.first_endpoint plan.now }
{
    FIRST_THREAD + u64::from(plan.threads())
}

/// The first slot of the root CNode that boot puts a region into, if there is one.
fn first_region<P: Profile>(plan: &BootPlan) -> u64
    requires { IsWithinLimits P.profile plan.now }
    ensures { result ≡ spec.first_region plan.now }
{
    first_endpoint::<P>(plan) + u64::from(plan.endpoints())
}

/// Whether boot puts a thread, an endpoint or a region into the slot.
fn is_boot_slot<P: Profile>(plan: &BootPlan, index: u64) -> bool
    requires { IsWithinLimits P.profile plan.now }
    ensures { result ≡ spec.is_boot_slot plan.now index }
{
    index >= FIRST_THREAD && index < first_region::<P>(plan) + plan.untypeds().len() as u64
}

fn boot_thread<P: Profile>(plan: &BootPlan, index: u64) -> Option<u64>
    requires { IsWithinLimits P.profile plan.now }
    ensures { result ≡ spec.thread_of_boot_slot P.profile plan.now index }
{
    if index >= FIRST_THREAD && index < first_endpoint::<P>(plan) {
        Some(plan.tcb_place::<P>((index - FIRST_THREAD) as u32))
    } else {
        None
    }
}

fn boot_endpoint<P: Profile>(plan: &BootPlan, index: u64) -> Option<u64>
    requires { IsWithinLimits P.profile plan.now }
    ensures { result ≡ spec.boot_endpoint P.profile plan.now index }
{
    let first = first_endpoint::<P>(plan);
    if index >= first && index < first_region::<P>(plan) {
        Some(plan.endpoint_place::<P>((index - first) as u32))
    } else {
        None
    }
}

fn boot_region<P: Profile>(plan: &BootPlan, index: u64) -> Option<u64>
    requires { IsWithinLimits P.profile plan.now }
    ensures { result ≡ spec.boot_region plan.now index }
{
    let first = first_region::<P>(plan);
    if index < first {
        return None;
    }
    let region = plan.untypeds().get((index - first) as usize)?;
    Some(region.0)
}

/// The address of the object that boot puts into a slot of the root CNode, if it is of the kind.
fn boot_object<P: Profile>(plan: &BootPlan, kind: ObjectKind, index: u64) -> Option<u64>
    requires { IsWithinLimits P.profile plan.now }
    ensures { result ≡ spec.boot_object kind P.profile plan.now index }
{
    match kind {
        ObjectKind::Thread => boot_thread::<P>(plan, index),
        ObjectKind::Endpoint => boot_endpoint::<P>(plan, index),
        ObjectKind::Region => boot_region::<P>(plan, index),
    }
}

/// How many slots the root CNode has.
pub(crate) fn slot_count<P: Profile>(plan: &BootPlan) -> u64
    requires { IsWithinLimits P.profile plan.now }
    ensures count { result ≡ 2 ^ plan.now.root_radix }
    ensures small { result ≤ 4096 }
{
    1 << plan.root_radix()
}

/// The address of a slot of the root CNode.
pub(crate) fn slot_address<P: Profile>(index: u64) -> u64
    requires { index < 2 ^ 32 }
    ensures { result ≡ slot_size_of P.profile * index }
{
    index << P::SLOT_BITS
}

/// The object that a slot of the root CNode stands for.
fn in_slot<P: Profile, S: CapStore<P> + Drop, W: Waiters<P> + Drop>(
    plan: &BootPlan,
    kernel: &Kernel<P, S, W>,
    kind: ObjectKind,
    index: u64,
) -> Option<u64>
    requires limits { IsWithinLimits P.profile plan.now }
    requires slot { index < 2 ^ 32 }
    ensures { result ≡ spec.in_slot kind P.profile plan.now kernel.now index }
{
    if is_boot_slot::<P>(plan, index) {
        boot_object::<P>(plan, kind, index)
    } else {
        object_of(kind, kernel.cap_at(slot_address::<P>(index)))
    }
}

/// The object that a number stands for.
fn object_at<P: Profile, S: CapStore<P> + Drop, W: Waiters<P> + Drop>(
    plan: &BootPlan,
    kernel: &Kernel<P, S, W>,
    kind: ObjectKind,
    number: u64,
) -> Option<u64>
    requires { IsWithinLimits P.profile plan.now }
    ensures { result ≡ spec.object_or_address kind P.profile plan.now kernel.now number }
{
    if number < slot_count::<P>(plan) {
        in_slot::<P, S, W>(plan, kernel, kind, number)
    } else {
        Some(number)
    }
}

/// The address of the object of a kind that a word stands for. A word is a number in decimal digits, or a name of the set-up, also
/// behind a `@`. A number below the count of the root CNode's slots is one of them: it stands for the thread, the endpoint or the
/// region that boot put there, and another slot for what it holds in the kernel. Every other number is an address, of whatever is
/// there. `None` if the word is neither a number nor a name, and if the slot has nothing of the kind.
pub fn object_meant<P: Profile, S: CapStore<P> + Drop, W: Waiters<P> + Drop>(
    names: &[Name],
    setup: &Setup,
    kernel: &Kernel<P, S, W>,
    kind: ObjectKind,
    word: &[u8],
) -> Option<u64>
    requires { IsWithinLimits P.profile setup.now.plan }
    ensures { result ≡ spec.object_meant kind P.profile (names_view names.now) setup.now.plan kernel.now word.now }
{
    let number = number_meant(names, word)?;
    object_at::<P, S, W>(setup.plan(), kernel, kind, number)
}

/// Whether each of some words stands for an object of the kind, word by word.
fn each_is_meant<P: Profile, S: CapStore<P> + Drop, W: Waiters<P> + Drop>(
    names: &[Name],
    setup: &Setup,
    kernel: &Kernel<P, S, W>,
    kind: ObjectKind,
    words: &[&str],
) -> bool
    requires { IsWithinLimits P.profile setup.now.plan }
    ensures { result ≡ list_all (λ w. is_some (spec.object_meant kind P.profile (names_view names.now) setup.now.plan kernel.now w.now)) words.now }
{
    for word in words {
        if object_meant::<P, S, W>(names, setup, kernel, kind, word.as_bytes()).is_none() {
            return false;
        }
    }
    true
}

/// Whether each of some words stands for an object of the kind.
pub fn are_meant<P: Profile, S: CapStore<P> + Drop, W: Waiters<P> + Drop>(
    names: &[Name],
    setup: &Setup,
    kernel: &Kernel<P, S, W>,
    kind: ObjectKind,
    words: &[&str],
) -> bool
    requires { IsWithinLimits P.profile setup.now.plan }
    ensures { result ≡ spec.are_meant kind P.profile (names_view names.now) setup.now.plan kernel.now (map (λ w. w.now) words.now) }
{
    each_is_meant::<P, S, W>(names, setup, kernel, kind, words)
}

/// Adds an object, if there is one.
fn add_meant(objects: &mut Vec<u64>, object: Option<u64>) -> Result<(), AllocError>
    ensures { OnOk result (objects.new.items ≡ objects.old.items ++ cons_option object []) }
{
    match object {
        Some(object) => Ok(objects.push(object)?),
        None => Ok(()),
    }
}

/// The objects of the kind that some words stand for, word by word.
fn each_meant<P: Profile, S: CapStore<P> + Drop, W: Waiters<P> + Drop>(
    alloc: Global,
    names: &[Name],
    setup: &Setup,
    kernel: &Kernel<P, S, W>,
    kind: ObjectKind,
    words: &[&str],
) -> Result<Vec<u64>, AllocError>
    requires { IsWithinLimits P.profile setup.now.plan }
    ensures { IfOk result (λ v. v.items ≡ filter_map (λ w. spec.object_meant kind P.profile (names_view names.now) setup.now.plan kernel.now w.now) words.now) }
{
    let mut objects = Vec::new(alloc);
    for word in words {
        let object = object_meant::<P, S, W>(names, setup, kernel, kind, word.as_bytes());
        add_meant(&mut objects, object)?;
    }
    Ok(objects)
}

/// The objects of the kind that some words stand for, in the order of the words.
pub fn objects_meant<P: Profile, S: CapStore<P> + Drop, W: Waiters<P> + Drop>(
    alloc: Global,
    names: &[Name],
    setup: &Setup,
    kernel: &Kernel<P, S, W>,
    kind: ObjectKind,
    words: &[&str],
) -> Result<Vec<u64>, AllocError>
    requires { IsWithinLimits P.profile setup.now.plan }
    ensures { IfOk result (λ v. v.items ≡ spec.objects_meant kind P.profile (names_view names.now) setup.now.plan kernel.now (map (λ w. w.now) words.now)) }
{
    each_meant::<P, S, W>(alloc, names, setup, kernel, kind, words)
}
