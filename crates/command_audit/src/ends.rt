//! The objects that end with a revoke.
ghost use Rattle.std.specs.Prelude.{◌≡◌, ◌++◌, IfOk, OnOk, flat_map, map, string_bytes};
ghost use Rattle.kernel_forest.specs.Derivation.{names_same as name_one};
ghost use Rattle.kernel_forest.specs.Entries.{derivations_of};
ghost use Rattle.slot_core.specs.Calls.{derivation_view};
ghost use Rattle.setup_report.specs.State.{rising};
ghost use Rattle.setup_report.specs.Naming.{naming_view};
ghost use Rattle.command_audit.specs.Ends as spec;

use cap_core::{Cap, Profile, same_object};
use ipc_core::Waiters;
use kernel_core::Kernel;
use query_revoke::NamedObjects;
use setup_report::{Naming, Object};
use slot_core::{CapStore, Derivation};
use std::alloc::{AllocError, Global};
use std::collections::BTreeSet;
use std::fmt::Write;

/// What is asked of a capability.
#[derive(Clone, Copy)]
pub enum Asked {
    /// The address of the thread that it names.
    Thread,
    /// The address of the endpoint that it names.
    Endpoint,
    /// The address of the CNode that it names.
    CNode,
    /// The address of the untyped region that it names.
    Untyped,
    /// The bits of the size of the untyped region that it names at an address.
    BitsAt(u64),
}

fn asked_of(asked: Asked, cap: Cap) -> Option<u64>
    ensures { result ≡ spec.asked_object asked cap }
{
    match (asked, cap) {
        (Asked::Thread, Cap::Tcb { base }) => Some(base),
        (Asked::Endpoint, Cap::Endpoint { base, .. }) => Some(base),
        (Asked::CNode, Cap::CNode { base, .. }) => Some(base),
        (Asked::Untyped, Cap::Untyped { base, .. }) => Some(base),
        (Asked::BitsAt(address), Cap::Untyped { base, bits, .. }) => {
            if base == address {
                Some(u64::from(bits))
            } else {
                None
            }
        }
        _ => None,
    }
}

/// The numbers that are asked of capabilities, each once.
fn numbers_asked(alloc: Global, asked: Asked, caps: &[Cap]) -> Result<BTreeSet<u64>, AllocError>
    ensures { IfOk result (λ s. s.keys ≡ rising (spec.all_asked asked caps.now)) }
{
    let mut numbers = BTreeSet::new(alloc);
    for cap in caps {
        if let Some(number) = asked_of(asked, *cap) {
            numbers.insert(number)?;
        }
    }
    Ok(numbers)
}

/// Whether both name one object, or one untyped region.
fn names_same(a: Cap, b: Cap) -> bool
    ensures { result ≡ name_one a b }
{
    match (a, b) {
        (
            Cap::Untyped { base, bits, .. },
            Cap::Untyped {
                base: other,
                bits: size,
                ..
            },
        ) => base == other && bits == size,
        _ => same_object(a, b),
    }
}

/// Adds the capability in a full slot of an earlier state, where no slot of a kernel names its object. `left` has the full
/// slots of the kernel: what the slot itself holds then is looked at first.
fn add_ended<P: Profile, S: CapStore<P> + Drop, W: Waiters<P> + Drop>(
    caps: &mut Vec<Cap>,
    derivation: &Derivation,
    left: &NamedObjects,
    new: &Kernel<P, S, W>,
) -> Result<(), AllocError>
    requires { map (derivation_view P.profile) left.now ≡ derivations_of new.now.derivations }
    ensures { OnOk result (caps.new.items ≡ caps.old.items ++ spec.where_ended derivation.now.cap (map (derivation_view P.profile) left.now)) }
{
    let cap = derivation.cap;
    if names_same(new.cap_at(derivation.slot.address::<P>()), cap) {
        return Ok(());
    }
    if left.contains(cap) {
        return Ok(());
    }
    caps.push(cap)?;
    Ok(())
}

/// The capabilities in full slots of a state that name objects which no slot of a later one names. `old` has the full slots
/// before, and `left` those of the kernel after.
pub fn ended_caps<P: Profile, S: CapStore<P> + Drop, W: Waiters<P> + Drop>(
    alloc: Global,
    old: &[Derivation],
    left: &NamedObjects,
    new: &Kernel<P, S, W>,
) -> Result<Vec<Cap>, AllocError>
    requires { map (derivation_view P.profile) left.now ≡ derivations_of new.now.derivations }
    ensures { IfOk result (λ caps. caps.items ≡ spec.ended_capabilities (map (derivation_view P.profile) old.now) (map (derivation_view P.profile) left.now)) }
{
    let mut caps = Vec::new(alloc);
    for derivation in old {
        add_ended::<P, S, W>(&mut caps, derivation, left, new)?;
    }
    Ok(caps)
}

fn add_thread(out: &mut String, naming: &Naming<'_>, address: u64) -> Result<(), AllocError>
    ensures { OnOk result (string_bytes out.new ≡ string_bytes out.old ++ spec.ended_thread_line (naming_view naming.now) address) }
{
    let thread = naming.about(address);
    writeln!(out, "  ends thread {thread}")
}

fn add_threads(
    out: &mut String,
    naming: &Naming<'_>,
    threads: &BTreeSet<u64>,
) -> Result<(), AllocError>
    ensures { OnOk result (string_bytes out.new ≡ string_bytes out.old
        ++ flat_map (spec.ended_thread_line (naming_view naming.now)) threads.now.keys) }
{
    for address in threads {
        add_thread(out, naming, *address)?;
    }
    Ok(())
}

/// Adds a line for an object of a kind.
fn add_object(
    out: &mut String,
    naming: &Naming<'_>,
    kind: &str,
    object: Object,
) -> Result<(), AllocError>
    ensures { OnOk result (string_bytes out.new ≡ string_bytes out.old ++ spec.object_line (naming_view naming.now) kind.now object) }
{
    let told = naming.object(object);
    writeln!(out, "  ends {kind} {told}")
}

fn add_endpoints(
    out: &mut String,
    naming: &Naming<'_>,
    endpoints: &BTreeSet<u64>,
) -> Result<(), AllocError>
    ensures { OnOk result (string_bytes out.new ≡ string_bytes out.old
        ++ flat_map (spec.ended_endpoint_line (naming_view naming.now)) endpoints.now.keys) }
{
    for address in endpoints {
        add_object(out, naming, "endpoint", Object::Endpoint(*address))?;
    }
    Ok(())
}

fn add_nodes(out: &mut String, naming: &Naming<'_>, nodes: &BTreeSet<u64>) -> Result<(), AllocError>
    ensures { OnOk result (string_bytes out.new ≡ string_bytes out.old
        ++ flat_map (spec.ended_node_line (naming_view naming.now)) nodes.now.keys) }
{
    for address in nodes {
        add_object(out, naming, "cnode", Object::CNode(*address))?;
    }
    Ok(())
}

/// Adds a line for an untyped region, and its size.
fn add_region(
    out: &mut String,
    naming: &Naming<'_>,
    address: u64,
    bits: u64,
) -> Result<(), AllocError>
    ensures { OnOk result (string_bytes out.new ≡ string_bytes out.old ++ spec.region_line (naming_view naming.now) address bits) }
{
    let region = naming.object(Object::Region(address, bits));
    writeln!(out, "  ends untyped {region} bits {bits}")
}

/// Adds a line for each size of the untyped regions at an address.
fn add_sizes(
    out: &mut String,
    naming: &Naming<'_>,
    address: u64,
    sizes: &BTreeSet<u64>,
) -> Result<(), AllocError>
    ensures { OnOk result (string_bytes out.new ≡ string_bytes out.old ++ flat_map (spec.region_line (naming_view naming.now) address) sizes.now.keys) }
{
    for bits in sizes {
        add_region(out, naming, address, *bits)?;
    }
    Ok(())
}

fn add_regions(
    alloc: Global,
    out: &mut String,
    naming: &Naming<'_>,
    caps: &[Cap],
    addresses: &BTreeSet<u64>,
) -> Result<(), AllocError>
    ensures { OnOk result (string_bytes out.new ≡ string_bytes out.old ++ flat_map (spec.regions_at (naming_view naming.now) caps.now) addresses.now.keys) }
{
    for address in addresses {
        let sizes = numbers_asked(alloc, Asked::BitsAt(*address), caps)?;
        add_sizes(out, naming, *address, &sizes)?;
    }
    Ok(())
}

/// Adds a line for each object that capabilities name: threads, endpoints, CNodes and untyped regions, each kind by rising
/// address.
pub fn add_ends(
    alloc: Global,
    out: &mut String,
    naming: &Naming<'_>,
    caps: &[Cap],
) -> Result<(), AllocError>
    ensures { OnOk result (string_bytes out.new ≡ string_bytes out.old ++ spec.ends_lines (naming_view naming.now) caps.now) }
{
    let threads = numbers_asked(alloc, Asked::Thread, caps)?;
    let endpoints = numbers_asked(alloc, Asked::Endpoint, caps)?;
    let nodes = numbers_asked(alloc, Asked::CNode, caps)?;
    let regions = numbers_asked(alloc, Asked::Untyped, caps)?;
    add_threads(out, naming, &threads)?;
    add_endpoints(out, naming, &endpoints)?;
    add_nodes(out, naming, &nodes)?;
    add_regions(alloc, out, naming, caps, &regions)
}
