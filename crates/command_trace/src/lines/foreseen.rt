//! What is known of a call before it is made, and what is told of it then.
ghost use Rattle.std.specs.Prelude.{◌≡◌, ◌++◌, true, IfOk, OnOk, string_bytes};
ghost use Rattle.cap_core.specs.Objects.{badge_of as badge_in};
ghost use Rattle.kernel_forest.specs.Entries.{cap_at, first_child};
ghost use Rattle.kernel_forest.specs.Derivation.{is_new_original};
ghost use Rattle.kernel_abstract.specs.declared.call.Call.{Call};
ghost use Rattle.kernel_abstract.specs.State.{State, shown};
ghost use Rattle.setup_report.specs.Naming.{naming_view};
ghost use Rattle.command_trace.specs.Told.{told_changes, told_lines};
ghost use Rattle.command_trace.specs.Views.{IsStateTold};
ghost use Rattle.command_trace.specs.Foreseen as spec;

use crate::lines::derived::add_derived;
use crate::lines::told::{Told, tell_call, told_of};
use cap_core::{Cap, Profile};
use ipc_core::Waiters;
use kernel_core::invocation::{CapPlacement, Invocation};
use kernel_core::{Kernel, Reason, Reply};
use setup_report::Naming;
use slot_core::DerivationStore;
use std::alloc::{AllocError, Global};

/// A capability of a thread or of an endpoint that a call derives: from where and to where, whether it is original, and the
/// newest child that the source has till then.
#[derive(Clone, Copy)]
pub struct DerivedCap {
    pub placement: CapPlacement,
    pub original: bool,
    pub next: Option<u64>,
}

/// What a call can change of a state.
#[derive(Drop)]
pub enum Foreseen {
    /// Nothing, for it is refused. What was told of the state is kept, where it is known.
    Refused(Option<Told>),
    /// The capability is derived, and what was told of the state is not needed.
    Derived(DerivedCap),
    /// Anything: what was told of the state is compared with what is told after the call.
    Any(Told),
}

fn names_live(cap: Cap) -> bool
    ensures { result ≡ spec.names_live cap }
{
    match cap {
        Cap::Endpoint { .. } | Cap::Tcb { .. } => true,
        Cap::Null | Cap::Untyped { .. } | Cap::CNode { .. } => false,
    }
}

fn badge_of(cap: Cap) -> u64
    ensures { result ≡ badge_in cap }
{
    match cap {
        Cap::Endpoint { badge, .. } => badge.0,
        _ => 0,
    }
}

fn derived_cap<P: Profile, S: DerivationStore<P> + Drop, W: Waiters<P> + Drop>(
    placement: CapPlacement,
    kernel: &Kernel<P, S, W>,
) -> DerivedCap
    requires live { spec.names_live placement.cap ≡ true }
    ensures placement { result.placement ≡ placement }
    ensures original { result.original ≡ is_new_original (cap_at kernel.now.derivations placement.source) placement.cap }
    ensures next { result.next ≡ first_child placement.source kernel.now.derivations }
{
    let from = kernel.cap_at(placement.source);
    DerivedCap {
        placement,
        original: badge_of(placement.cap) != badge_of(from),
        next: kernel.first_child(placement.source),
    }
}

/// What was told of a kernel's state, read again where it is not kept.
fn known<P: Profile, S: DerivationStore<P> + Drop, W: Waiters<P> + Drop>(
    alloc: Global,
    naming: &Naming<'_>,
    told: Option<Told>,
    kernel: &Kernel<P, S, W>,
) -> Result<Told, AllocError>
    requires { spec.IsKept (naming_view naming.now) P.profile kernel.now told }
    ensures { IfOk result (IsStateTold (naming_view naming.now) P.profile kernel.now) }
{
    match told {
        Some(told) => Ok(told),
        None => {
            let slots = kernel.derivations(alloc)?;
            told_of::<P, S, W>(alloc, naming, slots, kernel)
        }
    }
}

/// What a call can change of a kernel's state, by what its checks find, before it is made. `told` is what was told of the
/// state, where that is kept.
pub fn foresee<P: Profile, S: DerivationStore<P> + Drop, W: Waiters<P> + Drop>(
    alloc: Global,
    naming: &Naming<'_>,
    told: Option<Told>,
    kernel: &Kernel<P, S, W>,
    found: Result<Invocation, Reason>,
) -> Result<Foreseen, AllocError>
    requires { spec.IsKept (naming_view naming.now) P.profile kernel.now told }
    ensures { IfOk result (spec.IsForeseen (naming_view naming.now) P.profile kernel.now found) }
{
    match found {
        Err(_) => Ok(Foreseen::Refused(told)),
        Ok(Invocation::Derive(placement)) if names_live(placement.cap) => {
            Ok(Foreseen::Derived(derived_cap::<P, S, W>(placement, kernel)))
        }
        Ok(_) => Ok(Foreseen::Any(known::<P, S, W>(alloc, naming, told, kernel)?)),
    }
}

/// Tells what a call changed that was foreseen, and was made then: what was told of the state, where it is kept.
pub fn tell_made<P: Profile, S: DerivationStore<P> + Drop, W: Waiters<P> + Drop>(
    alloc: Global,
    out: &mut String,
    naming: &Naming<'_>,
    foreseen: Foreseen,
    kernel: &Kernel<P, S, W>,
    reply: Reply,
) -> Result<Option<Told>, AllocError>
    requires { (A : State) × (call : Call) × spec.IsMade (naming_view naming.now) P.profile A call reply kernel.now foreseen }
    ensures text { OnOk result ((A : State) (call : Call) → spec.IsMade (naming_view naming.now) P.profile A call reply kernel.now foreseen
        → string_bytes out.new ≡ string_bytes out.old
        ++ told_changes (told_lines (naming_view naming.now) P.profile (shown A)) (told_lines (naming_view naming.now) P.profile kernel.now)) }
    ensures told { IfOk result (spec.IsKept (naming_view naming.now) P.profile kernel.now) }
{
    match foreseen {
        Foreseen::Refused(told) => Ok(told),
        Foreseen::Derived(new) => {
            add_derived::<P, S, W>(alloc, out, naming, new, kernel)?;
            Ok(None)
        }
        Foreseen::Any(told) => {
            let told = tell_call::<P, S, W>(alloc, out, naming, told, kernel, reply)?;
            Ok(Some(told))
        }
    }
}
