//! What a set-up is.
ghost use Rattle.std.specs.Prelude.{◌≡◌, ◌<◌, ◌≤◌, map, length, Some, option_map, option_copied, slice_get};

use cap_core::ProfileName;
use cap_core::limits::{MAX_MEMORY_BITS, MIN_MEMORY_BITS};
use kernel_abstract::Call;
use kernel_boot::BootPlan;
use setup_values::Name;
pub use setup_values::{OpName, Words};
use std::alloc::{AllocError, Global};
use std::marker::Model;

/// The sizes of a boot plan.
#[derive(Clone, Copy)]
pub struct Sizes {
    pub memory_bits: u32,
    pub root_radix: u32,
    pub threads: u32,
    pub endpoints: u32,
}

/// The client that makes a call, and how it expects the reply to begin.
#[derive(Drop)]
pub struct Caller {
    pub client: u32,
    pub expect: Option<String>,
}

/// The calls of a set-up, in order, and beside each its caller.
#[derive(Drop)]
pub struct SetupCalls {
    calls: Vec<Call>,
    callers: Vec<Caller>,
}

impl Model for SetupCalls {
    ghost use Rattle.std.specs.Prelude.{◌≡◌, List, length};
    ghost use Rattle.setup_format.specs.Views.{CallView};
    ghost use Rattle.setup_format.specs.Views.{call_views};

    ghost Value = { List CallView };

    ghost view = { λ s. call_views s.calls.items s.callers.items };

    ghost invariant = { λ s. length s.calls.items ≡ length s.callers.items };
}

impl SetupCalls {
    ghost use Rattle.std.specs.Prelude.{[], ◌∷◌, ◌++◌, OnOk};
    ghost use Rattle.setup_format.specs.Views.{call_view};

    pub fn new(alloc: Global) -> SetupCalls
        ensures { result ≡ [] }
    {
        SetupCalls {
            calls: Vec::new(alloc),
            callers: Vec::new(alloc),
        }
    }

    pub fn push(&mut self, call: Call, caller: Caller) -> Result<(), AllocError>
        ensures { OnOk result (self.new ≡ self.old ++ call_view call caller ∷ []) }
    {
        self.calls.reserve(1)?;
        self.callers.reserve(1)?;
        self.calls.push_reserved(call);
        self.callers.push_reserved(caller);
        Ok(())
    }

    pub fn len(&self) -> usize
        ensures { result ≡ length self.now }
    {
        self.calls.len()
    }

    pub fn calls(&self) -> &[Call]
        ensures { result.now ≡ map (λ c. c.call) self.now }
    {
        self.calls.as_slice()
    }

    pub fn client_of(&self, i: usize) -> u32
        requires { i < length self.now }
        ensures { option_map (λ c. c.client) (slice_get self.now i) ≡ Some result }
    {
        self.callers[i].client
    }

    pub fn expect(&self, i: usize) -> Option<&str>
        requires { i < length self.now }
        ensures { option_map (λ c. c.expect) (slice_get self.now i) ≡ Some (option_copied result) }
    {
        match &self.callers[i].expect {
            None => None,
            Some(text) => Some(text.as_str()),
        }
    }
}

/// A set-up: the profile of the machine, the plan of a boot, whose memory has 2^`MIN_MEMORY_BITS` to 2^`MAX_MEMORY_BITS`
/// bytes, and the calls that are then made.
#[derive(Drop)]
pub struct Setup {
    profile: ProfileName,
    plan: BootPlan,
    clients: u32,
    limit: u32,
    calls: SetupCalls,
}

/// A set-up as it was read: its text, and the names by which it is spelt, in the order of their bytes. Neither is a part of what the
/// set-up means. Who needs the table of the text makes it anew by `table_of`: few do, and a parsed table is what costs all others.
#[derive(Drop)]
pub struct ReadSetup {
    pub text: Vec<u8>,
    pub names: Vec<Name>,
    pub setup: Setup,
}

impl Model for Setup {
    ghost use Rattle.std.specs.Prelude.{◌≤◌};
    ghost use Rattle.cap_core.specs.declared.limits.TheConstants.{MIN_MEMORY_BITS, MAX_MEMORY_BITS};
    ghost use Rattle.setup_format.specs.Views.{SetupView, IsWithinBounds};
    ghost use Rattle.setup_format.specs.Views.{setup_view};

    ghost Value = { SetupView };

    ghost view = { λ s. setup_view s.profile s.plan s.clients s.limit s.calls };

    ghost invariant = { λ s. (MIN_MEMORY_BITS ≤ s.plan.memory_bits) × ((s.plan.memory_bits ≤ MAX_MEMORY_BITS) × IsWithinBounds (setup_view s.profile s.plan s.clients s.limit s.calls)) };
}

impl Setup {
    ghost use Rattle.setup_format.specs.Views.{IsWithinBounds};
    ghost use Rattle.setup_format.specs.Views.{setup_view};

    pub(crate) fn new(
        profile: ProfileName,
        plan: BootPlan,
        clients: u32,
        limit: u32,
        calls: SetupCalls,
    ) -> Setup
        requires least { MIN_MEMORY_BITS ≤ plan.memory_bits }
        requires most { plan.memory_bits ≤ MAX_MEMORY_BITS }
        requires bounds { IsWithinBounds (setup_view profile plan clients limit calls) }
        ensures { result ≡ setup_view profile plan clients limit calls }
    {
        Setup {
            profile,
            plan,
            clients,
            limit,
            calls,
        }
    }

    /// Which machine it is a set-up of.
    pub fn profile(&self) -> ProfileName
        ensures { result ≡ self.now.profile }
    {
        self.profile
    }

    /// What the kernel is booted from.
    pub fn plan(&self) -> &BootPlan
        ensures plan { result.now ≡ self.now.plan }
        ensures least { MIN_MEMORY_BITS ≤ self.now.plan.memory_bits }
        ensures most { self.now.plan.memory_bits ≤ MAX_MEMORY_BITS }
    {
        &self.plan
    }

    /// How many clients make the calls.
    pub fn clients(&self) -> u32
        ensures clients { result ≡ self.now.clients }
        ensures bounds { IsWithinBounds self.now }
    {
        self.clients
    }

    /// The most entries of a history of the calls.
    pub fn limit(&self) -> u32
        ensures limit { result ≡ self.now.limit }
        ensures bounds { IsWithinBounds self.now }
    {
        self.limit
    }

    /// The calls, in order.
    pub fn calls(&self) -> &[Call]
        ensures { result.now ≡ map (λ c. c.call) self.now.calls }
    {
        self.calls.calls()
    }

    /// The client that makes the call at place `i`, 0 the first.
    pub fn client_of(&self, i: usize) -> u32
        requires { i < length self.now.calls }
        ensures { option_map (λ c. c.client) (slice_get self.now.calls i) ≡ Some result }
    {
        self.calls.client_of(i)
    }

    /// How the reply to the call at place `i`, 0 the first, is expected to begin; `None` if nothing is expected.
    pub fn expect(&self, i: usize) -> Option<&str>
        requires { i < length self.now.calls }
        ensures { option_map (λ c. c.expect) (slice_get self.now.calls i) ≡ Some (option_copied result) }
    {
        self.calls.expect(i)
    }
}
