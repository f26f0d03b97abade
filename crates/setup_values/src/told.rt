//! How texts write a profile, and a thread by its address and its name.
ghost use Rattle.std.specs.Prelude.{◌≡◌, ◌==◌, Some, count_by, find, option_copied};
ghost use Rattle.setup_values.specs.Names.{names_view};
ghost use Rattle.setup_values.specs.Told as spec;

use crate::names::Name;
use cap_core::ProfileName;
use std::fmt;

/// The name of a profile.
pub fn profile_text(profile: ProfileName) -> &'static str
    ensures { result.now ≡ spec.profile_text profile }
{
    match profile {
        ProfileName::Wide => "wide",
        ProfileName::Narrow => "narrow",
    }
}

/// A thread, by its address, with the name of the set-up that stands for it, if there is one.
#[derive(Clone, Copy)]
pub struct ThreadName<'a> {
    pub address: u64,
    pub name: Option<&'a str>,
}

impl fmt::Display for ThreadName<'_> {
    ghost output = { λ t. Some (spec.named_text t.address (option_copied t.name)) };

    fn fmt<W: fmt::Write>(&self, f: &mut fmt::Formatter<W>) -> fmt::Result {
        let address = self.address;
        match self.name {
            None => write!(f, "{address}"),
            Some(name) => write!(f, "{address} @{name}"),
        }
    }
}

fn count_named(names: &[Name], value: u64) -> usize
    ensures { result ≡ count_by (λ n. n.word == value) names.now }
{
    let mut count = 0;
    for name in names {
        if name.word == value {
            count += 1;
        }
    }
    count
}

fn first_named(names: &[Name], value: u64) -> Option<&Name>
    ensures { option_copied result ≡ find (λ n. n.word == value) names.now }
{
    for name in names {
        if name.word == value {
            return Some(name);
        }
    }
    None
}

/// The name of a value: if exactly one name of the set-up has it.
#[tactic(auto, using(crate::proofs::Named::not_one))]
fn name_of(names: &[Name], value: u64) -> Option<&str>
    ensures { option_copied result ≡ spec.name_of (names_view names.entry.now) value }
{
    if count_named(names, value) != 1 {
        return None;
    }
    match first_named(names, value) {
        None => None,
        Some(name) => Some(name.text.as_str()),
    }
}

/// The thread at an address, with its name.
pub fn thread_name(names: &[Name], address: u64) -> ThreadName<'_>
    ensures address { result.address ≡ address }
    ensures name { option_copied result.name ≡ spec.name_of (names_view names.entry.now) address }
{
    let name = name_of(names, address);
    ThreadName { address, name }
}
