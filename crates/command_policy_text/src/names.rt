//! How objects, groups, badges and rights are told.
ghost use Rattle.std.specs.Prelude.{◌≡◌, Some, IfOk, codes, option_copied, option_map, string_bytes, slice_get, map, filter};
ghost use Rattle.command_policy_text.specs.Names as spec;

use command_policy_breaches::{Layout, groups_at};
use command_policy_places::label_of;
use list_questions::{Line, add_each};
use setup_policy::{Label, Policy, PolicyVersion};
use std::alloc::{AllocError, Global};
use std::fmt;
use std::fmt::Write;

/// An object: by its name, behind a `@`, or by its address.
#[derive(Clone, Copy)]
pub struct ObjectText<'a> {
    base: u64,
    label: Option<&'a str>,
}

impl fmt::Display for ObjectText<'_> {
    ghost output = { λ o. Some (spec.labelled o.base (option_copied o.label)) };

    fn fmt<W: fmt::Write>(&self, f: &mut fmt::Formatter<W>) -> fmt::Result {
        let base = self.base;
        match self.label {
            None => write!(f, "{base}"),
            Some(label) => write!(f, "@{label}"),
        }
    }
}

/// The object at an address.
pub fn object(labels: &[Label], base: u64) -> ObjectText<'_>
    ensures base { result.base ≡ base }
    ensures label { option_copied result.label ≡ spec.label_of labels.entry.now base }
{
    let label = label_of(labels, base);
    ObjectText { base, label }
}

/// What an actor is called.
pub fn actor_name(policy: &Policy, actor: u64) -> &str
    ensures { result.now ≡ spec.actor_name policy.entry.now actor }
{
    match policy.actors.as_slice().get(actor as usize) {
        None => "",
        Some(name) => name.as_str(),
    }
}

/// The number of the version that a policy is of.
pub fn version_text(version: PolicyVersion) -> &'static str
    ensures { result.now ≡ spec.version_text version }
{
    match version {
        PolicyVersion::One => "1",
        PolicyVersion::Two => "2",
    }
}

/// What an actor is called, behind another.
#[derive(Clone, Copy)]
struct NameBehind<'a> {
    policy: &'a Policy,
}

impl Line<u64> for NameBehind<'_> {
    ghost line = { λ l actor. spec.behind l.policy.now actor };

    fn add(&self, out: &mut String, actor: &u64) -> Result<(), AllocError> {
        let name = actor_name(self.policy, *actor);
        write!(out, "+{name}")
    }
}

/// Some groups, with a `+` between two of them.
pub fn label(alloc: Global, policy: &Policy, groups: &[u64]) -> Result<String, AllocError>
    ensures { IfOk result (λ s. string_bytes s ≡ spec.joined_names policy.now groups.now) }
{
    match groups {
        [] => Ok(String::new(alloc)),
        [first, rest @ ..] => {
            let mut out = String::from_str(alloc, actor_name(policy, *first))?;
            add_each(&mut out, rest, &NameBehind { policy })?;
            Ok(out)
        }
    }
}

/// The groups of a part.
pub fn part_label(
    alloc: Global,
    policy: &Policy,
    layout: &Layout,
    part: u64,
) -> Result<String, AllocError>
    ensures { IfOk result (λ s. string_bytes s ≡ spec.part_label policy.now layout.now part) }
{
    let groups = groups_at(alloc, layout.homes.as_slice(), part)?;
    label(alloc, policy, groups.as_slice())
}

/// A number, behind another.
#[derive(Clone, Copy)]
struct NumberBehind;

impl Line<u64> for NumberBehind {
    ghost line = { λ l number. spec.number_behind number };

    fn add(&self, out: &mut String, number: &u64) -> Result<(), AllocError> {
        write!(out, ",{number}")
    }
}

/// Some numbers, with a comma between two of them.
pub fn numbers_text(alloc: Global, numbers: &[u64]) -> Result<String, AllocError>
    ensures { IfOk result (λ s. string_bytes s ≡ spec.numbers_with_commas numbers.now) }
{
    match numbers {
        [] => Ok(String::new(alloc)),
        [first, rest @ ..] => {
            let mut out = format!(in alloc; "{first}")?;
            add_each(&mut out, rest, &NumberBehind)?;
            Ok(out)
        }
    }
}

/// Which of the four rights are there.
#[derive(Clone, Copy)]
pub struct Letters {
    pub write: bool,
    pub read: bool,
    pub grant: bool,
    pub grant_reply: bool,
}

fn letter(is_there: bool, letter: &'static str) -> &'static str
    ensures { result.now ≡ spec.right_letter is_there letter.now }
{
    if is_there { letter } else { "-" }
}

impl fmt::Display for Letters {
    ghost output = { λ l. Some (spec.letters_text l) };

    fn fmt<W: fmt::Write>(&self, f: &mut fmt::Formatter<W>) -> fmt::Result {
        let write = letter(self.write, "w");
        let read = letter(self.read, "r");
        let grant = letter(self.grant, "g");
        let grant_reply = letter(self.grant_reply, "p");
        write!(f, "{write}{read}{grant}{grant_reply}")
    }
}
