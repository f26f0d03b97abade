//! The job of a command line as an engine: what it makes of an input, by the options.
ghost use Rattle.std.specs.Prelude.{◌≡◌, ◌≢◌, IfErr, IfOk, map, option_map};
ghost use Rattle.command_line.specs.declared.arguments.Job.TheVariants.{Threads};
ghost use Rattle.command_check.specs.Commands.{IsAnswerTo, IsStateAnswer};
ghost use Rattle.program.specs.Jobs.{IsAudit, IsCheck, IsExplorationBy, IsHeld, IsHeldOrListed, IsImport, IsOrdersAnswer, by_of, form_of as form_of_options, happening_in, how_of, messages_of, question_of, threads_of, trust_of, without_of};
ghost use Rattle.program.specs.NewWords.{IsNewOf};
ghost use Rattle.program.specs.WitnessWords.{IsNamedWitness};
ghost use Rattle.command_never.specs.Question.{IsNever};
ghost use Rattle.command_how.specs.How.{IsHow};
ghost use Rattle.command_parts.specs.Told.{IsEver};
ghost use Rattle.command_policy_draft.specs.Drafts.{IsDraft};
ghost use Rattle.program.specs.Texts.{before_mark, behind_mark};

use crate::commas::words_in;
use crate::marks::around;
use crate::new_setup::asked_by;
use crate::witness::witness_named;
use command_audit::{SlotAudit, StateAudit};
use command_check::{Command, OnSetup, OnState, StateCommand};
use command_core::{Answer, Engine, RunFault};
use command_explore::{Explore, ExploreGroups, ExploreOptions, WriteWitness};
use command_files::{FileCheck, NamedCheck};
use command_how::{Happening, How};
use command_import::{Importer, LayoutText, Reading};
use command_line::{Job, Options};
use command_marks::{Marks, Migrator, Record};
use command_never::Question;
use command_new::Maker;
use command_parts::{Ever, Trust};
use command_policy::HeldTo;
use command_policy_draft::Draft;
use command_policy_how::BreachHow;
use command_policy_listing::Listing;
use command_trace::Trace;
use command_tree::{Form, Tree};
use command_why::Why;
use std::alloc::{AllocError, Global};

/// How many states are kept at the most, if no number is given.
const MOST_STATES: u64 = 100_000;

/// What a command makes of an input.
fn on_setup<C: Command + Drop>(alloc: Global, command: C, input: &[u8]) -> Result<Answer, RunFault>
    ensures made { IfOk result (λ made. IsAnswerTo (C.answers command) input.now made.text.items made.verdict) }
    ensures memory { IfErr result (λ fault. fault ≡ RunFault.Memory) }
{
    OnSetup { command }.make(alloc, input)
}

/// What a command makes of an input by the state after the first `after` calls, or after all.
fn on_state<C: StateCommand + Drop>(
    alloc: Global,
    command: C,
    after: Option<u64>,
    input: &[u8],
) -> Result<Answer, RunFault>
    ensures made { IfOk result (λ made. IsAnswerTo (IsStateAnswer (C.answers command) after) input.now made.text.items made.verdict) }
    ensures memory { IfErr result (λ fault. fault ≡ RunFault.Memory) }
{
    on_setup(alloc, OnState { command, after }, input)
}

/// The words of the options that name objects.
#[derive(Drop)]
struct Words<'a> {
    without: Vec<&'a str>,
    messages: Vec<&'a str>,
    by: Vec<&'a str>,
}

impl<'a> Words<'a> {
    fn of(alloc: Global, options: Options<'a>) -> Result<Words<'a>, AllocError>
        ensures without { IfOk result (λ words. map (λ w. w.now) words.without.items ≡ without_of options.entry) }
        ensures messages { IfOk result (λ words. map (λ w. w.now) words.messages.items ≡ messages_of options.entry) }
        ensures by { IfOk result (λ words. map (λ w. w.now) words.by.items ≡ by_of options.entry) }
    {
        Ok(Words {
            without: words_in(alloc, options.without)?,
            messages: words_in(alloc, options.messages)?,
            by: words_in(alloc, options.by)?,
        })
    }

    /// The words for the threads that are trusted.
    fn trust(&self) -> Trust<'_>
        ensures without { result.without.now ≡ self.now.without.items }
        ensures messages { result.messages.now ≡ self.now.messages.items }
    {
        Trust {
            without: self.without.as_slice(),
            messages: self.messages.as_slice(),
        }
    }
}

/// What threads can never get, if some are trusted.
fn make_ever(alloc: Global, options: Options<'_>, input: &[u8]) -> Result<Answer, RunFault>
    ensures made { IfOk result (λ made. IsAnswerTo (IsStateAnswer (IsEver (trust_of options.entry) options.entry.names) options.entry.after) input.now made.text.items made.verdict) }
    ensures memory { IfErr result (λ fault. fault ≡ RunFault.Memory) }
{
    let Ok(words) = Words::of(alloc, options) else {
        return Err(RunFault::Memory);
    };
    let Options { names, after, .. } = options;
    let trust = words.trust();
    on_state(alloc, Ever { trust, names }, after, input)
}

/// A policy that the layout keeps, if some threads are trusted.
fn make_draft(alloc: Global, options: Options<'_>, input: &[u8]) -> Result<Answer, RunFault>
    ensures made { IfOk result (λ made. IsAnswerTo (IsStateAnswer (IsDraft (trust_of options.entry) options.entry.after) options.entry.after) input.now made.text.items made.verdict) }
    ensures memory { IfErr result (λ fault. fault ≡ RunFault.Memory) }
{
    let Ok(words) = Words::of(alloc, options) else {
        return Err(RunFault::Memory);
    };
    let trust = words.trust();
    let after = options.after;
    on_state(alloc, Draft { trust, after }, after, input)
}

/// The audit of a state without the threads of `--without`, or of one slot.
fn make_audit(alloc: Global, options: Options<'_>, input: &[u8]) -> Result<Answer, RunFault>
    ensures made { IfOk result (λ made. IsAudit options.entry input.now made.text.items made.verdict) }
    ensures memory { IfErr result (λ fault. fault ≡ RunFault.Memory) }
{
    let Options { names, after, .. } = options;
    if let Some(slot) = options.slot {
        return on_setup(alloc, SlotAudit { slot, names, after }, input);
    }
    let Ok(words) = words_in(alloc, options.without) else {
        return Err(RunFault::Memory);
    };
    let without = words.as_slice();
    on_state(alloc, StateAudit { without, names }, after, input)
}

/// The threads that are asked about, before and after the comma; without the word for them, two empty ones.
fn two_threads<'a>(options: &Options<'a>) -> (&'a str, &'a str)
    ensures from { result.0.now ≡ before_mark 44 (threads_of options.now) }
    ensures to { result.1.now ≡ behind_mark 44 (threads_of options.now) }
{
    match options.from_to {
        Some(threads) => around(threads, ','),
        None => ("", ""),
    }
}

/// Whether the part of the first of two threads is kept from that of the other, but by the endpoints of `--by`, if some threads are
/// trusted.
fn make_never(alloc: Global, options: Options<'_>, input: &[u8]) -> Result<Answer, RunFault>
    ensures made { IfOk result (λ made. IsAnswerTo (IsStateAnswer (IsNever (question_of options.entry)) options.entry.after) input.now made.text.items made.verdict) }
    ensures memory { IfErr result (λ fault. fault ≡ RunFault.Memory) }
{
    let Ok(words) = Words::of(alloc, options) else {
        return Err(RunFault::Memory);
    };
    let ends = two_threads(&options);
    let question = Question {
        trust: words.trust(),
        from: ends.0,
        to: ends.1,
        by: words.by.as_slice(),
        names: options.names,
    };
    on_state(alloc, question, options.after, input)
}

/// What is to happen: a message, if nothing else is named.
fn happening_of(options: &Options<'_>) -> Happening
    ensures { result ≡ happening_in options.now }
{
    if options.hold {
        Happening::Hold
    } else if options.loss {
        Happening::Loss
    } else {
        Happening::Message
    }
}

/// How it could happen between two threads, but by the endpoints of `--by`, if those of `--without` make no more calls.
fn make_how(alloc: Global, options: Options<'_>, input: &[u8]) -> Result<Answer, RunFault>
    ensures made { IfOk result (λ made. IsAnswerTo (IsStateAnswer (IsHow (how_of options.entry)) options.entry.after) input.now made.text.items made.verdict) }
    ensures memory { IfErr result (λ fault. fault ≡ RunFault.Memory) }
{
    let Ok(words) = Words::of(alloc, options) else {
        return Err(RunFault::Memory);
    };
    let ends = two_threads(&options);
    let how = How {
        what: happening_of(&options),
        from: ends.0,
        to: ends.1,
        by: words.by.as_slice(),
        badge: options.badge,
        without: words.without.as_slice(),
        states: options.states,
    };
    on_state(alloc, how, options.after, input)
}

/// The layout held to the policy whose bytes these are; with `--listing`, what was read of the policy.
fn make_held_or_listed(
    alloc: Global,
    options: Options<'_>,
    policy: &[u8],
    input: &[u8],
) -> Result<Answer, RunFault>
    ensures made { IfOk result (λ made. IsHeldOrListed options.entry policy.now input.now made.text.items made.verdict) }
    ensures memory { IfErr result (λ fault. fault ≡ RunFault.Memory) }
{
    let after = options.after;
    if options.listing {
        on_setup(alloc, Listing { policy, after }, input)
    } else {
        on_setup(alloc, HeldTo { policy, after }, input)
    }
}

/// The same; with the number of a breach, how it happens.
fn make_held(
    alloc: Global,
    options: Options<'_>,
    policy: &[u8],
    input: &[u8],
) -> Result<Answer, RunFault>
    ensures made { IfOk result (λ made. IsHeld options.entry policy.now options.entry.breach input.now made.text.items made.verdict) }
    ensures memory { IfErr result (λ fault. fault ≡ RunFault.Memory) }
{
    let Options { after, states, .. } = options;
    match options.breach {
        None => make_held_or_listed(alloc, options, policy, input),
        Some(breach) => {
            let how = BreachHow {
                policy,
                breach,
                after,
                states,
            };
            on_setup(alloc, how, input)
        }
    }
}

/// The set-up of the order that a text names.
fn make_witness(
    alloc: Global,
    options: ExploreOptions,
    which: &str,
    input: &[u8],
) -> Result<Answer, RunFault>
    ensures made { IfOk result (λ made. IsNamedWitness which.now options.first options.states input.now made.text.items made.verdict) }
    ensures memory { IfErr result (λ fault. fault ≡ RunFault.Memory) }
{
    let witness = witness_named(which);
    on_setup(alloc, WriteWitness { options, witness }, input)
}

/// The report on every order, of all clients or of each group by itself.
fn make_orders(
    alloc: Global,
    options: ExploreOptions,
    ends: bool,
    names: bool,
    input: &[u8],
) -> Result<Answer, RunFault>
    ensures made { IfOk result (λ made. IsOrdersAnswer ends options.first options.states names input.now made.text.items made.verdict) }
    ensures memory { IfErr result (λ fault. fault ≡ RunFault.Memory) }
{
    if ends {
        on_setup(alloc, ExploreGroups { options, names }, input)
    } else {
        on_setup(alloc, Explore { options, names }, input)
    }
}

fn make_exploration(alloc: Global, options: Options<'_>, input: &[u8]) -> Result<Answer, RunFault>
    ensures made { IfOk result (λ made. IsExplorationBy options.entry input.now made.text.items made.verdict) }
    ensures memory { IfErr result (λ fault. fault ≡ RunFault.Memory) }
{
    let asked = ExploreOptions {
        first: options.first.unwrap_or(0) as usize,
        states: options.states.unwrap_or(MOST_STATES),
    };
    match options.witness {
        None => make_orders(alloc, asked, options.ends, options.names, input),
        Some(which) => make_witness(alloc, asked, which, input),
    }
}

/// The report of a set-up's run, by addresses or by names.
fn make_check(alloc: Global, options: Options<'_>, input: &[u8]) -> Result<Answer, RunFault>
    ensures made { IfOk result (λ made. IsCheck options.entry input.now made.text.items made.verdict) }
    ensures memory { IfErr result (λ fault. fault ≡ RunFault.Memory) }
{
    let strict = options.strict;
    if options.names {
        on_setup(alloc, NamedCheck { strict }, input)
    } else {
        FileCheck { strict }.make(alloc, input)
    }
}

/// The form of a derivation forest.
fn form_of(options: Options<'_>) -> Form
    ensures { result ≡ form_of_options options.entry }
{
    if options.dot { Form::Dot } else { Form::Lines }
}

/// A set-up of the sizes that the options ask for, whatever the input is.
fn make_new(alloc: Global, options: Options<'_>, input: &[u8]) -> Result<Answer, RunFault>
    ensures made { IfOk result (λ made. IsNewOf options.entry made.text.items made.verdict) }
    ensures memory { IfErr result (λ fault. fault ≡ RunFault.Memory) }
{
    match asked_by(alloc, options) {
        Ok(asked) => Maker {
            asked: asked.as_ref(),
        }
        .make(alloc, input),
        Err(_) => Err(RunFault::Memory),
    }
}

/// The set-up of the layout in the file of a path, if it has one, or, by the options, the listing or the capDL text of that layout.
fn make_import(
    alloc: Global,
    options: Options<'_>,
    path: Option<&str>,
    input: &[u8],
) -> Result<Answer, RunFault>
    ensures made { IfOk result (λ made. IsImport options.entry (option_map (λ s. s.now) path.entry) input.now made.text.items made.verdict) }
    ensures memory { IfErr result (λ fault. fault ≡ RunFault.Memory) }
{
    let Options {
        shrink,
        listing,
        flows,
        plain,
        strict,
        ..
    } = options;
    let reading = Reading {
        shrink,
        flows,
        plain,
        all_rights: !options.takes_least(),
        are_rights_asked: options.rights.is_some(),
        strict,
    };
    if options.cdl {
        LayoutText { reading }.make(alloc, input)
    } else {
        let importer = Importer {
            reading,
            listing,
            path,
        };
        importer.make(alloc, input)
    }
}

/// What a command line asks for, but the run by threads, which makes no text of an input alone.
#[derive(Clone, Copy)]
pub(crate) struct Work<'a> {
    job: Job,
    options: Options<'a>,
    policy: &'a [u8],
    /// The path of the input's file, if it has one.
    path: Option<&'a str>,
    ghost without_threads: { job ≢ Threads },
}

impl<'a> Work<'a> {
    /// The job, with its options, the bytes of the policy that they name, and the path of the input's file, if it has one.
    pub(crate) fn new(
        job: Job,
        options: Options<'a>,
        policy: &'a [u8],
        path: Option<&'a str>,
    ) -> Work<'a>
        requires { job ≢ Job.Threads }
        ensures job { result.job ≡ job }
        ensures options { result.options ≡ options.entry }
        ensures policy { result.policy.now ≡ policy.now }
        ensures path { result.path ≡ path.entry }
    {
        Work {
            job,
            options,
            policy,
            path,
        }
    }
}

impl Engine for Work<'_> {
    ghost use Rattle.program.specs.Jobs.{meaning};

    ghost means = { λ work. meaning work.job work.options work.policy.now (option_map (λ s. s.now) work.path) };

    fn make(&self, alloc: Global, input: &[u8]) -> Result<Answer, RunFault> {
        let options = self.options;
        match self.job {
            Job::Check => make_check(alloc, options, input),
            Job::Trace => {
                let Options { names, ways, .. } = options;
                on_setup(alloc, Trace { names, ways }, input)
            }
            Job::Threads => unreachable!(),
            Job::Migrate => Migrator.make(alloc, input),
            Job::Why => {
                let Options { call, names, .. } = options;
                on_setup(alloc, Why { call, names }, input)
            }
            Job::Audit => make_audit(alloc, options, input),
            Job::Ever => make_ever(alloc, options, input),
            Job::Never => make_never(alloc, options, input),
            Job::Draft => make_draft(alloc, options, input),
            Job::How => make_how(alloc, options, input),
            Job::Policy => make_held(alloc, options, self.policy, input),
            Job::Explore => make_exploration(alloc, options, input),
            Job::Tree => {
                let form = form_of(options);
                let Options { names, after, .. } = options;
                on_state(alloc, Tree { form, names }, after, input)
            }
            Job::New => make_new(alloc, options, input),
            Job::Marks => on_setup(alloc, Marks, input),
            Job::Record => on_setup(alloc, Record, input),
            Job::Import => make_import(alloc, options, self.path, input),
        }
    }
}
