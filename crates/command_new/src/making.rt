//! The engine that makes a set-up to start from.
ghost use Rattle.std.specs.Prelude.{◌≡◌, ◌↔◌, [], option_copied, IfOk, IfSome, IsErr, IsTrue, MatchOption};
ghost use Rattle.kernel_abstract.specs.Plan.{IsPlan};
ghost use Rattle.setup_format.specs.Read.{read_view};
ghost use Rattle.setup_format.specs.Setups.{read_of_bytes};
ghost use Rattle.command_new.specs.New.{IsNewText, IsNewAnswer, IsNew};
ghost use Rattle.command_new.specs.Private.{IsMetBy};

use crate::asked::NewSetup;
use crate::example::has_example;
use crate::names::are_names;
use crate::planning::fitting_plan;
use crate::text::whole_text;
use cap_core::{Narrow, Profile, ProfileName, Wide};
use command_core::{Answer, Engine, RunFault, Verdict};
use setup_format::{ReadSetup, SetupFault, read};
use setup_values::KnownNames;
use std::alloc::{AllocError, Global};

/// Whether a set-up that was read has what is asked for, the names and the call.
fn is_met_by<P: Profile>(
    alloc: Global,
    asked: &NewSetup,
    made: &ReadSetup,
) -> Result<bool, AllocError>
    requires { IsPlan P.profile made.now.setup.plan }
    ensures { IfOk result (λ is. IsTrue is ↔ IsMetBy P.profile asked.now (read_view made.now)) }
{
    let plan = made.setup.plan();
    let names = made.names.as_slice();
    let known = KnownNames::new(alloc, names)?;
    let has_names = are_names::<P>(alloc, names, &known, plan)?;
    Ok(has_names && asked.is_met_by(plan) && has_example::<P>(&known, &made.setup))
}

/// What a text is read as; none if it is refused.
fn accepted(alloc: Global, text: &[u8]) -> Result<Option<ReadSetup>, AllocError>
    ensures read { IfOk result (λ made. MatchOption made (IsErr (read_of_bytes text.now)) (λ read. read_of_bytes text.now ≡ Ok (read_view read))) }
    ensures plan { IfOk result (λ made. IfSome made (λ read. IsPlan read.setup.profile read.setup.plan)) }
{
    match read(alloc, text) {
        Ok(read) => Ok(Some(read)),
        Err(SetupFault::Memory) => Err(AllocError),
        Err(_) => Ok(None),
    }
}

/// Whether a text is read as a set-up of what is asked for.
fn is_new<P: Profile>(alloc: Global, asked: &NewSetup, text: &[u8]) -> Result<bool, AllocError>
    requires { P.profile ≡ asked.now.profile }
    ensures { IfOk result (λ is. IsTrue is ↔ IsNew asked.now text.now) }
{
    let Some(made) = accepted(alloc, text)? else {
        return Ok(false);
    };
    if made.setup.profile() != asked.profile {
        return Ok(false);
    }
    is_met_by::<P>(alloc, asked, &made)
}

/// The text of a set-up of what is asked for, and the verdict; nothing if no plan fits, or if the text is refused.
fn made_for<P: Profile>(alloc: Global, asked: &NewSetup) -> Result<Answer, AllocError>
    requires { P.profile ≡ asked.now.profile }
    ensures { IfOk result (λ made. IsNewAnswer asked.now made.text.items made.verdict) }
{
    let Some(plan) = fitting_plan::<P>(asked)? else {
        return Ok(Answer::new(alloc, Vec::new(alloc), Verdict::Absent));
    };
    let text = whole_text::<P>(alloc, &plan)?.into_bytes();
    if is_new::<P>(alloc, asked, text.as_slice())? {
        Ok(Answer::new(alloc, text, Verdict::AllMet))
    } else {
        Ok(Answer::new(alloc, Vec::new(alloc), Verdict::Refused))
    }
}

/// The same, for the machine that is asked for.
fn made_of(alloc: Global, asked: &NewSetup) -> Result<Answer, AllocError>
    ensures { IfOk result (λ made. IsNewAnswer asked.now made.text.items made.verdict) }
{
    match asked.profile {
        ProfileName::Wide => made_for::<Wide>(alloc, asked),
        ProfileName::Narrow => made_for::<Narrow>(alloc, asked),
    }
}

/// A set-up of the sizes that are asked for, whatever the input is, with a name for each thread, each capability's slot and one
/// call as an example. The verdict is `AllMet`, or `Absent` with nothing written: if no sizes are given, or if no plan of a
/// boot fits them. It is `Refused`, with nothing written too, if the text of a plan that fits is not read as such a set-up; no
/// clause says that there is no such plan.
#[derive(Clone, Copy)]
pub struct Maker<'a> {
    pub asked: Option<&'a NewSetup>,
}

impl Maker<'_> {
    /// The text that is written, and the verdict.
    fn made(self, alloc: Global) -> Result<Answer, AllocError>
        ensures { IfOk result (λ made. IsNewText (option_copied self.entry.asked) [] made.text.items made.verdict) }
    {
        match self.asked {
            None => Ok(Answer::new(alloc, Vec::new(alloc), Verdict::Absent)),
            Some(asked) => made_of(alloc, asked),
        }
    }
}

impl Engine for Maker<'_> {
    ghost means = { λ maker. IsNewText (option_copied maker.asked) };

    fn make(&self, alloc: Global, input: &[u8]) -> Result<Answer, RunFault> {
        self.made(alloc).map_err(|_| RunFault::Memory)
    }
}
