//! The engines that make a set-up of a layout, or its capDL text.
ghost use Rattle.std.specs.Prelude.{◌≡◌, [], IfOk, IfSome, IsErr, IsTrue, MatchOption, false, true, length, option_map};
ghost use Rattle.kernel_abstract.specs.Plan.{IsPlan};
ghost use Rattle.kernel_abstract.specs.State.{shown};
ghost use Rattle.setup_format.specs.Read.{read_view};
ghost use Rattle.setup_format.specs.Setups.{read_of_bytes};
ghost use Rattle.setup_system.specs.Languages as languages;
ghost use Rattle.setup_report.specs.Behind.{state_behind};
ghost use Rattle.command_import.specs.Asked.{IsReadAs};
ghost use Rattle.command_import.specs.Import.{ComesTo, HasHeadOf, IsImported, IsLayoutText, IsRefusal, IsSetUpOf};
ghost use Rattle.command_import.specs.Private.{IsFor, IsWritten};
ghost use Rattle.command_import.specs.Listing.{listing_lines};
ghost use Rattle.command_import.specs.Laid.{IsLaidOut};

use crate::asked::is_read_as;
use crate::laid_out::is_laid_out;
use crate::listing::{are_words, listing_text};
use crate::path::add_setup;
use crate::text::setup_text;
use cap_core::{Narrow, Profile, ProfileName, Wide};
use command_core::{Answer, Engine, RunFault, Verdict};
use ipc_core::{LinkedWaiters, MakeWaiters};
use setup_format::{ReadSetup, Setup, SetupFault, read};
use setup_layout::{Layout, Reading};
use setup_marks::is_for_flows;
use setup_places::{Places, ReadLayout};
use setup_report::kernel_after;
use setup_system::{capdl_text, read_any_layout, reading_of};
use slot_core::{DerivationStore, LinkedStore, MakeStore};
use std::alloc::{AllocError, Global};

/// Whether the calls of a set-up come to a layout.
fn comes_to<P: Profile, S: DerivationStore<P> + MakeStore<P>, W: MakeWaiters<P>>(
    alloc: Global,
    layout: &Layout,
    setup: &Setup,
) -> Result<bool, AllocError>
    requires { IsPlan P.profile setup.now.plan }
    ensures { IfOk result (λ is. IsTrue is → IsLaidOut P.profile setup.now.plan layout.now (shown (state_behind P.profile setup.now (length setup.now.calls)))) }
{
    let calls = setup.calls().len();
    let kernel = kernel_after::<P, S, W>(alloc, setup, calls)?;
    is_laid_out(alloc, setup.plan(), layout, &kernel)
}

/// What a text is read as; none where it is refused.
fn accepted(alloc: Global, text: &[u8]) -> Result<Option<ReadSetup>, AllocError>
    ensures read { IfOk result (λ made. MatchOption made (IsErr (read_of_bytes text.now)) (λ read. read_of_bytes text.now ≡ Ok (read_view read))) }
    ensures plan { IfOk result (λ made. IfSome made (λ read. IsPlan read.setup.profile read.setup.plan)) }
{
    match read(alloc, text) {
        Ok(read) => Ok(Some(read)),
        Err(SetupFault::Memory) => Err(AllocError),
        Err(_) => Ok(None),
    }
}

/// Whether a set-up that was read is for the machine of a layout and marked as the layout is, and each name of the layout is a word.
fn is_for(layout: &Layout, made: &ReadSetup) -> bool
    ensures { IsTrue result → IsFor layout.now (read_view made.now) }
{
    made.setup.profile() == layout.profile
        && is_for_flows(made.names.as_slice()) == layout.flows
        && are_words(layout.objects.as_slice())
}

/// Whether a text is read as a set-up of the layout's profile, whose calls come to the layout.
fn comes_from<P: Profile, S: DerivationStore<P> + MakeStore<P>, W: MakeWaiters<P>>(
    alloc: Global,
    layout: &Layout,
    text: &[u8],
) -> Result<bool, AllocError>
    requires { P.profile ≡ layout.now.profile }
    ensures { IfOk result (λ is. IsTrue is → ComesTo layout.now text.now) }
{
    let Some(made) = accepted(alloc, text)? else {
        return Ok(false);
    };
    if !is_for(layout, &made) {
        return Ok(false);
    }
    comes_to::<P, S, W>(alloc, layout, &made.setup)
}

/// The same, for the layout's machine.
fn does_come_to(alloc: Global, layout: &Layout, text: &[u8]) -> Result<bool, AllocError>
    ensures { IfOk result (λ is. IsTrue is → ComesTo layout.now text.now) }
{
    match layout.profile {
        ProfileName::Wide => {
            comes_from::<Wide, LinkedStore<Wide>, LinkedWaiters<Wide>>(alloc, layout, text)
        }
        ProfileName::Narrow => {
            comes_from::<Narrow, LinkedStore<Narrow>, LinkedWaiters<Narrow>>(alloc, layout, text)
        }
    }
}

/// What is written of a layout with faults.
fn refused(alloc: Global, layout: &Layout) -> Result<Answer, AllocError>
    ensures verdict { IfOk result (λ made. made.verdict ≡ Verdict.Refused) }
    ensures line { IfOk result (λ made. IsRefusal made.text.items) }
{
    let line = match layout.faults.told.first() {
        Some(fault) => fault.spot.line,
        None => 1,
    };
    let text = format!(in alloc; "layout refused at {line}\n")?;
    Ok(Answer::new(alloc, text.into_bytes(), Verdict::Refused))
}

/// What is written of a layout whose listing is asked for.
fn listed(alloc: Global, layout: &Layout) -> Result<Answer, AllocError>
    ensures { IfOk result (λ made. IsWritten (λ text. text ≡ listing_lines [] layout.now) made.text.items made.verdict) }
{
    let text = listing_text(alloc, layout, "")?;
    Ok(Answer::new(alloc, text.into_bytes(), Verdict::AllMet))
}

/// A text that lists the slots of a layout at its beginning, where it is read as a set-up whose calls come to the layout; else nothing.
/// The layout's file has this path, if it has one.
fn tested(
    alloc: Global,
    layout: &Layout,
    path: Option<&str>,
    text: Vec<u8>,
) -> Result<Answer, AllocError>
    requires { HasHeadOf layout.now (option_map (λ s. s.now) path) text.items }
    ensures { IfOk result (λ made. IsWritten (IsSetUpOf layout.now (option_map (λ s. s.now) path.entry)) made.text.items made.verdict) }
{
    let comes = does_come_to(alloc, layout, text.as_slice())?;
    if comes {
        return Ok(Answer::new(alloc, text, Verdict::AllMet));
    }
    Ok(Answer::new(alloc, Vec::new(alloc), Verdict::Absent))
}

/// The text of a set-up of the layout in the file of a path, if it has one. It begins with a list of what the layout's slots hold.
fn text_of(
    alloc: Global,
    read: &ReadLayout,
    places: &Places,
    path: Option<&str>,
) -> Result<Vec<u8>, AllocError>
    ensures { IfOk result (λ text. HasHeadOf read.now.layout (option_map (λ s. s.now) path.entry) text.items) }
{
    let setup = setup_text(alloc, read, places)?;
    let listing = listing_text(alloc, &read.layout, "# ")?;
    let mut text = listing.into_bytes();
    let (notes, rest) = (setup.notes.as_str(), setup.rest.as_str());
    add_setup(&mut text, notes, path, rest)?;
    Ok(text)
}

/// What is written of a layout without faults: its listing where that is asked for, or else a set-up.
fn written(
    alloc: Global,
    read: &ReadLayout,
    places: &Places,
    listing: bool,
    path: Option<&str>,
) -> Result<Answer, AllocError>
    ensures listed { listing ≡ true → IfOk result (λ made. IsWritten (λ text. text ≡ listing_lines [] read.now.layout) made.text.items made.verdict) }
    ensures tested { listing ≡ false → IfOk result (λ made. IsWritten (IsSetUpOf read.now.layout (option_map (λ s. s.now) path.entry)) made.text.items made.verdict) }
{
    if listing {
        return listed(alloc, &read.layout);
    }
    let text = text_of(alloc, read, places, path)?;
    tested(alloc, &read.layout, path, text)
}

/// What is written of a layout that was read.
fn made_of(
    alloc: Global,
    reading: Reading,
    listing: bool,
    path: Option<&str>,
    read: &ReadLayout,
) -> Result<Answer, AllocError>
    ensures { IfOk result (λ made. IsImported reading (option_map (λ s. s.now) path.entry) listing made.text.items made.verdict) }
{
    let Some(places) = &read.places else {
        return refused(alloc, &read.layout);
    };
    if !is_read_as(reading, &read.layout) {
        return Ok(Answer::new(alloc, Vec::new(alloc), Verdict::Absent));
    }
    written(alloc, read, places, listing, path)
}

/// A set-up of the layout that the input is, or, with `listing`, what was read of it, in lines. The verdict is `Refused` where the layout
/// has faults, and `Absent`, with nothing written, where the set-up that was made does not come to the layout.
#[derive(Clone, Copy)]
pub struct Importer<'a> {
    pub reading: Reading,
    pub listing: bool,
    /// The path of the layout's file, which a comment of the set-up tells right above its format; none of a layout from standard input.
    pub path: Option<&'a str>,
}

impl Importer<'_> {
    /// What is written of the input.
    fn made(&self, alloc: Global, input: &[u8]) -> Result<Answer, AllocError>
        ensures { IfOk result (λ made. IsImported (languages.reading_of self.now.reading input.now) (option_map (λ s. s.now) self.now.path) self.now.listing made.text.items made.verdict) }
    {
        let reading = reading_of(self.reading, input);
        let read = read_any_layout(alloc, input, reading)?;
        made_of(alloc, reading, self.listing, self.path, &read)
    }
}

impl Engine for Importer<'_> {
    ghost means = { λ importer input text verdict. IsImported (languages.reading_of importer.reading input) (option_map (λ s. s.now) importer.path) importer.listing text verdict };

    fn make(&self, alloc: Global, input: &[u8]) -> Result<Answer, RunFault> {
        self.made(alloc, input).map_err(|_| RunFault::Memory)
    }
}

/// The capDL text that the layout in the input becomes: capDL text stays as it is. The verdict is `Refused` where the layout has faults.
#[derive(Clone, Copy)]
pub struct LayoutText {
    pub reading: Reading,
}

impl LayoutText {
    /// What is written of the input.
    fn made(self, alloc: Global, input: &[u8]) -> Result<Answer, AllocError>
        ensures { IfOk result (λ made. IsLayoutText input.now made.text.items made.verdict) }
    {
        let read = read_any_layout(alloc, input, self.reading)?;
        if read.places.is_none() {
            return refused(alloc, &read.layout);
        }
        let text = capdl_text(alloc, input, self.reading)?;
        Ok(Answer::new(alloc, text, Verdict::AllMet))
    }
}

impl Engine for LayoutText {
    ghost means = { λ maker input text verdict. IsLayoutText input text verdict };

    fn make(&self, alloc: Global, input: &[u8]) -> Result<Answer, RunFault> {
        self.made(alloc, input).map_err(|_| RunFault::Memory)
    }
}
