//! A whole set-up, from its text or from the table of it.
ghost use Rattle.std.specs.Prelude.{◌≡◌, ◌≢◌, ◌≤◌, ◌<◌, map, length, All, IfOk, IfErr};
ghost use Rattle.toml.specs.View.{table_view};
ghost use Rattle.kernel_abstract.specs.Plan.{IsUntypedSize, IsWithinLimits, IsPlan};
ghost use Rattle.setup_values.specs.Names.{names_view};
ghost use Rattle.setup_format.specs.Faults.{Gives};
ghost use Rattle.setup_values.specs.Kinds.{each};
ghost use Rattle.setup_format.specs.Messages.{HasMessage};
ghost use Rattle.setup_format.specs.Read.{read_view, table_of_text};
ghost use Rattle.setup_format.specs.Views.{call_view, IsWithinBounds};
ghost use Rattle.setup_format.specs.Private.Sizes.{IsSizes};
ghost use Rattle.setup_format.specs.Setups as spec;

use crate::fault::{Place, SetupFault};
use crate::limits::{FIRST_FORMAT, MAX_CALLS, NEWEST_FORMAT};
use crate::operations::operation_at;
use crate::setup::{Caller, ReadSetup, Setup, SetupCalls, Sizes};
use crate::tables::Keys;
use cap_core::limits::{
    MAX_BOOT_ENDPOINTS, MAX_BOOT_THREADS, MAX_BOOT_UNTYPEDS, MAX_CLIENTS, MAX_HISTORY_LIMIT,
    MAX_MEMORY_BITS, MAX_ROOT_RADIX, MIN_BOOT_THREADS, MIN_MEMORY_BITS, MIN_ROOT_RADIX,
};
use cap_core::{Narrow, Profile, ProfileName, Wide};
use kernel_abstract::Call;
use kernel_boot::BootPlan;
use setup_values::kinds::{Number, OpKind, ProfileKind, Word};
use setup_values::{KnownNames, Name};
use std::alloc::{AllocError, Global};
use toml::Table;

/// The keys of a table of `untyped`.
pub fn untyped_keys() -> &'static [&'static str]
    ensures { map (λ k. k.now) result.now ≡ spec.untyped_keys }
{
    &["base", "bits"]
}

#[tactic(auto, unfolding(crate::specs::Setups::untyped_at))]
fn untyped_at<P: Profile>(table: &Table, n: usize) -> Result<(u64, u32), SetupFault>
    ensures region { Gives (λ r. r) result (spec.untyped_at P.profile n (table_view table.now)) }
    ensures sized { IfOk result (IsUntypedSize P.profile) }
{
    let no_names = KnownNames::none();
    let keys = Keys::<P>::new(table, Place::Untyped(n), &no_names);
    keys.known_only(untyped_keys())?;
    let base = keys.required("base", Word)?;
    let bits = keys.required("bits", Number(P::MIN_UNTYPED_BITS, P::MAX_OBJECT_BITS))?;
    Ok((base, bits))
}

fn untypeds_of<P: Profile>(alloc: Global, tables: &[&Table]) -> Result<Vec<(u64, u32)>, SetupFault>
    ensures regions { Gives (λ v. v.items) result (each (spec.untyped_at P.profile) 1 (map (λ t. table_view t.now) tables.now)) }
    ensures length { IfOk result (λ v. length v.items ≡ length tables.now) }
    ensures sized { IfOk result (λ v. All (IsUntypedSize P.profile) v.items) }
{
    let mut regions = Vec::new(alloc);
    for (i, table) in tables.iter().enumerate() {
        let region = untyped_at::<P>(table, 1 + i)?;
        regions.push(region)?;
    }
    Ok(regions)
}

#[tactic(auto, unfolding(crate::specs::Setups::call_at))]
fn call_at<P: Profile>(
    alloc: Global,
    names: &KnownNames<'_>,
    clients: u32,
    n: usize,
    table: &Table,
) -> Result<(Call, Caller), SetupFault>
    requires { 1 ≤ clients }
    ensures call { Gives (λ r. call_view r.0 r.1) result (spec.call_at P.profile (names_view names.now) clients n (table_view table.now)) }
    ensures client { IfOk result (λ r. r.1.client < clients) }
{
    let keys = Keys::<P>::new(table, Place::Call(n), names);
    let op = keys.required("op", OpKind)?;
    keys.known_only(op.keys())?;
    let thread = keys.required("thread", Word)?;
    let client = keys.optional("client", 0, Number(0, clients - 1))?;
    let expect = keys.expect(alloc, "expect")?;
    let op = operation_at(op, &keys)?;
    Ok((Call { thread, op }, Caller { client, expect }))
}

fn calls_of<P: Profile>(
    alloc: Global,
    names: &KnownNames<'_>,
    clients: u32,
    tables: &[&Table],
) -> Result<SetupCalls, SetupFault>
    requires { 1 ≤ clients }
    ensures calls { Gives (λ v. v) result (each (spec.call_at P.profile (names_view names.now) clients) 1 (map (λ t. table_view t.now) tables.now)) }
    ensures length { IfOk result (λ v. length v ≡ length tables.now) }
    ensures clients { IfOk result (λ v. All (λ c. c.client < clients) v) }
{
    let mut calls = SetupCalls::new(alloc);
    for (i, table) in tables.iter().enumerate() {
        let row = call_at::<P>(alloc, names, clients, 1 + i, table)?;
        calls.push(row.0, row.1)?;
    }
    Ok(calls)
}

#[tactic(auto, unfolding(crate::specs::Setups::sizes_at))]
fn sizes_at<P: Profile>(keys: &Keys<'_, '_, '_, P>) -> Result<Sizes, SetupFault>
    ensures sizes { Gives (λ s. s) result (spec.sizes_at keys.now.place (table_view keys.now.table.now)) }
    ensures within { IfOk result IsSizes }
{
    Ok(Sizes {
        memory_bits: keys.required("memory_bits", Number(MIN_MEMORY_BITS, MAX_MEMORY_BITS))?,
        root_radix: keys.required("root_radix", Number(MIN_ROOT_RADIX, MAX_ROOT_RADIX))?,
        threads: keys.required("threads", Number(MIN_BOOT_THREADS, MAX_BOOT_THREADS))?,
        endpoints: keys.required("endpoints", Number(0, MAX_BOOT_ENDPOINTS))?,
    })
}

/// The plan of a boot, or its first defect.
fn plan_of<P: Profile>(sizes: Sizes, untypeds: Vec<(u64, u32)>) -> Result<BootPlan, SetupFault>
    requires { IsWithinLimits P.profile (spec.planned_with sizes untypeds.items) }
    ensures plan { Gives (λ plan. plan) result (spec.laid_out P.profile (spec.planned_with sizes untypeds.items)) }
    ensures sound { IfOk result (IsPlan P.profile) }
{
    BootPlan::new::<P>(
        sizes.memory_bits,
        sizes.root_radix,
        sizes.threads,
        sizes.endpoints,
        untypeds,
    )
    .map_err(|defect| SetupFault::Layout(defect))
}

/// The most entries of a history: the number of calls, at least 1, if the set-up gives none.
fn limit_of(given: u32, calls: usize) -> u32
    requires calls { calls ≤ MAX_CALLS }
    requires given { given ≤ MAX_HISTORY_LIMIT }
    ensures limit { result ≡ spec.limit_of given calls }
    ensures least { 1 ≤ result }
    ensures most { result ≤ MAX_HISTORY_LIMIT }
{
    if given == 0 {
        (calls as u32).max(1)
    } else {
        given
    }
}

/// The set-up of these sizes and names, with these tables of untyped regions and of calls. A limit of 0 is none.
#[tactic(auto, unfolding(crate::specs::Setups::setup_with))]
fn setup_with<P: Profile>(
    alloc: Global,
    names: &[Name],
    sizes: Sizes,
    clients: u32,
    limit: u32,
    untyped: &[&Table],
    call: &[&Table],
) -> Result<Setup, SetupFault>
    requires sizes { IsSizes sizes }
    requires least { 1 ≤ clients }
    requires most { clients ≤ MAX_CLIENTS }
    requires limit { limit ≤ MAX_HISTORY_LIMIT }
    requires untyped { length untyped.now ≤ MAX_BOOT_UNTYPEDS }
    requires call { length call.now ≤ MAX_CALLS }
    ensures setup { Gives (λ s. s) result (spec.setup_with P.profile (names_view names.now) sizes clients limit (map (λ t. table_view t.now) untyped.now) (map (λ t. table_view t.now) call.now)) }
    ensures plan { IfOk result (λ s. IsPlan s.profile s.plan) }
    ensures bounds { IfOk result IsWithinBounds }
{
    let untypeds = untypeds_of::<P>(alloc, untyped)?;
    let plan = plan_of::<P>(sizes, untypeds)?;
    let known = KnownNames::new(alloc, names)?;
    let calls = calls_of::<P>(alloc, &known, clients, call)?;
    let limit = limit_of(limit, calls.len());
    Ok(Setup::new(P::name(), plan, clients, limit, calls))
}

/// What a table is read as whose format, keys and profile are known.
#[tactic(auto, unfolding(crate::specs::Setups::setup_at))]
fn setup_at<P: Profile>(alloc: Global, table: &Table) -> Result<Setup, SetupFault>
    ensures setup { Gives (λ s. s) result (spec.setup_at P.profile (table_view table.now)) }
    ensures plan { IfOk result (λ s. IsPlan s.profile s.plan) }
    ensures bounds { IfOk result IsWithinBounds }
{
    let no_names = KnownNames::none();
    let keys = Keys::<P>::new(table, Place::Top, &no_names);
    let sizes = sizes_at(&keys)?;
    let clients = keys.optional("clients", 1, Number(1, MAX_CLIENTS))?;
    let limit = keys.optional("limit", 0, Number(1, MAX_HISTORY_LIMIT))?;
    let names = keys.names(alloc, "names")?;
    let untyped = keys.tables(alloc, "untyped", MAX_BOOT_UNTYPEDS as usize)?;
    let call = keys.tables(alloc, "call", MAX_CALLS)?;
    setup_with::<P>(
        alloc,
        names.as_slice(),
        sizes,
        clients,
        limit,
        untyped.as_slice(),
        call.as_slice(),
    )
}

/// The keys of the top table in a format, in the order in which a message lists them.
#[rattlefmt::skip]
pub fn top_keys(format: u32) -> &'static [&'static str]
    ensures { map (λ k. k.now) result.now ≡ spec.top_keys format }
{
    if format == FIRST_FORMAT {
        &[
            "format", "profile", "memory_bits", "root_radix", "threads", "endpoints", "clients", "limit", "untyped",
            "call",
        ]
    } else {
        &[
            "format", "profile", "memory_bits", "root_radix", "threads", "endpoints", "clients", "limit", "names",
            "untyped", "call",
        ]
    }
}

/// What a table is read as, in one of the formats up to the newest that is taken.
#[tactic(auto, unfolding(crate::specs::Setups::setup_up_to))]
fn setup_up_to(newest: u32, alloc: Global, table: &Table) -> Result<Setup, SetupFault>
    ensures setup { Gives (λ s. s) result (spec.setup_up_to newest (table_view table.now)) }
    ensures plan { IfOk result (λ s. IsPlan s.profile s.plan) }
    ensures bounds { IfOk result IsWithinBounds }
{
    let no_names = KnownNames::none();
    let keys = Keys::<Wide>::new(table, Place::Top, &no_names);
    let format = keys.required("format", Number(FIRST_FORMAT, newest))?;
    keys.known_only(top_keys(format))?;
    match keys.optional("profile", ProfileName::Wide, ProfileKind)? {
        ProfileName::Wide => setup_at::<Wide>(alloc, table),
        ProfileName::Narrow => setup_at::<Narrow>(alloc, table),
    }
}

/// The set-up that a table is read as, or its first fault.
///
/// # Errors
///
/// The first fault in this order, or `Memory` in place of any answer if memory was refused: the key `format`; an unknown key
/// of the table, the least by its bytes; the key `profile`; its other keys, of which `names` comes after `limit`; each table of
/// `untyped`; the plan of the boot; each table of `call`.
/// `Text` is never answered. The formats are this project's profile.
#[tactic(auto, using(crate::proofs::Promises::Messages::messages_read, crate::proofs::Promises::Messages::never_text))]
pub fn read_table(alloc: Global, table: &Table) -> Result<Setup, SetupFault>
    ensures setup { Gives (λ s. s) result (spec.setup_of (table_view table.now)) }
    ensures plan { IfOk result (λ s. IsPlan s.profile s.plan) }
    ensures bounds { IfOk result IsWithinBounds }
    ensures messages { IfOk result (λ s. All (HasMessage s.profile) s.calls) }
    ensures never_text { IfErr result (λ e. e ≢ SetupFault.Text) }
{
    setup_up_to(NEWEST_FORMAT, alloc, table)
}

/// The names that a table gives to words, in the order of their bytes; none if the key `names` is not there.
fn names_of(alloc: Global, profile: ProfileName, table: &Table) -> Result<Vec<Name>, SetupFault>
    ensures { Gives (λ v. names_view v.items) result (spec.names_of profile (table_view table.now)) }
{
    let no_names = KnownNames::none();
    match profile {
        ProfileName::Wide => Keys::<Wide>::new(table, Place::Top, &no_names).names(alloc, "names"),
        ProfileName::Narrow => {
            Keys::<Narrow>::new(table, Place::Top, &no_names).names(alloc, "names")
        }
    }
}

/// The set-up that a table is read as, and the names by which it is spelt.
#[tactic(auto, unfolding(crate::specs::Setups::read_of))]
fn read_of(alloc: Global, table: &Table) -> Result<(Vec<Name>, Setup), SetupFault>
    ensures setup { Gives (λ r. record { table = table_view table.now; names = names_view r.0.items; setup = r.1 }) result (spec.read_of (table_view table.now)) }
    ensures plan { IfOk result (λ r. IsPlan r.1.profile r.1.plan) }
{
    let setup = read_table(alloc, table)?;
    let names = names_of(alloc, setup.profile(), table)?;
    Ok((names, setup))
}

/// The set-up that a table is read as by the rules of the first format alone, or its first fault.
///
/// # Errors
///
/// As `read_table`, if every later format is refused as one that does not exist.
pub fn read_first_format(alloc: Global, table: &Table) -> Result<Setup, SetupFault>
    ensures setup { Gives (λ s. s) result (spec.first_format_setup_of (table_view table.now)) }
    ensures plan { IfOk result (λ s. IsPlan s.profile s.plan) }
    ensures bounds { IfOk result IsWithinBounds }
{
    setup_up_to(FIRST_FORMAT, alloc, table)
}

/// The table of a TOML document.
///
/// # Errors
///
/// `Text` if the bytes are no TOML document; `Memory` if memory was refused.
#[tactic(auto, using(crate::proofs::Grammar::Bytes::document_of_text, crate::proofs::Grammar::Bytes::document_of_no_text))]
pub fn read_document(alloc: Global, bytes: &[u8]) -> Result<Table, SetupFault>
    ensures { Gives table_view result (spec.document_of bytes.now) }
{
    let Ok(text) = std::str::from_utf8(bytes) else {
        return Err(SetupFault::Text);
    };
    match toml::table_from_str(alloc, text) {
        Ok(table) => Ok(table),
        Err(e) => {
            if e.is_memory() {
                Err(SetupFault::Memory)
            } else {
                Err(SetupFault::Text)
            }
        }
    }
}

/// The set-up that a text is read as, or its first fault.
///
/// # Errors
///
/// `Text` if the bytes are no TOML document; else as `read_table` of the document's table.
#[tactic(auto, unfolding(crate::specs::Setups::setup_of_bytes))]
pub fn read_setup(alloc: Global, bytes: &[u8]) -> Result<Setup, SetupFault>
    ensures setup { Gives (λ s. s) result (spec.setup_of_bytes bytes.now) }
    ensures plan { IfOk result (λ s. IsPlan s.profile s.plan) }
    ensures bounds { IfOk result IsWithinBounds }
    ensures messages { IfOk result (λ s. All (HasMessage s.profile) s.calls) }
{
    let table = read_document(alloc, bytes)?;
    read_table(alloc, &table)
}

/// The table of a text; an empty one, if the text is no TOML document.
///
/// # Errors
///
/// Memory was refused.
#[tactic(auto, unfolding(crate::specs::Read::table_of_text))]
pub fn table_of(alloc: Global, text: &[u8]) -> Result<Table, AllocError>
    ensures { IfOk result (λ table. table_view table ≡ table_of_text text.now) }
{
    match read_document(alloc, text) {
        Ok(table) => Ok(table),
        Err(SetupFault::Memory) => Err(AllocError),
        Err(_) => Ok(Table::new(alloc)),
    }
}

/// The set-up that a text is read as, with the text and the names by which it is spelt, or its first fault.
///
/// # Errors
///
/// As `read_setup`.
#[tactic(auto, unfolding(crate::specs::Setups::read_of_bytes, crate::specs::Read::table_of_text))]
pub fn read(alloc: Global, bytes: &[u8]) -> Result<ReadSetup, SetupFault>
    ensures setup { Gives read_view result (spec.read_of_bytes bytes.now) }
    ensures plan { IfOk result (λ r. IsPlan r.setup.profile r.setup.plan) }
{
    let table = read_document(alloc, bytes)?;
    let (names, setup) = read_of(alloc, &table)?;
    let text = Vec::from_slice(alloc, bytes)?;
    Ok(ReadSetup { text, names, setup })
}
