//! The report of a kernel that clients shared: the history of their calls, and what the kernel shows at the end.
ghost use Rattle.std.specs.Prelude.{◌≡◌, ◌++◌, Some, length, IfOk, OnOk, string_bytes};
ghost use Rattle.setup_report.specs.Naming.{naming_view};
ghost use Rattle.setup_read.specs.SharedReport.{entry_text, entry_lines, shared_report_of, shared_report_told};

use cap_core::Profile;
use ipc_core::Waiters;
use kernel_core::Kernel;
use kernel_shared::{Book, Entry, Naming};
use setup_format::Setup;
use setup_report::{AnsweredText, Naming as ObjectNaming, add_state};
use slot_core::DerivationStore;
use std::alloc::{AllocError, Global};
use std::fmt;
use std::fmt::Write;

/// An entry of a history, with its place, 1 the first.
#[derive(Clone, Copy)]
struct EntryLine<'a, 'n> {
    naming: &'a ObjectNaming<'n>,
    place: usize,
    entry: &'a Entry,
}

impl fmt::Display for EntryLine<'_, '_> {
    ghost output = { λ l. Some (entry_text (naming_view l.naming.now) l.place l.entry.now) };

    fn fmt<W: fmt::Write>(&self, f: &mut fmt::Formatter<W>) -> fmt::Result {
        let place = self.place;
        let client = self.entry.client;
        let number = self.entry.number;
        let answered = AnsweredText {
            naming: self.naming,
            call: &self.entry.call,
            reply: self.entry.reply,
        };
        write!(f, "{place} client {client} number {number}: {answered}")
    }
}

/// Adds a line for each entry of a history.
fn add_entries(
    out: &mut String,
    naming: &ObjectNaming<'_>,
    history: &[Entry],
) -> Result<(), AllocError>
    ensures { OnOk result (string_bytes out.new ≡ string_bytes out.old ++ entry_lines (naming_view naming.now) 1 history.now) }
{
    for (i, entry) in history.iter().enumerate() {
        let line = EntryLine {
            naming: &*naming,
            place: i + 1,
            entry,
        };
        writeln!(out, "{line}")?;
    }
    Ok(())
}

/// The report of a history and of a kernel behind it, as text: a line for each entry of the history, in its order, with the
/// client that made the call, the client's number for it and the reply; then what the kernel shows of the memory, as
/// `setup_report::report` tells it, but for objects and slots, which stand as a naming writes them; and how many entries there are, of how many calls of the set-up. Expectations are not looked
/// at.
#[tactic(auto, unfolding(crate::specs::SharedReport::shared_report_told))]
pub fn history_report<P: Profile, S: DerivationStore<P> + Drop, W: Waiters<P> + Drop>(
    alloc: Global,
    naming: &ObjectNaming<'_>,
    setup: &Setup,
    history: &[Entry],
    kernel: &Kernel<P, S, W>,
) -> Result<Vec<u8>, AllocError>
    ensures { IfOk result (λ v. v.items ≡ shared_report_told (naming_view naming.now) P.profile (length setup.now.calls) history.now kernel.now) }
{
    let mut out = String::new(alloc);
    add_entries(&mut out, naming, history)?;
    add_state::<P, S, W>(alloc, &mut out, naming, kernel)?;
    let entries = history.len();
    let calls = setup.calls().len();
    writeln!(out, "entries {entries} of {calls}")?;
    Ok(out.into_bytes())
}

/// The report of a kernel that the clients of a set-up shared, as text: that of the book's history, with the client's numbers
/// from 0 on, and of the book's kernel.
pub fn shared_report<N: Naming, P: Profile, S: DerivationStore<P> + Drop, W: Waiters<P> + Drop>(
    alloc: Global,
    setup: &Setup,
    book: &Book<N, P, S, W>,
) -> Result<Vec<u8>, AllocError>
    ensures { IfOk result (λ v. v.items ≡ shared_report_of P.profile (length setup.now.calls) book.now.history.items book.now.kernel) }
{
    let naming = &ObjectNaming::plain();
    history_report(alloc, naming, setup, book.history.as_slice(), &book.kernel)
}
