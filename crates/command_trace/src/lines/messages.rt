//! The lines of threads, of what was delivered to them, and of endpoints.
ghost use Rattle.std.specs.Prelude.{◌≡◌, ◌++◌, ◌∷◌, [], IfOk, IsTrue, OnOk, map};
ghost use Rattle.std.specs.List.{flat_map};
ghost use Rattle.setup_report.specs.Naming.{Texts};
ghost use Rattle.command_trace.specs.Lines as spec;
ghost use Rattle.command_trace.specs.Views.{endpoint_row_line, inbox_line, thread_row_line};

use crate::lines::changes::StateLine;
use crate::lines::rows::Row;
use crate::lines::text::{InboxText, ThreadText};
use cap_core::Profile;
use ipc_core::{Offer, Waiters};
use kernel_core::{Inbox, Kernel, ThreadState};
use setup_report::{EndpointLine, Naming, first_sends, waiting_threads};
use slot_core::CapStore;
use std::alloc::{AllocError, Global};
use std::collections::BTreeSet;

/// A live thread, and what it sends where it waits to send.
#[derive(Clone, Copy)]
pub struct ThreadRow {
    pub address: u64,
    pub state: ThreadState,
    pub offer: Option<Offer>,
}

/// The last message that was delivered to a thread.
#[derive(Clone, Copy)]
pub struct InboxRow {
    pub address: u64,
    pub inbox: Inbox,
}

/// A live endpoint, the threads that wait on it, the first to be served first, and whether they send.
#[derive(Drop)]
pub struct EndpointRow {
    pub address: u64,
    pub sending: bool,
    pub threads: Vec<u64>,
}

fn is_same_offer(one: Option<Offer>, other: Option<Offer>) -> bool
    ensures { IsTrue result → one ≡ other }
{
    match (one, other) {
        (Some(a), Some(b)) => {
            a.thread == b.thread && a.badge == b.badge && a.message == b.message
        }
        (None, None) => true,
        _ => false,
    }
}

impl<P: Profile> Row<P> for ThreadRow {
    ghost lines = { λ texts t. thread_row_line texts t ∷ [] };

    fn is_same(&self, other: &ThreadRow) -> bool {
        self.address == other.address
            && self.state == other.state
            && is_same_offer(self.offer, other.offer)
    }

    fn add_line(
        &self,
        alloc: Global,
        naming: &Naming<'_>,
        out: &mut Vec<StateLine>,
    ) -> Result<(), AllocError> {
        let address = self.address;
        let line = ThreadText {
            naming,
            address,
            state: self.state,
            offer: self.offer,
        };
        let text = line.to_string(alloc)?;
        out.push(StateLine { address, text })?;
        Ok(())
    }
}

impl<P: Profile> Row<P> for InboxRow {
    ghost lines = { λ texts i. inbox_line texts i ∷ [] };

    fn is_same(&self, other: &InboxRow) -> bool {
        self.address == other.address && self.inbox == other.inbox
    }

    fn add_line(
        &self,
        alloc: Global,
        naming: &Naming<'_>,
        out: &mut Vec<StateLine>,
    ) -> Result<(), AllocError> {
        let (address, inbox) = (self.address, self.inbox);
        let line = InboxText {
            naming,
            address,
            inbox,
        };
        let text = line.to_string(alloc)?;
        out.push(StateLine { address, text })?;
        Ok(())
    }
}

impl<P: Profile> Row<P> for EndpointRow {
    ghost lines = { λ texts e. endpoint_row_line texts e ∷ [] };

    fn is_same(&self, other: &EndpointRow) -> bool {
        self.address == other.address
            && self.sending == other.sending
            && self.threads.as_slice() == other.threads.as_slice()
    }

    fn add_line(
        &self,
        alloc: Global,
        naming: &Naming<'_>,
        out: &mut Vec<StateLine>,
    ) -> Result<(), AllocError> {
        let address = self.address;
        let line = EndpointLine {
            naming: &*naming,
            address,
            sending: self.sending,
            threads: self.threads.as_slice(),
        };
        let text = line.to_string(alloc)?;
        out.push(StateLine { address, text })?;
        Ok(())
    }
}

fn add_thread<P: Profile, S: CapStore<P> + Drop, W: Waiters<P> + Drop>(
    rows: &mut Vec<ThreadRow>,
    address: u64,
    kernel: &Kernel<P, S, W>,
) -> Result<(), AllocError>
    ensures { OnOk result ((texts : Texts) → map (thread_row_line texts) rows.new.items ≡ map (thread_row_line texts) rows.old.items
        ++ spec.line_at (spec.thread_text_at texts kernel.now) address) }
{
    let Some(state) = kernel.thread_state(address) else {
        return Ok(());
    };
    let offer = kernel.offer(address);
    rows.push(ThreadRow {
        address,
        state,
        offer,
    })?;
    Ok(())
}

/// A row for each of some threads that is live: what it does, and what it sends where it waits to send.
pub fn thread_rows<P: Profile, S: CapStore<P> + Drop, W: Waiters<P> + Drop>(
    alloc: Global,
    threads: &BTreeSet<u64>,
    kernel: &Kernel<P, S, W>,
) -> Result<Vec<ThreadRow>, AllocError>
    ensures { IfOk result (λ v. (texts : Texts) → map (thread_row_line texts) v.items
        ≡ flat_map (spec.line_at (spec.thread_text_at texts kernel.now)) threads.now.keys) }
{
    let mut rows = Vec::new(alloc);
    for thread in threads {
        add_thread::<P, S, W>(&mut rows, *thread, kernel)?;
    }
    Ok(rows)
}

fn add_inbox<P: Profile, S: CapStore<P> + Drop, W: Waiters<P> + Drop>(
    rows: &mut Vec<InboxRow>,
    address: u64,
    kernel: &Kernel<P, S, W>,
) -> Result<(), AllocError>
    ensures { OnOk result ((texts : Texts) → map (inbox_line texts) rows.new.items ≡ map (inbox_line texts) rows.old.items
        ++ spec.line_at (spec.inbox_line_at texts kernel.now) address) }
{
    let Some(inbox) = kernel.inbox(address) else {
        return Ok(());
    };
    rows.push(InboxRow { address, inbox })?;
    Ok(())
}

/// A row for each of some threads to which a message was delivered: the last one.
pub fn inbox_rows<P: Profile, S: CapStore<P> + Drop, W: Waiters<P> + Drop>(
    alloc: Global,
    threads: &BTreeSet<u64>,
    kernel: &Kernel<P, S, W>,
) -> Result<Vec<InboxRow>, AllocError>
    ensures { IfOk result (λ v. (texts : Texts) → map (inbox_line texts) v.items
        ≡ flat_map (spec.line_at (spec.inbox_line_at texts kernel.now)) threads.now.keys) }
{
    let mut rows = Vec::new(alloc);
    for thread in threads {
        add_inbox::<P, S, W>(&mut rows, *thread, kernel)?;
    }
    Ok(rows)
}

fn endpoint_row<P: Profile, S: CapStore<P> + Drop, W: Waiters<P> + Drop>(
    alloc: Global,
    address: u64,
    kernel: &Kernel<P, S, W>,
) -> Result<EndpointRow, AllocError>
    ensures { IfOk result (λ row. (texts : Texts) → endpoint_row_line texts row ∷ [] ≡ spec.line_at (spec.endpoint_text_at texts kernel.now) address) }
{
    Ok(EndpointRow {
        address,
        sending: first_sends::<P, S, W>(address, kernel),
        threads: waiting_threads::<P, S, W>(alloc, address, kernel)?,
    })
}

fn add_endpoint<P: Profile, S: CapStore<P> + Drop, W: Waiters<P> + Drop>(
    alloc: Global,
    rows: &mut Vec<EndpointRow>,
    address: u64,
    kernel: &Kernel<P, S, W>,
) -> Result<(), AllocError>
    ensures { OnOk result ((texts : Texts) → map (endpoint_row_line texts) rows.new.items ≡ map (endpoint_row_line texts) rows.old.items
        ++ spec.line_at (spec.endpoint_text_at texts kernel.now) address) }
{
    let row = endpoint_row::<P, S, W>(alloc, address, kernel)?;
    rows.push(row)?;
    Ok(())
}

/// A row for each of some endpoints: who waits on it.
pub fn endpoint_rows<P: Profile, S: CapStore<P> + Drop, W: Waiters<P> + Drop>(
    alloc: Global,
    endpoints: &BTreeSet<u64>,
    kernel: &Kernel<P, S, W>,
) -> Result<Vec<EndpointRow>, AllocError>
    ensures { IfOk result (λ v. (texts : Texts) → map (endpoint_row_line texts) v.items
        ≡ flat_map (spec.line_at (spec.endpoint_text_at texts kernel.now)) endpoints.now.keys) }
{
    let mut rows = Vec::new(alloc);
    for endpoint in endpoints {
        add_endpoint::<P, S, W>(alloc, &mut rows, *endpoint, kernel)?;
    }
    Ok(rows)
}
