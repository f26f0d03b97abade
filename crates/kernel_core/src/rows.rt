//! The rows in which a kernel keeps its threads.
ghost use Rattle.std.specs.Prelude.{◌≡◌, ◌+◌, ◌^◌, ◌<◌, ◌≤◌, ◌++◌, take, drop, length, replicate, slice_set, IfOk, IsSome};
ghost use Rattle.std.specs.FinMap as map;
ghost use Rattle.cap_core.specs.Numbers.{tcb_size};
ghost use Rattle.kernel_core.specs.Rows.{rows_map, state_with};
ghost use Rattle.kernel_core.specs.SavedRows.{rows_with};
ghost use Rattle.kernel_core.specs.Private.BootRows.{boot_rows};

use cap_core::Profile;
use ipc_core::Role;
use kernel_abstract::call::{Inbox, ThreadState};
use std::alloc::{AllocError, Global};
use std::marker::Model;

/// What a kernel keeps of a thread beside how it waits: whether it is inactive where it does not wait, and the last
/// message that was delivered to it.
#[derive(Clone, Copy)]
pub struct ThreadRow {
    pub inactive: bool,
    pub inbox: Option<Inbox>,
}

impl ThreadRow {
    /// What the thread does, where it waits in this role, or does not wait.
    pub fn state(&self, role: Option<Role>) -> ThreadState
        ensures { result ≡ state_with role self.now.inactive }
    {
        match role {
            Some(Role::Sending(endpoint)) => ThreadState::Sending(endpoint),
            Some(Role::Receiving(endpoint)) => ThreadState::Receiving(endpoint),
            None => {
                if self.inactive {
                    ThreadState::Inactive
                } else {
                    ThreadState::Ready
                }
            }
        }
    }
}

/// The row of a thread that there is, with its place among all rows.
#[derive(Clone, Copy)]
pub struct LiveRow {
    pub place: usize,
    pub row: ThreadRow,
}

/// The rows of a kernel's threads, with a place for each thread control block of the memory. Contracts see them as the
/// list of the places.
#[derive(Drop)]
pub struct ThreadRows {
    /// Place k is for the thread control block at k times its size.
    places: Vec<Option<ThreadRow>>,
    /// No place from here on has a row, so what goes over the rows stops here.
    end: usize,
}

impl Model for ThreadRows {
    ghost use Rattle.std.specs.Prelude.{List, Option};
    ghost use Rattle.kernel_core.specs.declared.rows.ThreadRow.{ThreadRow};

    ghost Value = { List (Option ThreadRow) };

    ghost use Rattle.kernel_core.specs.Private.RowsEnd.{IsRowsEnd};

    ghost view = { λ r. r.places.items };

    ghost invariant = { λ r. IsRowsEnd r.end r.places.items };
}

impl ThreadRows {
    /// The rows of threads that are ready and got no message, from the place `first` on, among so many places.
    pub fn ready(
        alloc: Global,
        first: u64,
        threads: u64,
        count: u64,
    ) -> Result<ThreadRows, AllocError>
        requires { first + threads ≤ count }
        ensures { IfOk result (λ rows. rows ≡ boot_rows first threads count) }
    {
        Ok(ThreadRows {
            places: ready_places(alloc, first, threads, count)?,
            end: (first + threads) as usize,
        })
    }

    /// The same rows, in memory of their own.
    pub fn copy(&self, alloc: Global) -> Result<ThreadRows, AllocError>
        ensures { IfOk result (λ rows. rows ≡ self.now) }
    {
        Ok(ThreadRows {
            places: Vec::from_slice(alloc, self.places.as_slice())?,
            end: self.end,
        })
    }

    /// How many places there are.
    pub fn len(&self) -> usize
        ensures { result ≡ length self.now }
    {
        self.places.len()
    }

    /// The row of the thread whose control block is at an address, if it has one.
    pub fn row_at<P: Profile>(&self, thread: u64) -> Option<ThreadRow>
        ensures { result ≡ map.get (rows_map (tcb_size P.profile) self.now) thread }
    {
        let place = (thread >> P::TCB_BITS) as usize;
        if thread % (1 << P::TCB_BITS) != 0 || place >= self.places.len() {
            return None;
        }
        self.places[place]
    }

    /// Changes the row of a thread that has one.
    pub fn set_row<P: Profile>(&mut self, thread: u64, row: ThreadRow)
        requires { IsSome (map.get (rows_map (tcb_size P.profile) self.old) thread) }
        ensures map { rows_map (tcb_size P.profile) self.new ≡ map.insert (rows_map (tcb_size P.profile) self.old) thread row }
        ensures length { length self.new ≡ length self.old }
    {
        let place = (thread >> P::TCB_BITS) as usize;
        self.put(place, row);
    }

    /// Puts a row into a place.
    pub fn put(&mut self, place: usize, row: ThreadRow)
        requires { place < length self.old }
        ensures { self.new ≡ slice_set self.old place (Some row) }
    {
        self.places[place] = Some(row);
        self.end = self.end.max(place + 1);
    }

    /// Takes the row away that a place has, if it has one.
    pub fn remove(&mut self, place: usize)
        requires { place < length self.old }
        ensures { self.new ≡ slice_set self.old place None }
    {
        self.places[place] = None;
    }

    /// The rows that there are, each with its place.
    pub fn live(&self, alloc: Global) -> Result<Vec<LiveRow>, AllocError>
        ensures { IfOk result (λ live. rows_with (replicate (length self.now) None) live.items ≡ self.now) }
    {
        let mut live = Vec::new(alloc);
        for place in 0..self.end {
            if let Some(row) = self.places[place] {
                live.push(LiveRow { place, row })?;
            }
        }
        Ok(live)
    }

    /// Puts rows into their places.
    pub fn put_live(&mut self, live: &[LiveRow])
        ensures { self.new ≡ rows_with self.old live.now }
    {
        for one in live {
            if one.place < self.len() {
                self.put(one.place, one.row);
            }
        }
    }

    /// Makes the rows the same as others, of which there are as many. A place that is behind the end of both is not looked
    /// at.
    pub fn copy_from(&mut self, new: &ThreadRows)
        requires { length self.old ≡ length new.now }
        ensures { self.new ≡ new.now }
    {
        let end = self.end.max(new.end);
        copy_front(self.places.as_mut_slice(), new.places.as_slice(), end);
        self.end = new.end;
    }

    /// Takes all rows away. There are so many places then.
    pub fn clear(&mut self, count: usize) -> Result<(), AllocError>
        ensures { IfOk result (λ _. self.new ≡ replicate count None) }
    {
        if self.places.len() == count {
            clear_front(self.places.as_mut_slice(), self.end);
            self.end = 0;
        } else {
            self.end = 0;
            self.places.clear();
            self.places.resize(count, None)?;
        }
        Ok(())
    }
}

/// Makes the first rows the same as others.
fn copy_front(rows: &mut [Option<ThreadRow>], new: &[Option<ThreadRow>], count: usize)
    requires here { count ≤ length rows.old }
    requires there { count ≤ length new.now }
    ensures { rows.new ≡ take count new.now ++ drop count rows.old }
{
    rows[..count].copy_from_slice(&new[..count]);
}

/// Takes the first rows away.
fn clear_front(rows: &mut [Option<ThreadRow>], count: usize)
    requires { count ≤ length rows.old }
    ensures { rows.new ≡ replicate count None ++ drop count rows.old }
{
    rows[..count].fill(None);
}

fn ready_places(
    alloc: Global,
    first: u64,
    threads: u64,
    count: u64,
) -> Result<Vec<Option<ThreadRow>>, AllocError>
    requires { first + threads < 2 ^ 64 }
    ensures { IfOk result (λ rows. rows.items ≡ boot_rows first threads count) }
{
    let ready = ThreadRow {
        inactive: false,
        inbox: None,
    };
    (0..count)
        .map(|k| (first <= k && k < first + threads).then_some(ready))
        .collect(alloc)
}
