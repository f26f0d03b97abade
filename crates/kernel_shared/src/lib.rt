//! One kernel for many client threads: their calls stand in one history, and each may look at the kernel without waiting.
//!
//! A book is a kernel with the history of the calls that led to it. Two copies of one stand side by side: a client's call is
//! written to both, one after the other, under a lock, and a client's look reads the copy that is not being written, and waits
//! for nobody.
#![tactic(auto)]

pub mod book;
pub mod book_copy;
pub mod client;
pub mod client_count;
pub mod driving;
pub mod end;
pub mod entry;
pub mod fault;
pub mod front;
pub mod history_copy;
pub mod naming;
pub mod query;
pub mod request;
pub mod rule;
pub mod settling;
pub mod shared;
pub mod start;
pub mod writer_state;

pub use book::{Book, BookFault};
pub use client::look;
pub use driving::{DriveFault, Gate, drive};
pub use entry::Entry;
pub use naming::Naming;
pub use query::{Answer, Query};
pub use settling::{SettleFault, settle};
pub use shared::give_up;
pub use start::StartFault;

/// A kernel that client threads share.
pub type SharedKernel<N, P, S, W> = shared::Shared<N, book_copy::BookCopy<N, P, S, W>>;

/// A client of a shared kernel.
pub type Client<N, P, S, W> = client::Client<N, book_copy::BookCopy<N, P, S, W>>;

/// A lawful beginning of a shared kernel's history.
pub type Front<N, P, S, W> = front::Front<N, book_copy::BookCopy<N, P, S, W>>;

/// Why a client's call was not answered.
pub type SharedFault<N, P, S, W> = fault::SharedFault<N, book_copy::BookCopy<N, P, S, W>>;

/// Why a client stopped before the end of its list.
pub type Stop<N, P, S, W> = driving::Stop<N, book_copy::BookCopy<N, P, S, W>>;

/// A client after its calls.
pub type Driven<N, P, S, W> = driving::Driven<N, book_copy::BookCopy<N, P, S, W>>;

/// What comes back where a shared kernel was not settled.
pub type Unsettled<N, P, S, W> = settling::Unsettled<N, book_copy::BookCopy<N, P, S, W>>;
