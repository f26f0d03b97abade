//! What lies under the lock: the writer of both copies, and how many calls were made.
ghost use Rattle.std.specs.Prelude.{◌≡◌, ◌+◌, ◌<◌, ◌^◌, [], drop, length, OnOk, OnErr};

use crate::Naming;
use crate::history_copy::HistoryCopy;
use crate::request::Request;
use crate::rule::{Published, SeesBook, View};
use left_right::writer::Writer;
use std::sync::ledger::Share;
use std::sync::{Wait, ledger};

/// Why a request was not published.
#[derive(Clone, Copy)]
pub enum NotPublished {
    /// The history that is published is not what the client read under the same lock. It always is.
    Moved,
    /// Memory was wanted and not there.
    Memory,
}

/// The writer, which has published all that was appended, the ledger of the calls that were made, and the ledger's share that
/// counts none of them.
pub struct WriterState<N: Naming, T: HistoryCopy<N>> {
    pub writer: Writer<T, Request, View, Published>,
    pub made: ledger::Book<N>,
    pub none: Share<N>,
    ghost counted: { length (T.state writer.desk.shown.value) ≡ made.total },
    ghost published: { drop writer.behind writer.log.items ≡ [] },
    ghost empty: { (none.parts ≡ 0) × (none.amount ≡ 0) },
}

impl<N: Naming, T: HistoryCopy<N>> WriterState<N, T> {
    /// Publishes a request, and counts it in a client's share. It waits for readers of the copy that it turns to.
    pub fn make<R: Wait>(
        self,
        rt: &R,
        request: Request,
        mine: &mut Share<N>,
    ) -> (WriterState<N, T>, Result<(), NotPublished>)
        requires { 0 < mine.old.parts }
        ensures ok { OnOk result.1 (mine.new.amount ≡ mine.old.amount + 1) }
        ensures err { OnErr result.1 (mine.new.amount ≡ mine.old.amount) }
        ensures parts { mine.new.parts ≡ mine.old.parts }
        ensures fits { mine.new.amount < 2 ^ 32 }
    {
        let WriterState {
            mut writer,
            mut made,
            none,
        } = self;
        made.audit(mine);
        let _length = writer.published().length();
        if writer.published().is_full() {
            return (WriterState { writer, made, none }, Err(NotPublished::Moved));
        }
        if writer.published().made_by(request.client) != request.number as usize {
            return (WriterState { writer, made, none }, Err(NotPublished::Moved));
        }
        if writer.append(request).is_err() {
            return (
                WriterState { writer, made, none },
                Err(NotPublished::Memory),
            );
        }
        let (writer, published) = writer.publish_as::<SeesBook, R>(rt);
        let Ok(()) = published else { unreachable!() };
        made.add(mine, 1);
        let _length = writer.published().length();
        (WriterState { writer, made, none }, Ok(()))
    }

    /// Ends the writer without its book.
    pub fn give_up<R: Wait>(self, rt: &R) {
        let WriterState {
            writer,
            made: _,
            none: _,
        } = self;
        writer.take(rt);
    }
}
