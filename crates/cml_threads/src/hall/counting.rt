//! How entries of lanes and feeds are counted: in the book, for no seat.
ghost use Rattle.std.specs.Prelude.{◌≡◌, length};
ghost use Rattle.cml_board.specs.{entries_in};
ghost use Rattle.cml_threads.specs.{IsCounted, WasCounted};

use cml_board::Message;
use cml_log::MessageLog;
use cml_room::Room;
use std::sync::ledger::{Book, Ledger, Share};

/// Returns how many entries the room's board had since it was made.
pub fn count_entries<M: Message, L: MessageLog<M>>(room: &Room<M, L>) -> u64
    ensures { result ≡ entries_in room.now.board.history }
{
    room.board().entries()
}

/// Counts the entries beyond the first `before`, in the book and as the hall's.
pub fn count_since<M: Message, L: MessageLog<M>, Led: Ledger>(
    before: u64,
    room: &Room<M, L>,
    book: &mut Book<Led>,
    rest: &mut Share<Led>,
)
    requires { WasCounted before room.now book.old.total rest.old.amount rest.old.parts Led.parts }
    ensures { IsCounted room.now.board (length room.now.seats) book.new.total rest.new.amount rest.new.parts Led.parts }
{
    book.add(rest, count_entries(room) - before);
}
