ghost use Rattle.std.specs.Prelude.{◌≡◌, ◌∷◌, ◌<◌, ◌≤◌, List, Some, None};
ghost use Rattle.cml_board.specs.{Entry, entries_in};
ghost use Rattle.cml_room.specs.{news_in, HasEntries};

use cml_board::{Board, Call, Message, Name};
use cml_lanes::Floor;
use cml_log::MessageLog;

/// What an answered call brings to the seats that wait.
#[derive(Clone, Copy)]
pub enum News {
    /// A message in a mailbox.
    Message(Name),
    /// A message on a channel, for each of its ports.
    Multicast(Name),
    /// A value in a variable.
    Value(Name),
    /// A port has closed.
    Closed(Name),
}

/// Returns what the call brings once it is answered.
#[inline]
pub fn news_in<M>(call: &Call<M>) -> Option<News>
    ensures { result ≡ news_in call.now }
{
    match call {
        Call::Send(name, _) => Some(News::Message(*name)),
        Call::Cast(name, _) => Some(News::Multicast(*name)),
        Call::Put(name, _) => Some(News::Value(*name)),
        Call::ClosePort(name) => Some(News::Closed(*name)),
        _ => None,
    }
}

/// Returns how many entries the floor's board had since it was made.
pub fn count_entries<M: Message, L: MessageLog<M>>(floor: &Floor<M, L>) -> u64
    ensures { HasEntries result floor.now }
{
    // The contract of `journal` says that the entries that were cut away are a part of all.
    let board = floor.board();
    let _journal = board.journal();
    board.entries()
}

/// Returns what the journal's last entry brings, if there are more than `before` entries.
pub fn latest_news<M: Message, L: MessageLog<M>>(board: &Board<M, L>, before: u64) -> Option<News>
    ensures none { entries_in board.now.history ≤ before → result ≡ None }
    ensures latest { (entry : Entry M) (rest : List (Entry M)) → board.now.history ≡ entry ∷ rest
        → entries_in board.now.past < entries_in board.now.history
        → before < entries_in board.now.history → result ≡ news_in entry.call }
{
    if board.entries() <= before {
        return None;
    }
    match board.journal().last() {
        Some(entry) => news_in(&entry.call),
        None => None,
    }
}
