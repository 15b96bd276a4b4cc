//! The journal of a board that was never cut: all of its entries. No step of a script cuts one.
ghost use Rattle.std.specs.Prelude.{◌≡◌, ◌≤◌, reverse};
ghost use Rattle.cml_board.specs.{no_entries, entries_in, Lawful};

use cml_board::{Board, BoardLog, Entry, Text};

/// All entries, oldest first.
pub fn journal(board: &Board<Text, BoardLog<Text>>) -> &[Entry<Text>]
    requires { board.now.past ≡ no_entries }
    ensures entries { result.now ≡ reverse board.now.history }
    ensures room { entries_in board.now.history ≤ board.now.limit }
    ensures lawful { Lawful board.now.history }
{
    board.journal()
}
