//! The switchboards of the examples with threads. Each function makes one, lets the example's threads use it, and settles it
//! once all seats have left. `passing.rt` has one beside its threads.
ghost use Rattle.std.specs.Prelude.{◌≡◌, ◌+◌, [], IfOk};
ghost use Rattle.cml_guide.specs.{IsBlankOf};

use crate::calls::Trouble;
use crate::lanes::send_and_collect;
use crate::server::{LIMIT, open_and_close};
use crate::sinks::{Counted, Counting, PIECE, Pieces, raise_by_four, settle_pieces};
use crate::threads::{Shared, counted};
use cml_board::BoardLog;
use cml_log::MessageLog;
use cml_threads::{Count, Start};
use std::alloc::Global;
use std::sync::Wait;
use std::sync::ledger::{Blank, Ledger};
use std::thread::Threads;

pub fn collect<L: MessageLog<u64> + Send, Led: Ledger + Send + Sync, R: Threads + Wait + Sync>(
    rt: &R,
    alloc: Global,
    blank: Blank,
) -> Result<(u64, Count), Trouble>
    requires { IsBlankOf blank Led.name Led.parts }
    ensures { IfOk result (λ found. found.1.total ≡ found.1.seats + found.1.rings) }
{
    let shared = Shared::<L, Led>::new(alloc, 100, blank)?;
    let collected = send_and_collect(rt, alloc, &shared);
    counted(shared, collected)
}

pub fn run_on<Led: Ledger + Send + Sync, R: Threads + Wait + Sync>(
    rt: &R,
    alloc: Global,
    blank: Blank,
) -> Result<(u64, Count), Trouble>
    requires { IsBlankOf blank Led.name Led.parts }
    ensures { IfOk result (λ found. found.1.total ≡ found.1.seats + found.1.rings) }
{
    let shared = Shared::<BoardLog<u64>, Led>::new(alloc, LIMIT, blank)?;
    let day = open_and_close(rt, alloc, &shared);
    counted(shared, day)
}

pub fn count_in_pieces<
    L: MessageLog<u64> + Send,
    Led: Start<u64> + Send + Sync,
    R: Threads + Wait + Sync,
>(rt: &R, alloc: Global, blank: Blank) -> Result<Pieces, Trouble>
    requires blank { IsBlankOf blank Led.name Led.parts }
    requires start { Led.start ≡ [] }
{
    let board = Counted::<L, Led>::new(alloc, PIECE, blank, Counting::new())?;
    let raised = raise_by_four(rt, alloc, &board);
    settle_pieces(rt, board, raised)
}
