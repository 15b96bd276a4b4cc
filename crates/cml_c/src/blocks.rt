//! Whether a call, made now, needs a block of memory, which keeps the message that it gives.
ghost use Rattle.std.specs.Prelude.{◌≡◌, Decides};
ghost use Rattle.cml_board.specs.{owed_count, held_by, Fits, HasRoom};
ghost use Rattle.cml_c.specs.{MayWant, NeedsBlock, WouldGive, IsOwed, HoldsLong, IsThere};

use crate::messages::IN_PLACE;
use crate::owned::{BoardOf, RoomOf};
use cml_board::{Bytes, Call, Name, Want};
use cml_room::State;

/// Whether the seat may make the call, the board would answer it now, and the answer may have a message of more than 78 bytes.
pub(crate) fn needs_block(
    room: &RoomOf<Bytes>,
    seat: u64,
    is_again: bool,
    call: &Call<Bytes>,
) -> bool
    ensures { Decides result (NeedsBlock is_again seat call.now room.now) }
{
    may_make(room, seat, is_again, call.want()) && would_give(board_of(room), call)
}

/// Whether the board would answer the call now with such a message.
fn would_give(board: &BoardOf<Bytes>, call: &Call<Bytes>) -> bool
    ensures { Decides result (WouldGive board.now call.now) }
{
    if takes(board, call) {
        return is_there(board, call);
    }
    false
}

/// Whether the board takes the call and has room for its entry.
fn takes(board: &BoardOf<Bytes>, call: &Call<Bytes>) -> bool
    ensures { Decides result (Fits board.now.history call.now × HasRoom board.now) }
{
    fits(board, call) && !board.is_full()
}

fn board_of(room: &RoomOf<Bytes>) -> &BoardOf<Bytes>
    ensures { result.now ≡ room.now.board }
{
    room.board()
}

/// Whether the seat may make a call with this want for the first time, or again after it was parked.
pub(crate) fn may_make(room: &RoomOf<Bytes>, seat: u64, is_again: bool, want: Option<Want>) -> bool
    ensures { Decides result (MayWant is_again room.now seat want) }
{
    if !is_again {
        return room.state(seat) == Some(State::Free);
    }
    match want {
        Some(want) => room.state(seat) == Some(State::Parked(want)),
        None => false,
    }
}

/// Whether the call's object was made, and takes it.
fn fits(board: &BoardOf<Bytes>, call: &Call<Bytes>) -> bool
    ensures { Decides result (Fits board.now.history call.now) }
{
    let Some(name) = call.object() else {
        return true;
    };
    match board.kind(name) {
        Some(kind) => call.takers().has(kind),
        None => false,
    }
}

/// Whether the call's object has a message for it, which may have more than 78 bytes.
fn is_there(board: &BoardOf<Bytes>, call: &Call<Bytes>) -> bool
    ensures { Decides result (IsThere board.now.history call.now) }
{
    match call {
        Call::Recv(source) | Call::Poll(source) => is_owed(board, *source),
        Call::Get(variable) | Call::GetPoll(variable) => holds_long(board, *variable),
        Call::Take(variable) | Call::TakePoll(variable) => holds_long(board, *variable),
        Call::Swap(variable, _) => holds_long(board, *variable),
        _ => false,
    }
}

fn is_owed(board: &BoardOf<Bytes>, source: Name) -> bool
    ensures { Decides result (IsOwed (owed_count board.now.history source.0)) }
{
    match board.owed_count(source) {
        Some(count) => count > 0,
        None => false,
    }
}

fn holds_long(board: &BoardOf<Bytes>, variable: Name) -> bool
    ensures { Decides result (HoldsLong (held_by board.now.history variable.0)) }
{
    match board.held(variable) {
        Some(Some(held)) => held.len() > IN_PLACE,
        _ => false,
    }
}
