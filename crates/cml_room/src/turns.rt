//! The end of a seat's turn, and of the other calls.
ghost use Rattle.std.specs.Prelude.{◌≡◌, ◌≢◌, ◌⊎◌, ℕ, Option, false, Some, None, IfSome, MatchBool, MatchOption, slice_get, slice_set};
ghost use Rattle.cml_board.specs.{Want, HasRoom};
ghost use Rattle.cml_lanes.specs.{FloorShown};
ghost use Rattle.cml_room.specs.declared.news.News.{News};
ghost use Rattle.cml_room.specs.{Waiter, Settles, IsOf, states_in, notices_in, HasRisen, IsStalled, EndsTurn, MayEndTurn, AreAt, Follows};
ghost use Rattle.cml_room.specs.{IsWatched, NoneForgotten, WasWatched, WasWatchedAt, WouldWait, HasAsked};
ghost use Rattle.cml_room.specs.declared.place.Place.TheVariants as place;
ghost use Rattle.cml_room.specs.{AskOf, Asks, Turns, TurnEnds, news_by, told_by, with_seats};
ghost use Rattle.std.specs.Prelude.{⊤};

use crate::news::{News, latest_news};
use crate::place::{Place, Waiter};
use crate::seats::Seats;
use crate::state::State;
use crate::waiting::is_stalled;
use crate::waking::{hand_on, object_of, source_of, tell};
use cml_board::{Message, Want};
use cml_lanes::Floor;
use cml_log::MessageLog;

/// How a seat's call ended on the floor.
#[derive(Clone, Copy)]
pub enum Ended {
    /// It was answered, and brought these news.
    Answered(Option<News>),
    /// It failed.
    Failed,
    /// It would wait, for this.
    Waits(Option<Want>),
}

/// Ends a seat's turn whose call ended so. Returns false if the call would wait, and no seat could go on then: the call fails with
/// `Stalled`.
#[inline(always)]
pub fn finish_turn<M: Message, L: MessageLog<M>>(
    floor: &Floor<M, L>,
    seats: &mut Seats,
    number: u64,
    ended: Ended,
) -> bool
    requires { TurnEnds L.CHUNK M.SURE floor.now seats.old number ended }
    ensures watched { IsWatched floor.now seats.new.places seats.new.all_due }
    ensures asks { (turn : TurnEnds L.CHUNK M.SURE floor.now seats.old number ended)
        → Asks L.CHUNK M.SURE ⊤ turn.room (with_seats floor.now seats.new) number turn.call (told_by turn.outcome result) }
    ensures turns { (turn : TurnEnds L.CHUNK M.SURE floor.now seats.old number ended)
        → Turns number (AskOf number) (news_by (told_by turn.outcome result)) turn.room (with_seats floor.now seats.new) }
{
    match ended {
        Ended::Answered(news) => {
            answer_turn(floor, seats, number, news);
            true
        }
        Ended::Failed => {
            end_turn(floor, seats, number, None);
            true
        }
        Ended::Waits(wants) => {
            let Some(want) = wants else { unreachable!() };
            park(floor, seats, number, want)
        }
    }
}

/// The seat's call was answered, and brought these news: the seat is free. All are due if the journal is full now.
#[inline(always)]
pub fn answer_turn<M: Message, L: MessageLog<M>>(
    floor: &Floor<M, L>,
    seats: &mut Seats,
    number: u64,
    news: Option<News>,
)
    requires { MayEndTurn floor.now.board.history number news seats.old.places }
    ensures ends { EndsTurn floor.now.board.history number news seats.old.places seats.new.places }
    ensures kept { (before : FloorShown M) → IsWatched before seats.old.places seats.old.all_due → Follows news before.board floor.now.board
        → IsWatched floor.now seats.new.places seats.new.all_due }
    ensures due { HasRoom floor.now.board → seats.new.all_due ≡ seats.old.all_due }
{
    if seats.parked() == 0 {
        return;
    }
    end_turn(floor, seats, number, news);
    if floor.board().is_full() {
        seats.rouse_all();
    }
}

/// The seat is free. If it waited, the next that waits for the same has its turn. If not, who may go on by the news becomes due.
#[inline(never)]
pub fn end_turn<M: Message, L: MessageLog<M>>(
    floor: &Floor<M, L>,
    seats: &mut Seats,
    number: u64,
    news: Option<News>,
)
    requires { MayEndTurn floor.now.board.history number news seats.old.places }
    ensures ends { EndsTurn floor.now.board.history number news seats.old.places seats.new.places }
    ensures placed { AreAt floor.now.board.history seats.new.places }
    ensures kept { (before : FloorShown M) → IsWatched before seats.old.places seats.old.all_due → Follows news before.board floor.now.board
        → (HasRoom before.board → HasRoom floor.now.board) → IsWatched floor.now seats.new.places seats.new.all_due }
    ensures due { seats.new.all_due ≡ seats.old.all_due }
{
    match waiter_at(seats, number) {
        Some(waiter) => {
            seats.set_free(number);
            hand_on(floor.board(), seats, waiter);
        }
        None => tell(floor.board(), seats, news),
    }
}

/// For what the seat waits, if it does.
fn waiter_at(seats: &Seats, number: u64) -> Option<Waiter>
    ensures { MatchOption result ((waiter : Waiter) → slice_get seats.now.places number ≢ Some (place.Waiting waiter))
        (λ waiter. slice_get seats.now.places number ≡ Some (place.Waiting waiter)) }
{
    match seats.place(number) {
        Some(Place::Waiting(waiter)) => Some(waiter),
        _ => None,
    }
}

/// The seat waits for this, and isn't due. If no seat can go on then, the seat is set free, and `park` returns false.
#[inline(never)]
pub fn park<M: Message, L: MessageLog<M>>(
    floor: &Floor<M, L>,
    seats: &mut Seats,
    number: u64,
    want: Want,
) -> bool
    requires may { (slice_get (states_in seats.old.places) number ≡ Some State.Free)
        ⊎ (slice_get (states_in seats.old.places) number ≡ Some (State.Parked want)) }
    requires would { WouldWait floor.now.board want }
    requires watched { IsWatched floor.now seats.old.places seats.old.all_due }
    ensures parked { let waiting = slice_set (states_in seats.old.places) number (State.Parked want) in MatchBool result
        (¬ (IsStalled floor.now waiting) × (states_in seats.new.places ≡ waiting))
        (IsStalled floor.now waiting × (states_in seats.new.places ≡ slice_set (states_in seats.old.places) number State.Free)) }
    ensures watched { IsWatched floor.now seats.new.places seats.new.all_due }
    ensures none { (other : ℕ) (on : Want) → ¬ (HasRisen seats.old.places seats.new.places other on) }
    ensures due { seats.new.all_due ≡ seats.old.all_due }
    ensures asked { HasAsked number (notices_in seats.old.places) (notices_in seats.new.places) }
{
    begin_wait(floor, seats, number, want);
    if is_stalled(floor, seats) {
        seats.set_free(number);
        return false;
    }
    true
}

/// The seat waits for this, and isn't due.
fn begin_wait<M: Message, L: MessageLog<M>>(
    floor: &Floor<M, L>,
    seats: &mut Seats,
    number: u64,
    want: Want,
)
    requires may { (slice_get (states_in seats.old.places) number ≡ Some State.Free)
        ⊎ (slice_get (states_in seats.old.places) number ≡ Some (State.Parked want)) }
    requires would { WouldWait floor.now.board want }
    requires watched { IsWatched floor.now seats.old.places seats.old.all_due }
    ensures states { states_in seats.new.places ≡ slice_set (states_in seats.old.places) number (State.Parked want) }
    ensures placed { AreAt floor.now.board.history seats.new.places }
    ensures rests { seats.new.all_due ≡ false → NoneForgotten floor.now.board seats.new.places }
    ensures none { (other : ℕ) (on : Want) → ¬ (HasRisen seats.old.places seats.new.places other on) }
    ensures due { seats.new.all_due ≡ seats.old.all_due }
    ensures asked { HasAsked number (notices_in seats.old.places) (notices_in seats.new.places) }
{
    if seats.state(number) == Some(State::Free) {
        let source = source_of(floor.board(), object_of(want));
        seats.wait(number, want, source);
        return;
    }
    seats.quiet(number);
}

/// A lane or a feed has changed the board, and brought these news. All are due if the journal is full now, or if no seat can go
/// on.
pub fn settle<M: Message, L: MessageLog<M>>(
    floor: &Floor<M, L>,
    seats: &mut Seats,
    news: Option<News>,
)
    requires was { WasWatched news floor.now seats.old.places seats.old.all_due }
    requires of { IfSome news (IsOf floor.now.board.history) }
    ensures watched { IsWatched floor.now seats.new.places seats.new.all_due }
    ensures settles { Settles news floor.now seats.old seats.new }
{
    if seats.parked() == 0 {
        return;
    }
    tell(floor.board(), seats, news);
    if floor.board().is_full() || is_stalled(floor, seats) {
        seats.rouse_all();
    }
}

/// A lane's call has changed the board, which had `before` entries then. The last entry, if it is a new one, says what the call
/// brought.
pub fn settle_since<M: Message, L: MessageLog<M>>(
    floor: &Floor<M, L>,
    seats: &mut Seats,
    before: u64,
)
    requires { WasWatchedAt before floor.now seats.old.places seats.old.all_due }
    ensures watched { IsWatched floor.now seats.new.places seats.new.all_due }
    ensures settles { (news : Option News) × Settles news floor.now seats.old seats.new }
{
    let news = latest_news(floor.board(), before);
    settle(floor, seats, news);
}
