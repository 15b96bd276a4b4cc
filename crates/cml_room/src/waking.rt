//! Who may go on by what has come, of those that wait.
ghost use Rattle.std.specs.Prelude.{◌≡◌, ◌≢◌, ◌⊎◌, ℕ, true, false, Some, IfSome, MatchBool, slice_get, ⊤};
ghost use Rattle.cml_calls.specs.declared.kind.Kind.TheVariants.{MVar};
ghost use Rattle.cml_board.specs.{kind_of, Lawful};
ghost use Rattle.cml_room.specs.declared.place.Place.TheVariants as place;
ghost use Rattle.cml_room.specs.{Waiter, object_of, source_of, helps, Helps, NoNews, IsOf, is_noted, notices_in, place_due, row_of};
ghost use Rattle.cml_room.specs.{AreAlike, AreRoused, IsMate, IsQuiet, IsForOne, OneEach, reaches, WouldWait, AreAt, KeepsWoken};

use crate::news::News;
use crate::place::{Place, Waiter};
use crate::seats::{ROWS, Seats};
use cml_board::{Board, Kind, Message, Name, Want};
use cml_log::MessageLog;

/// Makes the seats due that may go on by the news. At a mailbox or an m-variable this is one seat for each want. At an
/// i-variable, at a port and at the ports of a channel it is all that wait.
pub fn tell<M: Message, L: MessageLog<M>>(
    board: &Board<M, L>,
    seats: &mut Seats,
    news: Option<News>,
)
    requires placed { AreAt board.now.history seats.old.places }
    requires of { IfSome news (IsOf board.now.history) }
    ensures roused { AreRoused (λ waiter. Helps board.now.history news waiter.want) seats.old.places seats.new.places }
    ensures one { IsForOne board.now.history news → OneEach seats.old.places seats.new.places }
    ensures told { (number : ℕ) (waiter : Waiter) → IsQuiet seats.new.places number waiter
        → NoNews board.now.history news waiter.want ⊎ IsMate seats.new.places waiter.want }
    ensures due { seats.new.all_due ≡ seats.old.all_due }
{
    // In a lawful history a port's source is a channel.
    board.facts();
    let Some(news) = news else {
        return;
    };
    match news {
        News::Message(name) => rouse_first(seats, Want::Recv(name), name.0),
        News::Multicast(name) => rouse_each(seats, name.0, name.0),
        News::Closed(name) => rouse_each(seats, name.0, source_of(board, name)),
        News::Value(name) => tell_value(board, seats, name),
    }
}

/// Makes the seats due that may go on by a value in this variable.
fn tell_value<M: Message, L: MessageLog<M>>(board: &Board<M, L>, seats: &mut Seats, name: Name)
    requires placed { AreAt board.now.history seats.old.places }
    requires of { IsOf board.now.history (News.Value name) }
    requires lawful { Lawful board.now.history }
    ensures roused { AreRoused (λ waiter. helps board.now.history (News.Value name) waiter.want ≡ true) seats.old.places seats.new.places }
    ensures one { kind_of board.now.history name.0 ≡ Some MVar → OneEach seats.old.places seats.new.places }
    ensures told { (number : ℕ) (waiter : Waiter) → IsQuiet seats.new.places number waiter
        → NoNews board.now.history (Some (News.Value name)) waiter.want ⊎ IsMate seats.new.places waiter.want }
    ensures due { seats.new.all_due ≡ seats.old.all_due }
{
    if board.kind(name) == Some(Kind::IVar) {
        rouse_each(seats, name.0, name.0);
        return;
    }
    rouse_first(seats, Want::Get(name), name.0);
    rouse_first(seats, Want::Take(name), name.0);
    rouse_first(seats, Want::Swap(name), name.0);
}

/// Makes due the next that waits for this, if it would not wait any more.
pub fn hand_on<M: Message, L: MessageLog<M>>(board: &Board<M, L>, seats: &mut Seats, waiter: Waiter)
    ensures roused { AreRoused (λ other. other.want ≡ waiter.want) seats.old.places seats.new.places }
    ensures one { OneEach seats.old.places seats.new.places }
    ensures on { WouldWait board.now waiter.want ⊎ ((number : ℕ) (other : Waiter) → IsQuiet seats.new.places number other
        → other.want ≡ waiter.want → other.source ≡ waiter.source → IsMate seats.new.places waiter.want) }
    ensures due { seats.new.all_due ≡ seats.old.all_due }
{
    if board.waits(waiter.want) && !board.is_full() {
        return;
    }
    rouse_first(seats, waiter.want, waiter.source);
}

/// The object whose messages come there.
pub fn source_of<M: Message, L: MessageLog<M>>(board: &Board<M, L>, name: Name) -> u64
    ensures { result ≡ source_of board.now.history name.0 }
{
    match board.channel_of(name) {
        Some(channel) => channel.0,
        None => name.0,
    }
}

/// The object that is waited at.
pub fn object_of(want: Want) -> Name
    ensures { result.0 ≡ object_of want }
{
    match want {
        Want::Recv(name) | Want::Get(name) | Want::Take(name) | Want::Swap(name) => name,
    }
}

/// Rouses each seat that waits, if all are due: then each that is due has a notice.
pub fn rouse_due(seats: &mut Seats)
    ensures alike { AreAlike seats.old.places seats.new.places }
    ensures quiet { (number : ℕ) (waiter : Waiter) → IsQuiet seats.new.places number waiter → seats.old.all_due ≡ false }
    ensures same { (number : ℕ)
        → place_due false (slice_get seats.new.places number) ≡ place_due seats.old.all_due (slice_get seats.old.places number) }
    ensures due { seats.new.all_due ≡ false }
    ensures woken { KeepsWoken (notices_in seats.old.places) (notices_in seats.new.places) }
{
    if seats.all_due() {
        rouse_waiting(seats);
    }
}

/// Rouses each seat that waits, and looks at no other: there may be many that have left.
fn rouse_waiting(seats: &mut Seats)
    ensures roused { AreRoused (λ waiter. ⊤) seats.old.places seats.new.places }
    ensures none { (number : ℕ) (waiter : Waiter) → ¬ (IsQuiet seats.new.places number waiter) }
    ensures due { seats.new.all_due ≡ false }
{
    for row in 0..ROWS {
        rouse_row(seats, row as u64);
    }
    seats.all_roused();
}

/// Rouses each seat that waits in the row of this object.
fn rouse_row(seats: &mut Seats, source: u64)
    ensures roused { AreRoused (λ waiter. ⊤) seats.old.places seats.new.places }
    ensures each { (number : ℕ) (waiter : Waiter) → IsQuiet seats.new.places number waiter → row_of waiter.source ≢ row_of source }
    ensures due { seats.new.all_due ≡ seats.old.all_due }
{
    let mut next = seats.first_at(source);
    for _ in 0..seats.most() {
        let Some(number) = next else {
            return;
        };
        rouse_here(seats, number);
        next = seats.after(number);
    }
}

/// Makes the seat due, if it waits.
fn rouse_here(seats: &mut Seats, number: u64)
    ensures roused { AreRoused (λ waiter. ⊤) seats.old.places seats.new.places }
    ensures this { (waiter : Waiter) → slice_get seats.new.places number ≡ Some (place.Waiting waiter) → is_noted waiter.notice ≡ true }
    ensures rows { seats.new.rows ≡ seats.old.rows }
    ensures due { seats.new.all_due ≡ seats.old.all_due }
{
    if let Some(Place::Waiting(_)) = seats.place(number) {
        seats.rouse(number);
    }
}

/// Makes due the one that has waited the longest for this.
fn rouse_first(seats: &mut Seats, want: Want, source: u64)
    ensures roused { AreRoused (λ waiter. waiter.want ≡ want) seats.old.places seats.new.places }
    ensures one { OneEach seats.old.places seats.new.places }
    ensures first { (number : ℕ) (waiter : Waiter) → IsQuiet seats.new.places number waiter
        → waiter.want ≡ want → waiter.source ≡ source → IsMate seats.new.places want }
    ensures due { seats.new.all_due ≡ seats.old.all_due }
{
    let mut next = seats.first_at(source);
    for _ in 0..seats.most() {
        let Some(number) = next else {
            return;
        };
        if wants(seats, number, want) {
            seats.rouse(number);
            return;
        }
        next = seats.after(number);
    }
}

/// Makes due all that wait at this object, or at a port of it.
fn rouse_each(seats: &mut Seats, object: u64, source: u64)
    ensures roused { AreRoused (λ waiter. reaches object source waiter ≡ true) seats.old.places seats.new.places }
    ensures each { (number : ℕ) (waiter : Waiter) → IsQuiet seats.new.places number waiter → reaches object source waiter ≡ false }
    ensures due { seats.new.all_due ≡ seats.old.all_due }
{
    let mut next = seats.first_at(source);
    for _ in 0..seats.most() {
        let Some(number) = next else {
            return;
        };
        rouse_reached(seats, number, object, source);
        next = seats.after(number);
    }
}

fn wants(seats: &Seats, number: u64, want: Want) -> bool
    ensures { MatchBool result ((waiter : Waiter)
        × (slice_get seats.now.places number ≡ Some (place.Waiting waiter)) × (waiter.want ≡ want))
        ((waiter : Waiter) → slice_get seats.now.places number ≡ Some (place.Waiting waiter) → waiter.want ≢ want) }
{
    match seats.place(number) {
        Some(Place::Waiting(waiter)) => waiter.want == want,
        _ => false,
    }
}

/// Makes the seat due, if it waits at this object, or at a port of it.
fn rouse_reached(seats: &mut Seats, number: u64, object: u64, source: u64)
    ensures roused { AreRoused (λ waiter. reaches object source waiter ≡ true) seats.old.places seats.new.places }
    ensures this { (waiter : Waiter) → slice_get seats.new.places number ≡ Some (place.Waiting waiter) → reaches object source waiter ≡ true
        → is_noted waiter.notice ≡ true }
    ensures rows { seats.new.rows ≡ seats.old.rows }
    ensures due { seats.new.all_due ≡ seats.old.all_due }
{
    let Some(Place::Waiting(waiter)) = seats.place(number) else {
        return;
    };
    if is_reached(waiter, object, source) {
        seats.rouse(number);
    }
}

fn is_reached(waiter: Waiter, object: u64, source: u64) -> bool
    ensures { result ≡ reaches object source waiter }
{
    waiter.source == source && (object == source || object == object_of(waiter.want).0)
}
