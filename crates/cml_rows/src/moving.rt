//! Calls that move messages out of lanes and into feeds, until no more are seen.
use crate::ground::Ground;
use crate::numbered::Numbered;
use crate::outcome::{REFUSED_ONCE, refusal_word};
use crate::told::Told;
use cml_board::Refusal;

/// A call that moves messages.
#[derive(Clone, Copy)]
pub enum Moves {
    Drain,
    Pump,
    /// It drains a lane, and closes it.
    Drop,
}

/// How often a call that moves messages is made at most: once for each message that a ring has room for, and some more.
const TURNS: usize = 2000;

/// How many messages were moved, the refusal of the next one, and whether memory ran out before that.
#[derive(Clone, Copy)]
struct Moved {
    count: usize,
    refusal: Option<Refusal>,
    was_refused: bool,
}

/// Moves messages until there is none to move or one is refused, and writes how many. If memory runs out, the call is made
/// once more, and goes on.
pub fn tell_moves<M: Numbered, G: Ground<M>>(
    told: &mut Told,
    ground: &mut G,
    moves: Moves,
    number: u64,
) {
    let moved = move_all::<M, G>(ground, moves, number);
    if moved.count > 0 || moved.refusal.is_none() {
        told.show(&moved.count);
    }
    if let Some(refusal) = moved.refusal {
        told.say(if moved.count > 0 { ", then " } else { "" });
        told.say(refusal_word(refusal));
    }
    if moved.was_refused {
        told.say(REFUSED_ONCE);
    }
}

fn move_all<M: Numbered, G: Ground<M>>(ground: &mut G, moves: Moves, number: u64) -> Moved {
    let mut moved = Moved {
        count: 0,
        refusal: None,
        was_refused: false,
    };
    for _ in 0..TURNS {
        match ground.move_some(moves, number) {
            Ok((count, is_all)) => {
                moved.count = moved.count.saturating_add(count);
                if is_all {
                    return moved;
                }
            }
            Err(Refusal::NoMemory) if !moved.was_refused => moved.was_refused = true,
            Err(refusal) => {
                moved.refusal = Some(refusal);
                return moved;
            }
        }
    }
    moved
}
