//! Steps of one seat or two on a switchboard, and the one place that names a ledger for them. The result is a text.
ghost use Rattle.std.specs.Prelude.{◌≡◌, ◌^◌};

use super::steps::taken;
use super::tables::{Rows, Scene};
use cml_board::BoardLog;
use cml_threads::{Left, PARTS, Switchboard};
use std::alloc::Global;
use std::fmt::Debug;
use std::marker::Brand;
use std::sync::Wait;
use std::sync::ledger::{Blank, Ledger};

/// A switchboard whose messages are numbers.
pub type Numbers<Led> = Switchboard<u64, BoardLog<u64>, Led>;

/// Performs a scene, and returns the results of its steps and its end.
pub fn performed<R: Wait>(rt: &R, alloc: Global, scene: &Scene) -> String {
    let mut text = String::new(alloc);
    perform_in::<Brand, R>(rt, alloc, &mut text, scene, Blank::new(PARTS));
    text
}

/// What the scene's table has.
pub fn expected(alloc: Global, scene: &Scene) -> String {
    let (_, first, second, end) = scene;
    let mut text = String::new(alloc);
    add_results(&mut text, first);
    add_results(&mut text, second);
    text.push_str(end).is_ok();
    text
}

fn add_results(text: &mut String, rows: Rows) {
    for (_, result) in rows.iter() {
        write!(text, "{result}\n").is_ok();
    }
}

fn perform_in<Led: Ledger, R: Wait>(
    rt: &R,
    alloc: Global,
    text: &mut String,
    scene: &Scene,
    blank: Blank,
)
    requires name { blank.name ≡ Led.name }
    requires parts { blank.parts ≡ Led.parts }
    requires enough { blank.parts ≡ 2 ^ 63 }
{
    let limit = scene.0.max(1).min(4_294_967_296);
    if let Ok(board) = Switchboard::new(alloc, limit, blank) {
        perform::<Led, R>(rt, alloc, text, board, scene);
    }
}

fn perform<Led: Ledger, R: Wait>(
    rt: &R,
    alloc: Global,
    text: &mut String,
    board: Numbers<Led>,
    scene: &Scene,
) {
    let (_, first, second, _) = scene;
    if let Some(left) = taken(rt, text, &board, first) {
        let lefts = alone(alloc, left);
        if second.is_empty() {
            end(text, board, lefts);
        } else {
            settle_late(rt, text, board, lefts, second);
        }
    }
}

/// The second seat takes its steps. With the left of the first `settle` fails, and with the lefts of both it succeeds.
fn settle_late<Led: Ledger, R: Wait>(
    rt: &R,
    text: &mut String,
    board: Numbers<Led>,
    lefts: Vec<Left<Led>>,
    rows: Rows,
) {
    let Some(left) = taken(rt, text, &board, rows) else {
        return;
    };
    if let Err((board, mut lefts)) = board.settle(lefts) {
        lefts.push(left).is_ok();
        end(text, board, lefts);
    }
}

/// Settles a switchboard with these lefts, and tells its counts and its journal.
fn end<Led: Ledger>(text: &mut String, board: Numbers<Led>, lefts: Vec<Left<Led>>) {
    if let Ok(settled) = board.settle(lefts) {
        tell(text, &settled.count());
        for entry in settled.board().journal().iter() {
            tell(text, &(entry.who, &entry.call, &entry.reply));
        }
    }
}

/// Writes a line. One that is missing for want of memory shows in the text.
pub fn tell<D: Debug>(text: &mut String, told: &D) {
    write!(text, "{told:?}\n").is_ok();
}

/// One left alone.
pub fn alone<Led: Ledger>(alloc: Global, left: Left<Led>) -> Vec<Left<Led>> {
    let mut lefts = Vec::new(alloc);
    lefts.push(left).is_ok();
    lefts
}
