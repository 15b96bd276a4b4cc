//! What is concluded on, and reported.
use crate::plan::Plan;
use crate::stop::Stop;
use crate::tally::Tally;
use cml_board::{Board, BoardLog, Text};

/// A script that was performed: the board that keeps its journal, what went by lanes and feeds, and how it stopped.
#[derive(Clone, Copy)]
pub struct Ran<'a, 's> {
    pub plan: &'a Plan<'s>,
    pub board: &'a Board<Text, BoardLog<Text>>,
    pub tally: &'a Tally,
    pub stop: Stop,
}
