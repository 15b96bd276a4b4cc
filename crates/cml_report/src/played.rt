use crate::stop::Stop;

/// What is written of a script, its report or its journal, and how it ended.
#[derive(Debug, Drop)]
pub struct Played {
    pub report: String,
    pub stop: Stop,
}
