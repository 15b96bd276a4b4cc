//! The table of workloads.
use crate::roles::Crews;
use crate::roles::Role::{
    CastTo, Caster, Client, Collector, Cutter, Drainer, FeedReader, Filler, Getter, Holder, Pacer,
    Pair, Passer, Pumper, Putter, Reader, Sender, Soaker, Taker, Worker,
};
use Ground::{Board, Chunks, CutBoard, Deque, Hall, Journal, Lane};
use Messages::{Bytes, LongTexts, Numbers, One, Texts};

/// What a workload runs on.
#[derive(Clone, Copy)]
pub enum Ground {
    Board,
    /// A board whose journal is cut again and again.
    CutBoard,
    /// The journal of a board, which is checked.
    Journal,
    /// A log in a deque, with eight cursors.
    Deque,
    /// A log in chunks, with eight cursors.
    Chunks,
    /// A lane, beside a bare ring and a board.
    Lane,
    /// A switchboard.
    Hall,
}

#[derive(Clone, Copy)]
pub enum Messages {
    Numbers,
    /// The number 1 alone, whatever N is.
    One,
    /// The digits of numbers.
    Texts,
    /// The digits of numbers, 20 each.
    LongTexts,
    /// This many bytes.
    Bytes(usize),
}

/// A workload's name, what it runs on, its messages, and its threads.
#[derive(Clone, Copy)]
pub struct Workload(pub &'static str, pub Ground, pub Messages, pub Crews);

const PIPE: Crews = &[(1, Getter), (1, Sender)];

const LANES: Crews = &[(1, Drainer(4)), (4, Filler)];

const SOAKED: Crews = &[(2, FeedReader), (1, Soaker(4, 2)), (4, Filler)];

pub const WORKLOADS: &[Workload] = &[
    Workload("pairs1", Board, Numbers, &[(1, Pair)]),
    Workload("burst1", Board, Numbers, &[(1, Sender), (1, Getter)]),
    Workload("cast8", Board, Numbers, &[(1, CastTo(8))]),
    Workload("var1", Board, Numbers, &[(1, Holder)]),
    Workload("pairs1_text", Board, Texts, &[(1, Pair)]),
    Workload("pairs1_text20", Board, LongTexts, &[(1, Pair)]),
    Workload("cast8_text", Board, Texts, &[(1, CastTo(8))]),
    Workload("pairs1_bytes8", Board, Bytes(8), &[(1, Pair)]),
    Workload("pairs1_bytes64", Board, Bytes(64), &[(1, Pair)]),
    Workload("pairs1_bytes1000", Board, Bytes(1_000), &[(1, Pair)]),
    Workload("cast8_bytes64", Board, Bytes(64), &[(1, CastTo(8))]),
    Workload("ports1000", Board, One, &[(1, CastTo(1_000))]),
    Workload("ports10000", Board, One, &[(1, CastTo(10_000))]),
    Workload("ports100000", Board, One, &[(1, CastTo(100_000))]),
    Workload("log8", Deque, Numbers, &[(1, CastTo(8))]),
    Workload("log8", Chunks, Numbers, &[(1, CastTo(8))]),
    Workload("lane2", Lane, Numbers, &[(1, Sender)]),
    Workload("check1", Journal, Numbers, &[(1, Pair)]),
    Workload("soak1", CutBoard, Numbers, &[(1, Pair)]),
    Workload("pairs1", Hall, Numbers, &[(1, Pair)]),
    Workload("pipe2", Hall, Numbers, PIPE),
    Workload("pipe2_bytes64", Hall, Bytes(64), PIPE),
    Workload("fanin4", Hall, Numbers, &[(1, Collector), (4, Sender)]),
    Workload("fanin4_lanes", Hall, Numbers, LANES),
    Workload("cast8", Hall, Numbers, &[(8, Reader), (1, Caster)]),
    Workload("feed8", Hall, Numbers, &[(8, FeedReader), (1, Pumper(8))]),
    Workload("var2", Hall, Numbers, &[(1, Taker), (1, Putter)]),
    Workload("soak2", Hall, Numbers, &[(1, Pacer), (1, Cutter)]),
    Workload("soak_lanes", Hall, Numbers, SOAKED),
    Workload("token8", Hall, Numbers, &[(8, Passer)]),
    Workload("token63", Hall, Numbers, &[(63, Passer)]),
    Workload("server32", Hall, Numbers, &[(8, Worker), (32, Client)]),
    Workload("server128", Hall, Numbers, &[(8, Worker), (128, Client)]),
];

impl Workload {
    /// Of workloads that differ only in size, sums show the smallest.
    pub fn is_wanted(self, times: Option<u64>, name: Option<&str>) -> bool {
        match name {
            Some(name) => self.0 == name,
            None => times.is_some() || !matches!(self.3.first(), Some((_, CastTo(1_001..)))),
        }
    }

    /// N turns, or the next fewer that its threads can share equally, one each at least.
    pub fn turns(self, count: u64) -> u64 {
        let most = self.3.last().map_or(1, |crew| crew.0);
        let each = count.checked_div(most).unwrap_or(0).max(1);
        each.saturating_mul(most)
    }
}
