//! Steps of one seat, with a lane and a feed that it has at hand. The result of each step is a line of a text.
use super::forms::Form;
use super::scene::{Numbers, tell};
use super::tables::Rows;
use cml_board::{Ask, Call, Entry, Name, Refusal};
use cml_lanes::{Feed, Lane};
use cml_threads::{Left, Seat};
use std::sync::Wait;
use std::sync::ledger::Ledger;

/// How many messages a lane or a feed has room for.
const ROOM: usize = 2;

/// The most entries of a short journal.
const MOST: u64 = 4_294_967_296;

/// The number of the first lane, and of the first feed: a scene has one of each.
const FIRST: u64 = 0;

#[derive(Clone, Copy)]
pub enum Step {
    Form(Form),
    /// A call by `call`.
    Call(Ask, Name),
    Reserve(usize),
    Cut,
    /// A cut that hands the journal over: how many entries.
    TakeJournal,
    /// `Cut` and `TakeJournal` while the lane or the feed is open.
    CutOpen,
    TakeJournalOpen,
    /// A short journal of at most this many entries: how many it has.
    Compact(u64),
    /// A short journal of at most this many entries, and a cut at the same moment: how many it has.
    CompactAndCut(u64),
    OpenLane(Name),
    Push(u64),
    /// The lane is closed by its end.
    CloseLane,
    /// The thread's side is dropped, and then the lane: how many messages were moved, and whether it is closed.
    DropLane,
    AbandonLane,
    OpenFeed(Name),
    Pump,
    Pop,
    /// The feed is ended: whether that gives an end.
    EndFeed,
}

/// A seat on a switchboard, and the lane and the feed that it has.
#[derive(Drop)]
struct Hands<'a, Led: Ledger, R: Wait> {
    rt: &'a R,
    board: &'a Numbers<Led>,
    seat: Seat<Led>,
    lane: Option<Lane<u64>>,
    feed: Option<Feed<u64>>,
}

/// A new seat takes these steps and leaves: what it left.
pub fn taken<Led: Ledger, R: Wait>(
    rt: &R,
    text: &mut String,
    board: &Numbers<Led>,
    rows: Rows,
) -> Option<Left<Led>> {
    let seat = board.seat(rt).ok()?;
    let mut hands = Hands {
        rt,
        board,
        seat,
        lane: None,
        feed: None,
    };
    for (step, _) in rows.iter() {
        hands.take(text, *step);
    }
    Some(board.leave(rt, hands.seat))
}

impl<Led: Ledger, R: Wait> Hands<'_, Led, R> {
    fn take(&mut self, text: &mut String, step: Step) {
        match step {
            Step::Form(form) => tell(text, &form.reply(self.rt, self.board, &mut self.seat)),
            Step::Call(ask, name) => self.call(text, Call::ask(ask, name)),
            Step::Reserve(entries) => tell(text, &self.board.reserve(self.rt, entries)),
            Step::Cut => tell(text, &self.board.cut(self.rt)),
            Step::TakeJournal => tell(text, &journal_taken(self.rt, self.board)),
            Step::CutOpen => self.cut_open(text),
            Step::TakeJournalOpen => self.take_journal_open(text),
            Step::Compact(limit) => self.compact(text, limit),
            Step::CompactAndCut(limit) => self.compact_and_cut(text, limit),
            Step::OpenLane(target) => self.open_lane(text, target),
            Step::Push(message) => self.push(text, message),
            Step::CloseLane => self.close_lane(text),
            Step::DropLane => self.drop_lane(text),
            Step::AbandonLane => tell(text, &self.board.abandon_lane(self.rt, FIRST)),
            Step::OpenFeed(channel) => self.open_feed(text, channel),
            Step::Pump => tell(text, &self.board.pump(self.rt, FIRST)),
            Step::Pop => self.pop(text),
            Step::EndFeed => tell(text, &has_end(self.rt, self.board)),
        }
    }

    fn call(&mut self, text: &mut String, call: Call<u64>) {
        tell(text, &self.board.call(self.rt, &mut self.seat, call));
    }

    fn cut_open(&self, text: &mut String) {
        self.board.cut_open(self.rt);
        tell(text, &());
    }

    fn take_journal_open(&self, text: &mut String) {
        tell(text, &self.board.take_journal_open(self.rt).len());
    }

    fn compact(&self, text: &mut String, limit: u64) {
        let limit = limit.max(1).min(MOST);
        tell(text, &counted(self.board.compact(self.rt, limit)));
    }

    fn compact_and_cut(&self, text: &mut String, limit: u64) {
        let limit = limit.max(1).min(MOST);
        tell(text, &counted(self.board.compact_and_cut(self.rt, limit)));
    }

    fn open_lane(&mut self, text: &mut String, target: Name) {
        if let Ok((lane, number)) = self.board.open_lane(self.rt, target, ROOM) {
            tell(text, &number);
            self.lane = Some(lane);
        }
    }

    fn push(&mut self, text: &mut String, message: u64) {
        if let Some(lane) = &mut self.lane {
            tell(text, &lane.send(message));
        }
    }

    fn close_lane(&mut self, text: &mut String) {
        if let Some(lane) = self.lane.take() {
            tell(text, &closed(self.rt, self.board, lane));
        }
    }

    fn drop_lane(&mut self, text: &mut String) {
        self.lane = None;
        tell(text, &self.board.drop_lane(self.rt, FIRST));
    }

    fn open_feed(&mut self, text: &mut String, channel: Name) {
        if let Ok((feed, number)) = self.board.open_feed(self.rt, channel, ROOM) {
            tell(text, &(number, feed.port()));
            self.feed = Some(feed);
        }
    }

    fn pop(&mut self, text: &mut String) {
        if let Some(feed) = &mut self.feed {
            tell(text, &feed.recv());
        }
    }
}

/// Cuts the journal: how many entries are handed over.
fn journal_taken<Led: Ledger, R: Wait>(rt: &R, board: &Numbers<Led>) -> Result<usize, Refusal> {
    Ok(board.take_journal(rt)?.len())
}

/// How many entries there are.
fn counted(entries: Result<Vec<Entry<u64>>, Refusal>) -> Result<usize, Refusal> {
    Ok(entries?.len())
}

/// Ends the first feed: whether that gives an end.
fn has_end<Led: Ledger, R: Wait>(rt: &R, board: &Numbers<Led>) -> Result<bool, Refusal> {
    Ok(board.end_feed(rt, FIRST)?.is_some())
}

/// Finishes a lane, and closes it by its end.
fn closed<Led: Ledger, R: Wait>(
    rt: &R,
    board: &Numbers<Led>,
    lane: Lane<u64>,
) -> Result<(), Refusal> {
    let Some(end) = lane.finish() else {
        return Err(Refusal::Unseen);
    };
    match board.close_lane(rt, end) {
        Ok(()) => Ok(()),
        Err((_, refusal)) => Err(refusal),
    }
}
