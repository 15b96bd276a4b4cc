//! The threads' sides of lanes and feeds, by their numbers.
use crate::ground::Ground;
use crate::moving::{Moves, tell_moves};
use crate::numbered::{Maker, Numbered};
use crate::outcome::{refusal_word, tell_done};
use crate::told::Told;
use crate::words::{number, object};
use cml_board::Refusal;
use cml_lanes::{Feed, Lane, LaneEnd};

/// A lane's side: its sender, its end, or nothing any more.
#[derive(Drop)]
enum Side<M: Numbered> {
    Sends(Lane<M>),
    Finished(LaneEnd<M>),
    Gone,
}

#[derive(Drop)]
pub struct Rings<'a, M: Numbered> {
    maker: &'a Maker<M>,
    lanes: Vec<Side<M>>,
    feeds: Vec<Option<Feed<M>>>,
}

impl<'a, M: Numbered> Rings<'a, M> {
    pub fn new(maker: &'a Maker<M>) -> Rings<'a, M> {
        Rings {
            maker,
            lanes: Vec::new(maker.alloc),
            feeds: Vec::new(maker.alloc),
        }
    }

    /// Performs a line's words on a lane or a feed, and writes their outcome. Returns false if they are not about one.
    pub fn obey<G: Ground<M>>(&mut self, told: &mut Told, ground: &mut G, words: &[&str]) -> bool {
        let rest = words.get(1..).unwrap_or(&[]);
        let at = number(rest, 0).unwrap_or(u64::MAX);
        match *words.first().unwrap_or(&"") {
            "lane" => self.open_lane(told, ground, rest),
            "feed" => self.open_feed(told, ground, rest),
            "push" => self.push(told, at, number(rest, 1).unwrap_or(0)),
            "pop" => self.pop(told, at),
            "finish" => self.finish(told, at),
            "lose" => self.lose(told, at),
            "let_go" => self.let_go(told, at),
            "close" => self.close(told, ground, at),
            "drain" => tell_moves::<M, G>(told, ground, Moves::Drain, at),
            "drop" => tell_moves::<M, G>(told, ground, Moves::Drop, at),
            "pump" => tell_moves::<M, G>(told, ground, Moves::Pump, at),
            "abandon" => tell_done(told, ground.abandon_lane(at)),
            "end" => tell_end(told, ground.end_feed(at)),
            _ => return false,
        }
        true
    }

    fn open_lane<G: Ground<M>>(&mut self, told: &mut Told, ground: &mut G, rest: &[&str]) {
        let (Some(target), Some(capacity)) = (object(rest), number(rest, 1)) else {
            return told.say("not understood");
        };
        match ground.open_lane(target, capacity as usize) {
            Ok((lane, number)) => {
                told.needs(self.lanes.push(Side::Sends(lane)).is_ok());
                told.say("lane ");
                told.show(&number);
            }
            Err(refusal) => told.say(refusal_word(refusal)),
        }
    }

    fn open_feed<G: Ground<M>>(&mut self, told: &mut Told, ground: &mut G, rest: &[&str]) {
        let (Some(channel), Some(capacity)) = (object(rest), number(rest, 1)) else {
            return told.say("not understood");
        };
        match ground.open_feed(channel, capacity as usize) {
            Ok((feed, number)) => {
                let port = feed.port().0;
                told.needs(self.feeds.push(Some(feed)).is_ok());
                told.say("feed ");
                told.show(&number);
                told.say(" port ");
                told.show(&port);
            }
            Err(refusal) => told.say(refusal_word(refusal)),
        }
    }

    fn push(&mut self, told: &mut Told, at: u64, value: u64) {
        let Some(Side::Sends(lane)) = self.lanes.get_mut(at as usize) else {
            return told.say("no lane");
        };
        let Some(message) = self.maker.make(told, value) else {
            return;
        };
        match lane.send(message) {
            Ok(()) => told.say("done"),
            Err(full) => tell_full(told, self.maker, &full.0, value),
        }
    }

    fn pop(&mut self, told: &mut Told, at: u64) {
        let Some(Some(feed)) = self.feeds.get_mut(at as usize) else {
            return told.say("no feed");
        };
        match feed.recv() {
            Some(message) => told.show(&message),
            None => told.say("none"),
        }
    }

    fn finish(&mut self, told: &mut Told, at: u64) {
        let Some(side) = self.lanes.get_mut(at as usize) else {
            return told.say("no lane");
        };
        let Side::Sends(lane) = std::mem::replace(side, Side::Gone) else {
            return told.say("no lane");
        };
        let Some(end) = lane.finish() else {
            return told.say("no end");
        };
        told.say("end of ");
        told.show(&end.count());
        *side = Side::Finished(end);
    }

    /// Drops the thread's side of a lane.
    fn lose(&mut self, told: &mut Told, at: u64) {
        match self.lanes.get_mut(at as usize) {
            Some(side) => {
                *side = Side::Gone;
                told.say("done");
            }
            None => told.say("no lane"),
        }
    }

    /// Drops the thread's side of a feed.
    fn let_go(&mut self, told: &mut Told, at: u64) {
        match self.feeds.get_mut(at as usize) {
            Some(feed) => {
                *feed = None;
                told.say("done");
            }
            None => told.say("no feed"),
        }
    }

    fn close<G: Ground<M>>(&mut self, told: &mut Told, ground: &mut G, at: u64) {
        let Some(side) = self.lanes.get_mut(at as usize) else {
            return told.say("no lane");
        };
        let Side::Finished(end) = std::mem::replace(side, Side::Gone) else {
            return told.say("no end");
        };
        match ground.close_counted(end) {
            Ok(()) => told.say("done"),
            Err((end, refusal)) => {
                *side = Side::Finished(end);
                told.say(refusal_word(refusal));
            }
        }
    }
}

/// Writes that a lane had no room for a message, and whether another message was returned.
fn tell_full<M: Numbered>(told: &mut Told, maker: &Maker<M>, back: &M, value: u64) {
    told.say("full");
    if let Some(sent) = maker.make(told, value) {
        told.note(back.same(&sent), "another message back");
    }
}

fn tell_end(told: &mut Told, ended: Result<bool, Refusal>) {
    told.say(match ended {
        Ok(true) => "an end",
        Ok(false) => "no end",
        Err(refusal) => refusal_word(refusal),
    });
}
