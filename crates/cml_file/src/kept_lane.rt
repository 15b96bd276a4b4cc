//! The sender's side of a lane of a switchboard in a file.
ghost use Rattle.std.specs.Prelude.{◌≡◌, ◌++◌, ◌∷◌, [], IfErr, IfSome, OnOk};
ghost use Rattle.cml_file.specs.{IsUnsent};

use crate::fault::Fault;
use crate::lines::fits;
use cml_board::Message;
use cml_journal::Written;
use cml_lanes::{Lane, LaneEnd, LaneFull};
use std::alloc::Global;
use std::marker::Model;

/// The reason why a lane takes no message. It returns the message.
#[derive(Debug, Drop)]
pub enum Unsent<M> {
    /// There is no free slot in the ring. Send it again later.
    Full(M),
    /// The message is too long for a line of the file, or there is no memory to find that out.
    Refused(Fault, M),
}

/// A lane of a switchboard in a file. Its messages are stored once they are drained. What can't be stored it doesn't take.
#[derive(Drop)]
pub struct KeptLane<M> {
    alloc: Global,
    lane: Lane<M>,
}

impl<M> Model for KeptLane<M> {
    ghost use Rattle.cml_lanes.specs.{LaneShown};

    ghost Value = { LaneShown M };

    ghost view = { λ kept. kept.lane };
}

impl<M: Message + Written> KeptLane<M> {
    pub(crate) fn of(alloc: Global, lane: Lane<M>) -> KeptLane<M>
        ensures { result ≡ lane }
    {
        KeptLane { alloc, lane }
    }

    /// Returns the lane's number, by which its switchboard drains it.
    pub fn number(&self) -> u64
        ensures { result ≡ self.now.number }
    {
        self.lane.number()
    }

    /// Sends a message, as `Lane::send` does, if each line that has it can be read.
    pub fn send(&mut self, message: M) -> Result<(), Unsent<M>>
        ensures sent { OnOk result (self.new ≡ record self.old { accepted = self.old.accepted ++ message ∷ [] }) }
        ensures back { IfErr result (λ unsent. IsUnsent message unsent × (self.new ≡ self.old)) }
    {
        match fits(self.alloc, Some(&message)) {
            Ok(true) => {}
            Ok(false) => return Err(Unsent::Refused(Fault::TooLong, message)),
            Err(error) => return Err(Unsent::Refused(Fault::from(error), message)),
        }
        match self.lane.send(message) {
            Ok(()) => Ok(()),
            Err(LaneFull(back)) => Err(Unsent::Full(back)),
        }
    }

    /// Ends the lane, as `Lane::finish` does: its end closes it.
    pub fn finish(self) -> Option<LaneEnd<M>>
    where
        M: Drop,
        ensures { IfSome result (λ end. end ≡ record { ring = self.ring; number = self.number; sent = self.accepted }) }
    {
        let KeptLane { alloc, lane } = self;
        lane.finish()
    }
}
