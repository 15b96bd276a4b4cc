ghost use Rattle.std.specs.Prelude.{◌≡◌};

use crate::call::Call;
use crate::entry::Reply;
use std::marker::Model;

/// An accepted call, its reply, and its entry's position in the journal. Only a board makes one.
#[derive(Debug, Drop)]
pub struct Answer<M> {
    call: Call<M>,
    reply: Reply<M>,
    at: u64,
}

impl<M> Model for Answer<M> {
    ghost use Rattle.cml_board.specs.Answered.{Answered};

    ghost Value = { Answered M };

    ghost view = { λ a. record { call = a.call; reply = a.reply; at = a.at } };
}

impl<M> Answer<M> {
    ghost use Rattle.cml_board.specs.Answered.{Answered};

    pub(crate) fn new(call: Call<M>, reply: Reply<M>, at: u64) -> Answer<M>
        ensures { result ≡ record { call = call; reply = reply; at = at } }
    {
        Answer { call, reply, at }
    }

    pub fn call(&self) -> &Call<M>
        ensures { result.now ≡ self.now.call }
    {
        &self.call
    }

    pub fn reply(&self) -> &Reply<M>
        ensures { result.now ≡ self.now.reply }
    {
        &self.reply
    }

    /// Returns the position of its entry. The first entry since the board was made has position 0.
    pub fn at(&self) -> u64
        ensures { result ≡ self.now.at }
    {
        self.at
    }
}

impl<M: Drop> Answer<M> {
    /// Returns the reply, and drops the rest of the answer.
    pub fn into_reply(self) -> Reply<M>
        ensures { result ≡ self.reply }
    {
        self.reply
    }
}
