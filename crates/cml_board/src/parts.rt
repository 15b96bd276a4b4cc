//! A call taken apart. What is said of a call by its row in the table, its object or its message goes by these parts.
ghost use Rattle.std.specs.Prelude.{◌≡◌, ◌↔◌, IsTrue};
ghost use Rattle.cml_board.specs.{parts_map};

use crate::call::Name;
use crate::message::Message;
use cml_calls::{Ask, Give, Make};

/// A call's row in the table, its object and its message.
#[derive(Clone, Copy, Debug)]
pub enum Parts<M> {
    Make(Make),
    /// Makes an m-variable that holds this message.
    Fill(M),
    Give(Give, Name, M),
    Ask(Ask, Name),
}

impl<M: Message> Parts<&M> {
    /// Says whether the parts of two calls are equal.
    pub fn same(&self, other: &Parts<&M>) -> bool
        ensures { IsTrue result ↔ (parts_map (λ message. message.now) self.now ≡ parts_map (λ message. message.now) other.now) }
    {
        match (self, other) {
            (Parts::Make(one), Parts::Make(two)) => one == two,
            (Parts::Fill(one), Parts::Fill(two)) => one.same(two),
            (Parts::Give(one, at, sent), Parts::Give(two, there, told)) => one == two
                && at == there
                && sent.same(told),
            (Parts::Ask(one, at), Parts::Ask(two, there)) => one == two && at == there,
            _ => false,
        }
    }
}
