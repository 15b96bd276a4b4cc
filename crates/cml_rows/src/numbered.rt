//! The kinds of messages of tables, and how they are made.
use crate::fussy::Fussy;
use crate::told::Told;
use cml_board::{Message, Text};
use std::alloc::{AllocError, Global};
use std::fmt;
use std::sync::atomic::Ordering::SeqCst;

/// A message for each number of a table, which prints as the number's digits.
pub trait Numbered: Message + fmt::Debug {
    /// Another message, for this number.
    fn another(&self, alloc: Global, number: u64) -> Result<Self, AllocError>;

    /// How many messages of its kind live, if they are counted.
    fn live(&self) -> u64;
}

impl Numbered for Fussy<'_> {
    fn another(&self, alloc: Global, number: u64) -> Result<Self, AllocError> {
        Fussy::new(alloc, self.counter(), number)
    }

    fn live(&self) -> u64 {
        self.counter().load(SeqCst)
    }
}

/// Its `Debug` puts the digits in quotes, and it counts none.
impl Numbered for Text {
    fn another(&self, alloc: Global, number: u64) -> Result<Text, AllocError> {
        Text::of_number(alloc, number)
    }

    fn live(&self) -> u64 {
        1
    }
}

/// Makes the messages of a table, all like its first.
#[derive(Drop)]
pub struct Maker<M: Numbered> {
    pub alloc: Global,
    first: M,
}

impl<M: Numbered> Maker<M> {
    pub fn new(alloc: Global, first: M) -> Maker<M> {
        Maker { alloc, first }
    }

    /// Makes the message for this number. If memory runs out, it leaves a gap in the text.
    pub fn make(&self, told: &mut Told, number: u64) -> Option<M> {
        match self.first.another(self.alloc, number) {
            Ok(message) => Some(message),
            Err(_) => {
                told.lack();
                None
            }
        }
    }

    /// Returns how many messages live, without its first.
    pub fn live(&self) -> u64 {
        self.first.live().saturating_sub(1)
    }
}
