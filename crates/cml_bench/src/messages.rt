//! What the messages of a workload can be: numbers, texts or bytes.
use crate::workloads::Messages;
use cml_board::{Bytes, Message, Text};
use std::alloc::{AllocError, Global};

/// What messages are made with. All bytes are copied from one list of 0 to 255 and 0 again, so that this takes little time.
#[derive(Drop)]
pub struct Supply {
    alloc: Global,
    /// 256 more than a message has.
    bytes: Vec<u8>,
}

impl Supply {
    pub fn new(alloc: Global, messages: Messages) -> Result<Supply, AllocError> {
        let length = match messages {
            Messages::Bytes(length) => length,
            _ => 0,
        };
        let mut bytes = Vec::new(alloc);
        for place in 0..(length as u64).saturating_add(256) {
            bytes.push((place % 256) as u8)?;
        }
        Ok(Supply { alloc, bytes })
    }

    /// The bytes of this number's message: they begin with its lowest one.
    fn bytes(&self, number: u64) -> &[u8] {
        let start = (number % 256) as usize;
        let end = self.bytes.len().saturating_sub(256).saturating_add(start);
        self.bytes.get(start..end).unwrap_or(&[])
    }
}

/// A message for each number.
pub trait Numbered: Message {
    /// `None` if there is no memory for it.
    fn of_number(supply: &Supply, number: u64) -> Option<Self>;

    /// The sum with this message after it. The order of messages changes it.
    fn added_to(&self, sum: u64) -> u64;
}

impl Numbered for u64 {
    fn of_number(_supply: &Supply, number: u64) -> Option<u64> {
        Some(number)
    }

    fn added_to(&self, sum: u64) -> u64 {
        sum.wrapping_mul(31).wrapping_add(*self)
    }
}

/// The number's digits. Each byte is added.
impl Numbered for Text {
    fn of_number(supply: &Supply, number: u64) -> Option<Text> {
        Text::of_number(supply.alloc, number).ok()
    }

    fn added_to(&self, sum: u64) -> u64 {
        let mut sum = sum;
        for byte in self.as_bytes() {
            sum = (*byte as u64).added_to(sum);
        }
        sum
    }
}

impl Numbered for Bytes {
    fn of_number(supply: &Supply, number: u64) -> Option<Bytes> {
        let bytes = supply.bytes(number);
        Bytes::from_slice(supply.alloc, bytes).ok()?.ok()
    }

    /// The sum with the first and the last byte after it. To add all bytes would take longer than to send them.
    fn added_to(&self, sum: u64) -> u64 {
        let bytes = self.as_slice();
        let first = bytes.first().copied().unwrap_or(0) as u64;
        let last = bytes.last().copied().unwrap_or(0) as u64;
        last.added_to(first.added_to(sum))
    }
}
