//! The text of the outcomes, while it is written.
use std::alloc::{AllocError, Global};
use std::fmt::Debug;

/// A text that grows. It notes whether memory ran out for some of it, and only `end` reports that.
#[derive(Drop)]
pub struct Told {
    text: String,
    is_whole: bool,
}

impl Told {
    pub fn new(alloc: Global) -> Told {
        Told {
            text: String::new(alloc),
            is_whole: true,
        }
    }

    pub fn say(&mut self, words: &str) {
        let is_said = self.text.push_str(words).is_ok();
        self.needs(is_said);
    }

    /// Says what is printed of a value.
    pub fn show<D: Debug>(&mut self, value: &D) {
        let is_said = write!(self.text, "{value:?}").is_ok();
        self.needs(is_said);
    }

    /// Says what another has so far.
    pub fn add(&mut self, other: &Told) {
        self.say(other.text.as_str());
        self.needs(other.is_whole);
    }

    /// Notes a gap, unless `is_there`.
    pub fn needs(&mut self, is_there: bool) {
        self.is_whole = self.is_whole && is_there;
    }

    /// Notes a gap, since memory ran out.
    pub fn lack(&mut self) {
        self.is_whole = false;
    }

    /// Whether it says just these words so far, without a gap.
    pub fn is(&self, words: &str) -> bool {
        self.is_whole && self.text.as_str() == words
    }

    /// Says what is wrong, unless all is well.
    pub fn note(&mut self, is_well: bool, wrong: &str) {
        if !is_well {
            self.say(", ");
            self.say(wrong);
        }
    }

    /// Says what is wrong, unless two others say the same. If one of them has a gap, it has one too.
    pub fn compare(&mut self, one: &Told, other: &Told, wrong: &str) {
        self.needs(one.is_whole && other.is_whole);
        self.note(one.text.as_str() == other.text.as_str(), wrong);
    }

    /// The text, unless it has a gap.
    pub fn end(self) -> Result<String, AllocError> {
        if self.is_whole {
            return Ok(self.text);
        }
        Err(AllocError)
    }
}
