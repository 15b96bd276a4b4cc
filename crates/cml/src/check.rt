//! How a journal's text is checked from a reader, and the verdict written.

mod answer;
mod checking;
mod compacted;
mod ending;
mod faulty;
mod state;
mod wanted;
mod written;

pub(crate) use ending::Ending;
pub(crate) use wanted::Wanted;
pub(crate) use written::check;
