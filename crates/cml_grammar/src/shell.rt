//! What programs share: their words, their line on standard error, and their exit status.

mod closing;
mod ending;
mod opening;

pub use closing::{end, status_of_error};
pub use ending::Ending;
pub use opening::{NoOrder, words};
