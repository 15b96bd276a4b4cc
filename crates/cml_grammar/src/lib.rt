//! Scripts of threads, line by line, and what is wrong with them; functions for any text of lines; and what programs share.
#![tactic(auto)]

mod checks;
mod fault;
mod forms;
mod input;
mod laws;
mod meaning;
mod names;
mod output;
mod read;
mod reading;
mod script;
pub mod shell;
mod words;

pub use fault::{Fault, What};
pub use forms::{Action, Declares, FeedMaking, Makes, Place, Verb};
pub use input::{Unread, read_up_to};
pub use laws::{
    faultless_texts_are_scripts, numbers_are_as_printed, numbers_are_texts, scripts_have_no_fault,
    texts_are_one_script, words_make_lines,
};
pub use names::{Named, Users, is_name, number_of};
pub use output::write_whole;
pub use read::{cut_line, read_script};
pub use script::{Declaration, Lane, Line, Script, Step};
pub use words::{has_bad_byte, split_words};
