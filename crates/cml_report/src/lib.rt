//! A journal seen through the script whose threads made it: what is known of the script, whether each entry is the script's, and
//! the report.
#![tactic(auto)]

mod auditing;
mod binding;
mod calls;
mod concluding;
mod ending;
mod follower;
mod form;
mod lanes;
mod objects;
mod plan;
mod played;
mod ran;
mod read;
mod report;
mod route;
mod snapshot;
mod stalling;
mod stop;
mod tally;
mod verdict;
mod whole;
mod writing;

pub use auditing::audit;
pub use binding::{Binding, bind};
pub use calls::{call_on, used_by, want_on, would_wait};
pub use concluding::{conclude, conclude_as};
pub use ending::{Ending, status_of};
pub use form::Form;
pub use plan::{Plan, THREADS, count_feeds};
pub use played::Played;
pub use ran::Ran;
pub use read::read_all;
pub use route::Route;
pub use stop::Stop;
pub use tally::Tally;
pub use verdict::Verdict;
pub use writing::{text_as, write_played};
