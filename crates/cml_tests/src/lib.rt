//! Tests of what no clause says and no table shows: threads on a switchboard, lanes, feeds and logs, and scripts.
#![tactic(auto)]

#[cfg(test)]
mod scripts;
#[cfg(test)]
mod threads;
