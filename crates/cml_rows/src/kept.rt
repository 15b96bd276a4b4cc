//! Performs a journal's calls on a switchboard in a file, for `tests/libraries/kept_file.sh`, which looks at the file and at what is
//! written here. Each line of standard input is one of a journal: its call is made, and its reply is not looked at. The line `share N`
//! has two threads call N times each. `lane 5` sends by a lane to object 0, `feed 5` by a lane to channel 0, which a feed reads. `sync`
//! syncs, and `close` closes the file. Without a `close` the switchboard is dropped as it stands.

mod moving;
mod playing;
mod sharing;

use cml_board::{BoardLog, Message};
use cml_file::Recovered;
use cml_journal::Written;
use cml_threads::PARTS;
use playing::play;
use std::fmt::Debug;
use std::fs::File;
use std::io;
use std::marker::Brand;
use std::rt::Files;
use std::sync::Wait;
use std::sync::ledger::Blank;
use std::thread::Threads;

/// Opens the file, says what was recovered, and performs the calls.
pub(crate) fn open<
    M: Message + Written + Debug + Send + Sync,
    R: Files<File = File> + Input + Print + AllocGlobal + Threads + Wait + Sync,
>(rt: &R, path: &str) -> io::Result<()> {
    match Recovered::<M, BoardLog<M>>::open(rt, rt.alloc(), path) {
        Ok(recovered) => {
            let (entries, cut) = (recovered.entries(), recovered.cut());
            println!(rt; "{entries} entries, {cut} cut")?;
            begin(rt, recovered)
        }
        Err(unopened) => println!(rt; "{unopened}"),
    }
}

/// Picks the ledger, apart from the file: the prover offers no pick where a function is bounded by files.
fn begin<
    M: Message + Written + Debug + Send + Sync,
    R: Input + Print + AllocGlobal + Threads + Wait + Sync,
>(rt: &R, recovered: Recovered<M, BoardLog<M>>) -> io::Result<()> {
    play::<M, Brand, R>(rt, recovered, Blank::new(PARTS))
}
