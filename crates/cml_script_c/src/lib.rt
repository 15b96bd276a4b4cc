//! Scripts replayed for C and whatever calls C. `include/seryugo_script.h` says in plain words what the clauses say here.
#![tactic(auto)]

ghost use Rattle.std.specs.Prelude.{◌≡◌, ◌≤◌, ◌<◌, ◌^◌, ◌++◌, length, drop, string_bytes};
ghost use Rattle.cml_script_c.specs.{Fills, HasNoRoom, IsReplay, line_of};

use cml_replay::replay_text;
use cml_report::{Ending, status_of};
use std::alloc::Global;

/// The report, or nothing, is in the buffer.
const DONE: u32 = 0;

/// The buffer is too small for the report.
const NO_ROOM: u32 = 1;

/// The limit is 0, or above 2^32.
const BAD_LIMIT: u32 = 2;

/// The largest limit that a journal may have: 2^32.
const MOST: u64 = 4_294_967_296;

/// How a replay ended.
#[repr(C)]
#[derive(Clone, Copy)]
pub struct SeryugoEnd {
    /// The exit status that the program `cml` would have.
    pub status: u32,
    /// The line of the script's fault, from 1, or 0 if it has none.
    pub line: u64,
    /// How many bytes the report has.
    pub length: usize,
}

/// Replays a script, and writes its report to the front of a buffer, if it has room there. Otherwise the buffer is unchanged,
/// and `end` says how much room is needed. If the limit is out of bounds, nothing is done.
#[unsafe(no_mangle)]
pub extern "C" fn seryugo_replay(
    alloc: Global,
    script: &[u8],
    limit: u64,
    report: &mut [u8],
    end: &mut SeryugoEnd,
) -> u32
    ensures done { result ≡ DONE → Fills limit script.now report.old report.new end.new }
    ensures room { result ≡ NO_ROOM → HasNoRoom limit script.now report.old end.new × (report.new ≡ report.old) }
    ensures limit { result ≡ BAD_LIMIT → ¬ ((1 ≤ limit) × (limit ≤ MOST)) × (report.new ≡ report.old) × (end.new ≡ end.old) }
    ensures code { result ≤ BAD_LIMIT }
{
    if limit < 1 || limit > MOST {
        return BAD_LIMIT;
    }
    let (text, ending) = replayed(alloc, script, limit);
    *end = SeryugoEnd {
        status: status_of(&ending) as u32,
        line: line_of(&ending),
        length: text.len(),
    };
    fill(report, text.as_bytes())
}

/// The report of a script, or an empty one if it has none, and how the replay ended.
#[tactic(auto, using(crate::proofs::ReplayLemmas::played, crate::proofs::ReplayLemmas::unplayed))]
fn replayed(alloc: Global, script: &[u8], limit: u64) -> (String, Ending)
    requires least { 1 ≤ limit }
    requires most { limit ≤ 2 ^ 32 }
    ensures { IsReplay limit script.now (string_bytes result.0) result.1 }
{
    match replay_text(alloc, script, limit) {
        Ok(played) => (played.report, Ending::from(played.stop)),
        Err(ending) => (String::new(alloc), ending),
    }
}

/// Copies these bytes to the front of a buffer, if it has room for them.
fn fill(buffer: &mut [u8], bytes: &[u8]) -> u32
    ensures done { result ≡ DONE → (length bytes.now ≤ length buffer.old) × (buffer.new ≡ bytes.now ++ drop (length bytes.now) buffer.old) }
    ensures room { result ≡ NO_ROOM → (length buffer.old < length bytes.now) × (buffer.new ≡ buffer.old) }
    ensures code { result ≤ NO_ROOM }
{
    if bytes.len() > buffer.len() {
        return NO_ROOM;
    }
    let (front, _) = buffer.split_at_mut(bytes.len());
    front.copy_from_slice(bytes);
    DONE
}

/// The line of a fault, or 0.
fn line_of(ending: &Ending) -> u64
    ensures { result ≡ line_of ending.now }
{
    match ending {
        Ending::Fault(fault) => fault.line,
        _ => 0,
    }
}
