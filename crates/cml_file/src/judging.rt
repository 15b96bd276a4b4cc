//! The text of a journal's file is judged, before anything is written.
ghost use Rattle.std.specs.Prelude.{◌≡◌, ◌==◌, ◌≤◌, ◌^◌, true, position, length, take, IfOk, IfErr, OnOk};
ghost use Rattle.cml_journal.specs.{IsRestored, IsSoFar, printed};
ghost use Rattle.cml_store.specs.Recovery.{recovered};
ghost use Rattle.cml_store.specs.Texts.{is_front_text, is_whole_text};
ghost use Rattle.cml_file.specs.declared.refused.Refused.TheVariants.{NoMemory};
ghost use Rattle.cml_file.specs.{IsNext, Refuses, Stops, next_of, piece_after};

use crate::refused::Refused;
use cml_board::{Message, Restored};
use cml_journal::{Check, Sum, Unended, Written};
use cml_log::MessageLog;
use cml_store::kept_is_recovered;
use std::alloc::Global;

/// A new file may have as many zeros, and no text: those of its header.
const HEADER: usize = 10;

/// What a text needs before its next entry.
#[derive(Clone, Copy, Debug, PartialEq, Eq)]
pub enum More {
    /// Nothing: its last piece has no end yet.
    Entries,
    /// A plain piece begins.
    Plain,
    /// A sealed piece follows one with this sum.
    Sealed(Sum),
}

/// What a journal's file has that is gone on with.
#[derive(Drop)]
pub struct Judged<M: Message, L: MessageLog<M>> {
    /// A board with the history of the entries, and who made them.
    pub restored: Restored<M, L>,
    /// How many entries there are.
    pub entries: u64,
    /// How many bytes are kept.
    pub kept: usize,
    /// How many bytes after them are cut off, without zeros at the end.
    pub cut: usize,
    /// What follows them.
    pub more: More,
}

/// Judges the bytes of a file: which of them are a journal's that is gone on with, or why none are. The journal of the board takes
/// `limit` entries until it is cut.
pub fn judge<M: Message + Written, L: MessageLog<M>>(
    alloc: Global,
    bytes: &[u8],
    limit: u64,
) -> Result<Judged<M, L>, Refused>
    requires least { 1 ≤ limit }
    requires most { limit ≤ 2 ^ 32 }
    // What is kept is what recovery keeps.
    ensures kept { IfOk result (λ judged. judged.kept ≡ length (recovered (is_whole_text M.VERSION M.meaning) bytes.now)) }
    ensures restored { IfOk result (λ judged. IsRestored M.VERSION M.meaning (take judged.kept bytes.now) limit judged.restored) }
    ensures next { IfOk result (λ judged. IsNext M.VERSION M.meaning (take judged.kept bytes.now) judged.entries judged.more) }
    ensures front { OnOk result (is_front_text M.VERSION M.meaning (printed bytes.now) ≡ true) }
    ensures refused { IfErr result (Refuses M.VERSION M.meaning bytes.now) }
{
    let text = printed_part(bytes);
    match read::<M, L>(alloc, text) {
        Ok(check) => judge_read(alloc, bytes, text, check, limit),
        Err(refused) => Err(refused),
    }
}

/// Judges bytes whose text was read.
fn judge_read<M: Message + Written, L: MessageLog<M>>(
    alloc: Global,
    bytes: &[u8],
    text: &[u8],
    check: Check<M, L>,
    limit: u64,
) -> Result<Judged<M, L>, Refused>
    requires least { 1 ≤ limit }
    requires most { limit ≤ 2 ^ 32 }
    requires text { text.now ≡ printed bytes.now }
    requires read { IsSoFar M.VERSION M.meaning text.now check }
    ensures kept { IfOk result (λ judged. judged.kept ≡ length (recovered (is_whole_text M.VERSION M.meaning) bytes.now)) }
    ensures restored { IfOk result (λ judged. IsRestored M.VERSION M.meaning (take judged.kept bytes.now) limit judged.restored) }
    ensures next { IfOk result (λ judged. IsNext M.VERSION M.meaning (take judged.kept bytes.now) judged.entries judged.more) }
    ensures front { OnOk result (is_front_text M.VERSION M.meaning (printed bytes.now) ≡ true) }
    ensures refused { IfErr result (Refuses M.VERSION M.meaning bytes.now) }
{
    if !is_front(&check, text) {
        return Err(Refused::NoJournal);
    }
    if text.is_empty() && bytes.len() > HEADER {
        return Err(Refused::NoJournal);
    }
    let kept = kept_of(&check, text);
    let end = match check.unended() {
        Some(Unended::Torn(_)) => kept,
        _ => text.len(),
    };
    let cut = end_of(bytes).saturating_sub(end);
    match front_of(alloc, check, text, kept) {
        Ok(front) => Ok(go_on(front, &text[..kept], limit, cut)),
        Err(refused) => Err(refused),
    }
}

/// Returns whether a text that was read may become a journal.
fn is_front<M: Message + Written, L: MessageLog<M>>(check: &Check<M, L>, text: &[u8]) -> bool
    requires { IsSoFar M.VERSION M.meaning text.now check.now }
    ensures { result ≡ is_front_text M.VERSION M.meaning text.now }
{
    match check.unended() {
        Some(Unended::NoJournal) => false,
        Some(Unended::Open(_)) => true,
        Some(Unended::Torn(_)) => true,
        None => true,
    }
}

/// How many bytes of a text that was read are kept.
fn kept_of<M: Message + Written, L: MessageLog<M>>(check: &Check<M, L>, text: &[u8]) -> usize
    requires { IsSoFar M.VERSION M.meaning text.now check.now }
    ensures kept { result ≡ length (recovered (is_whole_text M.VERSION M.meaning) text.now) }
    ensures within { result ≤ length text.now }
{
    kept_is_recovered::<M>();
    check.kept() as usize
}

/// Reads the kept bytes alone, if the text has more. A front of a text that was read has no fault.
fn front_of<M: Message + Written, L: MessageLog<M>>(
    alloc: Global,
    check: Check<M, L>,
    text: &[u8],
    kept: usize,
) -> Result<Check<M, L>, Refused>
    requires read { IsSoFar M.VERSION M.meaning text.now check }
    requires within { kept ≤ length text.now }
    ensures read { IfOk result (λ front. IsSoFar M.VERSION M.meaning (take kept text.now) front) }
    ensures refused { IfErr result (λ refused. refused ≡ NoMemory) }
{
    if kept == text.len() {
        return Ok(check);
    }
    match read(alloc, &text[..kept]) {
        Ok(front) => Ok(front),
        Err(_) => Err(Refused::NoMemory),
    }
}

/// The bytes before the first 0.
fn printed_part(bytes: &[u8]) -> &[u8]
    ensures { result.now ≡ printed bytes.now }
{
    match zero_at(bytes) {
        Some(end) => &bytes[..end],
        None => bytes,
    }
}

fn zero_at(bytes: &[u8]) -> Option<usize>
    ensures { result ≡ position (λ byte. byte == 0) bytes.now }
{
    bytes.iter().position(|byte| *byte == 0)
}

/// How many bytes there are up to the last that is not 0.
fn end_of(bytes: &[u8]) -> usize {
    match bytes.iter().rposition(|byte| *byte != 0) {
        Some(last) => last + 1,
        None => 0,
    }
}

/// Reads a whole text.
fn read<M: Message + Written, L: MessageLog<M>>(
    alloc: Global,
    text: &[u8],
) -> Result<Check<M, L>, Refused>
    ensures read { IfOk result (λ check. IsSoFar M.VERSION M.meaning text.now check) }
    ensures refused { IfErr result (Stops M.VERSION M.meaning text.now) }
{
    let Ok(mut check) = Check::with_logs(alloc) else {
        return Err(Refused::NoMemory);
    };
    match check.advance(text) {
        Ok(()) => Ok(check),
        Err(halt) => Err(Refused::of(halt)),
    }
}

/// What is gone on with of a text that is all kept.
fn go_on<M: Message + Written, L: MessageLog<M>>(
    check: Check<M, L>,
    text: &[u8],
    limit: u64,
    cut: usize,
) -> Judged<M, L>
    requires least { 1 ≤ limit }
    requires most { limit ≤ 2 ^ 32 }
    requires read { IsSoFar M.VERSION M.meaning text.now check }
    ensures kept { result.kept ≡ length text.now }
    ensures restored { IsRestored M.VERSION M.meaning text.now limit result.restored }
    ensures next { IsNext M.VERSION M.meaning text.now result.entries result.more }
{
    let mut check = check;
    let entries = check.entries();
    let more = next_of(check.unended(), check.sum());
    match check.restore(limit) {
        Some(restored) => Judged {
            restored,
            entries,
            kept: text.len(),
            cut,
            more,
        },
        None => unreachable!(),
    }
}

/// What follows a text that ends so. Its last piece has this sum, if it is sealed.
fn next_of(unended: Option<Unended>, sum: Option<Sum>) -> More
    ensures { result ≡ next_of unended sum }
{
    match unended {
        None => piece_after(sum),
        Some(Unended::Torn(lines)) if lines == 0 => More::Plain,
        Some(_) => More::Entries,
    }
}

/// The piece that follows one with this sum, if that is sealed.
fn piece_after(sum: Option<Sum>) -> More
    ensures { result ≡ piece_after sum }
{
    match sum {
        None => More::Plain,
        Some(sum) => More::Sealed(sum),
    }
}
