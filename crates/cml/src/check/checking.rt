//! A journal is read and checked as it comes.

ghost use Rattle.std.specs.Prelude.{◌≡◌, ◌≢◌, ◌≤◌, ◌-◌, ◌∷◌, ◌++◌, ℕ, List, [], Ok, true, false, length, None, ◌<◌, IfOk, IfErr};
ghost use Rattle.std.specs.Prelude.{IfSome, OnOk, IsTrue, string_bytes};
ghost use Rattle.std.specs.Io.KnownBytes.{Consumes, Keeps, IsAtEnd};
ghost use Rattle.cml_board.specs.{count_of};
ghost use Rattle.cml_journal.specs.{IsSoFar, IsLawfulJournal, Goes};
ghost use Rattle.cml.specs.declared.check.ending.Ending.TheVariants.{ReadFault, BehindCut};
ghost use Rattle.cml.specs.declared.check.wanted.Wanted.TheVariants as wants;
ghost use Rattle.cml.specs.{Tells, EndsIn, EndsInFront, Concludes, ConcludesBy, IsFront, IsVerdict, IsRead, IsSilent, is_of_bytes};
ghost use Rattle.cml.specs.{is_behind_cut, is_plain_cut, is_sealed_cut, ending_of, told_sum, IsStateOf};

use crate::check::answer::ending_of;
use crate::check::compacted::compacted;
use crate::check::ending::Ending;
use crate::check::state::state_lines;
use crate::check::wanted::Wanted;
use cml_board::{Bytes, Message};
use cml_journal::{Check, Sum, Written};
use std::alloc::{AllocError, Global};
use std::io::{ErrorKind, Read};
use std::sync::Wait;

/// The most bytes that the reader is asked for at once.
const ROOM: usize = 65_536;

/// How a journal of bytes begins.
const BYTES: &[u8] = b"journal 2";

const SEALED_BYTES: &[u8] = b"journal 4";

/// How a journal after a cut begins.
const CUT_NUMBERS: &[u8] = b"journal 1\nfrom ";

const CUT_BYTES: &[u8] = b"journal 2\nfrom ";

const SEALED_CUT_NUMBERS: &[u8] = b"journal 3\nfrom ";

const SEALED_CUT_BYTES: &[u8] = b"journal 4\nfrom ";

/// How many bytes tell the type of messages, and whether the journal begins after a cut.
const FRONT: usize = 15;

/// Checks the journal that the reader gives, up to its end or to what is wrong with it. It waits for the reader.
#[tactic(auto, using(crate::proofs::EndingsLemmas::verdict_behind))]
pub fn check_stream<S: Wait, R: Read>(
    system: &S,
    alloc: Global,
    input: &mut R,
    wanted: Wanted,
) -> Ending
    ensures { IsVerdict wanted (R.remaining input.old) (R.remaining input.new) result }
{
    match read_front(system, alloc, input) {
        Ok(front) => check_behind(system, alloc, input, &front, wanted),
        Err(ending) => ending,
    }
}

/// Checks the journal whose front was read, which tells the type of messages.
fn check_behind<S: Wait, R: Read>(
    system: &S,
    alloc: Global,
    input: &mut R,
    front: &[u8],
    wanted: Wanted,
) -> Ending
    requires { IsFront front.now (R.remaining input.old) }
    ensures { ConcludesBy wanted front.now (R.remaining input.old) (R.remaining input.new) result }
{
    if is_of_bytes(front) {
        return check_rest::<Bytes, S, R>(system, alloc, input, front, wanted);
    }
    check_rest::<u64, S, R>(system, alloc, input, front, wanted)
}

/// Whether a front is that of a journal of bytes.
fn is_of_bytes(front: &[u8]) -> bool
    ensures { result ≡ is_of_bytes front.now }
{
    front.starts_with(BYTES) || front.starts_with(SEALED_BYTES)
}

/// The first bytes: 15, unless there are fewer.
fn read_front<S: Wait, R: Read>(system: &S, alloc: Global, input: &mut R) -> Result<Vec<u8>, Ending>
    ensures read { IfOk result (λ front. Consumes (R.remaining input.old) (R.remaining input.new) front.items) }
    ensures long { IfOk result (λ front. IsFront front.items (R.remaining input.new)) }
    ensures uncut { IfOk result (λ front. is_behind_cut front.items ≡ false) }
    ensures ended { IfErr result (λ ending. EndsInFront (R.remaining input.old) (R.remaining input.new) ending) }
{
    let mut front = Vec::new(alloc);
    let mut room = [0; FRONT];
    for _ in system.forever() {
        let wanted = FRONT.saturating_sub(front.len());
        if wanted == 0 {
            return uncut(front);
        }
        if read_more(input, &mut room[..wanted], &mut front)? {
            return uncut(front);
        }
    }
    unreachable!()
}

/// A front, unless it is that of a piece after a cut.
fn uncut(front: Vec<u8>) -> Result<Vec<u8>, Ending>
    ensures same { IfOk result (λ same. same.items ≡ front.items) }
    ensures uncut { OnOk result (is_behind_cut front.items ≡ false) }
    ensures cut { IfErr result (λ ending. (ending ≡ BehindCut) × (is_behind_cut front.items ≡ true)) }
{
    if is_behind_cut(&front) {
        return Err(Ending::BehindCut);
    }
    Ok(front)
}

/// Whether a front is that of a journal that begins after a cut.
fn is_behind_cut(front: &[u8]) -> bool
    ensures { result ≡ is_behind_cut front.now }
{
    is_plain_cut(front) || is_sealed_cut(front)
}

fn is_plain_cut(front: &[u8]) -> bool
    ensures { result ≡ is_plain_cut front.now }
{
    front.starts_with(CUT_NUMBERS) || front.starts_with(CUT_BYTES)
}

fn is_sealed_cut(front: &[u8]) -> bool
    ensures { result ≡ is_sealed_cut front.now }
{
    front.starts_with(SEALED_CUT_NUMBERS) || front.starts_with(SEALED_CUT_BYTES)
}

/// Asks the reader once, adds what it gave, and answers whether it was at its end.
fn read_more<R: Read>(input: &mut R, room: &mut [u8], front: &mut Vec<u8>) -> Result<bool, Ending>
    requires { 0 < length room.old }
    ensures more { OnOk result ((bytes : List ℕ) × Consumes (R.remaining input.old) (R.remaining input.new) bytes
        × (front.new.items ≡ front.old.items ++ bytes) × (length bytes ≤ length room.old)) }
    ensures end { IfOk result (λ at_end. IsTrue at_end → IsAtEnd (R.remaining input.new)) }
    ensures ended { IfErr result (λ ending. IsSilent ending × IsRead (R.remaining input.old) (R.remaining input.new)) }
    ensures same { length room.new ≡ length room.old }
{
    match read_some(input, room)? {
        Some(bytes) => {
            front.extend_from_slice(bytes)?;
            Ok(bytes.is_empty())
        }
        None => Ok(false),
    }
}

/// What the reader gives, which is nothing at its end. `None` if it was interrupted.
fn read_some<'a, R: Read>(input: &mut R, room: &'a mut [u8]) -> Result<Option<&'a [u8]>, Ending>
    requires { 0 < length room.old }
    ensures some { IfOk result (λ found. IfSome found (λ bytes. Consumes (R.remaining input.old) (R.remaining input.new) bytes.now
        × (bytes.now ≡ [] → IsAtEnd (R.remaining input.new)) × (length bytes.now ≤ length room.old))) }
    ensures none { IfOk result (λ found. found ≡ None → Keeps (R.remaining input.old) (R.remaining input.new)) }
    ensures failed { IfErr result (λ ending. (ending ≡ ReadFault) × Keeps (R.remaining input.old) (R.remaining input.new)) }
{
    match input.read(room) {
        Ok(count) => Ok(Some(&room[..count])),
        Err(error) if error.kind() == ErrorKind::Interrupted => Ok(None),
        Err(_) => Err(Ending::ReadFault),
    }
}

fn check_rest<M: Message + Written, S: Wait, R: Read>(
    system: &S,
    alloc: Global,
    input: &mut R,
    front: &[u8],
    wanted: Wanted,
) -> Ending
    requires { IsFront front.now (R.remaining input.old) }
    ensures { Concludes M.VERSION M.meaning M.text wanted front.now (R.remaining input.old) (R.remaining input.new) result }
{
    match check_all::<M, S, R>(system, alloc, input, front, wanted) {
        Ok(ending) => ending,
        Err(ending) => ending,
    }
}

/// What is said of the whole journal, all of whose entries are lawful.
fn check_all<M: Message + Written, S: Wait, R: Read>(
    system: &S,
    alloc: Global,
    input: &mut R,
    front: &[u8],
    wanted: Wanted,
) -> Result<Ending, Ending>
    requires { IsFront front.now (R.remaining input.old) }
    ensures { Concludes M.VERSION M.meaning M.text wanted front.now (R.remaining input.old) (R.remaining input.new) (ending_of result) }
{
    let mut check = Check::<M>::new(alloc)?;
    go_on(alloc, &mut check, front)?;
    if front.len() < FRONT {
        return end_of(alloc, &mut check, wanted);
    }
    let mut room = [0; ROOM];
    for _ in system.forever() {
        if take_some(alloc, &mut check, input, &mut room)? {
            return end_of(alloc, &mut check, wanted);
        }
    }
    unreachable!()
}

/// Asks the reader once, checks what it gave, and answers whether it was at its end.
fn take_some<M: Message + Written, R: Read>(
    alloc: Global,
    check: &mut Check<M>,
    input: &mut R,
    room: &mut [u8],
) -> Result<bool, Ending>
    requires { 0 < length room.old }
    ensures taken { OnOk result ((bytes : List ℕ) × Consumes (R.remaining input.old) (R.remaining input.new) bytes
        × Goes M.VERSION M.meaning check.old bytes check.new) }
    ensures end { IfOk result (λ at_end. IsTrue at_end → IsAtEnd (R.remaining input.new)) }
    ensures ended { IfErr result (λ ending. (bytes : List ℕ) × Consumes (R.remaining input.old) (R.remaining input.new) bytes
        × EndsIn M.VERSION M.meaning M.text check.old bytes ending) }
    ensures same { length room.new ≡ length room.old }
{
    match read_some(input, room)? {
        Some(bytes) => {
            go_on(alloc, check, bytes)?;
            Ok(bytes.is_empty())
        }
        None => Ok(false),
    }
}

/// Checks the next bytes.
fn go_on<M: Message + Written>(
    alloc: Global,
    check: &mut Check<M>,
    bytes: &[u8],
) -> Result<(), Ending>
    ensures taken { OnOk result (Goes M.VERSION M.meaning check.old bytes.now check.new) }
    ensures ended { IfErr result (λ ending. EndsIn M.VERSION M.meaning M.text check.old bytes.now ending) }
{
    match check.take(bytes) {
        Ok(()) => Ok(()),
        Err(stop) => Err(ending_of(alloc, check, stop)),
    }
}

/// What is said of a journal that ended so.
fn end_of<M: Message + Written>(
    alloc: Global,
    check: &mut Check<M>,
    wanted: Wanted,
) -> Result<Ending, Ending>
    ensures { (bytes : List ℕ) → IsSoFar M.VERSION M.meaning bytes check.old
        → Tells M.VERSION M.meaning M.text wanted bytes (ending_of result) }
{
    if let Some(unended) = check.unended() {
        return Err(Ending::Unended(unended));
    }
    match wanted {
        Wanted::Compacted => compact_of(alloc, check),
        Wanted::Verdict | Wanted::State => verdict_of(alloc, check, wanted),
    }
}

/// A short journal that leaves what a whole and lawful one leaves.
fn compact_of<M: Message + Written>(alloc: Global, check: &mut Check<M>) -> Result<Ending, Ending>
    ensures { (bytes : List ℕ) → IsSoFar M.VERSION M.meaning bytes check.old
        → IsLawfulJournal M.VERSION M.meaning bytes (count_of check.old.checker)
        → Tells M.VERSION M.meaning M.text wants.Compacted bytes (ending_of result) }
{
    let sealed = check.sum().is_some();
    match check.restore(1) {
        Some(restored) => Ok(Ending::Compacted(compacted(alloc, restored, sealed)?)),
        None => Err(Ending::NoMemory),
    }
}

/// How many entries a whole and lawful journal has, its last sum if it is sealed, and the lines of the objects if they are wanted.
fn verdict_of<M: Message + Written>(
    alloc: Global,
    check: &mut Check<M>,
    wanted: Wanted,
) -> Result<Ending, Ending>
    requires { wanted ≢ wants.Compacted }
    ensures { (bytes : List ℕ) → IsSoFar M.VERSION M.meaning bytes check.old
        → IsLawfulJournal M.VERSION M.meaning bytes (count_of check.old.checker)
        → Tells M.VERSION M.meaning M.text wanted bytes (ending_of result) }
{
    let count = check.entries();
    let mut lines = sum_line(alloc, check.sum())?;
    let objects = state_of(alloc, check, wanted)?;
    lines.push_str(&objects)?;
    Ok(Ending::Lawful(count, lines))
}

/// The line of a journal's last sum, if it has sums.
fn sum_line(alloc: Global, sum: Option<Sum>) -> Result<String, AllocError>
    ensures { IfOk result (λ line. string_bytes line ≡ told_sum sum) }
{
    let mut line = String::new(alloc);
    if let Some(sum) = sum {
        line.push_str("sum ")?;
        sum.write(&mut line)?;
        line.push_str("\n")?;
    }
    Ok(line)
}

/// The lines of the objects, if they are wanted.
fn state_of<M: Message + Written>(
    alloc: Global,
    check: &mut Check<M>,
    wanted: Wanted,
) -> Result<String, AllocError>
    ensures { IfOk result (λ objects. (bytes : List ℕ)
        → IsStateOf M.VERSION M.meaning M.text wanted bytes check.old (string_bytes objects)) }
{
    let Wanted::State = wanted else {
        return Ok(String::new(alloc));
    };
    match check.restore(1) {
        Some(restored) => state_lines(alloc, restored.board()),
        None => Ok(String::new(alloc)),
    }
}
