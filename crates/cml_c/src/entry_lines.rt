//! The lines of a room's entries are written into C's memory, as a journal's file has them.
ghost use Rattle.std.specs.Prelude.{◌≡◌, ◌≤◌, ◌+◌, ◌++◌, length, take, drop, IfOk, IfErr, OnErr, OnOk};
ghost use Rattle.std.specs.Fmt.{decimal};
ghost use Rattle.cml_journal.specs.{IsShort, bytes_text};
ghost use Rattle.cml_journal.specs.Feeding.{most};
ghost use Rattle.cml_c.specs.{AddsLines, IsRefused, IsStopped, WritesLines, WritesLinesOf, number, told_stop, whole_line};

use crate::code::Code;
use crate::handle::Handle;
use crate::owned::{Owned, Resource, RoomOf};
use crate::putting::{Put, most_of, put_line};
use cml_board::Entry;
use cml_journal::write_entry;
use std::alloc::{AllocError, Global};

/// No reading takes a line of more bytes, without its line end.
const MOST: usize = 4_194_304;

/// Why no more lines were added.
#[derive(Clone, Copy)]
pub enum Stop {
    /// The next one doesn't fit.
    Full,
    /// No reading would take the next one.
    TooLong,
    NoMemory,
}

impl From<AllocError> for Stop {
    ghost use Rattle.cml_c.specs.declared.entry_lines.Stop.TheVariants.{NoMemory};

    ghost from_gives = { λ _ stop. stop ≡ NoMemory };

    fn from(_error: AllocError) -> Stop {
        Stop::NoMemory
    }
}

/// How many lines were added, how many bytes these have, and why no more.
#[derive(Clone, Copy)]
pub struct Added {
    pub count: usize,
    pub length: usize,
    pub stop: Option<Stop>,
}

/// Writes the lines of a room's entries from position `from` on, as many whole lines as fit, and how many these are and how many bytes
/// they have. The bytes after them stay. `Full`: the next line doesn't fit. `TooLong`: no reading would take it. `NoSuch`: an entry from
/// `from` on was cut away.
#[unsafe(no_mangle)]
pub extern "C" fn seryugo_entries_text(
    alloc: Global,
    room: &mut Handle,
    from: u64,
    buffer: &mut [u8],
    count: &mut u64,
    size: &mut u64,
) -> u32
    ensures { WritesLinesOf from result buffer.old buffer.new count.old count.new size.old size.new room.old.owned room.new.owned }
{
    match room.as_mut() {
        Owned::Numbers(Resource::Room(room)) => {
            write_lines(alloc, &mut room.room, from, buffer, count, size)
        }
        Owned::Bytes(Resource::Room(room)) => {
            write_lines(alloc, &mut room.room, from, buffer, count, size)
        }
        _ => Code::WrongHandle.number(),
    }
}

fn write_lines<M: Put>(
    alloc: Global,
    room: &mut RoomOf<M>,
    from: u64,
    buffer: &mut [u8],
    count: &mut u64,
    size: &mut u64,
) -> u32
    ensures { WritesLines M.text from result buffer.old buffer.new count.new size.new room.old room.new }
{
    let board = room.board();
    let Some(place) = from.checked_sub(board.cut_at()) else {
        *count = 0;
        *size = 0;
        return Code::NoSuch.number();
    };
    let added = add_lines(alloc, entries_from(board.journal(), place), buffer);
    *count = added.count as u64;
    *size = added.length as u64;
    code_of_stop(added.stop).number()
}

/// The entries from this place on.
fn entries_from<M>(entries: &[Entry<M>], place: u64) -> &[Entry<M>]
    ensures { result.now ≡ drop place entries.now }
{
    entries.get(place as usize..).unwrap_or(&[])
}

fn code_of_stop(stop: Option<Stop>) -> Code
    ensures { result ≡ told_stop stop }
{
    match stop {
        None => Code::Done,
        Some(Stop::Full) => Code::Full,
        Some(Stop::TooLong) => Code::TooLong,
        Some(Stop::NoMemory) => Code::NoMemory,
    }
}

/// Adds the lines of entries, as many as fit.
fn add_lines<M: Put>(alloc: Global, entries: &[Entry<M>], buffer: &mut [u8]) -> Added
    ensures { AddsLines M.text entries.now buffer.old buffer.new result }
{
    let mut count = 0;
    let mut length = 0;
    for entry in entries {
        match add_line(alloc, entry, buffer, length) {
            Ok(end) => length = end,
            Err(stop) => {
                return Added {
                    count,
                    length,
                    stop: Some(stop),
                };
            }
        }
        count += 1;
    }
    Added {
        count,
        length,
        stop: None,
    }
}

/// Adds an entry's line after these bytes of the buffer. A line that may not fit is made apart, so that it leaves nothing there.
fn add_line<M: Put>(
    alloc: Global,
    entry: &Entry<M>,
    buffer: &mut [u8],
    at: usize,
) -> Result<usize, Stop>
    requires { at ≤ length buffer.old }
    ensures end { IfOk result (λ end. (end ≡ at + length (whole_line M.text entry.now)) × (end ≤ length buffer.old)) }
    ensures written { IfOk result (λ end. buffer.new ≡ take at buffer.old ++ whole_line M.text entry.now ++ drop end buffer.old) }
    ensures same { OnErr result (buffer.new ≡ buffer.old) }
    ensures short { OnOk result (IsShort M.text entry.now) }
    ensures stop { IfErr result (IsStopped M.text entry.now at (length buffer.old)) }
{
    match most_of(entry) {
        Some(most) if most <= MOST && most <= buffer.len() - at => Ok(put_line(buffer, at, entry)),
        _ => add_long_line(alloc, entry, buffer, at),
    }
}

/// Adds a line that may be too long, or may not fit.
#[inline(never)]
fn add_long_line<M: Put>(
    alloc: Global,
    entry: &Entry<M>,
    buffer: &mut [u8],
    at: usize,
) -> Result<usize, Stop>
    requires { at ≤ length buffer.old }
    ensures end { IfOk result (λ end. (end ≡ at + length (whole_line M.text entry.now)) × (end ≤ length buffer.old)) }
    ensures written { IfOk result (λ end. buffer.new ≡ take at buffer.old ++ whole_line M.text entry.now ++ drop end buffer.old) }
    ensures same { OnErr result (buffer.new ≡ buffer.old) }
    ensures short { OnOk result (IsShort M.text entry.now) }
    ensures stop { IfErr result (IsStopped M.text entry.now at (length buffer.old)) }
{
    let mut line = String::new(alloc);
    write_entry(&mut line, entry)?;
    line.push_str("\n")?;
    copy_line(line.as_bytes(), buffer, at)
}

/// Copies a line after these bytes of the buffer.
fn copy_line(line: &[u8], buffer: &mut [u8], at: usize) -> Result<usize, Stop>
    requires { at ≤ length buffer.old }
    ensures end { IfOk result (λ end. (end ≡ at + length line.now) × (end ≤ length buffer.old)) }
    ensures written { IfOk result (λ end. buffer.new ≡ take at buffer.old ++ line.now ++ drop end buffer.old) }
    ensures same { OnErr result (buffer.new ≡ buffer.old) }
    ensures short { OnOk result (length line.now ≤ most + 1) }
    ensures stop { IfErr result (IsRefused line.now at (length buffer.old)) }
{
    if line.len() > MOST + 1 {
        return Err(Stop::TooLong);
    }
    if line.len() > buffer.len() - at {
        return Err(Stop::Full);
    }
    let end = at + line.len();
    buffer[at..end].copy_from_slice(line);
    Ok(end)
}
