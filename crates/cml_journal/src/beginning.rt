//! Whether a text that has no line may become a journal.
ghost use Rattle.std.specs.Prelude.{◌≡◌, codes, nat_eq};
ghost use Rattle.std.specs.Fmt.{decimal};
ghost use Rattle.std.specs.List.{starts_with};
ghost use Rattle.cml_journal.specs.{begins_journal, first_unended, numbered_line};

use crate::fault::Unended;
use crate::reader::Link;
use crate::written::Written;
use itoa::Buffer;

/// What a journal's first line begins with.
const WORD: &[u8] = b"journal ";

/// How a text ends that has no line.
pub(crate) fn first_unended<M: Written>(link: Link, line: &[u8]) -> Unended
    ensures { result ≡ first_unended M.VERSION link line.now }
{
    match link {
        Link::First if !begins_journal::<M>(line) => Unended::NoJournal,
        _ => Unended::Torn(0),
    }
}

/// Whether the first line of a journal may begin so.
fn begins_journal<M: Written>(line: &[u8]) -> bool
    ensures { result ≡ begins_journal M.VERSION line.now }
{
    begins_header(M::VERSION, line) || begins_header(M::VERSION + 2, line)
}

/// Whether the first line of a plain piece, or of a sealed one, may begin so.
fn begins_header(version: u64, line: &[u8]) -> bool
    ensures { result ≡ starts_with nat_eq (numbered_line (codes "journal") version) line.now }
{
    if line.len() < WORD.len() {
        return WORD.starts_with(line);
    }
    &line[..WORD.len()] == WORD && begins_number(version, &line[WORD.len()..])
}

fn begins_number(number: u64, text: &[u8]) -> bool
    ensures { result ≡ starts_with nat_eq (decimal number) text.now }
{
    Buffer::new().format(number).as_bytes().starts_with(text)
}
