//! A line's bytes, and the words between its spaces.
ghost use Rattle.std.specs.Prelude.{◌≡◌, map, IfOk};
ghost use Rattle.std.specs.List.{list_any};
ghost use Rattle.cml_grammar.specs.{words_of, is_bad_byte, is_skipped, has_empty_word};

use std::alloc::{AllocError, Global};

/// Says whether a byte of the line is neither a space nor printable.
pub fn has_bad_byte(line: &[u8]) -> bool
    ensures { result ≡ list_any is_bad_byte line.now }
{
    line.iter().any(|byte| *byte < b' ' || *byte > b'~')
}

/// Whether the line says nothing: it is empty or a note.
pub(crate) fn is_skipped(line: &[u8]) -> bool
    ensures { result ≡ is_skipped line.now }
{
    match line.first() {
        None => true,
        Some(byte) => *byte == b'#',
    }
}

/// Splits a line into its words, which single spaces separate.
pub fn split_words<'a>(alloc: Global, line: &'a str) -> Result<Vec<&'a str>, AllocError>
    ensures { IfOk result (λ words. map (λ w. w.now) words.items ≡ words_of line.now) }
{
    line.split(' ').collect(alloc)
}

pub(crate) fn has_empty_word(words: &[&str]) -> bool
    ensures { result ≡ has_empty_word (map (λ w. w.now) words.now) }
{
    words.iter().any(|word| word.is_empty())
}
