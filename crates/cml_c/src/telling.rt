//! The codes of what was found.
ghost use Rattle.std.specs.Prelude.{◌≡◌, MatchBool, option_map, option_copied};
ghost use Rattle.cml_c.specs.declared.code.Code.TheVariants.{Done, JournalFull};
ghost use Rattle.cml_c.specs.{number, told_found, written_found, told_held, written_held};

use crate::code::Code;

/// Writes a number.
pub fn write_number(written: u64, given: &mut u64) -> u32
    ensures code { result ≡ number Done }
    ensures written { given.new ≡ written }
{
    *given = written;
    Code::Done.number()
}

/// A number that was found is written.
pub fn tell_found(found: Option<u64>, given: &mut u64) -> u32
    ensures code { result ≡ number (told_found found) }
    ensures written { given.new ≡ written_found given.old found }
{
    match found {
        Some(number) => write_number(number, given),
        None => Code::NoSuch.number(),
    }
}

/// So is what a variable holds.
pub fn tell_held(found: Option<Option<&u64>>, given: &mut u64) -> u32
    ensures code { result ≡ number (told_held (option_map option_copied found.entry)) }
    ensures written { given.new ≡ written_held given.old (option_map option_copied found.entry) }
{
    match found {
        Some(Some(message)) => write_number(*message, given),
        Some(None) => Code::Nothing.number(),
        None => Code::NoSuch.number(),
    }
}

/// `Done`, or `JournalFull`.
pub fn tell_full(is_full: bool) -> u32
    ensures { MatchBool is_full (result ≡ number JournalFull) (result ≡ number Done) }
{
    if is_full {
        return Code::JournalFull.number();
    }
    Code::Done.number()
}
