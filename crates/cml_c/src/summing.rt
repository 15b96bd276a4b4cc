//! A piece of text is summed as it comes. The writer of a journal's file seals with that what it has stored.
ghost use Rattle.std.specs.Prelude.{◌≡◌};
ghost use Rattle.cml_journal.specs.{Summed};
ghost use Rattle.cml_c.specs.{OpensSumming, SumsPart, SumsIn, TellsSumSoFar};

use crate::code::Code;
use crate::handle::{Handle, Slot};
use crate::owned::{Owned, Resource, with_kind};
use crate::rooms::write_handle;
use crate::sealed_texts::{SeryugoSum, write_sum};
use cml_journal::Summing;
use std::alloc::Global;

/// Writes a handle to a text of which nothing is summed yet.
#[unsafe(no_mangle)]
pub extern "C" fn seryugo_open_summing(alloc: Global, summing: &mut Slot) -> u32
    ensures { OpensSumming result summing.old summing.new }
{
    match Box::new(alloc, Summing::new()) {
        Ok(opened) => write_handle(alloc, Owned::Numbers(Resource::Summing(opened)), summing),
        Err(_) => Code::NoMemory.number(),
    }
}

/// Sums the text's next bytes, and writes the sum of all so far. Fails with `NoMemory` if that can't be written: the bytes are summed.
#[unsafe(no_mangle)]
pub extern "C" fn seryugo_summing_take_from(
    summing: &mut Handle,
    sum: &mut SeryugoSum,
    text: &[u8],
) -> u32
    ensures { SumsPart text.now sum.old sum.new result summing.old.owned summing.new.owned }
{
    with_kind!(summing, Numbers(Summing(summing)) => sum_part(summing, sum, text))
}

fn sum_part(summing: &mut Summing, sum: &mut SeryugoSum, text: &[u8]) -> u32
    ensures { SumsIn text.now sum.old sum.new result summing.old summing.new }
{
    summing.add(text);
    tell_so_far(summing, sum)
}

fn tell_so_far(summing: &Summing, sum: &mut SeryugoSum) -> u32
    ensures { TellsSumSoFar summing.now sum.old sum.new result }
{
    match summing.sum() {
        Ok(found) => write_sum(Some(found), sum),
        Err(_) => Code::NoMemory.number(),
    }
}
