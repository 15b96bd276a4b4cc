//! Decimal numbers, kept in millionths.
use std::alloc::AllocError;

pub(crate) const MILLION: u64 = 1_000_000;

/// By the count of places after the point: how many millionths one in the last place is.
const SCALES: &[u64] = &[1_000_000, 100_000, 10_000, 1_000, 100, 10, 1];

/// Reads a number such as `0.7` or `12`, with at most six places after the point. Returns `None` for any other text.
pub(crate) fn millionths_in(text: &str) -> Option<u64> {
    let Some((whole, places)) = text.split_once('.') else {
        return digits_in(text)?.checked_mul(MILLION);
    };
    let scale = SCALES.get(places.len())?;
    let part = digits_in(places)?.checked_mul(*scale)?;
    digits_in(whole)?.checked_mul(MILLION)?.checked_add(part)
}

/// Reads digits. Returns `None` if there are none, if another byte is among them, or if the number has more than 64 bits.
fn digits_in(text: &str) -> Option<u64> {
    if text.is_empty() {
        return None;
    }
    let mut value = 0u64;
    for byte in text.as_bytes() {
        let digit = (*byte as char).to_digit(10)?;
        value = value.checked_mul(10)?.checked_add(u64::from(digit))?;
    }
    Some(value)
}

/// Returns a quotient in millionths, rounded. It is 0 if the divisor is.
pub(crate) fn quotient(dividend: u128, divisor: u128) -> u128 {
    let scaled = dividend.saturating_mul(u128::from(MILLION));
    let rounded = scaled.saturating_add(divisor / 2);
    rounded.checked_div(divisor).unwrap_or(0)
}

/// Adds a line with a name and a number of millionths.
pub(crate) fn write_line(
    text: &mut String,
    name: &str,
    millionths: u128,
) -> Result<(), AllocError> {
    let (whole, part) = (millionths / 1_000_000, millionths % 1_000_000);
    write!(text, "{name}: {whole}.{part:06}\n")
}
