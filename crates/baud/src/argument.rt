// The program's arguments: decimal numbers.
ghost use Rattle.std.specs.Prelude.{◌≡◌};
ghost use Rattle.baud.specs.Decimal.{digit_read, number_in};

use decimal::is_digit;
use std::env::{Env, FillError};

// One byte after digits that are worth `value`.
fn digit_read(value: u32, byte: u8) -> Option<u32>
    ensures { result ≡ digit_read value byte }
{
    if !is_digit(byte) {
        return None;
    }
    value.checked_mul(10)?.checked_add((byte - b'0') as u32)
}

// What decimal digits are worth, where it fits. By hand, since `parse` takes a sign too, and `decimal::field_at` no
// leading zeros.
fn number_in(text: &[u8]) -> Option<u32>
    ensures { result ≡ number_in text.now }
{
    if text.is_empty() {
        return None;
    }
    let mut value = 0;
    for byte in text {
        value = digit_read(value, *byte)?;
    }
    Some(value)
}

// Argument i. Where it is missing, or longer than the buffer, there is no text.
pub(crate) fn argument(rt: &impl Env, i: usize) -> Option<u32> {
    let mut text = [0u8; 32];
    let n = rt.arg(i, &mut text).ok()?;
    number_in(&text[..n])
}

// Whether there is an argument i.
pub(crate) fn is_given(rt: &impl Env, i: usize) -> bool {
    !matches!(rt.arg(i, &mut [0u8; 1]), Err(FillError::NotPresent))
}
