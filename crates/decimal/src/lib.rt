// Decimals in a text, without leading zeros: read, and written. It knows nothing of what the numbers are for.
#![tactic(auto)]

mod digits;

ghost use Rattle.std.specs.Prelude.{◌≡◌, true, ◌≤◌, drop};
ghost use Rattle.decimal.specs.Digits.{is_digit};
ghost use Rattle.decimal.specs.Field.{field_at, rest_of, with_digit};

pub use digits::{digit_count, put_number};

// A decimal that was read, and the place past the byte that closes it.
#[derive(Clone, Copy)]
pub struct Field {
    pub value: u32,
    pub next: usize,
}

pub fn is_digit(byte: u8) -> bool
    ensures { result ≡ is_digit byte }
{
    byte.is_ascii_digit()
}

// A digit after others that are worth `value`.
fn with_digit(value: u64, byte: u8) -> u64
    requires byte_value { is_digit byte ≡ true }
    requires value_within { value ≤ 4294967295 }
    ensures { result ≡ with_digit value byte }
{
    10 * value + (byte - b'0') as u64
}

// What follows at `start` after digits that are worth `first`. The value has 64 bits, so that a digit past the limit
// still fits.
fn rest_of(text: &[u8], start: usize, first: u64, limit: u32, end: u8) -> Option<Field>
    ensures { result ≡ rest_of limit end first start (drop start text.now) }
{
    let mut value = first;
    for at in start..text.len() {
        let byte = text[at];
        if (limit as u64) < value {
            return None;
        }
        if byte == end {
            let value = value as u32;
            return Some(Field {
                value,
                next: at + 1,
            });
        }
        if value == 0 || !is_digit(byte) {
            return None;
        }
        value = with_digit(value, byte);
    }
    None
}

// The field at `at`: a decimal of at most `limit`, closed by the byte `end`.
pub fn field_at(text: &[u8], at: usize, limit: u32, end: u8) -> Option<Field>
    ensures { result ≡ field_at text.now at limit end }
{
    let byte = *text.get(at)?;
    if !is_digit(byte) {
        return None;
    }
    rest_of(text, at + 1, with_digit(0, byte), limit, end)
}
