// A number's decimal text: how long it is, and its digits in a lent buffer.
ghost use Rattle.std.specs.Prelude.{◌≡◌, ◌+◌, ◌≤◌, length};
ghost use Rattle.std.proofs.lemmas.List.Edits.{sets};
ghost use Rattle.decimal.specs.Digits.{digits_of};
ghost use Rattle.decimal.specs.Number.{place_past, with_number};

pub fn digit_count(n: u32) -> usize
    ensures { result ≡ length (digits_of n) }
{
    if n < 10 { 1 } else { digit_count(n / 10) + 1 }
}

fn put_digits(buffer: &mut [u8], at: usize, n: u32) -> usize
    requires { at + length (digits_of n) ≤ length buffer.old }
    ensures value { result ≡ at + length (digits_of n) }
    ensures buffer_after { buffer.new ≡ sets buffer.old at (digits_of n) }
{
    if n < 10 {
        buffer[at] = b'0' + (n % 10) as u8;
        at + 1
    } else {
        let last = put_digits(buffer, at, n / 10);
        buffer[last] = b'0' + (n % 10) as u8;
        last + 1
    }
}

// Puts the digits of `n` at `at` and answers the place past them; where they have no room, it answers `at`.
// It answers no Option, as its contract promises `place_past` for every buffer; and std's `write!` says nothing of the
// bytes that it puts in a slice, so the digits are made by hand.
pub fn put_number(buffer: &mut [u8], at: usize, n: u32) -> usize
    ensures value { result ≡ place_past buffer.old at n }
    ensures buffer_after { buffer.new ≡ with_number buffer.old at n }
{
    if buffer.len().saturating_sub(at) < digit_count(n) {
        return at;
    }
    put_digits(buffer, at, n)
}
