// The error, from signed tenths of a percent.
use decimal::digit_count;
use std::io;

// The column's width: two spaces, and +60935.2 %.
pub(crate) const WIDTH: usize = 12;

pub(crate) fn percent(rt: &impl Print, tenths: i32) -> io::Result<()> {
    let sign = if tenths < 0 {
        "-"
    } else if tenths > 0 {
        "+"
    } else {
        ""
    };
    let size = tenths.unsigned_abs();
    let whole = size / 10;
    // What the column has for spaces and sign: four bytes follow the digits of the whole part.
    let room = (WIDTH - 4).saturating_sub(digit_count(whole));
    print!(rt; "{sign:>room$}{whole}.{} %", size % 10)
}
