ghost use Rattle.std.specs.Prelude.{◌≡◌};
ghost use Rattle.frame.specs.Format.{word_bits};
ghost use Rattle.usart.specs.Limit.{limit};

use frame::Format;

// The recommended limits of the rate error, in thousandths, by D from 5 to 10: S = 16, and S = 8.
// Two tables, since they are two rows of the datasheet.
pub const NORMAL: [u8; 6] = [30, 25, 20, 20, 15, 15];

pub const DOUBLE: [u8; 6] = [25, 20, 15, 15, 15, 10];

pub fn rate_limit(f: Format) -> u8
    ensures { result ≡ limit f.u2x (word_bits f) }
{
    let i = (f.word_bits() - 5) as usize;
    if f.u2x { DOUBLE[i] } else { NORMAL[i] }
}
