ghost use Rattle.std.specs.Prelude.{◌≡◌};
ghost use Rattle.spi.specs.Divisor.{half_of};

// Clocks left until the next edge of SCK; 0 when none is due.
#[derive(Clone, Copy, Default)]
pub struct Clocks(pub u8);

// Clocks a period of SCK, by SPI2X, SPR1 and SPR0 from 000 to 111.
pub const DIVISORS: [u8; 8] = [4, 16, 64, 128, 2, 8, 32, 64];

// Half a period, by the divisor's number.
pub fn half(n: u8) -> u8
    ensures { result ≡ half_of n }
{
    DIVISORS[(n % 8) as usize] / 2
}
