// What is asked of the SPI's bytes beyond their limits (docs/RECORD.md, 'SPI transfer').
// Tests of a few bytes are joined by `&`: a jump after each would cost more than what it saves.
ghost use Rattle.std.specs.Prelude.{◌≡◌};
ghost use Rattle.spi.specs.Control.{mode_of};
ghost use Rattle.spi.specs.Valid.{is_first_out, first_bit};
ghost use Rattle.record.specs.Accepts.{out_fits, master_fits, slave_fits, spi_fits};

use spi::{Control, Spi};

// Whether the bit that is out is still the first of the shift register.
fn first_out(c: Control, edges: u8) -> bool
    ensures { result ≡ is_first_out (mode_of c) edges }
{
    edges % 2 == u8::from(c.spcr / 4 % 2 == 1)
}

fn first_bit(s: Spi) -> bool
    ensures { result ≡ first_bit s }
{
    s.control.mode().out_bit(s.transfer.shift)
}

#[tactic(auto, unfolding(crate::specs::Accepts::out_fits))]
fn out_fits(s: Spi, out: bool) -> bool
    ensures { result ≡ out_fits s out }
{
    !first_out(s.control, s.transfer.edges) || out == first_bit(s)
}

// A master's byte under way has an edge due, within half a period.
#[tactic(auto, unfolding(crate::specs::Accepts::master_fits))]
fn master_fits(s: Spi) -> bool
    ensures { result ≡ master_fits s }
{
    if s.transfer.left.0 == 0 {
        s.transfer.edges == 0
    } else {
        s.transfer.left.0 <= spi::half(s.control.divisor_number()) && out_fits(s, s.pins.mosi)
    }
}

// A slave waits for no edge of its own; its edges alternate, the first away from CPOL.
#[tactic(auto, using(crate::proofs::CodeLaws::same_digits), unfolding(crate::specs::Accepts::slave_fits))]
fn slave_fits(s: Spi) -> bool
    ensures { result ≡ slave_fits s }
{
    s.transfer.left.0 == 0
        && (s.transfer.edges == 0 || (s.pins.sck == s.sck() && out_fits(s, s.pins.miso)))
}

// A disabled SPI has no transfer.
#[tactic(auto, unfolding(crate::specs::Accepts::spi_fits))]
pub fn spi_fits(s: Spi) -> bool
    ensures { result ≡ spi_fits s }
{
    if !s.control.enabled() {
        (s.transfer.edges == 0) & (s.transfer.left.0 == 0)
    } else if s.control.master() {
        master_fits(s)
    } else {
        slave_fits(s)
    }
}
