// The SPI's part of a run: its bits are added to the output bytes. A master that no mode fault can reach keeps its
// settings, so that the compiler looks at them once for the run; with SPE clear there is nothing to add.
ghost use Rattle.std.specs.Prelude.{◌≡◌, false, length};
ghost use Rattle.spi.specs.Control.{is_enabled};
ghost use Rattle.device.specs.ByUnit.{spi_ran, spi_outputs, sums_of, ClocksAll};

use crate::unit::pin_levels;
use spi::{Levels, Spi};

// Each clock is made by `clock`: what a kept master's settings decide is decided once for the run.
fn spi_clocks<F: Fn(Spi, Levels) -> Spi>(s: Spi, levels: &[u8], outputs: &mut [u8], clock: F) -> Spi
    requires callable { F.IsAlwaysCallable clock }
    requires clocks { ClocksAll (F.post clock) s levels.now }
    requires outputs_len { length outputs.old ≡ length levels.now }
    ensures value { result ≡ spi_ran s levels.now }
    ensures outputs_after { outputs.new ≡ sums_of outputs.old (spi_outputs s levels.now) }
{
    let mut state = s;
    // By its place: of a zip with `iter_mut` a proof learns no more of the outputs than their length.
    for (i, level) in levels.iter().enumerate() {
        let l = pin_levels(*level);
        state = clock(state, l);
        outputs[i] = outputs[i].wrapping_add(state.output(l.ss));
    }
    state
}

// With SPE set. It is not put into the caller: with the serial unit's loop in one function both were short of
// registers, and a run in full duplex at UBRR 0 took 9 % more instructions, a slave's 8 %.
#[inline(never)]
pub(crate) fn enabled_clocks(s: Spi, levels: &[u8], outputs: &mut [u8]) -> Spi
    requires { length outputs.old ≡ length levels.now }
    ensures value { result ≡ spi_ran s levels.now }
    ensures outputs_after { outputs.new ≡ sums_of outputs.old (spi_outputs s levels.now) }
{
    if s.control.keeps_master() {
        return spi_clocks(s, levels, outputs, Spi::master_clock);
    }
    spi_clocks(s, levels, outputs, Spi::clock)
}

// With SPE clear only the level of SCK is kept, and nothing is shown: the last clock says all. SCK is put by hand,
// since a second caller of `Spi::clock` would take it out of the loop.
pub(crate) fn off_clocks(mut s: Spi, levels: &[u8]) -> Spi
    requires { is_enabled s.control ≡ false }
    ensures { result ≡ spi_ran s levels.now }
{
    match levels.last() {
        Some(level) => {
            s.pins.sck = pin_levels(*level).sck;
            s
        }
        None => s,
    }
}
