// A run of clocks, unit by unit: the two never look at each other, and the state of one is small enough to stay in the
// processor's registers.
ghost use Rattle.std.specs.Prelude.{◌≡◌, length};
ghost use Rattle.device.specs.Unit.{clocked_of};
ghost use Rattle.device.specs.Run.{ran_of, outputs_of, are_levels, run_of, shown};

use crate::serial_run::serial_clocks;
use crate::spi_run::{enabled_clocks, off_clocks};
use crate::unit::Device;
use answer::{Reading, Refusal};

// Whether no level byte has bit 5, 6 or 7 set. All are looked at, also after one that has: with no way out of the loop
// the compiler tests many at a time.
fn are_levels(levels: &[u8]) -> bool
    ensures { result ≡ are_levels levels.now }
{
    levels.iter().fold(true, |low, level| low & (*level < 32))
}

// Level bytes and output bytes go as two slices with their lengths required equal: a struct of both would be lent to
// each loop, whose contract then had to say too that the level bytes stay.
impl Device {
    // One clock for each level byte, with an output byte for each. Each way returns by itself: where they met again,
    // the compiler would keep the SPI in memory in all of them.
    fn clocks(self, levels: &[u8], outputs: &mut [u8]) -> Device
        requires { length outputs.old ≡ length levels.now }
        ensures value { result ≡ ran_of self levels.now }
        ensures outputs_after { outputs.new ≡ outputs_of self levels.now }
    {
        let u = serial_clocks(self.usart, levels, outputs);
        let s = self.spi;
        if s.control.enabled() {
            return self.after(u, enabled_clocks(s, levels, outputs));
        }
        self.after(u, off_clocks(s, levels))
    }

    // One clock is a run of one: so each large function of a unit has one caller, and the compiler puts it into the
    // loop.
    pub fn clock(self, level: u8) -> Reading<Device>
        ensures { result ≡ clocked_of self level }
    {
        let levels = [level];
        let mut outputs = [0];
        let d = self.clocks(&levels, &mut outputs);
        Reading {
            value: outputs[0],
            after: d,
        }
    }

    // The lengths are looked at first, and all level bytes before any clock passes.
    pub fn run(self, levels: &[u8], outputs: &mut [u8]) -> Result<Device, Refusal>
        ensures value { result ≡ run_of self levels.now outputs.old }
        ensures outputs_after { outputs.new ≡ shown outputs.old (outputs_of self levels.now) (run_of self levels.now outputs.old) }
    {
        if outputs.len() != levels.len() {
            return Err(Refusal::Length);
        }
        if are_levels(levels) {
            return Ok(self.clocks(levels, outputs));
        }
        Err(Refusal::Level)
    }
}
