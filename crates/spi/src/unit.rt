ghost use Rattle.std.specs.Prelude.{◌≡◌, ◌≤◌};
ghost use Rattle.spi.specs.Unit.{reset_spi, sck_of, pin_of, output_of, is_requested, requests_of};

use crate::control::Control;
use crate::flag::Flags;
use crate::transfer::Transfer;

// The last bits put out on MOSI and MISO, and the level of SCK at the last clock.
#[derive(Clone, Copy, Default)]
pub struct Pins {
    pub mosi: bool,
    pub miso: bool,
    pub sck: bool,
}

#[derive(Clone, Copy, Default)]
pub struct Spi {
    pub control: Control,
    pub transfer: Transfer,
    pub flags: Flags,
    pub pins: Pins,
}

// A pin's level, with the driven mark four places above it; undriven shows 0.
#[tactic(auto, unfolding(crate::specs::Unit::pin_of))]
fn pin(driven: bool, level: bool) -> u8
    ensures value { result ≡ pin_of driven level }
    ensures upper_bound { result ≤ 17 }
{
    if driven { 16 + u8::from(level) } else { 0 }
}

impl Spi {
    pub fn reset() -> Spi
        ensures { result ≡ reset_spi }
    {
        Spi::default()
    }

    // The level of SCK by the edges that have passed: at rest CPOL, and turned by each edge.
    #[tactic(auto, using(crate::proofs::Differing::differs_ne))]
    pub fn sck(self) -> bool
        ensures { result ≡ sck_of self }
    {
        (self.transfer.edges % 2 == 1) != self.control.cpol()
    }

    // MOSI, MISO and SCK in bits 1 to 3, their driven marks in bits 5 to 7, with the level of SS at this clock.
    #[tactic(auto, unfolding(crate::specs::Unit::output_of))]
    pub fn output(self, ss: bool) -> u8
        ensures { result ≡ output_of self ss }
    {
        let c = self.control;
        if !c.enabled() {
            0
        } else if c.master() {
            pin(c.ddrb / 8 % 2 == 1, self.pins.mosi) * 2 + pin(c.ddrb / 32 % 2 == 1, self.sck()) * 8
        } else if ss {
            0
        } else {
            pin(c.ddrb / 16 % 2 == 1, self.pins.miso) * 4
        }
    }

    // SPIF with SPIE.
    #[tactic(auto, unfolding(crate::specs::Unit::is_requested))]
    pub fn requested(self) -> bool
        ensures { result ≡ is_requested self }
    {
        self.control.spcr / 128 % 2 == 1 && self.flags.spif.up()
    }

    // Bit 3 of the report.
    pub fn requests(self) -> u8
        ensures { result ≡ requests_of self }
    {
        u8::from(self.requested()) * 8
    }
}
