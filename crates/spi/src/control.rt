ghost use Rattle.std.specs.Prelude.{◌≡◌};
ghost use Rattle.spi.specs.Control.{is_enabled, is_master, cpol_of, mode_of, divisor_number, without_mstr, is_input};
ghost use Rattle.spi.specs.Control.{is_mode_fault, keeps_master};

use shifter::Mode;

// SPCR, SPI2X of SPSR, and DDRB.
#[derive(Clone, Copy, Default)]
pub struct Control {
    pub spcr: u8,
    pub spi2x: bool,
    pub ddrb: u8,
}

impl Control {
    // SPE.
    pub fn enabled(self) -> bool
        ensures { result ≡ is_enabled self }
    {
        self.spcr / 64 % 2 == 1
    }

    // MSTR.
    pub fn master(self) -> bool
        ensures { result ≡ is_master self }
    {
        self.spcr / 16 % 2 == 1
    }

    // CPOL.
    pub fn cpol(self) -> bool
        ensures { result ≡ cpol_of self }
    {
        self.spcr / 8 % 2 == 1
    }

    // CPHA and DORD.
    pub fn mode(self) -> Mode
        ensures { result ≡ mode_of self }
    {
        Mode {
            cpha: self.spcr / 4 % 2 == 1,
            dord: self.spcr / 32 % 2 == 1,
        }
    }

    // SPI2X, SPR1 and SPR0 as a number.
    #[tactic(auto, unfolding(crate::specs::Control::divisor_number))]
    pub fn divisor_number(self) -> u8
        ensures { result ≡ divisor_number self }
    {
        if self.spi2x {
            4 + self.spcr % 4
        } else {
            self.spcr % 4
        }
    }

    // MSTR cleared.
    pub fn slave(mut self) -> Control
        ensures { result ≡ without_mstr self }
    {
        self.spcr = self.spcr / 32 * 32 + self.spcr % 16;
        self
    }

    // SS, bit 2 of DDRB, is an input.
    pub fn ss_input(self) -> bool
        ensures { result ≡ is_input self }
    {
        self.ddrb / 4 % 2 != 1
    }

    // A mode fault, of a master: SS is an input and low.
    #[tactic(auto, unfolding(crate::specs::Control::is_mode_fault))]
    pub fn mode_fault(self, ss: bool) -> bool
        ensures { result ≡ is_mode_fault self ss }
    {
        self.ss_input() && !ss
    }

    // SPE and MSTR are set and SS is an output, so that no mode fault can come.
    #[tactic(auto, unfolding(crate::specs::Control::keeps_master))]
    pub fn keeps_master(self) -> bool
        ensures { result ≡ keeps_master self }
    {
        self.enabled() && self.master() && !self.ss_input()
    }
}
