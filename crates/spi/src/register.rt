ghost use Rattle.std.specs.Prelude.{◌≡◌};
ghost use Rattle.spi.specs.Unit.{reset_spi};
ghost use Rattle.spi.specs.Means.{with_flags, with_mosi};
ghost use Rattle.spi.specs.Register.{set_spcr, write_spcr, set_spi2x, write_spsr, filled, started_of, loaded_of};
ghost use Rattle.spi.specs.Register.{accessed, set_ddrb, write_of, spsr, read_of, vector_of};

use crate::divisor::{Clocks, half};
use crate::flag::{Flag, Flags};
use crate::transfer::Transfer;
use crate::unit::Spi;
use answer::{Reading, Refusal};

#[derive(Clone, Copy)]
pub enum Register {
    Spcr,
    Spsr,
    Spdr,
    Ddrb,
}

impl Spi {
    // What the registers read after reset.
    pub const SPCR_RESET: u8 = 0;

    pub const SPSR_RESET: u8 = 0;

    pub const SPDR_RESET: u8 = 0;

    pub const DDRB_RESET: u8 = 0;

    pub fn reset_value(register: Register) -> u8
        ensures { result ≡ (read_of reset_spi register).value }
    {
        match register {
            Register::Spcr => Spi::SPCR_RESET,
            Register::Spsr => Spi::SPSR_RESET,
            Register::Spdr => Spi::SPDR_RESET,
            Register::Ddrb => Spi::DDRB_RESET,
        }
    }

    fn with_flags(mut self, f: Flags) -> Spi
        ensures { result ≡ with_flags self f }
    {
        self.flags = f;
        self
    }

    fn set_spcr(mut self, v: u8) -> Spi
        ensures { result ≡ set_spcr self v }
    {
        self.control.spcr = v;
        self
    }

    #[tactic(auto, unfolding(crate::specs::Register::write_spcr))]
    fn write_spcr(self, v: u8) -> Result<Spi, Refusal>
        ensures { result ≡ write_spcr self v }
    {
        if !self.transfer.under_way() {
            Ok(self.set_spcr(v))
        } else if v / 64 % 2 != 1 {
            Ok(self.with_transfer(self.transfer.dropped()).set_spcr(v))
        } else if v % 64 == self.control.spcr % 64 {
            Ok(self.set_spcr(v))
        } else {
            Err(Refusal::UnderWay)
        }
    }

    fn set_spi2x(mut self, b: bool) -> Spi
        ensures { result ≡ set_spi2x self b }
    {
        self.control.spi2x = b;
        self
    }

    #[tactic(auto, using(crate::proofs::Differing::differs_ne), unfolding(crate::specs::Register::write_spsr))]
    fn write_spsr(self, v: u8) -> Result<Spi, Refusal>
        ensures { result ≡ write_spsr self v }
    {
        let spi2x = v % 2 == 1;
        if spi2x == self.control.spi2x {
            Ok(self)
        } else if self.transfer.under_way() {
            Err(Refusal::UnderWay)
        } else {
            Ok(self.set_spi2x(spi2x))
        }
    }

    // The shift register filled, with n clocks to the first edge.
    fn filled(self, v: u8, n: u8) -> Spi
        ensures { result ≡ filled self v n }
    {
        self.with_transfer(Transfer {
            shift: v,
            edges: 0,
            left: Clocks(n),
            ..self.transfer
        })
    }

    fn with_mosi(mut self, mosi: bool) -> Spi
        ensures { result ≡ with_mosi self mosi }
    {
        self.pins.mosi = mosi;
        self
    }

    // A master's transfer begins.
    fn started(self, v: u8) -> Spi
        ensures { result ≡ started_of self v }
    {
        let c = self.control;
        let first = c.mode().first_out(v, self.pins.mosi);
        self.filled(v, half(c.divisor_number())).with_mosi(first)
    }

    // During a transfer it sets WCOL and nothing else.
    #[tactic(auto, unfolding(crate::specs::Register::loaded_of))]
    fn loaded(self, v: u8) -> Spi
        ensures { result ≡ loaded_of self v }
    {
        if self.transfer.under_way() {
            self.with_flags(self.flags.collided())
        } else if !self.control.enabled() {
            self
        } else if self.control.master() {
            self.started(v)
        } else {
            self.filled(v, 0)
        }
    }

    // An SPDR access clears the armed flags first.
    fn accessed(self) -> Spi
        ensures { result ≡ accessed self }
    {
        self.with_flags(self.flags.cleared())
    }

    fn set_ddrb(mut self, v: u8) -> Spi
        ensures { result ≡ set_ddrb self v }
    {
        self.control.ddrb = v;
        self
    }

    pub fn write(self, register: Register, v: u8) -> Result<Spi, Refusal>
        ensures { result ≡ write_of self register v }
    {
        match register {
            Register::Spcr => self.write_spcr(v),
            Register::Spsr => self.write_spsr(v),
            Register::Spdr => Ok(self.accessed().loaded(v)),
            Register::Ddrb => Ok(self.set_ddrb(v)),
        }
    }

    fn spsr(self) -> u8
        ensures { result ≡ spsr self }
    {
        let f = self.flags;
        u8::from(f.spif.up()) * 128 + u8::from(f.wcol.up()) * 64 + u8::from(self.control.spi2x)
    }

    pub fn read(self, register: Register) -> Reading<Spi>
        ensures { result ≡ read_of self register }
    {
        match register {
            Register::Spcr => Reading {
                value: self.control.spcr,
                after: self,
            },
            Register::Spsr => Reading {
                value: self.spsr(),
                after: self.with_flags(self.flags.armed()),
            },
            Register::Spdr => Reading {
                value: self.transfer.received,
                after: self.accessed(),
            },
            Register::Ddrb => Reading {
                value: self.control.ddrb,
                after: self,
            },
        }
    }

    // Vector 1 clears and disarms SPIF.
    #[tactic(auto, unfolding(crate::specs::Register::vector_of))]
    pub fn take_vector(self) -> Result<Spi, Refusal>
        ensures { result ≡ vector_of self }
    {
        if self.requested() {
            Ok(self.with_flags(Flags {
                spif: Flag::Clear,
                ..self.flags
            }))
        } else {
            Err(Refusal::Unrequested)
        }
    }
}
