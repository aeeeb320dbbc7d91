ghost use Rattle.std.specs.Prelude.{◌≡◌};
ghost use Rattle.device.specs.Unit.{reset_device, after_of, with_usart, with_spi, levels_in, output_of, requests_of};
ghost use Rattle.device.specs.Unit.{split_votes};
ghost use Rattle.device.specs.Register.{reset_at, write_of, read_of, vector_of};

use crate::address::Place;
use answer::{Reading, Refusal};
use spi::{Levels, Spi};
use usart::Usart;

#[derive(Clone, Copy)]
pub struct Device {
    pub usart: Usart,
    pub spi: Spi,
}

// MISO, MOSI, SCK and SS in bits 1 to 4 of a level byte. Levels are spi's and bytes std's, so an `impl` of From here
// would be of a foreign trait for foreign types.
pub fn pin_levels(level: u8) -> Levels
    ensures { result ≡ levels_in level }
{
    Levels {
        miso: level / 2 % 2 == 1,
        mosi: level / 4 % 2 == 1,
        sck: level / 8 % 2 == 1,
        ss: level / 16 % 2 == 1,
    }
}

impl Device {
    pub fn reset() -> Device
        ensures { result ≡ reset_device }
    {
        Device {
            usart: Usart::reset(),
            spi: Spi::reset(),
        }
    }

    // What the register at an address reads after reset; 0 where there is none.
    pub fn reset_value(address: u16) -> u8
        ensures { result ≡ reset_at address }
    {
        match Place::of(address) {
            Some(Place::Serial(r)) => Usart::reset_value(r),
            Some(Place::Spi(r)) => Spi::reset_value(r),
            None => 0,
        }
    }

    // The device after an operation, by its units: every operation makes its device here.
    pub(crate) fn after(self, u: Usart, s: Spi) -> Device
        ensures { result ≡ after_of self u s }
    {
        Device { usart: u, spi: s }
    }

    fn with_usart(self, u: Usart) -> Device
        ensures { result ≡ with_usart self u }
    {
        self.after(u, self.spi)
    }

    fn with_spi(self, s: Spi) -> Device
        ensures { result ≡ with_spi self s }
    {
        self.after(self.usart, s)
    }

    // The output byte, with the level byte of this clock: only SS is looked at.
    pub(crate) fn output(self, level: u8) -> u8
        ensures { result ≡ output_of self level }
    {
        self.usart.output() + self.spi.output(level / 16 % 2 == 1)
    }

    pub fn write(self, address: u16, value: u8) -> Result<Device, Refusal>
        ensures { result ≡ write_of self address value }
    {
        match Place::of(address) {
            Some(Place::Serial(r)) => Ok(self.with_usart(self.usart.write(r, value)?)),
            Some(Place::Spi(r)) => Ok(self.with_spi(self.spi.write(r, value)?)),
            None => Err(Refusal::Unknown),
        }
    }

    pub fn read(self, address: u16) -> Result<Reading<Device>, Refusal>
        ensures { result ≡ read_of self address }
    {
        match Place::of(address) {
            Some(Place::Serial(r)) => {
                let serial = self.usart.read(r);
                Ok(Reading {
                    value: serial.value,
                    after: self.with_usart(serial.after),
                })
            }
            Some(Place::Spi(r)) => {
                let spi = self.spi.read(r);
                Ok(Reading {
                    value: spi.value,
                    after: self.with_spi(spi.after),
                })
            }
            None => Err(Refusal::Unknown),
        }
    }

    // Vector 0 is TXC's, vector 1 SPIF's.
    #[tactic(auto, unfolding(crate::specs::Register::vector_of))]
    pub fn take_vector(self, vector: u8) -> Result<Device, Refusal>
        ensures { result ≡ vector_of self vector }
    {
        match vector {
            0 => Ok(self.with_usart(self.usart.take_vector()?)),
            1 => Ok(self.with_spi(self.spi.take_vector()?)),
            _ => Err(Refusal::Unknown),
        }
    }

    // Requests: RXC, UDRE, TXC and SPIF, each with its enable, in bits 0 to 3.
    pub fn requests(self) -> u8
        ensures { result ≡ requests_of self }
    {
        self.usart.requests() + self.spi.requests()
    }

    // The split votes of the oldest frame held.
    pub fn split_votes(self) -> u8
        ensures { result ≡ split_votes self }
    {
        self.usart.split_votes()
    }
}
