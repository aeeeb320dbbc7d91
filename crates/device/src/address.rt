ghost use Rattle.std.specs.Prelude.{◌≡◌};
ghost use Rattle.device.specs.Address.{place_of};

use crate::unit::Device;

// The register that an address names.
#[derive(Clone, Copy)]
pub enum Place {
    Serial(usart::Register),
    Spi(spi::Register),
}

impl Device {
    // Data addresses.
    pub const UCSR0A: u16 = 0xC0;

    pub const UCSR0B: u16 = 0xC1;

    pub const UCSR0C: u16 = 0xC2;

    pub const UBRR0L: u16 = 0xC4;

    pub const UBRR0H: u16 = 0xC5;

    pub const UDR0: u16 = 0xC6;

    pub const SPCR: u16 = 0x4C;

    pub const SPSR: u16 = 0x4D;

    pub const SPDR: u16 = 0x4E;

    pub const DDRB: u16 = 0x24;
}

impl Place {
    // No TryFrom: that would need an error type of its own, for an address that simply names nothing.
    #[tactic(auto, unfolding(crate::specs::Address::place_of))]
    pub fn of(address: u16) -> Option<Place>
        ensures { result ≡ place_of address }
    {
        match address {
            Device::UCSR0A => Some(Place::Serial(usart::Register::Ucsr0a)),
            Device::UCSR0B => Some(Place::Serial(usart::Register::Ucsr0b)),
            Device::UCSR0C => Some(Place::Serial(usart::Register::Ucsr0c)),
            Device::UBRR0L => Some(Place::Serial(usart::Register::Ubrr0l)),
            Device::UBRR0H => Some(Place::Serial(usart::Register::Ubrr0h)),
            Device::UDR0 => Some(Place::Serial(usart::Register::Udr0)),
            Device::SPCR => Some(Place::Spi(spi::Register::Spcr)),
            Device::SPSR => Some(Place::Spi(spi::Register::Spsr)),
            Device::SPDR => Some(Place::Spi(spi::Register::Spdr)),
            Device::DDRB => Some(Place::Spi(spi::Register::Ddrb)),
            _ => None,
        }
    }
}
