ghost use Rattle.std.specs.Prelude.{◌≡◌};
ghost use Rattle.record.specs.Lift.{spi_control_at, transfer_at, flags_at, pins_at, spi_at};

use crate::codes::flag_of;
use crate::layout::{self, Image};
use spi::{Clocks, Control, Flags, Pins, Spi, Transfer};

fn control_at(b: &Image) -> Control
    ensures { result ≡ spi_control_at b.now }
{
    Control {
        spcr: b[layout::SPCR],
        spi2x: b[layout::SPI2X] == 1,
        ddrb: b[layout::DDRB],
    }
}

fn transfer_at(b: &Image) -> Transfer
    ensures { result ≡ transfer_at b.now }
{
    Transfer {
        shift: b[layout::SHIFT],
        received: b[layout::RECEIVED],
        edges: b[layout::EDGES],
        left: Clocks(b[layout::CLOCKS]),
    }
}

fn flags_at(b: &Image) -> Flags
    ensures { result ≡ flags_at b.now }
{
    Flags {
        spif: flag_of(b[layout::SPIF]),
        wcol: flag_of(b[layout::WCOL]),
    }
}

fn pins_at(b: &Image) -> Pins
    ensures { result ≡ pins_at b.now }
{
    Pins {
        mosi: b[layout::MOSI] == 1,
        miso: b[layout::MISO] == 1,
        sck: b[layout::SCK] == 1,
    }
}

pub(crate) fn spi_at(b: &Image) -> Spi
    ensures { result ≡ spi_at b.now }
{
    Spi {
        control: control_at(b),
        transfer: transfer_at(b),
        flags: flags_at(b),
        pins: pins_at(b),
    }
}
