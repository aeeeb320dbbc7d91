ghost use Rattle.std.specs.Prelude.{◌≡◌, MatchResult, true, false};
ghost use Rattle.answer.specs.declared.Refusal.TheVariants.{Record};
ghost use Rattle.record.specs.Lift.{device_at};
ghost use Rattle.record.specs.Accepts.{accepts, is_record};
ghost use Rattle.record.specs.Codec.{decode_of, stored_over};

use crate::encode::image;
use crate::layout::{self, Image};
use crate::limits::within;
use crate::spi_lift::spi_at;
use crate::spi_tests::spi_fits;
use crate::usart_lift::usart_at;
use crate::usart_tests::{settings_fit, usart_fits};
use answer::Refusal;
use device::Device;

#[tactic(auto, unfolding(crate::specs::Accepts::accepts))]
pub(crate) fn fits(b: &Image) -> bool
    ensures { result ≡ accepts b.now }
{
    within(b)
        && b[layout::LAYOUT] == layout::NUMBER
        && settings_fit(b)
        && usart_fits(b)
        && spi_fits(spi_at(b))
}

// The bytes of a slice that is a record: 64, with each field in its range, and 0 where they are not in use.
#[tactic(auto, unfolding(crate::specs::Accepts::is_record))]
pub(crate) fn accepted(s: &[u8]) -> Result<&Image, Refusal>
    ensures { MatchResult result (λ b. (b.now ≡ s.now) × (is_record s.now ≡ true))
        (λ r. (r ≡ Record) × (is_record s.now ≡ false)) }
{
    match s.as_array() {
        Some(b) if fits(b) => Ok(b),
        _ => Err(Refusal::Record),
    }
}

pub(crate) fn device_at(b: &Image) -> Device
    ensures { result ≡ device_at b.now }
{
    Device {
        usart: usart_at(b),
        spi: spi_at(b),
    }
}

// The device of a record.
#[tactic(auto, unfolding(crate::specs::Codec::decode_of))]
pub fn decode(s: &[u8]) -> Result<Device, Refusal>
    ensures { result ≡ decode_of s.now }
{
    accepted(s).map(device_at)
}

// Writes a device's record; a slice that is not as long as a record is left as it is.
#[tactic(auto, unfolding(crate::specs::Codec::stored_over, crate::specs::Codec::record_of))]
pub fn store(d: Device, s: &mut [u8])
    ensures { s.new ≡ stored_over d s.old }
{
    if let Some(b) = s.as_mut_array() {
        *b = image(d);
    }
}
