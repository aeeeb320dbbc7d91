// What a query answers, by the bytes alone: of a device only the SPI is lifted, for its requests. `serial_requests`
// says of the bytes what usart's `requests` does of a unit, which would be lifted for that, queue and all.
ghost use Rattle.std.specs.Prelude.{◌≡◌, false, ◌≤◌};
ghost use Rattle.choice.specs.Pick.{pick, digit};
ghost use Rattle.usart.specs.Unit.{requests_of as serial_requests};
ghost use Rattle.device.specs.Unit.{requests_of, split_votes};
ghost use Rattle.record.specs.Lift.{usart_at, device_at};
ghost use Rattle.record.specs.Report.{report_of};

use crate::codec::accepted;
use crate::layout::{self, Image};
use crate::spi_lift::spi_at;
use crate::usart_lift::control_at;
use answer::Refusal;

// A flag with its enable, as a digit.
fn asked(enable: bool, up: bool) -> u8
    ensures value { result ≡ digit (pick enable up false) }
    ensures upper_bound { result ≤ 1 }
{
    u8::from(enable && up)
}

fn serial_requests(b: &Image) -> u8
    ensures { result ≡ serial_requests (usart_at b.now) }
{
    let c = control_at(b);
    let empty = b[layout::HELD] == 0;
    let full = b[layout::FULL] == 1;
    let txc = b[layout::UCSR0A] / 64 % 2 == 1;
    asked(c.rxcie, !empty) + asked(c.udrie, !full) * 2 + asked(c.txcie, txc) * 4
}

fn requests_at(b: &Image) -> u8
    ensures { result ≡ requests_of (device_at b.now) }
{
    serial_requests(b) + spi_at(b).requests()
}

#[tactic(auto, unfolding(crate::specs::Report::report_of))]
pub fn requests(s: &[u8]) -> Result<u8, Refusal>
    ensures { result ≡ report_of requests_of s.now }
{
    accepted(s).map(requests_at)
}

// What is not in use is 0, so it need not be looked at whether a frame is held.
#[tactic(auto, unfolding(crate::specs::Report::report_of))]
pub fn split_votes(s: &[u8]) -> Result<u8, Refusal>
    ensures { result ≡ report_of split_votes s.now }
{
    let b = accepted(s)?;
    Ok(b[layout::OLDEST + 2])
}
