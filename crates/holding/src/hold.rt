// One level byte held for many clocks.
ghost use Rattle.std.specs.Prelude.{◌≡◌};
ghost use Rattle.holding.specs.Hold.{hold_in, hold_answer, hold_output, record_after_hold};

use answer::{Reading, Refusal};
use device::Device;
use span::Span;

// The level byte is looked at before any clock passes.
#[tactic(auto, using(crate::proofs::Cases::hold_low, crate::proofs::Cases::hold_high))]
fn held(d: Device, level: u8, n: Span) -> Result<Reading<Device>, Refusal>
    ensures { result ≡ hold_in d level n.0 }
{
    if level < 32 {
        Ok(d.hold(level, n))
    } else {
        Err(Refusal::Level)
    }
}

pub fn warpmagpie_hold(image: &mut [u8], level: u8, clocks: u32, output: &mut u8) -> u8
    ensures value { result ≡ hold_answer image.old level clocks }
    ensures output_after { output.new ≡ hold_output image.old level clocks }
    ensures image_after { image.new ≡ record_after_hold image.old level clocks }
{
    let n = Span(clocks as usize);
    let got = record::decode(image).and_then(|d| held(d, level, n));
    record::settle_read(got, image, output)
}
