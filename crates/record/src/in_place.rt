// A clock that only counts, in place: no device is lifted, and only the bytes that change are stored.
// `sample_counts`, `driven` and `serial_output` say of the bytes what usart has of its units (`quiet`, `driven`,
// `output`), by the same definitions: for those a whole unit would be lifted. The format goes beside the bytes that it
// is of, since it is read once for several tests.
ghost use Rattle.std.specs.Prelude.{◌≡◌, true, ◌<◌, ltb};
ghost use Rattle.usart.specs.Counting.{sender_quiet, bit_quiet};
ghost use Rattle.usart.specs.Unit.{is_driven, output_of as serial_output};
ghost use Rattle.device.specs.Unit.{output_of};
ghost use Rattle.device.specs.Counting.{receiver_counts, serial_counts, is_counting};
ghost use Rattle.record.specs.Layout.{left_byte, word_at};
ghost use Rattle.record.specs.Lift.{control_at, buffer_at, shifter_at, sampler_at, usart_at, device_at};
ghost use Rattle.record.specs.Accepts.{accepts};
ghost use Rattle.record.specs.InPlace.{ticked_over, waited_over, advanced_over, stepped_of, stepped_over};

use crate::codec::{device_at, fits};
use crate::layout::{self, Image};
use crate::spi_lift::spi_at;
use crate::usart_lift::{baud_at, control_at, format_at, sender_at};
use answer::Refusal;
use device::Device;
use frame::Format;

// What one clock came to.
#[derive(Clone, Copy)]
pub enum Stepped {
    // It only counted: it has passed, with this output byte.
    Counted(u8),
    // Something happens at it: the device, which has not moved.
    Due(Device),
}

#[tactic(auto, using(crate::proofs::InPlaceLaws::over), unfolding(usart::specs::Counting::sender_quiet, crate::specs::Parts::buffer_from, crate::specs::Parts::shifter_from))]
fn sender_counts(b: &Image, f: Format) -> bool
    ensures { result ≡ ltb 0 (sender_quiet f (buffer_at b.now) (shifter_at b.now)) }
{
    if b[layout::SENDING] == 1 {
        b[layout::SENT_TICKS] < f.samples() - 1
    } else {
        b[layout::FULL] != 1
    }
}

// Of a bit that has n samples.
#[tactic(auto, using(crate::proofs::InPlaceLaws::over), unfolding(usart::specs::Counting::bit_quiet))]
fn sample_counts(f: Format, n: u8) -> bool
    ensures { result ≡ ltb 0 (bit_quiet f n) }
{
    let vote = f.first_vote();
    if n < vote {
        n < vote - 1
    } else {
        vote + 2 <= n && n < f.samples() - 1
    }
}

#[tactic(auto, unfolding(device::specs::Counting::receiver_counts, crate::specs::Parts::sampler_from))]
fn receiver_counts(b: &Image, f: Format, rxd: bool) -> bool
    ensures { result ≡ receiver_counts (control_at b.now).rxen f (sampler_at b.now) rxd }
{
    if !control_at(b).rxen {
        true
    } else if b[layout::RECEIVING] == 1 {
        sample_counts(f, b[layout::SAMPLES])
    } else {
        rxd == (b[layout::LAST] == 1)
    }
}

// At a tick.
#[tactic(auto, unfolding(device::specs::Counting::serial_counts))]
fn serial_counts(b: &Image, rxd: bool) -> bool
    ensures { result ≡ serial_counts (usart_at b.now) rxd }
{
    let f = format_at(b);
    sender_counts(b, f) && receiver_counts(b, f, rxd)
}

#[tactic(auto, unfolding(device::specs::Counting::is_counting))]
fn counts(b: &Image, level: u8) -> bool
    ensures { result ≡ is_counting (device_at b.now) level }
{
    spi_at(b).rests(device::pin_levels(level))
        && (!baud_at(b).ticks() || serial_counts(b, level % 2 == 1))
}

// A tick: the baud counter is loaded, and each bit under way has one more.
fn tick(b: &mut Image)
    requires { accepts b.old ≡ true }
    ensures { b.new ≡ ticked_over b.old }
{
    b[layout::LEFT] = b[layout::UBRR];
    b[layout::LEFT + 1] = b[layout::UBRR + 1];
    b[layout::SENT_TICKS] += b[layout::SENDING];
    b[layout::SAMPLES] += b[layout::RECEIVING];
}

// No tick: the counter falls.
fn wait(b: &mut Image)
    requires { 0 < word_at b.old left_byte }
    ensures { b.new ≡ waited_over b.old }
{
    let [low, high] = (baud_at(b).left.0 - 1).to_le_bytes();
    b[layout::LEFT] = low;
    b[layout::LEFT + 1] = high;
}

#[tactic(auto, unfolding(crate::specs::InPlace::advanced_over))]
fn advance(b: &mut Image)
    requires { accepts b.old ≡ true }
    ensures { b.new ≡ advanced_over b.old }
{
    if baud_at(b).ticks() {
        tick(b);
    } else {
        wait(b);
    }
}

#[tactic(auto, unfolding(usart::specs::Unit::is_driven))]
fn driven(b: &Image) -> bool
    ensures { result ≡ is_driven (usart_at b.now) }
{
    let s = sender_at(b);
    control_at(b).txen || !s.vacant() || !s.resting()
}

#[tactic(auto, unfolding(usart::specs::Unit::output_of))]
fn serial_output(b: &Image) -> u8
    ensures { result ≡ serial_output (usart_at b.now) }
{
    if driven(b) {
        u8::from(sender_at(b).txd(format_at(b))) + 16
    } else {
        0
    }
}

fn output_at(b: &Image, level: u8) -> u8
    ensures { result ≡ output_of (device_at b.now) level }
{
    serial_output(b) + spi_at(b).output(level / 16 % 2 == 1)
}

// One clock, if it only counts; else the device for it.
#[tactic(auto, using(crate::proofs::InPlaceLaws::advanced), unfolding(crate::specs::InPlace::stepped_of, crate::specs::InPlace::stepped_over, crate::specs::Accepts::is_record))]
pub fn count(s: &mut [u8], level: u8) -> Result<Stepped, Refusal>
    ensures value { result ≡ stepped_of s.old level }
    ensures s_after { s.new ≡ stepped_over s.old level }
{
    match s.as_mut_array() {
        Some(b) if fits(b) => {
            if !counts(b, level) {
                return Ok(Stepped::Due(device_at(b)));
            }
            let output = output_at(b, level);
            advance(b);
            Ok(Stepped::Counted(output))
        }
        _ => Err(Refusal::Record),
    }
}
