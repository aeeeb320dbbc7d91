// What is asked of the serial unit's bytes beyond their limits (docs/RECORD.md, 'Rules that depend on other fields').
// Tests of a few bytes are joined by `&`: a jump after each would cost more than what it saves.
// The format goes beside the bytes that it is of, since it is read once for several tests.
ghost use Rattle.std.specs.Prelude.{◌≡◌, ◌+◌, ◌≤◌};
ghost use Rattle.record.specs.Layout.{record_length, ucsr0a_byte, ucsr0b_byte, ucsr0c_byte, full_byte, data_byte};
ghost use Rattle.record.specs.Layout.{sending_byte, receiving_byte, last_byte, held_byte, waits_byte, lost_byte};
ghost use Rattle.record.specs.Layout.{oldest_byte, next_byte, third_byte, byte_at, word_at, triple_at, set_at};
ghost use Rattle.record.specs.Lift.{baud_at, control_at, transmission_at, reception_at};
ghost use Rattle.record.specs.Accepts.{settings_fit, counter_fits, buffer_fits, transmission_fits};
ghost use Rattle.record.specs.Accepts.{shifter_fits, sampler_fits, places_fit, waiting_fits, enabled_fits, usart_fits};

use crate::codes::{size_code, triple, word};
use crate::layout::{self, Image};
use crate::reception_tests::FormattedReception;
use crate::usart_lift::{baud_at, control_at, format_at, reception_at, transmission_at};
use frame::Format;
use usart::{Reception, Transmission};

// UCSR0A, B and C have no bits but their settings', and no reserved one.
pub(crate) fn settings_fit(s: &Image) -> bool
    ensures { result ≡ settings_fit (byte_at s.now ucsr0a_byte) (byte_at s.now ucsr0b_byte) (byte_at s.now ucsr0c_byte) }
{
    let a = s[layout::UCSR0A];
    let b = s[layout::UCSR0B];
    let c = s[layout::UCSR0C];
    (a % 2 == 0)
        & (a / 4 % 16 == 0)
        & (b / 2 % 2 == 0)
        & (c % 2 == 0)
        & (c / 16 % 4 != 1)
        & usart::size_of(size_code(b, c)).is_some()
}

// The ticks of a frame under way are UBRR + 1 clocks apart.
#[tactic(auto, unfolding(crate::specs::Accepts::counter_fits))]
fn counter_fits(b: &Image) -> bool
    ensures { result ≡ counter_fits (set_at b.now sending_byte) (set_at b.now receiving_byte) (baud_at b.now) }
{
    let baud = baud_at(b);
    baud.left.0 <= baud.ubrr || (b[layout::SENDING] != 1 && b[layout::RECEIVING] != 1)
}

#[tactic(auto, unfolding(crate::specs::Accepts::buffer_fits))]
fn buffer_fits(b: &Image, f: Format) -> bool
    ensures { result ≡ buffer_fits f (set_at b.now full_byte) (word_at b.now data_byte) }
{
    let data = word(b[layout::DATA], b[layout::DATA + 1]);
    if b[layout::FULL] == 1 {
        data < f.size.weight()
    } else {
        data == 0
    }
}

fn transmission_fits(f: Format, t: Transmission) -> bool
    ensures { result ≡ transmission_fits f t }
{
    (f.word(t.word) == t.word) & (t.bit <= f.last_bit()) & (t.sample.0 < f.samples())
}

#[tactic(auto, unfolding(crate::specs::Accepts::shifter_fits))]
fn shifter_fits(b: &Image, f: Format) -> bool
    ensures { result ≡ shifter_fits f (set_at b.now sending_byte) (transmission_at b.now) }
{
    let t = transmission_at(b);
    if b[layout::SENDING] == 1 {
        transmission_fits(f, t)
    } else {
        t == Transmission::default()
    }
}

// A frame under way keeps no last sample.
#[tactic(auto, unfolding(crate::specs::Accepts::sampler_fits))]
fn sampler_fits(b: &Image, f: Format) -> bool
    ensures { result ≡ sampler_fits f (set_at b.now receiving_byte) (set_at b.now last_byte) (reception_at b.now) }
{
    let r = reception_at(b);
    if b[layout::RECEIVING] == 1 {
        b[layout::LAST] != 1
            && FormattedReception {
                format: f,
                reception: r,
            }
            .fits()
    } else {
        r == Reception::default()
    }
}

// The bytes of the frame that begin at i, as one number.
fn triple_at(b: &Image, i: usize) -> u32
    requires { i + 3 ≤ record_length }
    ensures { result ≡ triple_at b.now i }
{
    triple(b[i], b[i + 1], b[i + 2])
}

// Places that hold no frame are 0.
#[tactic(auto, unfolding(crate::specs::Accepts::places_fit))]
fn places_fit(b: &Image) -> bool
    ensures { result ≡ places_fit (byte_at b.now held_byte) (triple_at b.now oldest_byte) (triple_at b.now next_byte) }
{
    match b[layout::HELD] {
        2 => true,
        1 => triple_at(b, layout::NEXT) == 0,
        _ => triple_at(b, layout::NEXT) == 0 && triple_at(b, layout::OLDEST) == 0,
    }
}

// A frame waits only with two held, and before the start bit of a frame under way is decided.
#[tactic(auto, unfolding(crate::specs::Accepts::waiting_fits))]
fn waiting_fits(b: &Image, f: Format) -> bool
    ensures { result ≡ waiting_fits f (reception_at b.now) (byte_at b.now held_byte) (set_at b.now waits_byte) (triple_at b.now third_byte) }
{
    if b[layout::WAITS] == 1 {
        b[layout::HELD] == 2
            && FormattedReception {
                format: f,
                reception: reception_at(b),
            }
            .none_decided()
    } else {
        triple_at(b, layout::THIRD) == 0
    }
}

// A disabled receiver is idle, remembers low, holds nothing and has lost nothing.
#[tactic(auto, unfolding(crate::specs::Accepts::enabled_fits))]
fn enabled_fits(b: &Image) -> bool
    ensures { result ≡ enabled_fits (control_at b.now).rxen (set_at b.now receiving_byte) (set_at b.now last_byte) (byte_at b.now held_byte) (set_at b.now lost_byte) }
{
    control_at(b).rxen
        || (b[layout::RECEIVING] != 1)
            & (b[layout::LAST] != 1)
            & (b[layout::HELD] == 0)
            & (b[layout::LOST] != 1)
}

// Bytes 0 to 47, but for their limits and the settings.
#[tactic(auto, unfolding(crate::specs::Accepts::usart_fits))]
pub(crate) fn usart_fits(b: &Image) -> bool
    ensures { result ≡ usart_fits b.now }
{
    let f = format_at(b);
    counter_fits(b)
        && buffer_fits(b, f)
        && shifter_fits(b, f)
        && sampler_fits(b, f)
        && places_fit(b)
        && waiting_fits(b, f)
        && enabled_fits(b)
}
