ghost use Rattle.std.specs.Prelude.{◌≡◌, ◌+◌, ◌≤◌};
ghost use Rattle.record.specs.Layout.{record_length};
ghost use Rattle.record.specs.Lift.{baud_at, format_of, format_at, control_at, buffer_at};
ghost use Rattle.record.specs.Lift.{transmission_at, shifter_at, sender_at, reception_at, sampler_at};
ghost use Rattle.record.specs.Lift.{frame_at, places_at, queue_at, receiver_at, usart_at};

use crate::codes::{frame_of, known_size, size_code, word};
use crate::layout::{self, Image};
use frame::Format;
use usart::{
    Baud, Clocks, Control, Frame, Places, Queue, Receiver, Reception, Sample, Sampler, Sender,
    Transmission, Usart,
};

pub(crate) fn baud_at(b: &Image) -> Baud
    ensures { result ≡ baud_at b.now }
{
    Baud {
        ubrr: word(b[layout::UBRR], b[layout::UBRR + 1]),
        left: Clocks(word(b[layout::LEFT], b[layout::LEFT + 1])),
    }
}

// The format of the registers A, B and C.
fn format_of(a: u8, b: u8, c: u8) -> Format
    ensures { result ≡ format_of a b c }
{
    Format {
        size: known_size(size_code(b, c)),
        parity: usart::parity_of(c / 16 % 4),
        usbs: c / 8 % 2 == 1,
        u2x: a / 2 % 2 == 1,
    }
}

pub(crate) fn format_at(b: &Image) -> Format
    ensures { result ≡ format_at b.now }
{
    format_of(b[layout::UCSR0A], b[layout::UCSR0B], b[layout::UCSR0C])
}

#[tactic(auto, using(crate::proofs::RegisterLaws::control_same))]
pub(crate) fn control_at(b: &Image) -> Control
    ensures { result ≡ control_at b.now }
{
    Control::of(b[layout::UCSR0B])
}

#[tactic(auto, unfolding(crate::specs::Parts::buffer_from))]
fn buffer_at(b: &Image) -> Option<u16>
    ensures { result ≡ buffer_at b.now }
{
    (b[layout::FULL] == 1).then_some(word(b[layout::DATA], b[layout::DATA + 1]))
}

pub(crate) fn transmission_at(b: &Image) -> Transmission
    ensures { result ≡ transmission_at b.now }
{
    Transmission {
        word: word(b[layout::SENT_WORD], b[layout::SENT_WORD + 1]),
        bit: b[layout::SENT_BIT],
        sample: Sample(b[layout::SENT_TICKS]),
    }
}

#[tactic(auto, unfolding(crate::specs::Parts::shifter_from))]
fn shifter_at(b: &Image) -> Option<Transmission>
    ensures { result ≡ shifter_at b.now }
{
    (b[layout::SENDING] == 1).then_some(transmission_at(b))
}

pub(crate) fn sender_at(b: &Image) -> Sender
    ensures { result ≡ sender_at b.now }
{
    Sender {
        buffer: buffer_at(b),
        shifter: shifter_at(b),
        txc: b[layout::UCSR0A] / 64 % 2 == 1,
    }
}

pub(crate) fn reception_at(b: &Image) -> Reception
    ensures { result ≡ reception_at b.now }
{
    Reception {
        bit: b[layout::BIT],
        sample: Sample(b[layout::SAMPLES]),
        first: b[layout::FIRST] == 1,
        second: b[layout::SECOND] == 1,
        word: word(b[layout::WORD], b[layout::WORD + 1]),
        splits: b[layout::SPLITS],
    }
}

#[tactic(auto, unfolding(crate::specs::Parts::sampler_from))]
fn sampler_at(b: &Image) -> Sampler
    ensures { result ≡ sampler_at b.now }
{
    if b[layout::RECEIVING] == 1 {
        Sampler::Receiving(reception_at(b))
    } else {
        Sampler::Idle(b[layout::LAST] == 1)
    }
}

// The frame whose bytes begin at i.
fn frame_at(b: &Image, i: usize) -> Frame
    requires { i + 3 ≤ record_length }
    ensures { result ≡ frame_at b.now i }
{
    frame_of(b[i], b[i + 1], b[i + 2])
}

// Only frames that are there are lifted. A count above 2 gives any places: a record that has one is refused before.
#[tactic(auto, unfolding(crate::specs::Parts::places_from))]
fn places_at(b: &Image) -> Places
    ensures { result ≡ places_at b.now }
{
    match b[layout::HELD] {
        0 => Places::Empty,
        1 => Places::One(frame_at(b, layout::OLDEST)),
        _ if b[layout::WAITS] == 1 => Places::Three(
            frame_at(b, layout::OLDEST),
            frame_at(b, layout::NEXT),
            frame_at(b, layout::THIRD),
        ),
        _ => Places::Two(frame_at(b, layout::OLDEST), frame_at(b, layout::NEXT)),
    }
}

fn queue_at(b: &Image) -> Queue
    ensures { result ≡ queue_at b.now }
{
    Queue {
        places: places_at(b),
        lost: b[layout::LOST] == 1,
    }
}

fn receiver_at(b: &Image) -> Receiver
    ensures { result ≡ receiver_at b.now }
{
    Receiver {
        sampler: sampler_at(b),
        queue: queue_at(b),
    }
}

pub(crate) fn usart_at(b: &Image) -> Usart
    ensures { result ≡ usart_at b.now }
{
    Usart {
        baud: baud_at(b),
        format: format_at(b),
        control: control_at(b),
        sender: sender_at(b),
        receiver: receiver_at(b),
    }
}
