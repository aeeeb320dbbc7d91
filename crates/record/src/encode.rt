ghost use Rattle.std.specs.Prelude.{◌≡◌};
ghost use Rattle.record.specs.Layout.{low, high};
ghost use Rattle.record.specs.Image.{ucsr0a, ucsr0b, ucsr0c, image_with, image_of};

use crate::codes::{flag_code, marks};
use crate::layout::{self, Image};
use crate::parts::{ReceiverParts, SenderParts, receiver_parts, sender_parts};
use device::Device;
use frame::Format;
use usart::Control;

fn ucsr0a(f: Format, txc: bool) -> u8
    ensures { result ≡ ucsr0a f txc }
{
    u8::from(txc) * 64 + u8::from(f.u2x) * 2
}

// UCSR0B and C are not by usart's reads of them: these are the record's bytes (docs/RECORD.md), B without RXB8, and
// stay what they are where a read changes.
fn ucsr0b(f: Format, c: Control) -> u8
    ensures { result ≡ ucsr0b f c }
{
    u8::from(c.rxcie) * 128
        + u8::from(c.txcie) * 64
        + u8::from(c.udrie) * 32
        + u8::from(c.rxen) * 16
        + u8::from(c.txen) * 8
        + usart::size_code(f.size) / 4 * 4
        + u8::from(c.txb8)
}

fn ucsr0c(f: Format) -> u8
    ensures { result ≡ ucsr0c f }
{
    usart::upm(f.parity) * 16 + u8::from(f.usbs) * 8 + usart::size_code(f.size) % 4 * 2
}

// The two bytes of the library's `to_le_bytes` by name: in the layout each field of two bytes shows both.
fn low(word: u16) -> u8
    ensures { result ≡ low word }
{
    word.to_le_bytes()[0]
}

fn high(word: u16) -> u8
    ensures { result ≡ high word }
{
    word.to_le_bytes()[1]
}

// The layout of docs/RECORD.md, byte for byte.
#[rattlefmt::skip]
fn image_with(d: Device, s: SenderParts, r: ReceiverParts) -> Image
    ensures { result ≡ image_with d s r }
{
    let u = d.usart;
    [
        low(u.baud.ubrr), high(u.baud.ubrr), low(u.baud.left.0), high(u.baud.left.0),
        ucsr0a(u.format, u.sender.txc), ucsr0b(u.format, u.control), ucsr0c(u.format), 0,
        s.full as u8, low(s.data), high(s.data),
        s.sending as u8, low(s.transmission.word), high(s.transmission.word),
        s.transmission.bit, s.transmission.sample.0,
        r.receiving as u8, r.last as u8, r.reception.bit, r.reception.sample.0,
        r.reception.first as u8, r.reception.second as u8, low(r.reception.word), high(r.reception.word),
        r.reception.splits, r.frames.held, r.frames.waits as u8, u.receiver.queue.lost as u8,
        low(r.frames.oldest.data), marks(r.frames.oldest), r.frames.oldest.splits,
        low(r.frames.second.data), marks(r.frames.second), r.frames.second.splits,
        low(r.frames.third.data), marks(r.frames.third), r.frames.third.splits,
        0, 0, 0,
        0, 0, 0, 0, 0, 0, 0, 0,
        d.spi.control.spcr, d.spi.control.spi2x as u8, d.spi.control.ddrb,
        d.spi.transfer.shift, d.spi.transfer.received, d.spi.transfer.edges, d.spi.transfer.left.0,
        flag_code(d.spi.flags.spif), flag_code(d.spi.flags.wcol),
        d.spi.pins.mosi as u8, d.spi.pins.miso as u8, d.spi.pins.sck as u8,
        0, 0, 0, layout::NUMBER,
    ]
}

pub fn image(d: Device) -> Image
    ensures { result ≡ image_of d }
{
    image_with(
        d,
        sender_parts(d.usart.sender),
        receiver_parts(d.usart.receiver),
    )
}
