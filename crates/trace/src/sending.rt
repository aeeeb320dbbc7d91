// The lines of a text, sent to a sink.
ghost use Rattle.std.specs.Prelude.{◌≡◌, [], ◌∷◌};
ghost use Rattle.trace.specs.Text.{letter_of, fields_of, line_of, first_line};
ghost use Rattle.trace.specs.Sinks.{Sent};

use crate::item::Item;
use crate::sink::Sink;
use crate::text::FIRST_LINE;
use answer::Refusal;

fn letter_of(i: Item) -> u8
    ensures { result ≡ letter_of i }
{
    match i {
        Item::Write(..) => b'W',
        Item::Read(..) => b'R',
        Item::Vector(..) => b'A',
        Item::Clocks(..) => b'C',
    }
}

// The last two fields of a line. One function for a slice of any length was tried: a line took a sixth longer.
fn send_two<S: Sink>(sink: &mut S, x: u32, y: u32) -> Result<(), Refusal>
    ensures { Sent S.fits S.taken sink.old (fields_of (x ∷ y ∷ [])) result sink.new }
{
    sink.number(x, b'\t')?;
    sink.number(y, b'\n')
}

fn send_three<S: Sink>(sink: &mut S, x: u32, y: u32, z: u32) -> Result<(), Refusal>
    ensures { Sent S.fits S.taken sink.old (fields_of (x ∷ y ∷ z ∷ [])) result sink.new }
{
    sink.number(x, b'\t')?;
    send_two(sink, y, z)
}

// The line of an item.
pub(crate) fn send_line<S: Sink>(sink: &mut S, i: Item) -> Result<(), Refusal>
    ensures { Sent S.fits S.taken sink.old (line_of i) result sink.new }
{
    sink.bytes(&[letter_of(i), b'\t'])?;
    match i {
        Item::Write(a, v, n) | Item::Read(a, v, n) => send_three(
            sink, a as u32, v as u32, n as u32,
        ),
        Item::Vector(k, n) => send_two(sink, k as u32, n as u32),
        Item::Clocks(l, c) => send_two(sink, l as u32, c),
    }
}

// The fixed first line.
pub(crate) fn send_first<S: Sink>(sink: &mut S) -> Result<(), Refusal>
    ensures { Sent S.fits S.taken sink.old first_line result sink.new }
{
    sink.bytes(&FIRST_LINE)
}
