// The shortest text with the same clocks and calls (document 02, M-109): measured, then written into a lent buffer.
ghost use Rattle.std.specs.Prelude.{◌≡◌, ◌≤◌, IfOk, length};
ghost use Rattle.trace.specs.Text.{text_of};
ghost use Rattle.trace.specs.Contents.{contents_at};
ghost use Rattle.trace.specs.Sinks.{Sent};
ghost use Rattle.trace.specs.Shrinking.{shrunk_of};
ghost use Rattle.trace.specs.Filling.{shrunk_by, buffer_shrunk};

use crate::gauge::Gauge;
use crate::page::Page;
use crate::reader::Reader;
use crate::sending::send_first;
use crate::sink::Sink;
use crate::text::check_text;
use crate::turn::{Run, send_out, send_run};
use answer::Refusal;

// The shrunk text of the lines behind the first, up to a malformed one.
fn send_shrunk<S: Sink>(text: &[u8], sink: &mut S) -> Result<(), Refusal>
    ensures { Sent S.fits S.taken sink.old (text_of (shrunk_of (contents_at text.now 8 2).items)) result sink.new }
{
    send_first(sink)?;
    let mut held = Run::default();
    for line in Reader::past_first(text) {
        let Ok(item) = line else {
            break;
        };
        let turn = held.turned(item);
        send_out(sink, turn.out, item)?;
        held = turn.held;
    }
    send_run(sink, held)
}

// Writes the shrunk text into the buffer, or leaves it as it is.
pub fn shrink(text: &[u8], buffer: &mut [u8]) -> Result<usize, Refusal>
    ensures value { result ≡ shrunk_by text.now (length buffer.old) }
    ensures buffer_after { buffer.new ≡ buffer_shrunk text.now buffer.old }
    ensures within { IfOk result (λ n. n ≤ length buffer.old) }
{
    if check_text(text).is_err() {
        return Err(Refusal::Malformed);
    }
    let left = buffer.len();
    send_shrunk(text, &mut Gauge { left })?;
    let mut page = Page { buffer, at: 0 };
    send_shrunk(text, &mut page)?;
    Ok(page.at)
}
