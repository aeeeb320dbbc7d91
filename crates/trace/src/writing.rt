// The text of a list of items (document 02, M-109): measured, then written into a lent buffer.
ghost use Rattle.std.specs.Prelude.{◌≡◌, ◌≤◌, IfOk, length};
ghost use Rattle.trace.specs.Text.{text_of};
ghost use Rattle.trace.specs.Listing.{listing_of};
ghost use Rattle.trace.specs.Sinks.{Sent};
ghost use Rattle.trace.specs.Filling.{written_by, buffer_written};

use crate::gauge::Gauge;
use crate::listing::{check_list, entry_of};
use crate::page::Page;
use crate::sending::{send_first, send_line};
use crate::sink::Sink;
use answer::Refusal;

// The text of the list's items, up to an entry that is none.
fn send_list<S: Sink>(list: &[u8], sink: &mut S) -> Result<(), Refusal>
    ensures { Sent S.fits S.taken sink.old (text_of (listing_of list.now).items) result sink.new }
{
    send_first(sink)?;
    for entry in list.chunks(8) {
        let Some(i) = entry_of(entry) else {
            break;
        };
        send_line(sink, i)?;
    }
    Ok(())
}

// Writes the text of a list of items into the buffer, or leaves it as it is.
pub fn write(list: &[u8], buffer: &mut [u8]) -> Result<usize, Refusal>
    ensures value { result ≡ written_by list.now (length buffer.old) }
    ensures buffer_after { buffer.new ≡ buffer_written list.now buffer.old }
    ensures within { IfOk result (λ n. n ≤ length buffer.old) }
{
    if !check_list(list) {
        return Err(Refusal::Malformed);
    }
    // As in `shrink`: no closure takes both kinds of sink, and a trait of its own is longer than these four lines.
    let left = buffer.len();
    send_list(list, &mut Gauge { left })?;
    let mut page = Page { buffer, at: 0 };
    send_list(list, &mut page)?;
    Ok(page.at)
}
