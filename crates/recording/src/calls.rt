// The two calls. Each byte of the lent buffer is said by `trace`, number and length here.
ghost use Rattle.std.specs.Prelude.{◌≡◌};
ghost use Rattle.trace.specs.Filling.{buffer_written, buffer_shrunk};
ghost use Rattle.recording.specs.Calls.{trace_write_answer, trace_write_length, trace_shrink_answer};
ghost use Rattle.recording.specs.Calls.{trace_shrink_length};

use answer::told;

pub fn warpmagpie_trace_write(items: &[u8], text: &mut [u8], size: &mut usize) -> u8
    ensures value { result ≡ trace_write_answer items.now text.old }
    ensures size_after { size.new ≡ trace_write_length items.now text.old }
    ensures text_after { text.new ≡ buffer_written items.now text.old }
{
    told(trace::write(items, text), 0, size)
}

pub fn warpmagpie_trace_shrink(text: &[u8], shrunk: &mut [u8], size: &mut usize) -> u8
    ensures value { result ≡ trace_shrink_answer text.now shrunk.old }
    ensures size_after { size.new ≡ trace_shrink_length text.now shrunk.old }
    ensures shrunk_after { shrunk.new ≡ buffer_shrunk text.now shrunk.old }
{
    told(trace::shrink(text, shrunk), 0, size)
}
