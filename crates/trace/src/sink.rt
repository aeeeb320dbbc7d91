// A place that a text goes to, a part at a time. What a text is made of is said once, for whatever takes it: what only
// measures, and a lent buffer.
ghost use Rattle.std.specs.Prelude.{ℕ, List};
ghost use Rattle.trace.specs.Putting.{closed_by};
ghost use Rattle.trace.specs.Sinks.{Sent, SinkLaws};

use answer::Refusal;

pub(crate) trait Sink {
    // There is room for so many bytes more.
    ghost fits: { Self → ℕ → Type 0 };

    // Bytes take it from the one to the other.
    ghost taken: { Self → List ℕ → Self → Type 0 };

    // All of the bytes, or a refusal where they have no room.
    fn bytes(&mut self, bytes: &[u8]) -> Result<(), Refusal>
        ensures { Sent fits taken self.old bytes.now result self.new };

    // A number, and the byte that closes its field.
    fn number(&mut self, n: u32, end: u8) -> Result<(), Refusal>
        ensures { Sent fits taken self.old (closed_by end n) result self.new };

    // What each `impl` proves.
    ghost laws: { SinkLaws fits taken };
}
