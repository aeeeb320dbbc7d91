ghost use Rattle.std.specs.Prelude.{◌≡◌};
ghost use Rattle.usart.specs.Baud.{ticks_in, clocks_for};

use crate::baud::Baud;
use span::Span;

// Ticks in a row, as a count that can't be taken for one of clocks; of the receiver a sample each.
#[derive(Clone, Copy, PartialEq, Eq, PartialOrd, Ord)]
pub struct Ticks(pub usize);

// Clocks become ticks, and ticks clocks, here alone.
impl Baud {
    // The ticks in n clocks. The first comes when the counter has run down, from wherever it stands.
    pub(crate) fn ticks_in(self, n: Span) -> Ticks
        ensures { result.0 ≡ ticks_in self n.0 }
    {
        let left = self.left.0 as usize;
        let period = self.ubrr as usize + 1;
        if left < n.0 {
            Ticks((n.0 - left - 1) / period + 1)
        } else {
            Ticks(0)
        }
    }

    // The same at UBRR 0, where every clock is a tick: no division.
    pub(crate) fn clocks_as_ticks(self, n: Span) -> Ticks
        requires ubrr_value { self.ubrr ≡ 0 }
        requires left_value { self.left.0 ≡ 0 }
        ensures { result.0 ≡ ticks_in self n.0 }
    {
        Ticks(n.0)
    }

    // The clocks of n ticks, there too.
    pub(crate) fn ticks_as_clocks(self, n: Ticks) -> Span
        requires { self.ubrr ≡ 0 }
        ensures { result.0 ≡ clocks_for self n.0 }
    {
        Span(n.0)
    }
}
