ghost use Rattle.std.specs.Prelude.{◌≡◌};
ghost use Rattle.usart.specs.Baud.{left_of, ticks, baud_of, loaded_baud};

// Clocks left in the baud counter until the next tick.
// A type of its own, beside `Sample`, `Ticks` and `Span`: each counts in another unit, and none is taken for another.
#[derive(Clone, Copy, Default)]
pub struct Clocks(pub u16);

// UBRR and the counter that it loads.
#[derive(Clone, Copy, Default)]
pub struct Baud {
    pub ubrr: u16,
    pub left: Clocks,
}

impl Clocks {
    #[tactic(auto, unfolding(crate::specs::Baud::left_of))]
    pub fn next(self, ubrr: u16) -> Clocks
        ensures { result ≡ left_of self ubrr }
    {
        if self.0 == 0 {
            Clocks(ubrr)
        } else {
            Clocks(self.0 - 1)
        }
    }
}

impl Baud {
    // Whether this clock gives a tick.
    pub fn ticks(self) -> bool
        ensures { result ≡ ticks self }
    {
        self.left.0 == 0
    }

    pub fn next(self) -> Baud
        ensures { result ≡ baud_of self }
    {
        Baud {
            left: self.left.next(self.ubrr),
            ..self
        }
    }

    // UBRR written whole, and loaded.
    pub fn loaded(ubrr: u16) -> Baud
        ensures { result ≡ loaded_baud ubrr }
    {
        Baud {
            ubrr,
            left: Clocks(ubrr),
        }
    }
}
