ghost use Rattle.std.specs.Prelude.{◌≡◌};
ghost use Rattle.spi.specs.Transfer.{is_under_way, dropped_of, byte_of};

use crate::divisor::Clocks;
use shifter::{Exchange, Shifter};

// The shift register, the receive buffer, edges of the byte under way that have passed, and a master's clocks to the
// next one.
#[derive(Clone, Copy, Default)]
pub struct Transfer {
    pub shift: u8,
    pub received: u8,
    pub edges: u8,
    pub left: Clocks,
}

impl Transfer {
    #[tactic(auto, unfolding(crate::specs::Transfer::is_under_way))]
    pub fn under_way(self) -> bool
        ensures { result ≡ is_under_way self }
    {
        self.edges != 0 || self.left.0 != 0
    }

    // Dropped: the shift register stays as it stands.
    pub fn dropped(self) -> Transfer
        ensures { result ≡ dropped_of self }
    {
        Transfer {
            edges: 0,
            left: Clocks(0),
            ..self
        }
    }

    // The byte of a transfer, with the bit that is out.
    pub fn byte(self, out: bool) -> Exchange
        ensures { result ≡ byte_of self out }
    {
        Exchange {
            register: Shifter {
                shift: self.shift,
                out,
            },
            edges: self.edges,
        }
    }
}
