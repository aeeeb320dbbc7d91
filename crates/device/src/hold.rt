ghost use Rattle.std.specs.Prelude.{◌≡◌};
ghost use Rattle.device.specs.Holding.{held_of, hold_of};

use crate::unit::{Device, pin_levels};
use answer::Reading;
use span::Span;

impl Device {
    // Each unit by itself, as in a run.
    #[tactic(auto, using(crate::proofs::HoldingLaws::units_held))]
    fn held(self, level: u8, n: Span) -> Device
        ensures { result ≡ held_of self level n.0 }
    {
        let u = self.usart.hold(level % 2 == 1, n);
        let s = self.spi.hold(pin_levels(level), n);
        self.after(u, s)
    }

    // As many clocks, each with this level byte, and the output byte after the last; 0 for no clocks.
    #[tactic(auto, unfolding(crate::specs::Holding::held_output))]
    pub fn hold(self, level: u8, n: Span) -> Reading<Device>
        ensures { result ≡ hold_of self level n.0 }
    {
        let after = self.held(level, n);
        let value = if n.0 == 0 { 0 } else { after.output(level) };
        Reading { value, after }
    }
}
