// A sink that keeps nothing: it counts the room down, so that no sum of lengths can be too large.
ghost use Rattle.trace.specs.Gauges.{gauge_fits, gauge_taken, gauge_laws};

use crate::sink::Sink;
use answer::Refusal;
use decimal::digit_count;

#[derive(Clone, Copy)]
pub(crate) struct Gauge {
    pub left: usize,
}

impl Sink for Gauge {
    ghost fits = { gauge_fits };

    ghost taken = { gauge_taken };

    ghost laws = { gauge_laws };

    #[inline(always)]
    fn bytes(&mut self, bytes: &[u8]) -> Result<(), Refusal> {
        self.left = self.left.checked_sub(bytes.len()).ok_or(Refusal::Room)?;
        Ok(())
    }

    #[inline(always)]
    fn number(&mut self, n: u32, _end: u8) -> Result<(), Refusal> {
        self.left = self
            .left
            .checked_sub(digit_count(n) + 1)
            .ok_or(Refusal::Room)?;
        Ok(())
    }
}
