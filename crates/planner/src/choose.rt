// The best UBRR, by comparing neighbours alone.
ghost use Rattle.std.specs.Prelude.{◌≡◌, ◌+◌, ◌*◌, ◌/◌, ◌≤◌, is_ok, IfOk, IfErr};
ghost use Rattle.answer.specs.declared.Refusal.TheVariants.{Range};
ghost use Rattle.planner.specs.Setting.{samples};
ghost use Rattle.planner.specs.Neighbour.{is_larger_no_worse, is_smaller_no_worse, is_best_by, ubrr_by};
ghost use Rattle.planner.specs.Figure.{tenths_at};
ghost use Rattle.planner.specs.Planning.{is_in_range};

use crate::figure::RateError;
use crate::setting::{MOST_UBRR, samples};
use answer::Refusal;

// In Hz.
const MOST_CLOCK: u32 = 20_000_000;

// In baud.
const MOST_RATE: u32 = 2_500_000;

// A clock and a rate in range, at one of the two speeds. The planner's own: the program `baud` has a `Target` too, of
// the two numbers that it shows, which knows no speed.
#[derive(Clone, Copy)]
pub(crate) struct Target {
    clock: u64,
    // S·rate: T is this times the divisor UBRR + 1.
    k: u64,
    ghost clock_bound: { clock ≤ 20000000 },
    ghost le_k: { 1 ≤ k },
    ghost k_bound: { k ≤ 40000000 },
}

fn is_in_range(clock: u32, rate: u32) -> bool
    ensures { result ≡ is_in_range clock rate }
{
    (1..=MOST_CLOCK).contains(&clock) && (1..=MOST_RATE).contains(&rate)
}

impl Target {
    pub(crate) fn new(clock: u32, rate: u32, u2x: u8) -> Result<Target, Refusal>
        ensures in_range { is_ok result ≡ is_in_range clock rate }
        ensures ok { IfOk result (λ t. (t.clock ≡ clock) × (t.k ≡ samples u2x * rate)) }
        ensures err { IfErr result (λ r. r ≡ Range) }
    {
        if !is_in_range(clock, rate) {
            return Err(Refusal::Range);
        }
        Ok(Target {
            clock: clock as u64,
            k: samples(u2x) * rate as u64,
        })
    }

    // The two sides of a comparison of the divisors m and m + 1.
    fn clock_side(self, m: u16) -> u64
        ensures { result ≡ self.clock * (m + (m + 1)) }
    {
        let m = m as u64;
        self.clock * (m + (m + 1))
    }

    fn step_side(self, m: u16) -> u64
        ensures { result ≡ 2 * (self.k * (m * (m + 1))) }
    {
        let m = m as u64;
        2 * (self.k * (m * (m + 1)))
    }

    fn is_larger_no_worse(self, m: u16) -> bool
        ensures { result ≡ is_larger_no_worse self.clock self.k m }
    {
        self.step_side(m) <= self.clock_side(m)
    }

    fn is_smaller_no_worse(self, m: u16) -> bool
        ensures { result ≡ is_smaller_no_worse self.clock self.k m }
    {
        self.clock_side(m) <= self.step_side(m)
    }

    // Whether no UBRR has a smaller absolute error.
    pub(crate) fn is_best(self, ubrr: u32) -> bool
        ensures { result ≡ is_best_by self.clock self.k ubrr }
    {
        if (MOST_UBRR as u32) < ubrr {
            return false;
        }
        let m = ubrr as u16;
        self.is_larger_no_worse(m) && (m == MOST_UBRR || self.is_smaller_no_worse(m + 1))
    }

    // The UBRR with the smallest absolute error, the larger on a tie.
    pub(crate) fn best_ubrr(self) -> u16
        ensures value { result ≡ ubrr_by self.clock self.k (self.clock / self.k) }
        ensures upper_bound { result ≤ 4095 }
    {
        let q = self.clock / self.k;
        if (MOST_UBRR as u64) < q {
            return MOST_UBRR;
        }
        let m = q as u16;
        if self.is_larger_no_worse(m) { m } else { m - 1 }
    }

    // The error at a best UBRR, in tenths of a percent.
    pub(crate) fn tenths(self, ubrr: u16) -> i32
        requires ubrr_bound { ubrr ≤ 4095 }
        requires clock_bound { self.clock ≤ 5000 * (self.k * (ubrr + 1)) }
        ensures { result ≡ tenths_at self.clock (self.k * (ubrr + 1)) }
    {
        let error = RateError {
            clock: self.clock,
            t: self.k * (ubrr as u64 + 1),
        };
        error.tenths()
    }
}
