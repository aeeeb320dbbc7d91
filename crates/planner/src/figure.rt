// The error in signed tenths of a percent.
ghost use Rattle.std.specs.Prelude.{◌≡◌, ◌*◌, ◌≤◌, pos, ◌-ℤ◌, ◌*ℤ◌};
ghost use Rattle.std.specs.Int.Signed.{mag};
ghost use Rattle.planner.specs.Figure.{quotient, tenths_at};

// The error clock/T − 1. At a best UBRR the clock is at most 5000 times T: there the figure is from -1000 to 609,352.
#[derive(Clone, Copy)]
pub(crate) struct RateError {
    pub clock: u64,
    pub t: u64,
    ghost clock_bound: { clock ≤ 400000000000 },
    ghost t_bound: { t ≤ 400000000000 },
    ghost le_t: { 1 ≤ t },
    ghost best: { clock ≤ 5000 * t },
}

// x / whole, the fraction dropped, half being added first on the side away from zero.
fn rounded(x: i64, half: u64, whole: u64) -> i64
    requires x_bound { mag x ≤ 1000000000000000 }
    requires half_bound { half ≤ 1000000000000 }
    requires le_whole { 1 ≤ whole }
    requires whole_bound { whole ≤ 1000000000000 }
    ensures { result ≡ quotient x half whole }
{
    // By its size: the compiler's division of signed numbers takes half as long again.
    let size = ((x.unsigned_abs() + half) / whole) as i64;
    if x < 0 { -size } else { size }
}

impl RateError {
    // 2000·(clock − t).
    fn scaled(self) -> i64
        ensures value { result ≡ (pos self.clock -ℤ pos self.t) *ℤ pos 2000 }
        ensures result_bound { mag result ≤ 1000000000000000 }
    {
        (self.clock as i64 - self.t as i64) * 2000
    }

    // In 64 bits: 32 are too few for the scaled difference of a clock and a T that are 1,073,742 or more apart.
    fn wide_tenths(self) -> i64
        ensures { result ≡ tenths_at self.clock self.t }
    {
        rounded(self.scaled(), self.t, 2 * self.t)
    }

    #[tactic(auto, using(crate::proofs::FigureLaws::small))]
    pub(crate) fn tenths(self) -> i32
        ensures { result ≡ tenths_at self.clock self.t }
    {
        self.wide_tenths() as i32
    }
}
