ghost use Rattle.std.specs.Prelude.{◌≤◌};

// A clock in Hz and a rate in baud, in the planner's range. The planner's own type of them, private there, has S·rate
// in place of the rate, at one speed; here both speeds are asked of one.
#[derive(Clone, Copy)]
pub(crate) struct Target {
    pub clock: u32,
    pub rate: u32,
    ghost clock_bound: { clock ≤ 20000000 },
    ghost le_rate: { 1 ≤ rate },
    ghost rate_bound: { rate ≤ 2500000 },
}
