ghost use Rattle.std.specs.Prelude.{◌≡◌};
ghost use Rattle.planner.specs.Planning.{planned_of, checked_of};

use crate::choose::Target;
use crate::outcome::Plan;
use answer::Refusal;

// The best UBRR at this speed, the larger on a tie, and its error.
#[tactic(auto, unfolding(crate::specs::Planning::planned_of))]
pub fn plan(clock: u32, rate: u32, u2x: u8) -> Result<Plan, Refusal>
    ensures { result ≡ planned_of clock rate u2x }
{
    let target = Target::new(clock, rate, u2x)?;
    let ubrr = target.best_ubrr();
    Ok(Plan {
        ubrr,
        tenths: target.tenths(ubrr),
    })
}

// Whether anybody's UBRR is a best one at this speed.
#[tactic(auto, unfolding(crate::specs::Planning::checked_of))]
pub fn check(clock: u32, rate: u32, u2x: u8, ubrr: u32) -> Result<bool, Refusal>
    ensures { result ≡ checked_of clock rate u2x ubrr }
{
    let target = Target::new(clock, rate, u2x)?;
    Ok(target.is_best(ubrr))
}
