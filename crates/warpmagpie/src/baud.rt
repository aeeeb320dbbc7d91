// The calls that choose a baud setting. They take no record.
ghost use Rattle.std.specs.Prelude.{◌≡◌};
ghost use Rattle.warpmagpie.specs.Baud.{plan_answer, plan_ubrr, plan_tenths, check_answer, check_accepted};

pub fn warpmagpie_plan_baud(clock: u32, rate: u32, u2x: u8, ubrr: &mut u16, tenths: &mut i32) -> u8
    ensures value { result ≡ plan_answer clock rate u2x }
    ensures ubrr_after { ubrr.new ≡ plan_ubrr clock rate u2x }
    ensures tenths_after { tenths.new ≡ plan_tenths clock rate u2x }
{
    // Not by `told`, which has one place to put a value in: a plan goes into two.
    match planner::plan(clock, rate, u2x) {
        Ok(plan) => {
            *ubrr = plan.ubrr;
            *tenths = plan.tenths;
            0
        }
        Err(r) => {
            *ubrr = 0;
            *tenths = 0;
            r.number()
        }
    }
}

pub fn warpmagpie_check_baud(clock: u32, rate: u32, u2x: u8, ubrr: u32, accepted: &mut u8) -> u8
    ensures value { result ≡ check_answer clock rate u2x ubrr }
    ensures accepted_after { accepted.new ≡ check_accepted clock rate u2x ubrr }
{
    // Not by `told` either: the answer goes straight into its place, which takes a fifth less time.
    match planner::check(clock, rate, u2x, ubrr) {
        Ok(best) => {
            *accepted = u8::from(best);
            0
        }
        Err(r) => {
            *accepted = 0;
            r.number()
        }
    }
}
