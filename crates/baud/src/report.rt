// What the program writes on standard output.
ghost use Rattle.std.specs.Prelude.{◌≡◌, is_ok};
ghost use Rattle.planner.specs.Planning.{is_in_range};

use crate::advice::{Advice, advised};
use crate::setting::{Setting, speed};
use crate::table;
use crate::target::Target;
use answer::Refusal;
use planner::Plan;
use std::io;

// The planner's two plans for a clock and a rate in range.
#[derive(Clone, Copy)]
pub(crate) struct Report {
    target: Target,
    normal: Plan,
    double: Plan,
}

fn advise(rt: &impl Print, advice: Advice) -> io::Result<()> {
    match advice {
        Advice::MoreLengths(u2x) => println!(rt;
            "Take {} speed: it is within the limit at more frame lengths.",
            speed(u2x)
        ),
        Advice::SmallerError(u2x) => println!(rt;
            "Take {} speed: it is within the limit at as many frame lengths, and its error is smaller.",
            speed(u2x)
        ),
        Advice::Even => println!(rt;
            "Take {} speed: frame lengths within the limit and error are the same, and it has more samples a bit.",
            speed(false)
        ),
        Advice::Neither => println!(rt;
            "Neither speed is within the limit at any frame length: take another rate or another clock."
        ),
    }
}

impl Report {
    #[tactic(auto, unfolding(planner::specs::Planning::planned_of))]
    pub(crate) fn new(clock: u32, rate: u32) -> Result<Report, Refusal>
        ensures { is_ok result ≡ is_in_range clock rate }
    {
        let normal = planner::plan(clock, rate, 0)?;
        let double = planner::plan(clock, rate, 1)?;
        Ok(Report {
            target: Target { clock, rate },
            normal,
            double,
        })
    }

    // The two settings, and which to take.
    pub(crate) fn show(self, rt: &impl Print) -> io::Result<()> {
        let target = self.target;
        let normal = Setting {
            u2x: false,
            ubrr: self.normal.ubrr,
        };
        let double = Setting {
            u2x: true,
            ubrr: self.double.ubrr,
        };
        println!(rt; "clock {} Hz, rate {} baud\n", target.clock, target.rate)?;
        table::heads(rt)?;
        table::row(rt, target, normal, self.normal.tenths)?;
        table::row(rt, target, double, self.double.tenths)?;
        println!(rt;
            "\nD is data bits plus parity bit: 8 for 8N1, 9 for 8E1. yes: a receiver with this setting is within its \
             recommended\nlimit of the rate error, against a sender that keeps the rate exactly.\n"
        )?;
        advise(rt, advised(target, normal, double))
    }
}
