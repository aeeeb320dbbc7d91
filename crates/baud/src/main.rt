// baud CLOCK RATE: the best baud setting at each speed as a table, and which speed to take.
#![tactic(auto)]

mod advice;
mod argument;
mod error;
mod length;
mod rate;
mod report;
mod setting;
mod table;
mod target;

use argument::{argument, is_given};
use report::Report;
use std::env::Env;
use std::io;

// What is to be shown, where there are two arguments and both are numbers in range.
fn asked(rt: &impl Env) -> Option<Report> {
    if is_given(rt, 3) {
        return None;
    }
    let clock = argument(rt, 1)?;
    let rate = argument(rt, 2)?;
    Report::new(clock, rate).ok()
}

fn main(rt: HostRuntime) -> io::Result<()> {
    match asked(&rt) {
        Some(report) => report.show(&rt),
        None => eprintln!(rt;
            "usage: baud CLOCK RATE, in decimal digits: CLOCK 1 to 20000000 Hz, RATE 1 to 2500000 baud"
        ),
    }
}
