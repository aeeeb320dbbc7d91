// The table: a row for each speed.
use crate::error::{self, WIDTH as ERROR};
use crate::length::{FrameLength, is_within};
use crate::rate::real_rate;
use crate::setting::{Setting, speed};
use crate::target::Target;
use std::io;

// The columns' widths: the longest content of each, and two spaces.
const U2X0: usize = 6;

const UBRR: usize = 6;

const UBRR0: usize = 8;

// 2500000.000
const RATE: usize = 13;

const LENGTH: usize = 6;

pub(crate) fn heads(rt: &impl Print) -> io::Result<()> {
    print!(rt;
        "speed {:>U2X0$}{:>UBRR$}{:>UBRR0$}{:>UBRR0$}",
        "U2X0", "UBRR", "UBRR0H", "UBRR0L"
    )?;
    print!(rt; "{:>RATE$}{:>ERROR$}", "real rate", "error")?;
    for length in FrameLength::ALL {
        print!(rt; "{:>LENGTH$}", length.head())?;
    }
    println!(rt)
}

fn lengths(rt: &impl Print, target: Target, s: Setting) -> io::Result<()> {
    for length in FrameLength::ALL {
        let answer = if is_within(target, s, length) {
            "yes"
        } else {
            "no"
        };
        print!(rt; "{answer:>LENGTH$}")?;
    }
    println!(rt)
}

pub(crate) fn row(rt: &impl Print, target: Target, s: Setting, tenths: i32) -> io::Result<()> {
    print!(rt;
        "{}{:>U2X0$}{:>UBRR$}",
        speed(s.u2x),
        u8::from(s.u2x),
        s.ubrr
    )?;
    for byte in s.ubrr.to_be_bytes() {
        print!(rt; "{:>1$}{byte:02x}", "0x", UBRR0 - 2)?;
    }
    let rate = real_rate(target.clock, s);
    print!(rt; "{:>1$}.{2:03}", rate / 1000, RATE - 4, rate % 1000)?;
    error::percent(rt, tenths)?;
    lengths(rt, target, s)
}
