ghost use Rattle.std.specs.Prelude.{◌≡◌, ◌*◌, ◌≤◌};
ghost use Rattle.planner.specs.Setting.{samples, divisor, total};

pub(crate) const MOST_UBRR: u16 = 4095;

// S, by U2X as a byte, the call's of C, so that no value of it lies outside the proof. `Format::samples` of crate frame
// answers the same of a device's format, and the planner knows no device.
pub(crate) fn samples(u2x: u8) -> u64
    ensures value { result ≡ samples u2x }
    ensures lower_bound { 8 ≤ result }
    ensures upper_bound { result ≤ 16 }
{
    if u2x == 0 { 16 } else { 8 }
}

// Clocks a bit: S·(UBRR+1).
pub fn divisor(u2x: u8, ubrr: u16) -> u64
    ensures { result ≡ divisor (samples u2x) ubrr }
{
    samples(u2x) * (ubrr as u64 + 1)
}
