ghost use Rattle.std.specs.Prelude.{◌≡◌, ◌≤◌, ◌*◌};
ghost use Rattle.baud.specs.Setting.{divisor_of, total_of};

// A setting of the baud clock: the speed, and UBRR.
#[derive(Clone, Copy)]
pub(crate) struct Setting {
    pub u2x: bool,
    pub ubrr: u16,
}

// What a speed is called.
pub(crate) fn speed(u2x: bool) -> &'static str {
    if u2x { "double" } else { "normal" }
}

impl Setting {
    // Clocks a bit.
    pub(crate) fn divisor(self) -> u64
        ensures value { result ≡ divisor_of self }
        ensures lower_bound { 8 ≤ result }
        ensures upper_bound { result ≤ 1048576 }
    {
        planner::divisor(u8::from(self.u2x), self.ubrr)
    }

    // T: clocks a bit times the rate.
    pub(crate) fn total(self, rate: u32) -> u64
        ensures value { result ≡ total_of self rate }
        ensures upper_bound { result ≤ 1048576 * rate }
    {
        self.divisor() * rate as u64
    }
}
