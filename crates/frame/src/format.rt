ghost use Rattle.std.specs.Prelude.{◌≡◌, ◌≤◌, ◌^◌};
ghost use Rattle.frame.specs.Format.{data_bits, parity_bits, stop_bits, samples, first_vote, word_bits, last_bit};

// Data bits of a frame.
#[derive(Clone, Copy, PartialEq, Eq)]
pub enum Size {
    Five,
    Six,
    Seven,
    Eight,
    Nine,
}

#[derive(Clone, Copy, PartialEq, Eq)]
pub enum Parity {
    Off,
    Even,
    Odd,
}

// How a frame looks on the line: size, parity, USBS (two stop bits) and U2X (double speed).
#[derive(Clone, Copy, PartialEq, Eq)]
pub struct Format {
    pub size: Size,
    pub parity: Parity,
    pub usbs: bool,
    pub u2x: bool,
}

impl Size {
    pub fn bits(self) -> u8
        ensures value { result ≡ data_bits self }
        ensures lower_bound { (5 ≤ result) × (result ≤ 9) }
    {
        match self {
            Size::Five => 5,
            Size::Six => 6,
            Size::Seven => 7,
            Size::Eight => 8,
            Size::Nine => 9,
        }
    }

    // The weight of the bit above the data bits.
    pub fn weight(self) -> u16
        ensures value { result ≡ 2 ^ data_bits self }
        ensures lower_bound { (32 ≤ result) × (result ≤ 512) }
    {
        1 << self.bits()
    }
}

impl Parity {
    pub fn bits(self) -> u8
        ensures value { result ≡ parity_bits self }
        ensures upper_bound { result ≤ 1 }
    {
        match self {
            Parity::Off => 0,
            Parity::Even | Parity::Odd => 1,
        }
    }
}

impl Format {
    // S: samples, or ticks, a bit.
    pub fn samples(self) -> u8
        ensures value { result ≡ samples self }
        ensures lower_bound { (8 ≤ result) × (result ≤ 16) }
    {
        if self.u2x { 8 } else { 16 }
    }

    // The number of the first voting sample; the other two follow it.
    pub fn first_vote(self) -> u8
        ensures value { result ≡ first_vote self }
        ensures lower_bound { (4 ≤ result) × (result ≤ 8) }
    {
        if self.u2x { 4 } else { 8 }
    }

    // D: data bits and parity bit.
    pub fn word_bits(self) -> u8
        ensures value { result ≡ word_bits self }
        ensures lower_bound { (5 ≤ result) × (result ≤ 10) }
    {
        self.size.bits() + self.parity.bits()
    }

    pub fn stop_bits(self) -> u8
        ensures value { result ≡ stop_bits self }
        ensures lower_bound { (1 ≤ result) × (result ≤ 2) }
    {
        if self.usbs { 2 } else { 1 }
    }

    // The index of a frame's last bit, its start bit being 0.
    pub fn last_bit(self) -> u8
        ensures { result ≡ last_bit self }
    {
        self.word_bits() + self.stop_bits()
    }
}
