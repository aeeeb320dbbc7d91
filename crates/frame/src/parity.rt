ghost use Rattle.std.specs.Prelude.{◌≡◌, ◌≤◌, ◌%◌, ◌^◌};
ghost use Rattle.frame.specs.Format.{data_bits};
ghost use Rattle.frame.specs.Parity.{sum_of_bits, parity_bit};

use crate::format::{Format, Parity};

impl Format {
    // The data bits of a number, the rest cut off.
    pub fn masked(self, x: u16) -> u16
        ensures value { result ≡ x % 2 ^ data_bits self.size }
        ensures upper_bound { result ≤ 511 }
    {
        x % self.size.weight()
    }

    // The exclusive or of the data bits of x: the lowest bit of the count of ones among them.
    fn even(self, x: u16) -> u16
        ensures value { result ≡ sum_of_bits (data_bits self.size) x % 2 }
        ensures upper_bound { result ≤ 1 }
    {
        let bits = self.masked(x);
        (bits.count_ones() % 2) as u16
    }

    // The parity bit of the data bits of x; 0 with parity off.
    pub fn parity_bit(self, x: u16) -> u16
        ensures value { result ≡ parity_bit self x }
        ensures upper_bound { result ≤ 1 }
    {
        match self.parity {
            Parity::Off => 0,
            Parity::Even => self.even(x),
            Parity::Odd => 1 - self.even(x),
        }
    }
}
