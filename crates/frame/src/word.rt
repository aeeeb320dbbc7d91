ghost use Rattle.std.specs.Prelude.{◌≡◌, ◌-◌, ◌≤◌, ◌%◌, ◌^◌};
ghost use Rattle.frame.specs.Format.{word_bits};
ghost use Rattle.frame.specs.Word.{word_of, frame_bit, parity_error};

use crate::format::{Format, Parity};

impl Format {
    // The data bits of x and their parity bit above them: what goes between start and stop bit.
    pub fn word(self, x: u16) -> u16
        ensures { result ≡ word_of self x }
    {
        self.masked(x) + self.parity_bit(x) * self.size.weight()
    }

    // Whether parity is on and the word's parity bit is wrong.
    #[tactic(auto, unfolding(crate::specs::Word::parity_error))]
    pub fn parity_error(self, word: u16) -> bool
        ensures { result ≡ parity_error self word }
    {
        self.parity != Parity::Off && word / self.size.weight() != self.parity_bit(word)
    }

    // The weight of the word's highest bit, where the receiver's bits come in.
    pub fn top(self) -> u16
        ensures value { result ≡ 2 ^ (word_bits self - 1) }
        ensures upper_bound { result ≤ 512 }
    {
        let above = self.size.weight();
        match self.parity {
            Parity::Off => above / 2,
            Parity::Even | Parity::Odd => above,
        }
    }

    // The level of bit number `bit` of the word's frame: 0 is the start bit.
    #[tactic(auto, unfolding(crate::specs::Word::frame_bit))]
    pub fn bit_level(self, word: u16, bit: u8) -> bool
        ensures { result ≡ frame_bit (word_bits self) word bit }
    {
        if bit == 0 {
            false
        } else if bit <= self.word_bits() {
            (word >> (bit - 1)) % 2 == 1
        } else {
            true
        }
    }
}
