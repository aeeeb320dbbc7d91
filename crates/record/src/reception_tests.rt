// What is asked of a frame being received (docs/RECORD.md, 'Frame being received').
// Tests of a few bytes are joined by `&`: a jump after each would cost more than what it saves.
ghost use Rattle.std.specs.Prelude.{◌≡◌, ◌+◌, ◌-◌, ◌≤◌, eqb};
ghost use Rattle.frame.specs.Format.{word_bits};
ghost use Rattle.usart.specs.Valid.{voted_bits};
ghost use Rattle.record.specs.Accepts.{reception_within, is_undecided, first_fits, second_fits, splits_fit, rest_fits};
ghost use Rattle.record.specs.Accepts.{reception_fits};

use frame::Format;
use usart::Reception;

// A frame being received, and the format that it is received in.
#[derive(Clone, Copy)]
pub(crate) struct FormattedReception {
    pub format: Format,
    pub reception: Reception,
}

impl FormattedReception {
    // Up to the first stop bit.
    fn within(self) -> bool
        ensures { result ≡ reception_within self.format self.reception }
    {
        let last = self.format.word_bits() + 1;
        (self.reception.word < self.format.top() * 2)
            & (self.reception.bit <= last)
            & (self.reception.sample.0 < self.format.samples())
    }

    // The start bit has its first sample, and the stop bit not yet its last vote.
    #[tactic(auto, unfolding(crate::specs::Accepts::is_undecided))]
    fn undecided(self) -> bool
        ensures { result ≡ is_undecided self.format self.reception }
    {
        if self.reception.bit == 0 {
            1 <= self.reception.sample.0
        } else {
            self.reception.bit != self.format.word_bits() + 1
                || self.reception.sample.0 <= self.format.first_vote() + 1
        }
    }

    // A vote is kept from its sample until the bit is decided.
    #[tactic(auto, unfolding(crate::specs::Accepts::first_fits))]
    fn first_fits(self) -> bool
        ensures { result ≡ first_fits self.format self.reception }
    {
        let vote = self.format.first_vote();
        !self.reception.first
            || (vote <= self.reception.sample.0 && self.reception.sample.0 < vote + 2)
    }

    #[tactic(auto, unfolding(crate::specs::Accepts::second_fits))]
    fn second_fits(self) -> bool
        ensures { result ≡ second_fits self.format self.reception }
    {
        !self.reception.second || self.reception.sample.0 == self.format.first_vote() + 1
    }

    // No more votes are split than bits are decided. (One less than the splits, not one more than the bit: neither can
    // run over.)
    fn splits_fit(self) -> bool
        ensures { result ≡ splits_fit self.format self.reception }
    {
        if self.reception.sample.0 < self.format.first_vote() + 2 {
            self.reception.splits <= self.reception.bit
        } else {
            self.reception.splits.saturating_sub(1) <= self.reception.bit
        }
    }

    // The start bit is not decided yet. (With no frame under way nothing is.)
    pub fn none_decided(self) -> bool
        ensures { result ≡ eqb (voted_bits self.format self.reception) 0 }
    {
        (self.reception.bit == 0) & (self.reception.sample.0 < self.format.first_vote() + 2)
    }

    // Bits of the word that have not come in; one more while the start bit is not decided.
    fn missing(self) -> u8
        ensures value { result ≡ word_bits self.format + 1 - voted_bits self.format self.reception }
        ensures upper_bound { result ≤ 11 }
    {
        let bits = self.format.word_bits();
        if self.reception.sample.0 < self.format.first_vote() + 2 {
            (bits + 1).saturating_sub(self.reception.bit)
        } else {
            bits.saturating_sub(self.reception.bit)
        }
    }

    // Bits that have not come in are 0.
    fn rest_fits(self) -> bool
        ensures { result ≡ rest_fits self.format self.reception }
    {
        self.reception.word % (1u16 << self.missing()) == 0
    }

    #[tactic(auto, unfolding(crate::specs::Accepts::reception_fits))]
    pub fn fits(self) -> bool
        ensures { result ≡ reception_fits self.format self.reception }
    {
        self.within()
            && self.undecided()
            && self.first_fits()
            && self.second_fits()
            && self.splits_fit()
            && self.rest_fits()
    }
}
