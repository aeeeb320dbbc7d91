ghost use Rattle.std.specs.Prelude.{◌≡◌};
ghost use Rattle.usart.specs.Sampler.{idle_of, cast_of, next_bit_of, shifted_of, tally_of, decided_of, voted_of};
ghost use Rattle.usart.specs.Sampler.{sampled_of, sampler_of, is_receiving, still};

use crate::sample::Sample;
use frame::Format;

// The votes of the longest frame: start bit, nine data bits, parity bit and first stop bit.
const MOST_VOTES: u8 = 12;

// A frame under way: the bit that is being sampled (0 is the start bit), samples of it taken, its first two votes until
// the third decides it, the bits received so far, shifted in at the top, and the votes so far that were split.
#[derive(Clone, Copy, PartialEq, Eq, Default)]
pub struct Reception {
    pub bit: u8,
    pub sample: Sample,
    pub first: bool,
    pub second: bool,
    pub word: u16,
    pub splits: u8,
}

// Not an Option of a reception: both states hold data.
#[derive(Clone, Copy)]
pub enum Sampler {
    // No frame under way; the last sample is remembered.
    Idle(bool),
    // From the first low sample to the stop decision.
    Receiving(Reception),
}

// What a sample leads to. Nothing is one outcome of three, so an Option around the other two would be no plainer.
#[derive(Clone, Copy)]
pub enum Outcome {
    Nothing,
    // A start bit is accepted.
    Started,
    // A frame completes, with its word, the vote on its stop bit and how many of its votes were split.
    Complete { word: u16, stop: bool, splits: u8 },
}

#[derive(Clone, Copy)]
pub struct Sampled {
    pub sampler: Sampler,
    pub outcome: Outcome,
}

impl Sampled {
    // No start bit is accepted and no frame completes.
    fn still(sampler: Sampler) -> Sampled
        ensures { result ≡ still sampler }
    {
        Sampled {
            sampler,
            outcome: Outcome::Nothing,
        }
    }
}

#[tactic(auto, unfolding(crate::specs::Sampler::idle_of))]
fn idle(last: bool, rxd: bool) -> Sampled
    ensures { result ≡ idle_of last rxd }
{
    if last && !rxd {
        Sampled::still(Sampler::Receiving(Reception {
            sample: Sample(1),
            ..Reception::default()
        }))
    } else {
        Sampled::still(Sampler::Idle(rxd))
    }
}

// One more vote: a split one is counted. (No frame has more votes than that: `below-most`, proofs/TallyLaws.antt.)
#[tactic(auto, unfolding(crate::specs::Sampler::tally_of))]
fn tally(splits: u8, unanimous: bool) -> u8
    ensures { result ≡ tally_of splits unanimous }
{
    if !unanimous && splits < MOST_VOTES {
        splits + 1
    } else {
        splits
    }
}

// The format is the unit's and the level the clock's: they come together to a sample, but nothing holds both.
impl Reception {
    // Sample n is taken; the first two voting ones are kept.
    #[tactic(auto, unfolding(crate::specs::Sampler::cast_of))]
    fn cast(self, f: Format, n: Sample, rxd: bool) -> Reception
        ensures { result ≡ cast_of f self n rxd }
    {
        let taken = Reception { sample: n, ..self };
        if n.0 == f.first_vote() {
            Reception {
                first: rxd,
                ..taken
            }
        } else if n.0 == f.first_vote() + 1 {
            Reception {
                second: rxd,
                ..taken
            }
        } else {
            taken
        }
    }

    // The bit's last sample is taken. (The stop bit has none: its frame has completed by then.)
    #[tactic(auto, unfolding(crate::specs::Sampler::next_bit_of))]
    fn next_bit(self, f: Format) -> Reception
        ensures { result ≡ next_bit_of f self }
    {
        if self.bit <= f.word_bits() {
            Reception {
                bit: self.bit + 1,
                word: self.word,
                splits: self.splits,
                ..Reception::default()
            }
        } else {
            self
        }
    }

    // A bit of the word comes in at the top.
    #[tactic(auto, unfolding(crate::specs::Sampler::shifted_of))]
    fn shifted(self, f: Format, level: bool) -> Reception
        ensures { result ≡ shifted_of f self level }
    {
        let half = self.word / 2;
        Reception {
            word: if level { half + f.top() } else { half },
            ..self
        }
    }

    // The last vote is cast, by the sample rxd, and the majority is level.
    #[tactic(auto, unfolding(crate::specs::Sampler::decided_of))]
    fn decided(self, f: Format, rxd: bool, level: bool) -> Sampled
        ensures { result ≡ decided_of f self rxd level }
    {
        if self.bit == 0 && level {
            Sampled::still(Sampler::Idle(rxd))
        } else if self.bit == 0 {
            Sampled {
                sampler: Sampler::Receiving(self),
                outcome: Outcome::Started,
            }
        } else if self.bit <= f.word_bits() {
            Sampled::still(Sampler::Receiving(self.shifted(f, level)))
        } else {
            Sampled {
                sampler: Sampler::Idle(rxd),
                outcome: Outcome::Complete {
                    word: self.word,
                    stop: level,
                    splits: self.splits,
                },
            }
        }
    }

    // Sample n of the bit, which is not its last. At the last vote the two that were kept are spent, and a split vote
    // is counted.
    #[tactic(auto, unfolding(crate::specs::Sampler::voted_of))]
    fn voted(self, f: Format, n: Sample, rxd: bool) -> Sampled
        ensures { result ≡ voted_of f self n rxd }
    {
        if n.0 != f.first_vote() + 2 {
            return Sampled::still(Sampler::Receiving(self.cast(f, n, rxd)));
        }
        let vote = frame::majority(self.first, self.second, rxd);
        let spent = Reception {
            sample: n,
            first: false,
            second: false,
            splits: tally(self.splits, vote.unanimous),
            ..self
        };
        spent.decided(f, rxd, vote.level)
    }

    #[tactic(auto, unfolding(crate::specs::Sampler::sampled_of))]
    fn sampled(self, f: Format, rxd: bool) -> Sampled
        ensures { result ≡ sampled_of f self rxd }
    {
        if self.sample.0 < f.samples() - 1 {
            self.voted(f, Sample(self.sample.0 + 1), rxd)
        } else {
            Sampled::still(Sampler::Receiving(self.next_bit(f)))
        }
    }
}

impl Sampler {
    // A tick: the level of RxD is sampled.
    #[tactic(auto, unfolding(crate::specs::Sampler::sampler_of))]
    pub fn tick(self, f: Format, rxd: bool) -> Sampled
        ensures { result ≡ sampler_of f self rxd }
    {
        match self {
            Sampler::Idle(last) => idle(last, rxd),
            Sampler::Receiving(r) => r.sampled(f, rxd),
        }
    }

    pub fn receiving(self) -> bool
        ensures { result ≡ is_receiving self }
    {
        matches!(self, Sampler::Receiving(_))
    }
}
