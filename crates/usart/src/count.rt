// Clocks that only count, many at once. Sender and receiver go by ticks, the baud counter by clocks. The `counted`
// functions require that n is at most what `quiet` says, so that no count runs over; the format that they take stands
// in that alone.
ghost use Rattle.std.specs.Prelude.{◌≡◌, ◌-◌, ◌≤◌};
ghost use Rattle.usart.specs.Counting.{sender_quiet, bit_quiet, sampler_quiet, receiver_quiet, quiet_of};
ghost use Rattle.usart.specs.Counting.{later, counted_sender, counted_sampler, counted_receiver, counted_baud};
ghost use Rattle.usart.specs.Counting.{counted_of, skipped_of};

use crate::baud::{Baud, Clocks};
use crate::receiver::Receiver;
use crate::sample::Sample;
use crate::sampler::{Reception, Sampler};
use crate::sender::{Sender, Transmission};
use crate::tick::Ticks;
use crate::unit::Usart;
use advance::Passed;
use frame::Format;
use span::Span;

// A part at rest sets no end to the ticks that only count.
const UNLIMITED: Ticks = Ticks(65535);

impl Sample {
    fn until(self, last: u8) -> Ticks
        ensures { result.0 ≡ last - self.0 }
    {
        Ticks(last.saturating_sub(self.0) as usize)
    }

    fn later(self, n: Ticks) -> Sample
        requires { n.0 ≤ 255 - self.0 }
        ensures { result ≡ later self n.0 }
    {
        Sample(self.0 + n.0 as u8)
    }

    // Of a bit that is received, with so many samples taken.
    #[tactic(auto, unfolding(crate::specs::Counting::bit_quiet))]
    fn quiet(self, f: Format) -> Ticks
        ensures { result.0 ≡ bit_quiet f self.0 }
    {
        let vote = f.first_vote();
        if self.0 < vote {
            self.until(vote - 1)
        } else if self.0 < vote + 2 {
            Ticks(0)
        } else {
            self.until(f.samples() - 1)
        }
    }
}

impl Baud {
    fn counted(self, n: Span) -> Baud
        requires { n.0 ≤ self.left.0 }
        ensures { result ≡ counted_baud self n.0 }
    {
        Baud {
            left: Clocks(self.left.0 - n.0 as u16),
            ..self
        }
    }
}

impl Sender {
    #[tactic(auto, unfolding(crate::specs::Counting::sender_quiet))]
    pub(crate) fn quiet(self, f: Format) -> Ticks
        ensures { result.0 ≡ sender_quiet f self.buffer self.shifter }
    {
        match self.shifter {
            Some(t) => t.sample.until(f.samples() - 1),
            None if self.vacant() => UNLIMITED,
            None => Ticks(0),
        }
    }

    #[tactic(auto, unfolding(crate::specs::Counting::sender_quiet))]
    pub(crate) fn counted(self, f: Format, n: Ticks) -> Sender
        requires { n.0 ≤ sender_quiet f self.buffer self.shifter }
        ensures { result ≡ counted_sender self n.0 }
    {
        match self.shifter {
            None => self,
            Some(t) => self.at(Transmission {
                sample: t.sample.later(n),
                ..t
            }),
        }
    }
}

impl Sampler {
    fn quiet(self, f: Format) -> Ticks
        ensures { result.0 ≡ sampler_quiet f self }
    {
        match self {
            Sampler::Idle(_) => Ticks(0),
            Sampler::Receiving(r) => r.sample.quiet(f),
        }
    }

    #[tactic(auto, unfolding(crate::specs::Counting::bit_quiet))]
    fn counted(self, f: Format, n: Ticks) -> Sampler
        requires { n.0 ≤ sampler_quiet f self }
        ensures { result ≡ counted_sampler self n.0 }
    {
        match self {
            Sampler::Idle(_) => self,
            Sampler::Receiving(r) => Sampler::Receiving(Reception {
                sample: r.sample.later(n),
                ..r
            }),
        }
    }
}

// RXEN and the format are the unit's and come as `Receiver::listened` takes them, one by one.
impl Receiver {
    #[tactic(auto, unfolding(crate::specs::Counting::receiver_quiet))]
    pub(crate) fn quiet(self, rxen: bool, f: Format) -> Ticks
        ensures { result.0 ≡ receiver_quiet rxen f self }
    {
        if rxen {
            self.sampler.quiet(f)
        } else {
            UNLIMITED
        }
    }

    #[tactic(auto, unfolding(crate::specs::Counting::counted_receiver, crate::specs::Counting::receiver_quiet))]
    pub(crate) fn counted(self, rxen: bool, f: Format, n: Ticks) -> Receiver
        requires { n.0 ≤ receiver_quiet rxen f self }
        ensures { result ≡ counted_receiver rxen self n.0 }
    {
        if rxen {
            Receiver {
                sampler: self.sampler.counted(f, n),
                ..self
            }
        } else {
            self
        }
    }
}

impl Usart {
    // Clocks ahead that only count, whatever the level of RxD.
    #[tactic(auto, unfolding(crate::specs::Counting::quiet_of))]
    fn quiet(self) -> Span
        ensures { result.0 ≡ quiet_of self }
    {
        if !self.baud.ticks() {
            Span(self.baud.left.0 as usize)
        } else if self.baud.ubrr == 0 {
            let sender = self.sender.quiet(self.format);
            let receiver = self.receiver.quiet(self.control.rxen, self.format);
            self.baud.ticks_as_clocks(sender.min(receiver))
        } else {
            Span(0)
        }
    }

    #[tactic(auto, unfolding(crate::specs::Counting::counted_of))]
    fn counted(self, n: Span) -> Usart
        requires le_n { 1 ≤ n.0 }
        requires n_bound { n.0 ≤ quiet_of self }
        ensures { result ≡ counted_of self n.0 }
    {
        if self.baud.ticks() {
            let ticks = self.baud.clocks_as_ticks(n);
            Usart {
                sender: self.sender.counted(self.format, ticks),
                receiver: self.receiver.counted(self.control.rxen, self.format, ticks),
                ..self
            }
        } else {
            Usart {
                baud: self.baud.counted(n),
                ..self
            }
        }
    }

    // At most n clocks that only count, at once: RxD is not looked at in them.
    pub fn skip(self, n: Span) -> Passed<Usart, Span>
        ensures { result ≡ skipped_of self n.0 }
    {
        let clocks = self.quiet().min(n);
        let state = if clocks.0 == 0 {
            self
        } else {
            self.counted(clocks)
        };
        Passed {
            state,
            steps: clocks,
        }
    }
}
