// One level of RxD held for many clocks. Sender and receiver go by the ticks in them, many at once where these only
// count; a part that is at rest stays as it is, however many there are.
ghost use Rattle.std.specs.Prelude.{◌≡◌};
ghost use Rattle.usart.specs.Holding.{held_of, held_sender, held_receiver, passed_baud, sending_tick, listening_tick};
ghost use Rattle.usart.specs.Holding.{sender_rests, sampler_rests, receiver_rests};
ghost use Rattle.usart.specs.Holding.{sending_rests, sending_counted, listening_rests, listening_counted};

use crate::baud::{Baud, Clocks};
use crate::receiver::Receiver;
use crate::sampler::Sampler;
use crate::sender::Sender;
use crate::tick::Ticks;
use crate::unit::Usart;
use advance::{Passed, Steps, hold};
use frame::Format;
use span::Span;

// A sender and the format of its frames: a step is a tick.
#[derive(Clone, Copy)]
struct Sending {
    sender: Sender,
    format: Format,
}

// A receiver with its settings and the level that is held: a step is a tick that samples it.
#[derive(Clone, Copy)]
struct Listening {
    receiver: Receiver,
    rxen: bool,
    format: Format,
    rxd: bool,
}

impl Baud {
    // The counter falls to 0 from wherever it stands, also above UBRR; from there on it is loaded every UBRR + 1
    // clocks.
    fn passed(self, n: Span) -> Baud
        ensures { result ≡ passed_baud self n.0 }
    {
        let left = self.left.0 as usize;
        let ubrr = self.ubrr as usize;
        if left < n.0 {
            Baud {
                left: Clocks((ubrr - (n.0 - left - 1) % (ubrr + 1)) as u16),
                ..self
            }
        } else {
            Baud {
                left: Clocks((left - n.0) as u16),
                ..self
            }
        }
    }
}

impl Sender {
    #[tactic(auto, unfolding(crate::specs::Holding::sender_rests))]
    fn rests(self) -> bool
        ensures { result ≡ sender_rests self }
    {
        self.vacant() && self.resting()
    }

    fn hold(self, format: Format, n: Ticks) -> Sender
        ensures { result ≡ held_sender format self n.0 }
    {
        let sending = Sending {
            sender: self,
            format,
        };
        hold(sending, n.0).sender
    }
}

impl Steps for Sending {
    ghost step = { sending_tick };

    ghost at_rest = { sending_rests };

    ghost at_once = { sending_counted };

    fn rests(self) -> bool {
        self.sender.rests()
    }

    fn stepped(self) -> Sending {
        Sending {
            sender: self.sender.tick(self.format),
            ..self
        }
    }

    fn counted(self, n: usize) -> Option<Passed<Sending, usize>> {
        let ticks = self.sender.quiet(self.format).min(Ticks(n));
        if ticks.0 == 0 {
            return None;
        }
        Some(Passed {
            state: Sending {
                sender: self.sender.counted(self.format, ticks),
                ..self
            },
            steps: ticks.0,
        })
    }
}

impl Sampler {
    fn rests(self, rxd: bool) -> bool
        ensures { result ≡ sampler_rests self rxd }
    {
        match self {
            Sampler::Idle(last) => last == rxd,
            Sampler::Receiving(_) => false,
        }
    }
}

impl Receiver {
    #[tactic(auto, unfolding(crate::specs::Holding::receiver_rests))]
    fn rests(self, rxen: bool, rxd: bool) -> bool
        ensures { result ≡ receiver_rests rxen self rxd }
    {
        !rxen || self.sampler.rests(rxd)
    }

    fn hold(self, rxen: bool, format: Format, rxd: bool, n: Ticks) -> Receiver
        ensures { result ≡ held_receiver rxen format self rxd n.0 }
    {
        // Before the loop, of which the compiler would make a second one for a receiver that is off.
        if !rxen {
            return self;
        }
        let listening = Listening {
            receiver: self,
            rxen,
            format,
            rxd,
        };
        hold(listening, n.0).receiver
    }
}

impl Steps for Listening {
    ghost step = { listening_tick };

    ghost at_rest = { listening_rests };

    ghost at_once = { listening_counted };

    fn rests(self) -> bool {
        self.receiver.rests(self.rxen, self.rxd)
    }

    fn stepped(self) -> Listening {
        Listening {
            receiver: self.receiver.listened(self.rxen, self.format, self.rxd),
            ..self
        }
    }

    // As for `Sending`: each says its own ticks, and to hand these to one function would take more lines than it saves.
    fn counted(self, n: usize) -> Option<Passed<Listening, usize>> {
        let ticks = self.receiver.quiet(self.rxen, self.format).min(Ticks(n));
        if ticks.0 == 0 {
            return None;
        }
        Some(Passed {
            state: Listening {
                receiver: self.receiver.counted(self.rxen, self.format, ticks),
                ..self
            },
            steps: ticks.0,
        })
    }
}

impl Usart {
    // n clocks, each with the same level of RxD.
    pub fn hold(self, rxd: bool, n: Span) -> Usart
        ensures { result ≡ held_of self rxd n.0 }
    {
        let ticks = self.baud.ticks_in(n);
        Usart {
            baud: self.baud.passed(n),
            sender: self.sender.hold(self.format, ticks),
            receiver: self
                .receiver
                .hold(self.control.rxen, self.format, rxd, ticks),
            ..self
        }
    }
}
