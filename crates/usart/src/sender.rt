ghost use Rattle.std.specs.Prelude.{◌≡◌};
ghost use Rattle.usart.specs.Sender.{is_vacant, is_resting, moved_of, at_of, sender_of, txd_of, filled_of};
ghost use Rattle.usart.specs.Sender.{acknowledged_of};

use crate::sample::Sample;
use frame::Format;

// A frame in the shifter: its word, the bit that is on the line (0 is the start bit) and the ticks of it that have
// passed.
#[derive(Clone, Copy, PartialEq, Eq, Default)]
pub struct Transmission {
    pub word: u16,
    pub bit: u8,
    pub sample: Sample,
}

#[derive(Clone, Copy, Default)]
pub struct Sender {
    // Data bits that wait for the shifter; with none UDRE is set.
    pub buffer: Option<u16>,
    // The frame that is being sent; with none the shifter rests.
    pub shifter: Option<Transmission>,
    pub txc: bool,
}

impl Sender {
    pub fn vacant(self) -> bool
        ensures { result ≡ is_vacant self.buffer }
    {
        self.buffer.is_none()
    }

    pub fn resting(self) -> bool
        ensures { result ≡ is_resting self.shifter }
    {
        self.shifter.is_none()
    }

    // A full buffer moves to the shifter and the start bit begins; with none the shifter rests, and TXC becomes txc.
    fn moved(self, f: Format, txc: bool) -> Sender
        ensures { result ≡ moved_of f self txc }
    {
        match self.buffer {
            None => Sender {
                buffer: None,
                shifter: None,
                txc,
            },
            Some(d) => {
                let t = Transmission {
                    word: f.word(d),
                    bit: 0,
                    sample: Sample(0),
                };
                Sender {
                    buffer: None,
                    shifter: Some(t),
                    txc: self.txc,
                }
            }
        }
    }

    // The frame in the shifter at another place.
    pub(crate) fn at(self, t: Transmission) -> Sender
        ensures { result ≡ at_of self t }
    {
        Sender {
            shifter: Some(t),
            ..self
        }
    }

    // A shifter at rest and a frame's end share one call of `moved`: called from one place it is inlined, which a run's
    // speed rests on.
    #[tactic(auto, unfolding(crate::specs::Sender::stepped_of))]
    pub fn tick(self, f: Format) -> Sender
        ensures { result ≡ sender_of f self }
    {
        let mut txc = self.txc;
        if let Some(t) = self.shifter {
            if t.sample.0 < f.samples() - 1 {
                return self.at(Transmission {
                    sample: Sample(t.sample.0 + 1),
                    ..t
                });
            }
            if t.bit < f.last_bit() {
                return self.at(Transmission {
                    bit: t.bit + 1,
                    sample: Sample(0),
                    ..t
                });
            }
            txc = true;
        }
        self.moved(f, txc)
    }

    // The level of TxD, driven or not.
    pub fn txd(self, f: Format) -> bool
        ensures { result ≡ txd_of f self.shifter }
    {
        match self.shifter {
            None => true,
            Some(t) => f.bit_level(t.word, t.bit),
        }
    }

    // Data for the buffer, taken if it is vacant.
    pub fn filled(self, data: u16) -> Sender
        ensures { result ≡ filled_of self «data» }
    {
        Sender {
            buffer: self.buffer.or(Some(data)),
            ..self
        }
    }

    // TXC is cleared.
    pub fn acknowledged(self) -> Sender
        ensures { result ≡ acknowledged_of self }
    {
        Sender { txc: false, ..self }
    }
}
