ghost use Rattle.std.specs.Prelude.{◌≡◌};
ghost use Rattle.usart.specs.Unit.{reset_usart, is_busy, ticked_of, clock_of, is_driven, output_of};
ghost use Rattle.usart.specs.Unit.{requests_of, rxc_requested, udre_requested, txc_requested};
ghost use Rattle.usart.specs.Write.{control_in};

use crate::baud::Baud;
use crate::receiver::Receiver;
use crate::sender::Sender;
use frame::{Format, Parity, Size};

// UCSR0B, but for the bits that are kept elsewhere: UCSZ2 in the format, RXB8 with the oldest frame.
#[derive(Clone, Copy, Default)]
pub struct Control {
    pub rxcie: bool,
    pub txcie: bool,
    pub udrie: bool,
    pub rxen: bool,
    pub txen: bool,
    pub txb8: bool,
}

impl Control {
    // Of a byte that is written to UCSR0B, or that a record keeps of it.
    pub fn of(byte: u8) -> Control
        ensures { result ≡ control_in byte }
    {
        Control {
            rxcie: byte / 128 % 2 == 1,
            txcie: byte / 64 % 2 == 1,
            udrie: byte / 32 % 2 == 1,
            rxen: byte / 16 % 2 == 1,
            txen: byte / 8 % 2 == 1,
            txb8: byte % 2 == 1,
        }
    }
}

#[derive(Clone, Copy)]
pub struct Usart {
    pub baud: Baud,
    pub format: Format,
    pub control: Control,
    pub sender: Sender,
    pub receiver: Receiver,
}

impl Usart {
    pub fn reset() -> Usart
        ensures { result ≡ reset_usart }
    {
        Usart {
            baud: Baud::default(),
            format: Format {
                size: Size::Eight,
                parity: Parity::Off,
                usbs: false,
                u2x: false,
            },
            control: Control::default(),
            sender: Sender::default(),
            receiver: Receiver::stopped(),
        }
    }

    // A frame in shift or buffer, or one that is being received.
    #[tactic(auto, unfolding(crate::specs::Unit::is_busy))]
    pub fn busy(self) -> bool
        ensures { result ≡ is_busy self }
    {
        !self.sender.vacant() || !self.sender.resting() || self.receiver.sampler.receiving()
    }

    fn ticked(self, rxd: bool) -> Usart
        ensures { result ≡ ticked_of self rxd }
    {
        Usart {
            baud: self.baud.next(),
            sender: self.sender.tick(self.format),
            receiver: self.receiver.listened(self.control.rxen, self.format, rxd),
            ..self
        }
    }

    // One clock, with the level of RxD.
    #[tactic(auto, unfolding(crate::specs::Unit::clock_of))]
    pub fn clock(self, rxd: bool) -> Usart
        ensures { result ≡ clock_of self rxd }
    {
        if self.baud.ticks() {
            self.ticked(rxd)
        } else {
            Usart {
                baud: self.baud.next(),
                ..self
            }
        }
    }

    #[tactic(auto, unfolding(crate::specs::Unit::is_driven))]
    fn driven(self) -> bool
        ensures { result ≡ is_driven self }
    {
        self.control.txen || !self.sender.vacant() || !self.sender.resting()
    }

    // TxD in bit 0 and its driven mark in bit 4; undriven shows 0.
    #[tactic(auto, unfolding(crate::specs::Unit::output_of))]
    pub fn output(self) -> u8
        ensures { result ≡ output_of self }
    {
        if self.driven() {
            u8::from(self.sender.txd(self.format)) + 16
        } else {
            0
        }
    }

    fn rxc_requested(self) -> bool
        ensures { result ≡ rxc_requested self }
    {
        self.control.rxcie && !self.receiver.queue.empty()
    }

    fn udre_requested(self) -> bool
        ensures { result ≡ udre_requested self }
    {
        self.control.udrie && self.sender.vacant()
    }

    pub fn txc_requested(self) -> bool
        ensures { result ≡ txc_requested self }
    {
        self.control.txcie && self.sender.txc
    }

    // Requests: bit 0 RXC, bit 1 UDRE, bit 2 TXC, each with its enable.
    pub fn requests(self) -> u8
        ensures { result ≡ requests_of self }
    {
        u8::from(self.rxc_requested())
            + u8::from(self.udre_requested()) * 2
            + u8::from(self.txc_requested()) * 4
    }
}
