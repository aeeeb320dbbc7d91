ghost use Rattle.std.specs.Prelude.{◌≡◌};
ghost use Rattle.usart.specs.Write.{with_sender, with_format, with_baud, txc_cleared, formatted_of, write_a};
ghost use Rattle.usart.specs.Write.{controlled, write_b, is_reserved_c, write_c, timed_of, write_l, write_h};
ghost use Rattle.usart.specs.Write.{transmitted_of, write_of, vector_of};

use crate::baud::Baud;
use crate::sender::Sender;
use crate::settings::{parity_of, size_code, size_of};
use crate::unit::{Control, Usart};
use answer::Refusal;
use frame::Format;

#[derive(Clone, Copy, PartialEq, Eq)]
pub enum Register {
    Ucsr0a,
    Ucsr0b,
    Ucsr0c,
    Ubrr0l,
    Ubrr0h,
    Udr0,
}

impl Usart {
    fn with_sender(self, sender: Sender) -> Usart
        ensures { result ≡ with_sender self sender }
    {
        Usart { sender, ..self }
    }

    fn with_format(self, format: Format) -> Usart
        ensures { result ≡ with_format self format }
    {
        Usart { format, ..self }
    }

    fn with_baud(self, baud: Baud) -> Usart
        ensures { result ≡ with_baud self baud }
    {
        Usart { baud, ..self }
    }

    // The format f, unless it changes while busy, which is judged on the state before the write.
    fn formatted(self, busy: bool, f: Format) -> Result<Usart, Refusal>
        ensures { result ≡ formatted_of self busy f }
    {
        if busy && f != self.format {
            return Err(Refusal::UnderWay);
        }
        Ok(self.with_format(f))
    }

    // Bit 6 of a write to UCSR0A clears TXC.
    #[tactic(auto, unfolding(crate::specs::Write::txc_cleared))]
    fn cleared(self, v: u8) -> Usart
        ensures { result ≡ txc_cleared self v }
    {
        if v / 64 % 2 == 1 {
            self.with_sender(self.sender.acknowledged())
        } else {
            self
        }
    }

    #[tactic(auto, unfolding(crate::specs::Write::write_a))]
    fn write_ucsr0a(self, v: u8) -> Result<Usart, Refusal>
        ensures { result ≡ write_a self v }
    {
        if v % 2 == 1 {
            return Err(Refusal::Unmodelled);
        }
        let format = Format {
            u2x: v / 2 % 2 == 1,
            ..self.format
        };
        self.cleared(v).formatted(self.busy(), format)
    }

    // UCSR0B but for the size bit.
    fn controlled(self, v: u8) -> Usart
        ensures { result ≡ controlled self v }
    {
        let control = Control::of(v);
        Usart {
            control,
            receiver: self.receiver.enabled(self.control.rxen, control.rxen),
            ..self
        }
    }

    fn write_ucsr0b(self, v: u8) -> Result<Usart, Refusal>
        ensures { result ≡ write_b self v }
    {
        let code = v / 4 % 2 * 4 + size_code(self.format.size) % 4;
        let size = size_of(code).ok_or(Refusal::Reserved)?;
        let format = Format {
            size,
            ..self.format
        };
        self.controlled(v).formatted(self.busy(), format)
    }

    #[tactic(auto, unfolding(crate::specs::Write::write_c, crate::specs::Write::sized_c))]
    fn write_ucsr0c(self, v: u8) -> Result<Usart, Refusal>
        ensures { result ≡ write_c self v }
    {
        if reserved_c(v) {
            return Err(Refusal::Reserved);
        }
        let code = size_code(self.format.size) / 4 * 4 + v / 2 % 4;
        let size = size_of(code).ok_or(Refusal::Reserved)?;
        if v / 64 != 0 {
            return Err(Refusal::Unmodelled);
        }
        let format = Format {
            size,
            parity: parity_of(v / 16 % 4),
            usbs: v / 8 % 2 == 1,
            ..self.format
        };
        self.formatted(self.busy(), format)
    }

    // A new baud setting, unless busy.
    #[tactic(auto, unfolding(crate::specs::Write::timed_of))]
    fn timed(self, b: Baud) -> Result<Usart, Refusal>
        ensures { result ≡ timed_of self b }
    {
        if self.busy() {
            return Err(Refusal::UnderWay);
        }
        Ok(self.with_baud(b))
    }

    fn write_ubrr0l(self, v: u8) -> Result<Usart, Refusal>
        ensures { result ≡ write_l self v }
    {
        let [_, high] = self.baud.ubrr.to_le_bytes();
        self.timed(Baud::loaded(u16::from_le_bytes([v, high])))
    }

    #[tactic(auto, unfolding(crate::specs::Write::write_h))]
    fn write_ubrr0h(self, v: u8) -> Result<Usart, Refusal>
        ensures { result ≡ write_h self v }
    {
        if 16 <= v {
            return Err(Refusal::Reserved);
        }
        let [low, _] = self.baud.ubrr.to_le_bytes();
        self.timed(Baud {
            ubrr: u16::from_le_bytes([low, v]),
            ..self.baud
        })
    }

    // Data for the transmit buffer, taken with TXEN and UDRE set.
    #[tactic(auto, unfolding(crate::specs::Write::transmitted_of))]
    fn transmitted(self, v: u8) -> Usart
        ensures { result ≡ transmitted_of self v }
    {
        if !self.control.txen {
            return self;
        }
        let bits = self
            .format
            .masked(u8::from(self.control.txb8) as u16 * 256 + v as u16);
        self.with_sender(self.sender.filled(bits))
    }

    pub fn write(self, register: Register, v: u8) -> Result<Usart, Refusal>
        ensures { result ≡ write_of self register v }
    {
        match register {
            Register::Ucsr0a => self.write_ucsr0a(v),
            Register::Ucsr0b => self.write_ucsr0b(v),
            Register::Ucsr0c => self.write_ucsr0c(v),
            Register::Ubrr0l => self.write_ubrr0l(v),
            Register::Ubrr0h => self.write_ubrr0h(v),
            Register::Udr0 => Ok(self.transmitted(v)),
        }
    }

    // Vector 0 clears TXC.
    #[tactic(auto, unfolding(crate::specs::Write::vector_of))]
    pub fn take_vector(self) -> Result<Usart, Refusal>
        ensures { result ≡ vector_of self }
    {
        if !self.txc_requested() {
            return Err(Refusal::Unrequested);
        }
        Ok(self.with_sender(self.sender.acknowledged()))
    }
}

// UMSEL 10, UPM 01 or UCPOL 1.
#[tactic(auto, unfolding(crate::specs::Write::is_reserved_c))]
fn reserved_c(v: u8) -> bool
    ensures { result ≡ is_reserved_c v }
{
    v / 64 == 2 || v / 16 % 4 == 1 || v % 2 == 1
}
