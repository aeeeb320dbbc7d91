ghost use Rattle.std.specs.Prelude.{◌≡◌};
ghost use Rattle.usart.specs.Unit.{reset_usart};
ghost use Rattle.usart.specs.Read.{ucsr0a, ucsr0b, ucsr0c, ubrr0l, ubrr0h, udr0, split_votes, popped_of, read_of};

use crate::settings::{size_code, upm};
use crate::unit::Usart;
use crate::write::Register;
use answer::Reading;

impl Usart {
    // What the registers read after reset.
    pub const UCSR0A_RESET: u8 = 0x20;

    pub const UCSR0B_RESET: u8 = 0;

    pub const UCSR0C_RESET: u8 = 0x06;

    pub const UBRR0L_RESET: u8 = 0;

    pub const UBRR0H_RESET: u8 = 0;

    pub const UDR0_RESET: u8 = 0;

    pub fn reset_value(register: Register) -> u8
        ensures { result ≡ (read_of reset_usart register).value }
    {
        match register {
            Register::Ucsr0a => Usart::UCSR0A_RESET,
            Register::Ucsr0b => Usart::UCSR0B_RESET,
            Register::Ucsr0c => Usart::UCSR0C_RESET,
            Register::Ubrr0l => Usart::UBRR0L_RESET,
            Register::Ubrr0h => Usart::UBRR0H_RESET,
            Register::Udr0 => Usart::UDR0_RESET,
        }
    }

    pub fn ucsr0a(self) -> u8
        ensures { result ≡ ucsr0a self }
    {
        let f = self.receiver.queue.oldest();
        u8::from(!self.receiver.queue.empty()) * 128
            + u8::from(self.sender.txc) * 64
            + u8::from(self.sender.vacant()) * 32
            + u8::from(f.fe) * 16
            + u8::from(f.dor) * 8
            + u8::from(f.upe) * 4
            + u8::from(self.format.u2x) * 2
    }

    pub fn ucsr0b(self) -> u8
        ensures { result ≡ ucsr0b self }
    {
        let c = self.control;
        let f = self.receiver.queue.oldest();
        u8::from(c.rxcie) * 128
            + u8::from(c.txcie) * 64
            + u8::from(c.udrie) * 32
            + u8::from(c.rxen) * 16
            + u8::from(c.txen) * 8
            + size_code(self.format.size) / 4 * 4
            + u8::from(f.data / 256 % 2 == 1) * 2
            + u8::from(c.txb8)
    }

    pub fn ucsr0c(self) -> u8
        ensures { result ≡ ucsr0c self }
    {
        let f = self.format;
        upm(f.parity) * 16 + u8::from(f.usbs) * 8 + size_code(f.size) % 4 * 2
    }

    pub fn ubrr0l(self) -> u8
        ensures { result ≡ ubrr0l self }
    {
        let [low, _] = self.baud.ubrr.to_le_bytes();
        low
    }

    pub fn ubrr0h(self) -> u8
        ensures { result ≡ ubrr0h self }
    {
        let [_, high] = self.baud.ubrr.to_le_bytes();
        high
    }

    pub fn udr0(self) -> u8
        ensures { result ≡ udr0 self }
    {
        (self.receiver.queue.oldest().data % 256) as u8
    }

    // The split votes of the frame that the next read of UDR0 takes away.
    pub fn split_votes(self) -> u8
        ensures { result ≡ split_votes self }
    {
        self.receiver.queue.oldest().splits
    }

    fn popped(mut self) -> Usart
        ensures { result ≡ popped_of self }
    {
        self.receiver.queue = self.receiver.queue.taken();
        self
    }

    pub fn read(self, register: Register) -> Reading<Usart>
        ensures { result ≡ read_of self register }
    {
        let value = match register {
            Register::Ucsr0a => self.ucsr0a(),
            Register::Ucsr0b => self.ucsr0b(),
            Register::Ucsr0c => self.ucsr0c(),
            Register::Ubrr0l => self.ubrr0l(),
            Register::Ubrr0h => self.ubrr0h(),
            Register::Udr0 => self.udr0(),
        };
        let after = if register == Register::Udr0 {
            self.popped()
        } else {
            self
        };
        Reading { value, after }
    }
}
