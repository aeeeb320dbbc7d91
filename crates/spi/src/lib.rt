// The SPI as master and slave: clock divisor, transfers, registers SPCR, SPSR, SPDR and DDRB. It knows nothing of the
// USART or of the record's bytes; what an edge does to the shift register is `shifter`'s.
#![tactic(auto)]

mod clock;
mod control;
mod divisor;
mod flag;
mod hold;
mod register;
mod transfer;
mod unit;

pub use clock::Levels;
pub use control::Control;
pub use divisor::{Clocks, half};
pub use flag::{Flag, Flags};
pub use register::Register;
pub use transfer::Transfer;
pub use unit::{Pins, Spi};
