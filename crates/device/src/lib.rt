// The peripheral as one device: USART0 and the SPI behind one set of register addresses, level byte, output byte,
// vectors and request bits. It knows nothing of the record's bytes.
#![tactic(auto)]

mod address;
mod hold;
mod run;
mod serial_run;
mod spi_run;
mod unit;

pub use address::Place;
pub use unit::{Device, pin_levels};
