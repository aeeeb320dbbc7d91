// USART0 in asynchronous mode: baud clock, sender, sampler, receive queue and serial registers, and the line with its
// recommended rate limits. It knows nothing of the SPI or of the record's bytes.
#![tactic(auto)]

mod baud;
mod count;
mod hold;
mod limit;
mod queue;
mod read;
mod receiver;
mod sample;
mod sampler;
mod sender;
mod settings;
mod tick;
mod unit;
mod write;

pub use baud::{Baud, Clocks};
pub use limit::rate_limit;
pub use queue::{Frame, Places, Queue};
pub use receiver::Receiver;
pub use sample::Sample;
pub use sampler::{Outcome, Reception, Sampled, Sampler};
pub use sender::{Sender, Transmission};
pub use settings::{parity_of, size_code, size_of, upm};
pub use tick::Ticks;
pub use unit::{Control, Usart};
pub use write::Register;
