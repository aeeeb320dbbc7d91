// The 64 bytes that the rig keeps: the image of a device, and back. It knows nothing of what a register does.
#![tactic(auto)]

mod codec;
mod codes;
mod encode;
mod in_place;
mod layout;
mod limits;
mod parts;
mod put_back;
mod reception_tests;
mod report;
mod spi_lift;
mod spi_tests;
mod usart_lift;
mod usart_tests;

pub use codec::{decode, store};
pub use in_place::{Stepped, count};
pub use layout::LENGTH;
pub use put_back::{settle, settle_read};
pub use report::{requests, split_votes};
