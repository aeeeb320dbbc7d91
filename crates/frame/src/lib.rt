// The frame: its format, the word it puts on the line, parity and the majority vote. It knows nothing of time or
// registers.
#![tactic(auto)]

mod format;
mod parity;
mod vote;
mod word;

pub use format::{Format, Parity, Size};
pub use vote::{Vote, majority};
