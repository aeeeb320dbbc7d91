// The text of a bench trace (document 02, M-100 and M-109): items, a line for each, read a line at a time; written from
// a list of items; shrunk. It knows no device.
#![tactic(auto)]

mod gauge;
mod item;
mod line;
mod listing;
mod page;
mod reader;
mod sending;
mod shrinking;
mod sink;
mod text;
mod turn;
mod writing;

pub use item::Item;
pub use line::{Line, NoItem};
pub use reader::{Reader, read_line};
pub use shrinking::shrink;
pub use text::{FIRST_ITEM, Malformed, check_text};
pub use writing::write;
