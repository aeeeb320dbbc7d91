// Choosing the baud setting (document 02, M-104): a planner, a check of anybody's proposal, and the error in tenths of
// a percent. It knows no device.
#![tactic(auto)]

mod choose;
mod figure;
mod outcome;
mod planning;
mod setting;

pub use outcome::Plan;
pub use planning::{check, plan};
pub use setting::divisor;
