// Bench traces on a device (document 02, M-100): replay. It knows nothing of the record's bytes.
#![tactic(auto)]

mod replaying;
mod step;

pub use replaying::{Replayed, Stopped, replay};
