// The calls that a rig in C makes: those on a record of 64 bytes (check, take apart, call, put back), and those that
// choose a baud setting. `warpmagpie_c` exports them; they are declared for C in include/warpmagpie.h.
#![tactic(auto)]

mod baud;
mod calls;

pub use baud::{warpmagpie_check_baud, warpmagpie_plan_baud};
pub use calls::{
    warpmagpie_read, warpmagpie_requests, warpmagpie_reset, warpmagpie_run, warpmagpie_split_votes,
    warpmagpie_take_vector, warpmagpie_write,
};
