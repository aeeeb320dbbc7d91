// The call that holds a level byte for many clocks. `holding_c` exports it, compiled by itself; it is declared for C in
// include/warpmagpie.h with the others.
#![tactic(auto)]

mod hold;

pub use hold::warpmagpie_hold;
