// The calls on a trace: its replay. `tracing_c` exports it, compiled by itself; it is declared for C in
// include/warpmagpie.h with the others.
#![tactic(auto)]

mod replay;

pub use replay::warpmagpie_replay;
