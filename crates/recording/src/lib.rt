// The calls that write the text of a trace: from a list of items, and shrunk from another text. They take no record.
// `recording_c` exports them, compiled by themselves; they are declared for C in include/warpmagpie.h with the others.
#![tactic(auto)]

mod calls;

pub use calls::{warpmagpie_trace_shrink, warpmagpie_trace_write};
