// Clocks in a row, as a count that can't be taken for one of ticks, samples or bytes.
#![tactic(auto)]

#[derive(Clone, Copy, PartialEq, Eq, PartialOrd, Ord)]
pub struct Span(pub usize);
