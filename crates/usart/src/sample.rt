// Samples, or ticks, that have passed within a bit.
#[derive(Clone, Copy, PartialEq, Eq, Default)]
pub struct Sample(pub u8);
