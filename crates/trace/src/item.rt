// A call with the answer that was recorded, or clocks with one level byte.
#[derive(Clone, Copy)]
pub enum Item {
    // Address, value, answer.
    Write(u8, u8, u8),
    // Address, value, answer.
    Read(u8, u8, u8),
    // Vector, answer.
    Vector(u8, u8),
    // Level byte, how many clocks.
    Clocks(u8, u32),
}
