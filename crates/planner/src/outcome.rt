// What the planner comes to.
#[derive(Clone, Copy)]
pub struct Plan {
    pub ubrr: u16,
    // Its error, in tenths of a percent.
    pub tenths: i32,
}
