//! A line of a script that was refused, and the blocks that were open around it.

/// A block that was open where a script stopped.
#[derive(Clone, Copy)]
pub struct OpenBlock {
    /// The index of the line that opened it, among the lines, from 0.
    pub place: usize,
    /// The number of its turn, if it is a loop's.
    pub number: Option<i64>,
}

/// A line of a script that was refused.
#[derive(Drop)]
pub struct Stop {
    /// Its index among the lines, from 0.
    pub place: usize,
    /// The number of the refusal.
    pub code: u16,
    /// The blocks that were open around it, the outermost first. If it was refused at the end of its block, that isn't
    /// one of them. There are none with 30 and 31, nor with 47 if the blocks are out of order.
    pub open: Vec<OpenBlock>,
}
