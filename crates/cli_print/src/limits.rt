//! The limits of a run of the program.
/// How many reads a run of the program makes at most.
pub const TURNS: u32 = 1_048_576;
