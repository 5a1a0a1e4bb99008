//! The limits of a run.
/// The length of the longest body of one map, in bytes. The body of all maps in memory may be as long.
pub const LONGEST_BODY: u32 = 2_007_002;
