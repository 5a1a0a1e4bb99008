//! What the program reports if a file that it has opened fails.

use crate::calls::expect_calls;
use std::test::Fail;

// A file of the system that can be opened for writing, but not synced.
const NO_SYNC: &str = "edit /proc/self/mem~vertex 0 0\n~1~~\
    leveled: 30 Device\n  /proc/self/mem: Invalid argument\n";

#[test]
fn says_why_a_file_fails(rt: HostRuntime) -> Result<(), Fail> {
    expect_calls(&rt, NO_SYNC)
}
