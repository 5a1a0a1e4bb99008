//! The boxes that `--crop` of `picture` writes.

use crate::asked::asked;
use std::alloc::Global;
use std::test::Fail;
use tests_rows::{expect_scripts, expect_text};

// Texts of `--crop`, and the upper, lower, left and right edge of the box that each writes.
const BOXES: &str = "\
    --crop=0,0,128,64~Some([64, 0, 0, 128])^\
    --crop=128,64,0,0~Some([64, 0, 0, 128])^\
    --crop=-64,+64,0,-64~Some([64, -64, -64, 0])^\
    --crop=-32768,-32768,32767,32767~Some([32767, -32768, -32768, 32767])";

// Texts that write none: too few or too many numbers, no number, one past 16 bits, and boxes without area.
const NO_BOXES: &str = "\
    0;0,0,64;0,0,64,64,;0,0,64,64,64;0,0,64,;0,,64,64;0, 0,64,64;0 0 64 64;0,0,x,64;0,0,64,32768;\
    0,-32769,64,64;0,0,0,64;0,64,64,64;0,0,0,0";

#[test]
fn reads_boxes(rt: HostRuntime) -> Result<(), Fail> {
    expect_scripts(rt.alloc(), BOXES, |alloc, word| {
        asked(alloc, &["leveled", "picture", "f", word])
    })?;
    let none = asked(rt.alloc(), &["leveled", "picture", "f"])?;
    expect_text("no --crop", none.as_str(), "None")
}

// The text for which a picture is refused, as one that writes no box.
fn refused_box(alloc: Global, text: &str) -> Result<(), Fail> {
    let found = asked(alloc, &["leveled", "picture", "f", "--crop", text])?;
    expect_text(
        text,
        found.as_str().strip_prefix("no box ").unwrap_or(""),
        text,
    )
}

#[test]
fn refuses_what_writes_no_box(rt: HostRuntime) -> Result<(), Fail> {
    for text in NO_BOXES.split(';') {
        refused_box(rt.alloc(), text)?;
    }
    Ok(())
}
