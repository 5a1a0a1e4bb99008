//! The names of a WAD's levels.

use crate::drawing::drawn;
use crate::wads::bytes_of;
use std::alloc::Global;
use std::test::Fail;
use tests_rows::{expect_rows, said};
use wad_build::{build_all, level_names};

// The names of the levels of all maps that the lines draw, as they stand in the directory.
fn listed(alloc: Global, lines: &str) -> Result<String, Fail> {
    let maps = drawn(alloc, lines)?;
    let wad = build_all(alloc, &maps)?;
    let mut text = String::new(alloc);
    for name in &level_names(alloc, &wad)? {
        write!(text, "{:?}", name.bytes)?;
    }
    Ok(text)
}

#[test]
fn lists_levels(rt: HostRuntime) -> Result<(), Fail> {
    let row = "ROOM;map E1M2;ROOM|[77, 65, 80, 48, 49, 0, 0, 0][69, 49, 77, 50, 0, 0, 0, 0]";
    expect_rows(rt.alloc(), row, listed)
}

// How many levels the bytes have, or why listing them is refused.
fn counted(alloc: Global, bytes: &str) -> Result<String, Fail> {
    let wad = bytes_of(alloc, bytes)?;
    let count = level_names(alloc, &wad).map(|names| names.len());
    said(alloc, &count)
}

#[test]
fn lists_no_levels(rt: HostRuntime) -> Result<(), Fail> {
    let rows =
        "'PWAD 0 0 12 0|Ok(0)\n'IWAD 1 0 12 0|Err(DirectoryOutside)\n'PWAD 0 0 12 '\0|Err(NotAWad)";
    expect_rows(rt.alloc(), rows, counted)
}
