//! Which of many lines meet another one, beside what each two of them alone are found to do.

use crate::drawing::{draw_lines, drawn};
use crate::expect::same;
use map_plane::crossed_lines;
use map_tables::Maps;
use std::alloc::Global;
use std::process::Abort;
use std::test::Fail;

// How many lines there are: more than are compared each with each.
const LINES: u32 = 48;

// Where the lines come from, and how far apart the places are on which they end.
const DRAWINGS: &str = "1 1;2 1;3 7;4 100;5 1000;6 2000";

// A number that follows from others, without an order that is easily seen.
fn mixed(seed: u32, n: u32) -> u32 {
    let first = seed
        .wrapping_mul(2_654_435_761)
        .wrapping_add(n.wrapping_mul(40_503));
    let second = (first ^ (first >> 15)).wrapping_mul(2_246_822_519);
    second ^ (second >> 13)
}

// Draws 64 vertices in eight rows and eight columns.
fn draw_grid(alloc: Global, maps: &mut Maps, apart: i32) -> Result<(), Fail> {
    for n in 0..64i32 {
        let x = (n % 8).wrapping_mul(apart);
        let y = (n / 8).wrapping_mul(apart);
        let line = format!(in alloc; "vertex {x} {y}")?;
        draw_lines(maps, line.as_str())?;
    }
    Ok(())
}

// The map of these vertices.
fn grid(alloc: Global, apart: i32) -> Result<Maps, Fail> {
    let mut maps = drawn(alloc, "SECTOR;side 0 0 - - - 0")?;
    draw_grid(alloc, &mut maps, apart)?;
    Ok(maps)
}

// Draws the n-th line, from one of the vertices to one of the three behind it.
fn draw_line(alloc: Global, maps: &mut Maps, seed: u32, n: u32) -> Result<(), Fail> {
    let from = mixed(seed, n) % 64;
    let to = (from + 1 + mixed(seed, n.wrapping_add(1000)) % 21) % 64;
    let line = format!(in alloc; "line {from} {to} 4 0 0 0 0")?;
    draw_lines(maps, line.as_str())
}

// Whether the two lines meet once they are drawn.
fn are_crossed(
    alloc: Global,
    maps: &mut Maps,
    seed: u32,
    n: u32,
    other: u32,
) -> Result<bool, Fail> {
    draw_line(alloc, maps, seed, n)?;
    draw_line(alloc, maps, seed, other)?;
    Ok(crossed_lines(alloc, maps.current())?.contains(&true))
}

// Whether the two lines meet.
fn is_pair_crossed(alloc: Global, apart: i32, seed: u32, n: u32, other: u32) -> Result<bool, Fail> {
    let mut maps = grid(alloc, apart)?;
    are_crossed(alloc, &mut maps, seed, n, other)
}

// Whether the line meets one of the others, each alone with it.
fn is_crossed(alloc: Global, apart: i32, seed: u32, n: u32) -> Result<bool, Fail> {
    for other in 0..LINES {
        if other != n && is_pair_crossed(alloc, apart, seed, n, other)? {
            return Ok(true);
        }
    }
    Ok(false)
}

// Which of the lines meet another one, if all are drawn.
fn all_crossed(alloc: Global, maps: &mut Maps, seed: u32) -> Result<Vec<bool>, Fail> {
    for n in 0..LINES {
        draw_line(alloc, maps, seed, n)?;
    }
    Ok(crossed_lines(alloc, maps.current())?)
}

// The lines are found to meet as each two of them are.
fn expect_crossed(
    rt: &impl Abort,
    alloc: Global,
    crossed: &[bool],
    seed: u32,
    apart: i32,
) -> Result<(), Fail> {
    for n in 0..LINES {
        let alone = is_crossed(alloc, apart, seed, n)?;
        same(rt, &crossed.get(n as usize).copied(), &Some(alone));
    }
    Ok(())
}

// The same for a row.
fn expect_row(rt: &impl Abort, alloc: Global, row: &str) -> Result<(), Fail> {
    let (seed, apart) = row.split_once(' ').unwrap_or((row, ""));
    let (seed, apart) = (seed.parse()?, apart.parse()?);
    let mut maps = grid(alloc, apart)?;
    let crossed = all_crossed(alloc, &mut maps, seed)?;
    expect_crossed(rt, alloc, &crossed, seed, apart)
}

#[test]
fn lines_meet_as_each_two_of_them_do(rt: HostRuntime) -> Result<(), Fail> {
    for row in DRAWINGS.split(';') {
        expect_row(&rt, rt.alloc(), row)?;
    }
    Ok(())
}
