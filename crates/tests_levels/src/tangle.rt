//! Maps of many lines that cross one another, drawn by a fixed sequence of pseudorandom numbers.
ghost use Rattle.std.specs.Prelude.{◌<◌};

use crate::drawing::{draw_lines as draw, drawn};
use map_tables::Maps;
use std::alloc::Global;
use std::test::Fail;

/// A fixed sequence of pseudorandom numbers.
#[derive(Drop)]
pub struct Sequence {
    pub state: u64,
}

impl Sequence {
    pub fn below(&mut self, n: u32) -> u32
        requires { 0 < n }
        ensures { result < n }
    {
        let next = self.state.wrapping_mul(6_364_136_223_846_793_005);
        self.state = next.wrapping_add(1_442_695_040_888_963_407);
        ((self.state >> 33) % u64::from(n)) as u32
    }
}

// Draws a row of seven vertices of a grid, this far apart.
fn draw_row(alloc: Global, maps: &mut Maps, y: u32, apart: u32) -> Result<(), Fail>
    requires { apart < 100 }
{
    for x in 0..7u32 {
        let x = x * apart;
        let line = format!(in alloc; "vertex {x} {y}")?;
        draw(maps, line.as_str())?;
    }
    Ok(())
}

// Draws seven such rows.
fn draw_grid(alloc: Global, maps: &mut Maps, apart: u32) -> Result<(), Fail>
    requires { apart < 100 }
{
    for y in 0..7u32 {
        draw_row(alloc, maps, y * apart, apart)?;
    }
    Ok(())
}

/// Draws lines between the points of a small grid with this spacing. So many of them cross, overlap, or lie on one
/// straight line.
pub fn draw_tangle(
    alloc: Global,
    numbers: &mut Sequence,
    lines: u32,
    apart: u32,
) -> Result<Maps, Fail>
    requires { apart < 100 }
{
    let mut maps = drawn(alloc, "SECTOR;SIDE")?;
    draw_grid(alloc, &mut maps, apart)?;
    draw_lines(alloc, &mut maps, numbers, lines)?;
    Ok(maps)
}

// Draws this many lines between 49 vertices; about half of them are two-sided.
fn draw_lines(
    alloc: Global,
    maps: &mut Maps,
    numbers: &mut Sequence,
    lines: u32,
) -> Result<(), Fail> {
    for _ in 0..lines {
        let from = numbers.below(49);
        let to = (from + 1 + numbers.below(48)) % 49;
        let left = if numbers.below(2) == 0 {
            "4 0 0 0 0"
        } else {
            "1 0 0 0 -"
        };
        let line = format!(in alloc; "line {from} {to} {left}")?;
        draw(maps, line.as_str())?;
    }
    Ok(())
}

/// Skips the numbers that draw this many maps of this many lines.
pub fn skip_tangles(numbers: &mut Sequence, maps: u32, lines: u32) {
    for _ in 0..maps {
        for _ in 0..lines {
            numbers.below(49);
            numbers.below(48);
            numbers.below(2);
        }
    }
}
