//! Walls that scroll.
ghost use Rattle.std.specs.Prelude.{◌≡◌, ◌==◌, false, IfOk, slice_get};
ghost use Rattle.std.specs.Option.{option_map_or};
ghost use Rattle.map_play.specs.Scrolls.{scrolls_at, scrolling};

use crate::specials::{SCROLLS, has_special};
use map_tables::{Kind, Map};
use std::alloc::{AllocError, Global};

// Whether there is a line n, and it scrolls.
fn scrolls_at(map: &Map, n: u32) -> bool
    ensures { result ≡ scrolls_at map.now.tables n }
{
    match map.line(n) {
        Some(line) => has_special(&SCROLLS, &line),
        None => false,
    }
}

/// The numbers of the lines that scroll.
pub(crate) fn scrolling(alloc: Global, map: &Map) -> Result<Vec<u32>, AllocError>
    ensures { IfOk result (λ numbers. numbers.items ≡ scrolling map.now.tables) }
{
    let mut numbers = Vec::new(alloc);
    for n in 0..map.count(Kind::Line) {
        if scrolls_at(map, n) {
            numbers.push(n)?;
        }
    }
    Ok(numbers)
}

/// Whether the number is the 65th of these.
pub(crate) fn is_one_too_many(scrolling: &[u32], n: u32) -> bool
    ensures { result ≡ option_map_or (λ k. k == n) (slice_get scrolling.now 64) false }
{
    match scrolling.get(64) {
        Some(number) => *number == n,
        None => false,
    }
}
