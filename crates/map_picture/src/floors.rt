//! The heights of floors, and the steps of the scale by which sectors are filled.
ghost use Rattle.std.specs.Prelude.{◌≡◌, ◌≤◌, ◌-ℤ◌, slice_get, unsigned_abs};
ghost use Rattle.std.specs.Option.{option_map_or};
ghost use Rattle.map_picture.specs.Floors.{colour_of, count_of_heights, first_height, floor_colour, floor_heights, heights_with, last_height, step_count, step_of_floor, with_floor};

use lump_records::Sector;
use map_tables::{Kind, Map};

/// Heights from the least to the greatest.
#[derive(Clone, Copy, Debug, PartialEq, Eq)]
pub struct Heights {
    pub low: i16,
    pub high: i16,
}

// The heights with one more.
fn heights_with(heights: Heights, height: i16) -> Heights
    ensures { result ≡ heights_with heights height }
{
    Heights {
        low: if height < heights.low {
            height
        } else {
            heights.low
        },
        high: if heights.high < height {
            height
        } else {
            heights.high
        },
    }
}

// The heights, if there are such, with the floor of one more sector.
fn with_floor(heights: Option<Heights>, sector: Sector) -> Option<Heights>
    ensures { result ≡ with_floor heights sector }
{
    match heights {
        Some(heights) => Some(heights_with(heights, sector.floor)),
        None => Some(Heights {
            low: sector.floor,
            high: sector.floor,
        }),
    }
}

// The heights, if there are such, with the floor of the sector with the number.
fn with_sector(map: &Map, n: u32, heights: Option<Heights>) -> Option<Heights>
    ensures { result
        ≡ option_map_or (with_floor heights) (slice_get map.now.tables.sectors n) heights }
{
    match map.sector(n) {
        Some(sector) => with_floor(heights, sector),
        None => heights,
    }
}

/// The heights of the map's floors, if it has a sector.
pub(crate) fn floor_heights(map: &Map) -> Option<Heights>
    ensures { result ≡ floor_heights map.now.tables }
{
    let mut heights = None;
    for n in 0..map.count(Kind::Sector) {
        heights = with_sector(map, n, heights);
    }
    heights
}

// How many heights there are.
fn count_of_heights(heights: Heights) -> u32
    ensures count { result ≡ count_of_heights heights }
    ensures some { 1 ≤ result }
    ensures bound { result ≤ 65536 }
{
    (i32::from(heights.high) - i32::from(heights.low)).unsigned_abs() + 1
}

/// How many steps the scale has: 8, or one for each height if there are fewer.
pub(crate) fn step_count(heights: Heights) -> u32
    ensures count { result ≡ step_count heights }
    ensures some { 1 ≤ result }
    ensures bound { result ≤ 8 }
{
    count_of_heights(heights).min(8)
}

// How far a floor is from the least one.
fn height_above(heights: Heights, floor: i16) -> u32
    ensures value { result ≡ unsigned_abs (floor -ℤ heights.low) }
    ensures bound { result ≤ 65535 }
{
    (i32::from(floor) - i32::from(heights.low)).unsigned_abs()
}

// The step of a floor.
fn step_of_floor(heights: Heights, floor: i16) -> u32
    ensures step { result ≡ step_of_floor heights floor }
    ensures bound { result ≤ 524280 }
{
    height_above(heights, floor) * step_count(heights) / count_of_heights(heights)
}

/// The colour of a step, from 0 to 7: those of few steps are apart.
pub(crate) fn colour_of(heights: Heights, step: u32) -> u32
    requires { step ≤ 524280 }
    ensures { result ≡ colour_of heights step }
{
    step * 8 / step_count(heights)
}

/// The colour of a floor.
pub(crate) fn floor_colour(heights: Heights, floor: i16) -> u32
    ensures { result ≡ floor_colour heights floor }
{
    colour_of(heights, step_of_floor(heights, floor))
}

/// The least height of a step.
pub(crate) fn first_height(heights: Heights, step: u32) -> i32
    requires { step ≤ 8 }
    ensures { result ≡ first_height heights step }
{
    let count = step_count(heights);
    let above = (step * count_of_heights(heights) + (count - 1)) / count;
    i32::from(heights.low) + above as i32
}

/// The greatest height of a step.
pub(crate) fn last_height(heights: Heights, step: u32) -> i32
    requires { step ≤ 7 }
    ensures { result ≡ last_height heights step }
{
    first_height(heights, step + 1) - 1
}
