//! Which rows of a texture a wall shows, as the engine of 1997 draws it.
ghost use Rattle.std.specs.Prelude.{◌≡◌, ◌+ℤ◌, ◌-ℤ◌};
ghost use Rattle.map_checks.specs.Textures.{is_sky};
ghost use Rattle.map_lint.specs.Rows.{end_row, go_past, is_lower_unpegged, is_upper_unpegged, lower_first, lower_rows, middle_first, middle_rows, row_from_end, upper_first, upper_rows, wall_top};

use lump_records::{Line, Sector, Side};

/// The row at a wall's top, before the engine keeps its lowest 7 bits, and how many rows the wall shows from there on.
#[derive(Clone, Copy)]
pub(crate) struct Rows {
    pub first: i32,
    pub count: i32,
}

// Whether the upper wall's first row is at its top.
fn is_upper_unpegged(line: &Line) -> bool
    ensures { result ≡ is_upper_unpegged line.now }
{
    line.flags / 8 % 2 == 1
}

// Whether the middle wall's last row is at the floor, and the lower wall's rows are counted from the ceiling.
fn is_lower_unpegged(line: &Line) -> bool
    ensures { result ≡ is_lower_unpegged line.now }
{
    line.flags / 16 % 2 == 1
}

/// Whether the sector's ceiling is the sky.
pub(crate) fn is_sky(sector: &Sector) -> bool
    ensures { result ≡ is_sky sector.now }
{
    sector.ceiling_name.text() == b"F_SKY1".as_slice()
}

// How far the second height is below the first.
fn below(high: i16, low: i16) -> i32
    ensures { result ≡ high -ℤ low }
{
    i32::from(high) - i32::from(low)
}

// A wall's first row if its last row is the last of a texture with so many.
fn row_from_end(offset: i16, height: i16, high: i16, low: i16) -> i32
    ensures { result ≡ row_from_end offset height (high -ℤ low) }
{
    i32::from(offset) + (i32::from(height) - (i32::from(high) - i32::from(low)))
}

// The first row of a middle wall.
fn middle_first(line: &Line, own: &Side, sector: &Sector, height: i16) -> i32
    ensures { result ≡ middle_first line.now own.now sector.now height }
{
    if is_lower_unpegged(line) {
        row_from_end(own.y_offset, height, sector.ceiling, sector.floor)
    } else {
        i32::from(own.y_offset)
    }
}

/// The rows of a middle wall, from the ceiling of its sector to the floor, of a texture with so many.
pub(crate) fn middle_rows(line: &Line, own: &Side, sector: &Sector, height: i16) -> Rows
    ensures { result ≡ middle_rows line.now own.now sector.now height }
{
    Rows {
        first: middle_first(line, own, sector, height),
        count: below(sector.ceiling, sector.floor),
    }
}

// The first row of an upper wall.
fn upper_first(line: &Line, own: &Side, near: &Sector, far: &Sector, height: i16) -> i32
    ensures { result ≡ upper_first line.now own.now near.now far.now height }
{
    if is_upper_unpegged(line) {
        i32::from(own.y_offset)
    } else {
        row_from_end(own.y_offset, height, near.ceiling, far.ceiling)
    }
}

/// The rows of an upper wall, from the ceiling of the sector `near`, which it faces, to that of `far`.
pub(crate) fn upper_rows(line: &Line, own: &Side, near: &Sector, far: &Sector, height: i16) -> Rows
    ensures { result ≡ upper_rows line.now own.now near.now far.now height }
{
    Rows {
        first: upper_first(line, own, near, far, height),
        count: below(near.ceiling, far.ceiling),
    }
}

// Where the rows of an unpegged lower wall begin.
fn wall_top(near: &Sector, far: &Sector) -> i16
    ensures { result ≡ wall_top near.now far.now }
{
    if is_sky(near) && is_sky(far) {
        far.ceiling
    } else {
        near.ceiling
    }
}

// The row that is so far below the side's first one.
fn row_below(offset: i16, top: i16, bottom: i16) -> i32
    ensures { result ≡ offset +ℤ (top -ℤ bottom) }
{
    i32::from(offset) + (i32::from(top) - i32::from(bottom))
}

// The first row of a lower wall.
fn lower_first(line: &Line, own: &Side, near: &Sector, far: &Sector) -> i32
    ensures { result ≡ lower_first line.now own.now near.now far.now }
{
    if is_lower_unpegged(line) {
        row_below(own.y_offset, wall_top(near, far), far.floor)
    } else {
        i32::from(own.y_offset)
    }
}

/// The rows of a lower wall, from the floor of the sector `far` to that of `near`, which it faces.
pub(crate) fn lower_rows(line: &Line, own: &Side, near: &Sector, far: &Sector) -> Rows
    ensures { result ≡ lower_rows line.now own.now near.now far.now }
{
    Rows {
        first: lower_first(line, own, near, far),
        count: below(far.floor, near.floor),
    }
}

// The row behind a wall's last one, if the first is what the engine keeps of it: its lowest 7 bits.
fn end_row(rows: Rows) -> i64
    ensures { result ≡ end_row rows }
{
    i64::from(rows.first.rem_euclid(128)) + i64::from(rows.count)
}

/// Whether there are rows, and they go past the last one of a texture with so many, fewer than 128.
pub(crate) fn go_past(height: i16, rows: Rows) -> bool
    ensures { result ≡ go_past height rows }
{
    height < 128 && 0 < rows.count && i64::from(height) < end_row(rows)
}
