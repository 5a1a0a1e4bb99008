//! Marks of the columns that patches cover.
ghost use Rattle.std.specs.Prelude.{◌≡◌, ◌≤◌, ◌<◌, ℕ, MatchBool, int_le, length, nat_le, pos, ◌+ℤ◌};
ghost use Rattle.lump_textures.specs.Marks.{AreFree, HasMarked, IsFree, IsMarked};

use crate::patch::Patch;

// The first of a texture's columns that isn't left of the place, or their number if all are.
fn column_from(place: i32, width: u16) -> u16
    ensures within { result ≤ width }
    ensures first { (x : ℕ) → x < width → nat_le result x ≡ int_le place (pos x) }
{
    if place < 0 {
        return 0;
    }
    if place < i32::from(width) {
        place as u16
    } else {
        width
    }
}

// The first of the columns that the patch doesn't lie wholly to the right of.
fn first_column(patch: Patch, width: u16) -> u16
    ensures { (x : ℕ) → x < width → nat_le result x ≡ int_le patch.first (pos x) }
{
    column_from(i32::from(patch.first), width)
}

// The first of the columns that lie to the right of the patch, or their number if none does.
fn end_column(patch: Patch, width: u16) -> u16
    ensures within { result ≤ width }
    ensures end { (x : ℕ) → x < width
        → nat_le result x ≡ int_le (patch.first +ℤ patch.width) (pos x) }
{
    column_from(i32::from(patch.first) + i32::from(patch.width), width)
}

// Marks the columns from `first` up to `end`, unless one of them is marked already: whether none is.
fn mark(marks: &mut [bool], first: u16, end: u16) -> bool
    requires { end ≤ length marks.old }
    ensures count { length marks.new ≡ length marks.old }
    ensures marked { MatchBool result
        (AreFree first end marks.old marks.new)
        (HasMarked first end marks.old) }
{
    for x in first..end {
        if marks[usize::from(x)] {
            return false;
        }
        marks[usize::from(x)] = true;
    }
    true
}

/// Marks the columns that the patch covers, unless one of them is marked already: whether none is.
pub(crate) fn cover(marks: &mut [bool], width: u16, patch: Patch) -> bool
    requires { length marks.old ≡ width }
    ensures count { length marks.new ≡ length marks.old }
    ensures covered { MatchBool result
        (IsFree width patch marks.old marks.new)
        (IsMarked width patch marks.old) }
{
    let first = first_column(patch, width);
    let end = end_column(patch, width);
    mark(marks, first, end)
}
