//! Places along a line, in order.
ghost use Rattle.std.specs.Prelude.{◌≡◌, ◌≤◌, ◌&&◌, ◌||◌, All, IfOk, OnOk, Some, false, length, slice_get, take, true};
ghost use Rattle.std.specs.List.{list_any};
ghost use Rattle.std.specs.Option.{option_map_or};
ghost use Rattle.lump_records.specs.declared.records.Vertex.{Vertex};
ghost use Rattle.map_areas.specs.Cuts.{AreCutsOf, are_cuts};
ghost use Rattle.map_areas.specs.Stops.{comes_first};
ghost use Rattle.map_areas.specs.Ways.{is_between};
ghost use Rattle.map_plane.specs.Meeting.{is_at};

use crate::stops::comes_first;
use crate::ways::is_between;
use lump_records::Vertex;
use map_plane::{PlacedLine, is_at};
use std::alloc::{AllocError, Global};

// How many of the places, from the first one on, come before this one along the line.
fn count_before(places: &[Vertex], line: &PlacedLine, place: Vertex) -> usize
    ensures within { result ≤ length places.now }
    ensures before { All (λ p. comes_first line.now p place ≡ true) (take result places.now) }
    ensures next { (p : Vertex) → slice_get places.now result ≡ Some p
        → comes_first line.now p place ≡ false }
{
    for n in 0..places.len() {
        if !comes_first(line, places[n], place) {
            return n;
        }
    }
    places.len()
}

// Whether the place with the number is this one.
fn is_place_at(places: &[Vertex], number: usize, place: Vertex) -> bool
    ensures { result
        ≡ option_map_or (λ other. is_at other place) (slice_get places.now number) false }
{
    match places.get(number) {
        Some(other) => is_at(*other, place),
        None => false,
    }
}

/// Adds the place, which is between the ends of the line, to places along it, in order from its first end, if it isn't
/// one of them.
pub(crate) fn put_along(
    places: &mut Vec<Vertex>,
    line: &PlacedLine,
    place: Vertex,
) -> Result<(), AllocError>
    requires { is_between line.now place ≡ true }
    ensures those { OnOk result ((p : Vertex) → list_any (is_at p) places.new.items
        ≡ (is_at p place || list_any (is_at p) places.old.items)) }
    ensures order { OnOk result (are_cuts line.now line.now.from places.old.items ≡ true
        → are_cuts line.now line.now.from places.new.items ≡ true) }
{
    let at = count_before(places, line, place);
    if is_place_at(places, at, place) {
        return Ok(());
    }
    places.insert(at, place)?;
    Ok(())
}

// Adds the place, if it is between the ends of the line.
fn put_if_between(
    places: &mut Vec<Vertex>,
    line: &PlacedLine,
    place: Vertex,
) -> Result<(), AllocError>
    ensures those { OnOk result ((p : Vertex) → list_any (is_at p) places.new.items
        ≡ (list_any (is_at p) places.old.items || (is_between line.now p && is_at p place))) }
    ensures order { OnOk result (are_cuts line.now line.now.from places.old.items ≡ true
        → are_cuts line.now line.now.from places.new.items ≡ true) }
{
    if !is_between(line, place) {
        return Ok(());
    }
    put_along(places, line, place)
}

// Adds those of other places that lie between the line's ends to places along it, in their order.
fn put_between(
    places: &mut Vec<Vertex>,
    others: &[Vertex],
    line: &PlacedLine,
) -> Result<(), AllocError>
    ensures those { OnOk result ((p : Vertex) → list_any (is_at p) places.new.items
        ≡ (list_any (is_at p) places.old.items
        || (is_between line.now p && list_any (is_at p) others.now))) }
    ensures order { OnOk result (are_cuts line.now line.now.from places.old.items ≡ true
        → are_cuts line.now line.now.from places.new.items ≡ true) }
{
    for other in others {
        put_if_between(places, line, *other)?;
    }
    Ok(())
}

/// Those of the places that lie between the line's ends, in their order along it.
pub(crate) fn cuts_of(
    alloc: Global,
    places: &[Vertex],
    line: &PlacedLine,
) -> Result<Vec<Vertex>, AllocError>
    ensures { IfOk result (λ cuts. AreCutsOf line.now places.now cuts.items) }
{
    let mut cuts = Vec::new(alloc);
    put_between(&mut cuts, places, line)?;
    Ok(cuts)
}
