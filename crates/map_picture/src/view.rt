//! The part of the plane that the picture shows.
ghost use Rattle.std.specs.Prelude.{◌≡◌, ◌≤◌, ◌+ℤ◌, ◌-ℤ◌, pos, neg_ℤ, slice_get};
ghost use Rattle.std.specs.Int.{int_max, int_min};
ghost use Rattle.std.specs.Option.{option_map_or};
ghost use Rattle.map_picture.specs.View.{box_at, picture_box, box_of_vertices, box_with, grown, distance, grown_by, picture_side, step_of, view_of, view_of_box, whole_view, view_within};

use lump_records::{Bounds, Vertex};
use map_svg::box_round;
use map_tables::{Kind, Map};

/// What the picture shows: its left and upper edges, its size, and the length of the ticks.
#[derive(Clone, Copy)]
pub(crate) struct View {
    pub left: i32,
    pub top: i32,
    pub width: u32,
    pub height: u32,
    pub step: u32,
}

/// The right edge of the page.
pub(crate) fn right_edge(view: &View) -> i64
    ensures { result ≡ view.now.left +ℤ pos view.now.width }
{
    i64::from(view.left) + i64::from(view.width)
}

/// The lower edge of the page.
pub(crate) fn lower_edge(view: &View) -> i64
    ensures { result ≡ view.now.top +ℤ pos view.now.height }
{
    i64::from(view.top) + i64::from(view.height)
}

// The box round a single place.
fn box_at(place: Vertex) -> Bounds
    ensures { result ≡ box_at place }
{
    Bounds {
        top: place.y,
        bottom: place.y,
        left: place.x,
        right: place.x,
    }
}

// The least box round a box and a place.
fn box_with(bounds: Bounds, place: Vertex) -> Bounds
    ensures { result ≡ box_with bounds place }
{
    box_round(bounds, box_at(place))
}

// The least box round a box, if there is one, and a place.
fn grown(bounds: Option<Bounds>, place: Vertex) -> Option<Bounds>
    ensures { result ≡ grown bounds place }
{
    match bounds {
        Some(bounds) => Some(box_with(bounds, place)),
        None => Some(box_at(place)),
    }
}

// The least box round a box and the vertex with the number, if there are such.
fn with_vertex(map: &Map, n: u32, bounds: Option<Bounds>) -> Option<Bounds>
    ensures { result ≡ option_map_or (grown bounds) (slice_get map.now.tables.vertices n) bounds }
{
    match map.vertex(n) {
        Some(vertex) => grown(bounds, vertex),
        None => bounds,
    }
}

// The least box round a box and the thing with the number, if there are such.
fn with_thing(map: &Map, n: u32, bounds: Option<Bounds>) -> Option<Bounds>
    ensures { result ≡ option_map_or (grown_by bounds) (slice_get map.now.tables.things n) bounds }
{
    match map.thing(n) {
        Some(thing) => grown(bounds, thing.place()),
        None => bounds,
    }
}

// The least box round the vertices.
fn box_of_vertices(map: &Map) -> Option<Bounds>
    ensures { result ≡ box_of_vertices map.now.tables }
{
    let mut bounds = None;
    for n in 0..map.count(Kind::Vertex) {
        bounds = with_vertex(map, n, bounds);
    }
    bounds
}

// The least box round the vertices and the things.
fn box_of(map: &Map) -> Option<Bounds>
    ensures { result ≡ picture_box map.now.tables }
{
    let mut bounds = box_of_vertices(map);
    for n in 0..map.count(Kind::Thing) {
        bounds = with_thing(map, n, bounds);
    }
    bounds
}

// The length of a side of a box on the picture, with the margins.
fn side_of(low: i16, high: i16) -> u32
    ensures length { result ≡ picture_side low high }
    ensures bound { result ≤ 65663 }
{
    (i32::from(high) - i32::from(low)).unsigned_abs() + 128
}

// The left edge of the page.
fn left_of(bounds: Bounds) -> i32
    ensures { result ≡ bounds.left -ℤ pos 64 }
{
    i32::from(bounds.left) - 64
}

// The upper edge of the page.
fn top_of(bounds: Bounds) -> i32
    ensures { result ≡ neg_ℤ bounds.top -ℤ pos 64 }
{
    -i32::from(bounds.top) - 64
}

// The length of the ticks on a page of this size.
fn step_of(width: u32, height: u32) -> u32
    requires width { width ≤ 65663 }
    requires height { height ≤ 65663 }
    ensures step { result ≡ step_of width height }
    ensures bound { result ≤ 1000 }
{
    (width.max(height) / 96).max(8)
}

// The view of a box.
fn view_of_box(bounds: Bounds) -> View
    ensures view { result ≡ view_of_box bounds }
    ensures width { result.width ≤ 65663 }
    ensures bound { result.step ≤ 1000 }
{
    let (width, height) = (
        side_of(bounds.left, bounds.right),
        side_of(bounds.bottom, bounds.top),
    );
    View {
        left: left_of(bounds),
        top: top_of(bounds),
        width,
        height,
        step: step_of(width, height),
    }
}

// The distance between two coordinates.
fn distance(a: i16, b: i16) -> u32
    ensures length { result ≡ distance a b }
    ensures bound { result ≤ 65535 }
{
    (i32::from(b) - i32::from(a)).unsigned_abs()
}

// The left edge of a box whose edges may be in any order.
fn left_within(bounds: Bounds) -> i32
    ensures { result ≡ int_min bounds.left bounds.right }
{
    if bounds.right < bounds.left {
        i32::from(bounds.right)
    } else {
        i32::from(bounds.left)
    }
}

// The upper edge of such a box.
fn top_within(bounds: Bounds) -> i32
    ensures { result ≡ neg_ℤ (int_max bounds.top bounds.bottom) }
{
    if bounds.top < bounds.bottom {
        -i32::from(bounds.bottom)
    } else {
        -i32::from(bounds.top)
    }
}

// The view of a box without a margin. Its edges may be in any order.
fn view_within(bounds: Bounds) -> View
    ensures view { result ≡ view_within bounds }
    ensures width { result.width ≤ 65663 }
    ensures bound { result.step ≤ 1000 }
{
    let (width, height) = (
        distance(bounds.left, bounds.right),
        distance(bounds.bottom, bounds.top),
    );
    View {
        left: left_within(bounds),
        top: top_within(bounds),
        width,
        height,
        step: step_of(width, height),
    }
}

// What the picture of the whole map shows.
fn whole_view(map: &Map) -> View
    ensures view { result ≡ whole_view map.now.tables }
    ensures width { result.width ≤ 65663 }
    ensures bound { result.step ≤ 1000 }
{
    match box_of(map) {
        Some(bounds) => view_of_box(bounds),
        None => view_of_box(box_at(Vertex { x: 0, y: 0 })),
    }
}

/// What the picture of the map shows: the box, or the whole map.
pub(crate) fn view_of(map: &Map, crop: Option<Bounds>) -> View
    ensures view { result ≡ view_of crop map.now.tables }
    ensures width { result.width ≤ 65663 }
    ensures bound { result.step ≤ 1000 }
{
    match crop {
        Some(bounds) => view_within(bounds),
        None => whole_view(map),
    }
}
