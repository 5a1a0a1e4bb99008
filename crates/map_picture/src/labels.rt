//! The numbers that are wanted beside the items of a picture, and the places where each may be.
ghost use Rattle.std.specs.Prelude.{◌≡◌, ◌≤◌, ◌<◌, ◌+◌, ◌++◌, length, slice_get, IfOk, OnOk};
ghost use Rattle.std.specs.Option.{option_map, option_map_or};
ghost use Rattle.map_tables.specs.Tables.{count_of};
ghost use Rattle.map_picture.specs.Labels.{all_labels, beside_line, corners_round, how_far, inside_line, is_across_page, is_down_page, is_on_page, label_of, labels_of, line_label, number_size, numbered_kind, on_page, places_inside, sector_label, shift_by, shown_count, shown_with, size_beside, thing_label, vertex_label};
ghost use Rattle.map_picture.specs.Longest.{AreLongest};
ghost use Rattle.map_picture.specs.Numbers.{line_middle, longest_line};

use crate::items::sector_of;
use crate::longest::all_longest;
use crate::options::PictureError;
use crate::view::{View, lower_edge, right_edge};
use lump_records::{Line, Thing, Vertex};
use map_svg::{Shift, Spot, middle_of, right_of, spot_of};
use map_tables::{Kind, Map};
use std::alloc::Global;

/// What has a number on the picture.
#[derive(Clone, Copy, Debug, PartialEq, Eq)]
pub enum Numbered {
    Sector,
    Line,
    Vertex,
    Thing,
}

/// A number that is wanted beside an item: the place beside which it is, and the vectors from there to where its middle
/// may be, the best one first.
#[derive(Clone, Copy, Debug, PartialEq, Eq)]
pub struct Label {
    pub item: Numbered,
    pub n: u32,
    pub place: Spot,
    pub shifts: [Shift; 4],
}

// The table of what is numbered.
fn numbered_kind(item: Numbered) -> Kind
    ensures { result ≡ numbered_kind item }
{
    match item {
        Numbered::Sector => Kind::Sector,
        Numbered::Line => Kind::Line,
        Numbered::Vertex => Kind::Vertex,
        Numbered::Thing => Kind::Thing,
    }
}

// The vector by so much to the right and downwards.
fn shift_by(dx: i64, dy: i64) -> Shift
    ensures { result ≡ shift_by dx dy }
{
    Shift { dx, dy }
}

// The vectors to the four corners round a place, the upper right one first.
fn corners_round(away: u32) -> [Shift; 4]
    ensures { result ≡ corners_round away }
{
    let (more, less) = (i64::from(away), -i64::from(away));
    [
        shift_by(more, less),
        shift_by(less, less),
        shift_by(more, more),
        shift_by(less, more),
    ]
}

// Beside a line: on its left, on its right beyond the tick, and the same farther off.
fn beside_line(from: Vertex, to: Vertex, step: u32) -> [Shift; 4]
    requires { step ≤ 1000 }
    ensures { result ≡ beside_line from to step }
{
    [
        right_of(to, from, step),
        right_of(from, to, 2 * step),
        right_of(to, from, 2 * step),
        right_of(from, to, 3 * step),
    ]
}

// On the right of a line, where its sector is.
fn inside_line(from: Vertex, to: Vertex, far: u32) -> [Shift; 4]
    requires { far ≤ 3100 }
    ensures { result ≡ inside_line from to far }
{
    [
        right_of(from, to, far),
        right_of(from, to, 2 * far / 3),
        right_of(from, to, 4 * far / 3),
        right_of(from, to, 5 * far / 3),
    ]
}

// How far a sector's number is from its line.
fn how_far(step: u32, size: u32) -> u32
    requires step { step ≤ 1000 }
    requires size { size ≤ 1400 }
    ensures far { result ≡ how_far step size }
    ensures bound { result ≤ 3100 }
{
    step + 3 * size / 2
}

// The vectors from a line's middle into a sector that it has on a side.
fn places_inside(map: &Map, far: u32, sector: u32, line: &Line) -> [Shift; 4]
    requires { far ≤ 3100 }
    ensures { result ≡ places_inside map.now.tables far sector line.now }
{
    let (from, to) = map.ends_of(line);
    if u32::from(sector_of(map, line.right)) == sector {
        inside_line(from, to, far)
    } else {
        inside_line(to, from, far)
    }
}

// The middle of a line.
fn line_middle(map: &Map, line: &Line) -> Spot
    ensures { result ≡ line_middle map.now.tables line.now }
{
    let (from, to) = map.ends_of(line);
    middle_of(from, to)
}

// The number of a sector, beside the longest of its lines, if it has one.
fn sector_label(map: &Map, far: u32, n: u32, longest: Option<Line>) -> Option<Label>
    requires far { far ≤ 3100 }
    requires longest { longest ≡ longest_line map.now.tables n }
    ensures { result ≡ option_map (sector_label map.now.tables far n)
        (longest_line map.now.tables n) }
{
    match longest {
        Some(line) => Some(Label {
            item: Numbered::Sector,
            n,
            place: line_middle(map, &line),
            shifts: places_inside(map, far, n, &line),
        }),
        None => None,
    }
}

// The number of a line.
fn line_label(map: &Map, step: u32, n: u32, line: &Line) -> Label
    requires { step ≤ 1000 }
    ensures { result ≡ line_label map.now.tables step n line.now }
{
    let (from, to) = map.ends_of(line);
    Label {
        item: Numbered::Line,
        n,
        place: middle_of(from, to),
        shifts: beside_line(from, to, step),
    }
}

// The number of a vertex.
fn vertex_label(step: u32, n: u32, vertex: Vertex) -> Label
    ensures { result ≡ vertex_label step n vertex }
{
    Label {
        item: Numbered::Vertex,
        n,
        place: spot_of(vertex),
        shifts: corners_round(step),
    }
}

// The number of a thing, outside of its mark.
fn thing_label(step: u32, n: u32, thing: &Thing) -> Label
    requires { step ≤ 1000 }
    ensures { result ≡ thing_label step n thing.now }
{
    Label {
        item: Numbered::Thing,
        n,
        place: spot_of(thing.place()),
        shifts: corners_round(step + 16),
    }
}

// The number of the item, unless it is a sector without lines.
fn label_of(
    map: &Map,
    longest: &[Option<Line>],
    step: u32,
    size: u32,
    item: Numbered,
    n: u32,
) -> Option<Label>
    requires step { step ≤ 1000 }
    requires size { size ≤ 1400 }
    requires longest { AreLongest map.now.tables 0 map.now.tables.lines longest.now }
    requires all { length longest.now ≡ length map.now.tables.sectors }
    requires among { n < count_of map.now.tables (numbered_kind item) }
    ensures { result ≡ label_of map.now.tables step size item n }
{
    match item {
        Numbered::Sector => {
            let far = how_far(step, size);
            sector_label(map, far, n, longest[n as usize])
        }
        Numbered::Line => match map.line(n) {
            Some(line) => Some(line_label(map, step, n, &line)),
            None => None,
        },
        Numbered::Vertex => match map.vertex(n) {
            Some(vertex) => Some(vertex_label(step, n, vertex)),
            None => None,
        },
        Numbered::Thing => match map.thing(n) {
            Some(thing) => Some(thing_label(step, n, &thing)),
            None => None,
        },
    }
}

// Whether the place is on the page, from left to right.
fn is_across_page(view: &View, place: Spot) -> bool
    ensures { result ≡ is_across_page view.now place }
{
    view.left <= place.x && i64::from(place.x) <= right_edge(view)
}

// Whether the place is on the page, from top to bottom.
fn is_down_page(view: &View, place: Spot) -> bool
    ensures { result ≡ is_down_page view.now place }
{
    view.top <= place.y && i64::from(place.y) <= lower_edge(view)
}

// Whether the page shows the place.
fn is_on_page(view: &View, place: Spot) -> bool
    ensures { result ≡ is_on_page view.now place }
{
    is_across_page(view, place) && is_down_page(view, place)
}

// How many vertices the page shows, with the one of the number.
fn with_vertex(map: &Map, view: &View, n: u32, count: u32) -> u32
    requires { count ≤ 65536 }
    ensures count { result ≡ option_map_or (shown_with view.now count)
        (slice_get map.now.tables.vertices n) count }
    ensures bound { result ≤ count + 1 }
{
    match map.vertex(n) {
        Some(vertex) => {
            if is_on_page(view, spot_of(vertex)) {
                count + 1
            } else {
                count
            }
        }
        None => count,
    }
}

// How many vertices the page shows.
fn shown_count(map: &Map, view: &View) -> u32
    ensures { result ≡ shown_count map.now.tables view.now }
{
    let mut count = 0;
    for n in 0..map.count(Kind::Vertex) {
        count = with_vertex(map, view, n, count);
    }
    count
}

// The size of text beside so many vertices.
fn size_beside(step: u32, count: u32) -> u32
    requires { step ≤ 1000 }
    ensures size { result ≡ size_beside step count }
    ensures bound { result ≤ 1400 }
{
    if count < 64 {
        7 * step / 5
    } else if count < 256 {
        step
    } else {
        step / 2
    }
}

/// The size of the numbers' text.
pub(crate) fn number_size(map: &Map, view: &View) -> u32
    requires { view.now.step ≤ 1000 }
    ensures size { result ≡ number_size map.now.tables view.now }
    ensures bound { result ≤ 1400 }
{
    size_beside(view.step, shown_count(map, view))
}

// Adds the number, if there is one beside a place that the page shows.
fn add_label(labels: &mut Vec<Label>, view: &View, label: Option<Label>) -> Result<(), PictureError>
    ensures { OnOk result (labels.new.items ≡ labels.old.items ++ on_page view.now label) }
{
    match label {
        Some(label) => {
            if is_on_page(view, label.place) {
                labels.push(label)?;
            }
            Ok(())
        }
        None => Ok(()),
    }
}

// Adds the numbers of a table.
fn add_labels(
    labels: &mut Vec<Label>,
    map: &Map,
    longest: &[Option<Line>],
    view: &View,
    size: u32,
    item: Numbered,
) -> Result<(), PictureError>
    requires step { view.now.step ≤ 1000 }
    requires size { size ≡ number_size map.now.tables view.now }
    requires bound { size ≤ 1400 }
    requires longest { AreLongest map.now.tables 0 map.now.tables.lines longest.now }
    requires all { length longest.now ≡ length map.now.tables.sectors }
    ensures { OnOk result (labels.new.items
        ≡ labels.old.items ++ labels_of map.now.tables view.now item) }
{
    for n in 0..map.count(numbered_kind(item)) {
        let label = label_of(map, longest, view.step, size, item, n);
        match add_label(labels, view, label) {
            Ok(()) => {}
            Err(error) => return Err(error),
        }
    }
    Ok(())
}

/// The numbers that are wanted on the page, those that say most first.
pub(crate) fn all_labels(
    alloc: Global,
    map: &Map,
    view: &View,
    size: u32,
) -> Result<Vec<Label>, PictureError>
    requires step { view.now.step ≤ 1000 }
    requires size { size ≡ number_size map.now.tables view.now }
    requires bound { size ≤ 1400 }
    ensures { IfOk result (λ labels. labels.items ≡ all_labels map.now.tables view.now) }
{
    let longest = all_longest(alloc, map)?;
    let mut labels = Vec::new(alloc);
    add_labels(&mut labels, map, &longest, view, size, Numbered::Sector)?;
    add_labels(&mut labels, map, &longest, view, size, Numbered::Line)?;
    add_labels(&mut labels, map, &longest, view, size, Numbered::Vertex)?;
    add_labels(&mut labels, map, &longest, view, size, Numbered::Thing)?;
    Ok(labels)
}
