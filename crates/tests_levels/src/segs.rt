//! Angles, points and offsets; pieces that are cut; numbered places.

use crate::drawing::drawn;
use crate::expect::same;
use lump_records::Vertex;
use map_tables::Map;
use std::alloc::Global;
use std::process::Abort;
use std::test::Fail;
use tests_rows::{expect_rows, number, said};
use tree_pieces::{
    Facing, Frac, Piece, Points, SegsError, angle16, divide, edges_of, offset, pieces_of, point,
    side_of,
};

// Vectors and their angles. Those of the longest diagonals are exact; close to an axis the last bit decides.
const ANGLES: &str =
    "1 0|Some(0)\n1 1|Some(8192)\n0 1|Some(16384)\n128 64|Some(4836)\n-1 0|Some(32768)\n\
    0 -1|Some(49152)\n32767 32767|Some(8192)\n-32767 32767|Some(24576)\n-32767 -32767|Some(40960)\n\
    32767 -32767|Some(57344)\n32767 1|Some(0)\n32767 -1|Some(65535)";

// The angle of a vector; `None` for the zero vector, and if a component is -32,768.
fn angle(x: i16, y: i16) -> Option<u16> {
    if x == i16::MIN || y == i16::MIN {
        return None;
    }
    if x == 0 && y == 0 {
        return None;
    }
    Some(angle16(i32::from(x), i32::from(y)))
}

// The same of a row.
fn angle_told(alloc: Global, row: &str) -> Result<String, Fail> {
    let (x, y) = row.split_once(' ').unwrap_or((row, ""));
    let x = x.parse::<i16>().unwrap_or(0);
    let y = y.parse::<i16>().unwrap_or(0);
    said(alloc, &angle(x, y))
}

#[test]
fn angles(rt: HostRuntime) -> Result<(), Fail> {
    expect_rows(rt.alloc(), ANGLES, angle_told)
}

const ORIGIN: Vertex = Vertex { x: 0, y: 0 };

const FAR: Vertex = Vertex { x: 10, y: 3 };

const UP: Vertex = Vertex { x: -1, y: 1 };

#[test]
fn points(rt: HostRuntime) {
    let third = point(ORIGIN, FAR, Frac { n: 1, d: 3 });
    let cut = point(ORIGIN, FAR, Frac { n: 20, d: 50 });
    let half = point(ORIGIN, UP, Frac { n: 1, d: 2 });
    let want = [
        Vertex { x: 3, y: 1 },
        Vertex { x: 4, y: 1 },
        Vertex { x: 0, y: 1 },
    ];
    same(&rt, &[third, cut, half], &want);
    let from = point(FAR, UP, Frac { n: 0, d: 1 });
    let to = point(FAR, UP, Frac { n: 1, d: 1 });
    same(&rt, &[from, to], &[FAR, UP]);
}

#[test]
fn offsets(rt: HostRuntime) {
    let short = offset(ORIGIN, Vertex { x: 3, y: 4 });
    let long = offset(ORIGIN, Vertex { x: 128, y: 64 });
    let west = Vertex { x: -16384, y: 7 };
    let east = Vertex { x: 16383, y: 7 };
    assert_eq!(rt; [short, long, offset(west, east)], [5, 143, 32767]);
}

// A piece's line and side; and where it begins and ends on its line, as two fractions: n and d, n and d.
type Fields = (u16, Facing, [i32; 4]);

// Which piece of a map's sides is cut, and by which, and the lines that draw the map; how the piece lies; and its parts
// on the right and on the left. Of the collinear lines the direction decides.
const CUTS: &str =
    "0 2 CUT|(Across, [Some((0, Along, [0, 1, 20, 50])), Some((0, Along, [20, 50, 1, 1]))])\n\
    1 2 CUT|(Across, [Some((0, Against, [0, 1, 20, 50])), Some((0, Against, [20, 50, 1, 1]))])\n\
    0 1 SLIVER|(Across, [Some((0, Along, [3, 100, 1, 1])), None])\n\
    5 2 L|(Across, [Some((5, Along, [16384, 32768, 1, 1])), Some((5, Along, [0, 1, 16384, 32768]))])\n\
    0 0 COLLINEAR|(Right, [Some((0, Along, [0, 1, 1, 1])), None])\n\
    1 0 COLLINEAR|(Left, [None, Some((0, Against, [0, 1, 1, 1]))])\n\
    2 0 COLLINEAR|(Right, [Some((1, Along, [0, 1, 1, 1])), None])\n\
    3 0 COLLINEAR|(Left, [None, Some((2, Along, [0, 1, 1, 1]))])\n\
    0 1 COLLINEAR|(Left, [None, Some((0, Along, [0, 1, 1, 1]))])\n\
    3 1 COLLINEAR|(Right, [Some((2, Along, [0, 1, 1, 1])), None])\n\
    2 3 COLLINEAR|(Left, [None, Some((1, Along, [0, 1, 1, 1]))])";

fn fields(piece: Option<Piece>) -> Option<Fields> {
    let piece = piece?;
    let fractions = [piece.from.n, piece.from.d, piece.to.n, piece.to.d];
    Some((piece.line, piece.side, fractions))
}

// How the piece `at` of a map lies to the piece `by`, and its parts.
fn cut(alloc: Global, map: &Map, at: usize, by: usize) -> Result<String, Fail> {
    let pieces = pieces_of(alloc, map)?;
    if at >= pieces.len() || by >= pieces.len() {
        return Err(Fail::from("no such piece"));
    }
    let (partition, piece) = (pieces[by], pieces[at]);
    let place = side_of(map, &partition, &piece);
    let parts = divide(map, &partition, &piece);
    said(alloc, &(place, [fields(parts.right), fields(parts.left)]))
}

// The same of a row.
fn cut_told(alloc: Global, row: &str) -> Result<String, Fail> {
    let mut lines = row;
    let at = number(&mut lines) as usize;
    let by = number(&mut lines) as usize;
    let maps = drawn(alloc, lines)?;
    cut(alloc, maps.current(), at, by)
}

#[test]
fn pieces_are_cut(rt: HostRuntime) -> Result<(), Fail> {
    expect_rows(rt.alloc(), CUTS, cut_told)
}

// The n-th of 32,768 different places.
fn nth_place(n: u32) -> Vertex {
    Vertex {
        x: (n % 256) as i16,
        y: (n / 256 % 128) as i16,
    }
}

// Numbers the places from `from` up to `to`, and returns how many got their own index as number.
fn numbered(points: &mut Points, from: u32, to: u32) -> u32 {
    let mut count = 0_u32;
    for n in from..to {
        if points.number(nth_place(n)) == Ok(n) {
            count = count.saturating_add(1);
        }
    }
    count
}

// How many of the first `to` places are found by their numbers.
fn standing(points: &Points, to: u32) -> u32 {
    let mut count = 0_u32;
    for n in 0..to {
        if points.at(n) == Some(nth_place(n)) {
            count = count.saturating_add(1);
        }
    }
    count
}

// The map's vertices keep their numbers, new places get the next ones, and there are 32,767 numbers.
fn expect_numbers(rt: &impl Abort, points: &mut Points) {
    same(rt, &points.len(), &2);
    same(rt, &numbered(points, 0, 32_767), &32_767);
    let next = points.number(nth_place(32_767));
    same(rt, &next, &Err(SegsError::TooManyVertices));
    same(rt, &points.len(), &32_767);
    same(rt, &standing(points, 32_767), &32_767);
    same(rt, &numbered(points, 0, 32_767), &32_767);
    same(rt, &points.at(32_767), &None);
}

#[test]
fn numbers_each_place_once(rt: HostRuntime) -> Result<(), Fail> {
    let maps = drawn(rt.alloc(), "vertex 0 0;vertex 1 0")?;
    let mut points = Points::new(rt.alloc(), maps.current())?;
    expect_numbers(&rt, &mut points);
    assert_eq!(rt; SegsError::TooManyVertices.code(), 61);
    Ok(())
}
