//! Trees and blockmaps of lines that no map of ours may have: two vertices at one place, vertices that no line uses,
//! two lines between the same places, more vertices or lines than there are numbers.

use lump_records::{Line, NO_SIDE, Name8, Seg, Side, Vertex};
use std::alloc::Global;
use std::test::Fail;
use tests_rows::{expect_rows, number, part, said};
use tree_blocks::{blockmap_over, ends_over};
use tree_nodes::{Built, TreeError, build_lines};
use tree_pieces::edges_in;

// The only side of each level in this file.
const SIDE: Side = Side {
    x_offset: 0,
    y_offset: 0,
    upper: Name8 { bytes: [0; 8] },
    lower: Name8 { bytes: [0; 8] },
    middle: Name8 { bytes: [0; 8] },
    sector: 0,
};

// The next word of a row as a coordinate.
fn coordinate(left: &mut &str) -> i16 {
    part(left, ' ').parse::<i16>().unwrap_or(i16::MIN)
}

// The next word of a row as the number of a vertex or a side.
fn small(left: &mut &str) -> u16 {
    part(left, ' ').parse::<u16>().unwrap_or(u16::MAX)
}

// The vertices at the places of a text, which `,` divides.
fn vertices_of(alloc: Global, places: &str) -> Result<Vec<Vertex>, Fail> {
    let mut vertices = Vec::new(alloc);
    for place in places.split(',') {
        let mut left = place;
        let x = coordinate(&mut left);
        let y = coordinate(&mut left);
        vertices.push(Vertex { x, y })?;
    }
    Ok(vertices)
}

fn line_between(v1: u16, v2: u16, right: u16) -> Line {
    Line {
        v1,
        v2,
        flags: 1,
        special: 0,
        tag: 0,
        right,
        left: NO_SIDE,
    }
}

// The lines of a text, which `,` divides: the vertices and the right side of each.
fn lines_of(alloc: Global, ends: &str) -> Result<Vec<Line>, Fail> {
    let mut lines = Vec::new(alloc);
    for pair in ends.split(',') {
        let mut left = pair;
        let v1 = small(&mut left);
        let v2 = small(&mut left);
        lines.push(line_between(v1, v2, small(&mut left)))?;
    }
    Ok(lines)
}

// Places of vertices, and the ends and the right side of each line; the vertices of each seg of their tree, and how
// many vertices it has. In turn: a room whose last line ends at a second vertex at the place of the first one; vertices
// that no line uses, between those that lines use; two lines between the same places, each with its own vertices; and
// an L that is cut at (128,0), where there are two vertices that no line uses.
const LEVELS: &str =
    "0 0,0 128,128 128,128 0,0 0;0 1 0,1 2 0,2 3 0,3 4 0|[[0, 1], [1, 2], [2, 3], [3, 0]] 5\n\
    0 0,500 500,0 128,128 128,600 600,128 0;0 2 0,2 3 0,3 5 0,5 0 0|[[0, 2], [2, 3], [3, 5], [5, 0]] 6\n\
    0 0,0 128,128 128,128 0,0 0,0 128;0 1 0,1 2 0,2 3 0,3 0 0,4 5 0|[[0, 1], [1, 2], [2, 3], [3, 0], [0, 1]] 6\n\
    0 0,0 256,128 256,128 128,256 128,256 0,300 300,128 0,128 0;0 1 0,1 2 0,2 3 0,3 4 0,4 5 0,5 0 0|\
    [[0, 1], [1, 2], [2, 3], [7, 0], [3, 4], [4, 5], [5, 7]] 9";

fn ends_of(alloc: Global, segs: &[Seg]) -> Result<Vec<[u16; 2]>, Fail> {
    let mut ends = Vec::new(alloc);
    for seg in segs {
        ends.push([seg.first, seg.second])?;
    }
    Ok(ends)
}

// The tree of the lines; its list of vertices begins with `drawn`.
fn tree_of(
    alloc: Global,
    vertices: &[Vertex],
    lines: &[Line],
    drawn: &[Vertex],
) -> Result<Result<Built, TreeError>, Fail> {
    match edges_in(alloc, vertices, &[SIDE], lines) {
        Ok(edges) => Ok(build_lines(alloc, &edges, drawn)),
        Err(_) => Err(Fail::from("a line that can't be built")),
    }
}

// The vertices of a tree's segs, and how many vertices it has.
fn tree_told(alloc: Global, tree: &Built) -> Result<String, Fail> {
    let ends = ends_of(alloc, &tree.segs)?;
    let count = tree.vertices.len();
    Ok(format!(in alloc; "{ends:?} {count}")?)
}

// The same of the tree of a row's lines.
fn level_told(alloc: Global, row: &str) -> Result<String, Fail> {
    let (places, ends) = row.split_once(';').unwrap_or((row, ""));
    let vertices = vertices_of(alloc, places)?;
    let lines = lines_of(alloc, ends)?;
    match tree_of(alloc, &vertices, &lines, &vertices)? {
        Ok(tree) => tree_told(alloc, &tree),
        Err(error) => said(alloc, &error),
    }
}

#[test]
fn segs_name_the_first_vertex_at_a_place(rt: HostRuntime) -> Result<(), Fail> {
    expect_rows(rt.alloc(), LEVELS, level_told)
}

// How many vertices a level has, and how many lines, which are equal; and why it can't be built.
const MANY: &str =
    "40000 0|Some(NothingToBuild)\n40000 1|Some(TooManyVertices)\n2 32768|Some(TooManySegs)";

fn refusal_of(alloc: Global, row: &str) -> Result<String, Fail> {
    let mut left = row;
    let vertices = [Vertex { x: 0, y: 0 }, Vertex { x: 0, y: 128 }];
    let drawn = Vec::from_elem(alloc, Vertex { x: 0, y: 0 }, number(&mut left) as usize)?;
    let lines = Vec::from_elem(alloc, line_between(0, 1, 0), number(&mut left) as usize)?;
    let built = tree_of(alloc, &vertices, &lines, &drawn)?;
    said(alloc, &built.err())
}

#[test]
fn more_than_there_are_numbers_are_refused(rt: HostRuntime) -> Result<(), Fail> {
    expect_rows(rt.alloc(), MANY, refusal_of)
}

// The places of vertices; the ends and the right side of each line; and the first line that can't be built, and its
// fault.
const FAULTS: &str = "0 0,1 1;0 1 0|None\n\
    0 0,1 1;0 2 0|Some(Faulty(0, NoVertex))\n\
    0 0,1 1;2 0 0|Some(Faulty(0, NoVertex))\n\
    0 0,0 0;0 1 1|Some(Faulty(0, NoRightSide))\n\
    0 0,1 1;0 1 65535|Some(Faulty(0, NoRightSide))\n\
    0 0,1 1;1 1 0|Some(Faulty(0, NoLength))\n\
    0 0,0 0;0 1 0|Some(Faulty(0, NoLength))\n\
    0 0,16383 -16384;0 1 0|None\n\
    0 0,16384 0;0 1 0|Some(Faulty(0, EndOutside))\n\
    0 -16385,0 0;0 1 0|Some(Faulty(0, EndOutside))\n\
    -16384 0,16383 0;0 1 0|None\n\
    -16384 0,16383 1;0 1 0|Some(Faulty(0, TooLong))\n\
    0 0,1 1;0 1 0,1 1 0,2 0 0|Some(Faulty(1, NoLength))";

// Why the lines of a row can't be built.
fn fault_of(alloc: Global, row: &str) -> Result<String, Fail> {
    let (places, ends) = row.split_once(';').unwrap_or((row, ""));
    let vertices = vertices_of(alloc, places)?;
    let lines = lines_of(alloc, ends)?;
    let error = edges_in(alloc, &vertices, &[SIDE], &lines).err();
    said(alloc, &error)
}

#[test]
fn the_first_line_that_cannot_be_built_is_told(rt: HostRuntime) -> Result<(), Fail> {
    expect_rows(rt.alloc(), FAULTS, fault_of)
}

// The BLOCKMAP of the room from (0,0) to (128,128). Its north and east lines touch all four blocks.
const BLOCKS: &str = "0 0,0 128,128 128,128 0,0 0;0 1 0,1 2 0,2 3 0,3 4 0|\
    [0, 0, 0, 0, 2, 0, 2, 0, 8, 0, 14, 0, 19, 0, 24, 0, \
    0, 0, 0, 0, 1, 0, 2, 0, 3, 0, 255, 255, \
    0, 0, 1, 0, 2, 0, 3, 0, 255, 255, \
    0, 0, 0, 0, 1, 0, 2, 0, 255, 255, \
    0, 0, 1, 0, 2, 0, 255, 255]";

// The blockmap of a row's lines.
fn blocks_of(alloc: Global, row: &str) -> Result<String, Fail> {
    let (places, lines) = row.split_once(';').unwrap_or((row, ""));
    let vertices = vertices_of(alloc, places)?;
    let ends = ends_over(alloc, &vertices, &lines_of(alloc, lines)?)?;
    if ends.len() > 32_767 {
        return Err(Fail::from("too many lines"));
    }
    said(alloc, &blockmap_over(alloc, &ends)?)
}

#[test]
fn blocks_list_lines_whose_vertices_share_places(rt: HostRuntime) -> Result<(), Fail> {
    expect_rows(rt.alloc(), BLOCKS, blocks_of)
}
