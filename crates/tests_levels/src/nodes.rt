//! The trees of drawn maps: worked examples, and a row of rooms.

use crate::drawing::{draw_lines, drawn};
use lump_records::{Seg, encode_nodes, encode_segs, encode_subs, encode_vertices};
use map_tables::{Kind, Map, Maps};
use std::alloc::Global;
use std::test::Fail;
use tests_rows::{expect_rows, number, said};
use tree_nodes::{Built, TreeError, build_tree};

// The tree of the map that the lines draw.
fn built(alloc: Global, lines: &str) -> Result<Built, Fail> {
    let maps = drawn(alloc, lines)?;
    Ok(build_tree(alloc, maps.current())?)
}

#[test]
fn a_map_without_lines_has_no_tree(rt: HostRuntime) -> Result<(), Fail> {
    let maps = drawn(rt.alloc(), "vertex 0 0")?;
    let error = build_tree(rt.alloc(), maps.current()).err();
    let nothing = TreeError::NothingToBuild;
    assert_eq!(rt; (error, nothing.code()), (Some(nothing), 60));
    Ok(())
}

// The segs of a room from (0,0) to (128,128), as bytes: west, north, east, south.
const ROOM_SEGS: &str =
    "ROOM|[0, 0, 1, 0, 0, 64, 0, 0, 0, 0, 0, 0, 1, 0, 2, 0, 0, 0, 1, 0, 0, 0, 0, 0, \
    2, 0, 3, 0, 0, 192, 2, 0, 0, 0, 0, 0, 3, 0, 0, 0, 0, 128, 3, 0, 0, 0, 0, 0]";

// The segs of the tree of what the lines draw, as bytes.
fn segs_of(alloc: Global, lines: &str) -> Result<String, Fail> {
    let tree = built(alloc, lines)?;
    let bytes = encode_segs(alloc, &tree.segs)?;
    said(alloc, &bytes)
}

// The one node of the L, as bytes: the partition from (128,256) by (0,-128), the boxes in the west and in the east, and
// the two children.
const L_NODE: &str = "L|[128, 0, 0, 1, 0, 0, 128, 255, 0, 1, 0, 0, 0, 0, 128, 0, \
    128, 0, 0, 0, 128, 0, 0, 1, 0, 128, 1, 128]";

// The nodes.
fn nodes_of(alloc: Global, lines: &str) -> Result<String, Fail> {
    let tree = built(alloc, lines)?;
    let bytes = encode_nodes(alloc, &tree.nodes)?;
    said(alloc, &bytes)
}

#[test]
fn segs_and_nodes_have_their_bytes(rt: HostRuntime) -> Result<(), Fail> {
    expect_rows(rt.alloc(), ROOM_SEGS, segs_of)?;
    expect_rows(rt.alloc(), L_NODE, nodes_of)
}

// Lines; how many vertices, segs and nodes their tree has; and its added vertices and its subsectors, as bytes. The
// middle part of the line that is cut twice is the first seg, and names both added vertices in their order.
const TREES: &str = "ROOM|[4, 4, 0] [] [4, 0, 0, 0]\n\
    L|[7, 7, 1] [128, 0, 0, 0] [4, 0, 0, 0, 3, 0, 4, 0]\n\
    CUT|[7, 6, 3] [4, 0, 1, 0] [2, 0, 0, 0, 1, 0, 2, 0, 2, 0, 3, 0, 1, 0, 5, 0]\n\
    MIDDLE|[8, 5, 2] [32, 0, 0, 0, 64, 0, 0, 0] [3, 0, 0, 0, 1, 0, 3, 0, 1, 0, 4, 0]\n\
    SLIVER|[4, 2, 0] [] [2, 0, 0, 0]\n\
    TWO_ROOMS|[6, 8, 1] [] [4, 0, 0, 0, 4, 0, 4, 0]\n\
    ROOM;split 2 128 64|[5, 5, 0] [] [5, 0, 0, 0]";

// How many vertices, segs and nodes a tree has.
fn counts(tree: &Built) -> [usize; 3] {
    [tree.vertices.len(), tree.segs.len(), tree.nodes.len()]
}

// The vertices of a tree after the first ones, which are the map's, as bytes.
fn added(alloc: Global, map: &Map, tree: &Built) -> Result<Vec<u8>, Fail> {
    match tree.vertices.get(map.count(Kind::Vertex) as usize..) {
        Some(vertices) => Ok(encode_vertices(alloc, vertices)?),
        None => Err(Fail::from("fewer vertices than the map")),
    }
}

// The counts, the added vertices and the subsectors of a map's tree.
fn tree_told(alloc: Global, map: &Map) -> Result<String, Fail> {
    let tree = build_tree(alloc, map)?;
    let vertices = added(alloc, map, &tree)?;
    let subs = encode_subs(alloc, &tree.subs)?;
    let counts = counts(&tree);
    Ok(format!(in alloc; "{counts:?} {vertices:?} {subs:?}")?)
}

// The same of the map that the lines draw.
fn tree_of(alloc: Global, lines: &str) -> Result<String, Fail> {
    let maps = drawn(alloc, lines)?;
    tree_told(alloc, maps.current())
}

#[test]
fn trees_are_as_specified(rt: HostRuntime) -> Result<(), Fail> {
    expect_rows(rt.alloc(), TREES, tree_of)
}

// A range of the segs of a tree, the line, the side and the offset of exactly one of these segs, and the lines that are
// drawn.
const OFFSETS: &str =
    "3 4 5 0 128 L|1\n0 6 0 0 0 CUT|1\n0 6 0 0 4 CUT|1\n0 6 0 1 0 CUT|1\n0 6 0 1 6 CUT|1\n\
    0 4 2 0 0 TWO_ROOMS|1\n4 8 2 1 0 TWO_ROOMS|1";

// How many of the segs in a range have this line, side and offset.
fn count_of(segs: &[Seg], range: [u32; 2], want: [u32; 3]) -> u32 {
    let mut count = 0u32;
    for (n, seg) in segs.iter().enumerate() {
        let is_within = (range[0] as usize) <= n && n < range[1] as usize;
        let found = [
            u32::from(seg.line),
            u32::from(seg.side),
            u32::from(seg.offset),
        ];
        if is_within && found == want {
            count = count.saturating_add(1);
        }
    }
    count
}

// The same of a row.
fn counted(alloc: Global, row: &str) -> Result<String, Fail> {
    let mut left = row;
    let range = [number(&mut left), number(&mut left)];
    let want = [number(&mut left), number(&mut left), number(&mut left)];
    let tree = built(alloc, left)?;
    said(alloc, &count_of(&tree.segs, range, want))
}

#[test]
fn segs_begin_where_their_side_is_cut(rt: HostRuntime) -> Result<(), Fail> {
    expect_rows(rt.alloc(), OFFSETS, counted)
}

// Draws a row of rooms, each sixteen map units wide and sixteen from the next.
fn draw_rooms(alloc: Global, maps: &mut Maps, count: u16) -> Result<(), Fail> {
    for i in 0..count {
        let left = 32 * u32::from(i);
        let right = left + 16;
        let line = format!(in alloc;
            "room {left} 0 {right} 16 0 128 FLOOR4_8 CEIL3_5 STARTAN3 160"
        )?;
        draw_lines(maps, line.as_str())?;
    }
    Ok(())
}

#[test]
fn a_row_of_rooms_has_a_subsector_each(rt: HostRuntime) -> Result<(), Fail> {
    let mut maps = Maps::new(rt.alloc());
    draw_rooms(rt.alloc(), &mut maps, 257)?;
    let tree = build_tree(rt.alloc(), maps.current())?;
    assert_eq!(rt; (counts(&tree), tree.subs.len()), ([1028, 1028, 256], 257));
    Ok(())
}
