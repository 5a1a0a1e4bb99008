//! The first list of pieces of a map.
ghost use Rattle.std.specs.Prelude.{◌≡◌, ◌≤◌, length, All, IfOk, IsOkUnless};
ghost use Rattle.tree_pieces.specs.Pieces.{IsPiece};
ghost use Rattle.tree_pieces.specs.Edges.{edges_of};
ghost use Rattle.tree_pieces.specs.First.{whole, first_pieces};

use crate::edge::Facing;
use crate::error::SegsError;
use crate::frac::Frac;
use crate::lines::Lines;
use crate::map_lines::{edges_of, lines_are_drawn};
use crate::piece::Piece;
use map_tables::Map;
use std::alloc::{AllocError, Global};

// The whole of a side of a line.
fn whole(line: u16, side: Facing) -> Piece
    ensures { result ≡ whole line side }
{
    Piece {
        line,
        side,
        from: Frac { n: 0, d: 1 },
        to: Frac { n: 1, d: 1 },
    }
}

/// The first list of pieces: for each line by number its right side's, then its left side's.
pub fn pieces_in(alloc: Global, lines: &Lines) -> Result<Vec<Piece>, AllocError>
    requires { length lines.now ≤ 32767 }
    ensures list { IfOk result (λ pieces. pieces.items ≡ first_pieces lines.now) }
    ensures each { IfOk result (λ pieces. All (IsPiece lines.now) pieces.items) }
{
    let edges = lines.as_slice();
    let mut pieces = Vec::with_capacity(alloc, 2 * edges.len())?;
    for (line, edge) in edges.iter().enumerate() {
        pieces.push(whole(line as u16, Facing::Along))?;
        if edge.has_left {
            pieces.push(whole(line as u16, Facing::Against))?;
        }
    }
    Ok(pieces)
}

/// The first list of a map's pieces: for each line by number its right side's piece, then its left side's if there is
/// one. It is refused only for lack of memory.
pub fn pieces_of(alloc: Global, map: &Map) -> Result<Vec<Piece>, SegsError>
    ensures pieces { IfOk result (λ pieces. pieces.items ≡ first_pieces (edges_of map.now.tables)) }
    ensures each { All (IsPiece (edges_of map.now.tables))
        (first_pieces (edges_of map.now.tables)) }
    ensures memory { IsOkUnless result SegsError.OutOfMemory }
{
    lines_are_drawn(map);
    let lines = edges_of(alloc, map)?;
    let pieces = pieces_in(alloc, &lines)?;
    Ok(pieces)
}
