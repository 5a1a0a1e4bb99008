//! A list of pieces with their rounded ends, and an order of them by their places on the map.
ghost use Rattle.std.specs.Prelude.{◌≡◌, List, All, IfOk};
ghost use Rattle.tree_pieces.specs.declared.edge.Edge.{Edge};
ghost use Rattle.tree_pieces.specs.Pieces.{IsPiece};
ghost use Rattle.tree_choice.specs.Columns.{IsEnded};
ghost use Rattle.tree_nodes.specs.Placed.{IsPlacedList};

use std::alloc::{AllocError, Global};
use tree_choice::{EndedList, Floor};
use tree_pieces::{Lines, Piece};

/// A list of pieces with their rounded ends beside them. A long list may also have the numbers of its pieces in an
/// order by places. A list that is most of the one above has what is known of its pieces' costs; the others have no
/// floors. Each stands in a box of its own, so that a list that waits or is kept moves as one word.
#[derive(Drop)]
pub(crate) struct PlacedPieces {
    pub ended: EndedList,
    pub order: Option<Vec<u32>>,
    pub floors: Vec<Floor>,
}

impl PlacedPieces {
    /// These pieces, each with its rounded ends, without an order by places, and with nothing known of them.
    pub(crate) fn of(
        alloc: Global,
        lines: &Lines,
        pieces: Vec<Piece>,
    ) -> Result<Box<PlacedPieces>, AllocError>
        requires { All (IsPiece lines.now) pieces.items }
        ensures pieces { IfOk result (λ list. list.value.ended.pieces.items ≡ pieces.items) }
        ensures listed { IfOk result (λ list. IsPlacedList lines.now list.value) }
    {
        let ended = EndedList::of(alloc, lines, pieces)?;
        PlacedPieces::alone(alloc, ended)
    }

    /// A list without an order by places, and with nothing known of its pieces.
    fn alone(alloc: Global, ended: EndedList) -> Result<Box<PlacedPieces>, AllocError>
        ensures pieces { IfOk result (λ list. list.value.ended.pieces.items ≡ ended.pieces.items) }
        ensures listed { IfOk result (λ list. (lines : List Edge) →
            All (IsPiece lines) ended.pieces.items → IsEnded lines ended →
            IsPlacedList lines list.value) }
    {
        PlacedPieces::with_order(alloc, ended, None, Vec::new(alloc))
    }

    /// A list with this order, and with what is known of its pieces.
    pub(crate) fn with_order(
        alloc: Global,
        ended: EndedList,
        order: Option<Vec<u32>>,
        floors: Vec<Floor>,
    ) -> Result<Box<PlacedPieces>, AllocError>
        ensures { IfOk result (λ list. list.value ≡ record {
          ended = ended;
          order = order;
          floors = floors;
        }) }
    {
        let list = Box::new(
            alloc,
            PlacedPieces {
                ended,
                order,
                floors,
            },
        )?;
        Ok(list)
    }
}
