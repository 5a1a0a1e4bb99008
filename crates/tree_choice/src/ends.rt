//! Pieces with their rounded ends beside them.
ghost use Rattle.std.specs.Prelude.{◌≡◌, All, IfOk};
ghost use Rattle.tree_pieces.specs.Pieces.{IsPiece};
ghost use Rattle.tree_choice.specs.Columns.{IsEnded};

use lump_records::Vertex;
use std::alloc::{AllocError, Global};
use tree_pieces::{Lines, Piece};

/// A list of pieces with their rounded ends: the first ends in one column and the last ones in another, so that a
/// machine can test several pieces at once. A piece that a partition leaves whole keeps its ends.
#[derive(Drop)]
pub struct EndedList {
    pub pieces: Vec<Piece>,
    pub firsts: Vec<Vertex>,
    pub lasts: Vec<Vertex>,
}

/// Pieces with their rounded ends, in columns beside them.
#[derive(Clone, Copy)]
pub struct EndedPieces<'a> {
    pub pieces: &'a [Piece],
    pub firsts: &'a [Vertex],
    pub lasts: &'a [Vertex],
}

impl EndedList {
    /// These pieces, each with its rounded ends.
    pub fn of(alloc: Global, lines: &Lines, pieces: Vec<Piece>) -> Result<EndedList, AllocError>
        requires { All (IsPiece lines.now) pieces.items }
        ensures pieces { IfOk result (λ list. list.pieces.items ≡ pieces.items) }
        ensures ends { IfOk result (IsEnded lines.now) }
    {
        let mut firsts = Vec::with_capacity(alloc, pieces.len())?;
        let mut lasts = Vec::with_capacity(alloc, pieces.len())?;
        for piece in &pieces {
            let ends = lines.ends_of(piece);
            firsts.push(ends.first)?;
            lasts.push(ends.last)?;
        }
        Ok(EndedList {
            pieces,
            firsts,
            lasts,
        })
    }

    /// The list as slices.
    pub fn as_slices(&self) -> EndedPieces<'_>
        ensures pieces { result.pieces.now ≡ self.now.pieces.items }
        ensures firsts { result.firsts.now ≡ self.now.firsts.items }
        ensures lasts { result.lasts.now ≡ self.now.lasts.items }
    {
        EndedPieces {
            pieces: &self.pieces,
            firsts: &self.firsts,
            lasts: &self.lasts,
        }
    }
}
