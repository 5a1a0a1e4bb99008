//! A piece that is put down with its ends, in a list that has room for it.
ghost use Rattle.std.specs.Prelude.{◌≡◌, ℕ, ◌++◌, ◌∷◌, [], List};
ghost use Rattle.tree_pieces.specs.declared.edge.Edge.{Edge};
ghost use Rattle.tree_pieces.specs.Pieces.{ends_of};
ghost use Rattle.tree_choice.specs.Columns.{IsEnded};
ghost use Rattle.tree_nodes.specs.Placed.{HasPieceRoom, CanTake};

use tree_choice::EndedList;
use tree_pieces::{Ends, Piece};

/// Appends a piece with its rounded ends. Nothing is allocated.
#[inline(always)]
pub(crate) fn put_ended(piece: &Piece, ends: Ends, list: &mut EndedList)
    requires { CanTake list.old }
    ensures pieces { list.new.pieces.items ≡ list.old.pieces.items ++ piece.now ∷ [] }
    ensures firsts { list.new.firsts.items ≡ list.old.firsts.items ++ ends.first ∷ [] }
    ensures lasts { list.new.lasts.items ≡ list.old.lasts.items ++ ends.last ∷ [] }
    ensures ended { (lines : List Edge) → ends ≡ ends_of lines piece.now →
        IsEnded lines list.old → IsEnded lines list.new }
    ensures room { (n : ℕ) → HasPieceRoom n list.old → HasPieceRoom n list.new }
{
    list.pieces.push_reserved(*piece);
    list.firsts.push_reserved(ends.first);
    list.lasts.push_reserved(ends.last);
}
