//! Laws of rounding, division and trees, each the contract of a call without a body.
ghost use Rattle.tree_pieces.specs.Laws.{RoundsToNearest, RoundsNearItsSide, StepsRise, EqualStepsAreOnePoint, PartsKeepTheirPiece, EachListHasATree, NoListHasTwoTrees, TreesKeepCover, LeavesAreConvex, BranchesPart, PointsStayInTheBox, EachPieceCoversAStep, FirstListHasPieces, FirstListCoversEachSide, BoxesOnTheRight, BoxesOnTheLeft, TreesHavePieces};

/// Rounding moves a point by at most half a step in each direction, so it stays on its side of a ray
/// to within that.
pub fn points_round_to_nearest()
    ensures nearest { RoundsToNearest }
    ensures side { RoundsNearItsSide }
{}

/// Rounded points rise along their line and stay in its box, and two of them at equal steps are one
/// point.
pub fn points_rise()
    ensures steps { StepsRise }
    ensures one_point { EqualStepsAreOnePoint }
    ensures inside { PointsStayInTheBox }
{}

/// Each piece covers at least one step of its side, so no seg of it runs backwards.
pub fn pieces_cover_a_step()
    ensures { EachPieceCoversAStep }
{}

/// The first list is made of pieces, and covers each step of each side that is there once.
pub fn first_list_covers_each_side()
    ensures pieces { FirstListHasPieces }
    ensures cover { FirstListCoversEachSide }
{}

/// A piece whose rounded ends lie a step or more within a box goes whole to the side of a partition on which the whole
/// box lies.
pub fn pieces_go_with_their_box()
    ensures right { BoxesOnTheRight }
    ensures left { BoxesOnTheLeft }
{}

/// The parts of a piece lie exactly in their half-planes and keep its cover.
pub fn parts_keep_their_piece()
    ensures { PartsKeepTheirPiece }
{}

/// Each list of pieces has one tree of divisions.
pub fn lists_have_one_tree()
    ensures exists { EachListHasATree }
    ensures only { NoListHasTwoTrees }
{}

/// Over every tree of divisions each piece is a piece and the cover stays, each leaf is convex to within rounding,
/// and each branch parts the pieces below it.
pub fn trees_keep_their_list()
    ensures pieces { TreesHavePieces }
    ensures cover { TreesKeepCover }
    ensures convex { LeavesAreConvex }
    ensures parted { BranchesPart }
{}
