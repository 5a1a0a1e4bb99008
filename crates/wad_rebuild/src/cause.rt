//! Why a level is left as it was.
ghost use Rattle.std.specs.Prelude.{◌≡◌};
ghost use Rattle.wad_rebuild.specs.Texts.{blockmap_text, tree_text};

use std::fmt;
use thiserror::Error;
use tree_blocks::BlockmapError;
use tree_nodes::TreeError;
use wad_levels::Hindrance;

/// Why a level is left as it was: what prevents a build of it, more than 32,767 sectors, or what the build of its tree
/// or its blockmap was refused for. `OutOfMemory` is no cause of a level: it ends the whole rebuild.
#[derive(Clone, Copy, Debug, Error)]
pub enum Cause {
    Hindered(Hindrance),
    TooManySectors,
    NoTree(TreeError),
    NoBlockmap(BlockmapError),
    OutOfMemory,
}

// Why a level has no tree, in words.
fn tree_text(error: TreeError) -> &'static str
    ensures { result.now ≡ tree_text error }
{
    match error {
        TreeError::OutOfMemory => "out of memory",
        TreeError::NothingToBuild => "the map has no line",
        TreeError::TooManyVertices => "the tree needs more than 32767 vertices",
        TreeError::TooManySegs => "the tree has more than 32767 segs",
        TreeError::TooManySubsectors => "the tree has more than 32767 subsectors",
        TreeError::TooDeep => "a path of the tree has more than 1024 nodes",
    }
}

// Why a level has no blockmap, in words.
fn blockmap_text(error: BlockmapError) -> &'static str
    ensures { result.now ≡ blockmap_text error }
{
    match error {
        BlockmapError::NothingToBuild => "there is no line to build from",
        BlockmapError::BlockmapTooLarge => "a list of the blockmap would begin beyond word 32767",
        BlockmapError::OutOfMemory => "out of memory",
    }
}

impl fmt::Display for Cause {
    ghost use Rattle.std.specs.Prelude.{Some};
    ghost use Rattle.wad_rebuild.specs.Texts.{cause_text};

    ghost output = { λ c. Some (cause_text c) };

    fn fmt<W: fmt::Write>(&self, f: &mut fmt::Formatter<W>) -> fmt::Result {
        match self {
            Cause::Hindered(hindrance) => write!(f, "{hindrance}"),
            Cause::TooManySectors => f.write_str("the level has more than 32767 sectors"),
            Cause::NoTree(error) => f.write_str(tree_text(*error)),
            Cause::NoBlockmap(error) => f.write_str(blockmap_text(*error)),
            Cause::OutOfMemory => f.write_str("out of memory"),
        }
    }
}
