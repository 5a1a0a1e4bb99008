//! What a picture shows over the map: the tree that is built of it, and marks for its findings and warnings.
ghost use Rattle.std.specs.Prelude.{◌≡◌, [], IfErr, IfOk, map, false, true};
ghost use Rattle.wad_build.specs.Sound.{of_tree};
ghost use Rattle.cli_pictures.specs.LaidOver.{IsLaidOver, IsTreeShown, NotLaidOver, layers_of, marks_shown};
ghost use Rattle.cli_pictures.specs.Marking.{said_at};

use crate::marking::marks_of;
use cli_refusals::Refusal;
use lump_records::Bounds;
use map_picture::PictureOptions;
use map_svg::{Mark, Overlay};
use map_tables::Map;
use run_edit::WriteError;
use std::alloc::Global;
use tree_nodes::{Built, TreeError, build_tree};
use wad_build::{BuildError, Unbuilt};

/// What a picture shows: the map with these options, the tree that is built of the map, and marks for what `lint`
/// writes.
#[derive(Clone, Copy)]
pub struct Layers {
    pub options: PictureOptions,
    pub nodes: bool,
    pub lint: bool,
}

/// These layers: numbers, the heights of floors and a grid, the part of the map that is shown, the tree, and marks.
pub fn layers_of(
    numbers: bool,
    heights: bool,
    grid: bool,
    crop: Option<Bounds>,
    nodes: bool,
    lint: bool,
) -> Layers
    ensures { result ≡ layers_of numbers heights grid crop nodes lint }
{
    Layers {
        options: PictureOptions {
            numbers,
            heights,
            grid,
            crop,
        },
        nodes,
        lint,
    }
}

// The refusal of the tree, as that of a build.
fn tree_refusal(error: TreeError) -> BuildError
    ensures { result ≡ of_tree error }
{
    match error {
        TreeError::OutOfMemory => BuildError::OutOfMemory,
        TreeError::NothingToBuild => BuildError::NothingToBuild,
        TreeError::TooManyVertices => BuildError::TooManyVertices,
        TreeError::TooManySegs => BuildError::TooManySegs,
        TreeError::TooManySubsectors => BuildError::TooManySubsectors,
        TreeError::TooDeep => BuildError::TooDeep,
    }
}

/// The marks of the map, if they are wanted.
pub(crate) fn marks_shown(alloc: Global, drawn: &Map, lint: bool) -> Result<Vec<Mark>, Refusal>
    ensures shown { IfOk result (λ marks.
        map said_at marks.items ≡ marks_shown lint drawn.now.tables) }
    ensures refused { IfErr result (NotLaidOver false lint drawn.now.tables) }
{
    if !lint {
        return Ok(Vec::new(alloc));
    }
    match marks_of(alloc, drawn) {
        Ok(marks) => Ok(marks),
        Err(error) => Err(Refusal::Lines(error)),
    }
}

// The tree that is built of the map, and these marks.
fn with_tree(alloc: Global, drawn: &Map, marks: Vec<Mark>) -> Result<Overlay, Refusal>
    ensures laid { IfOk result (λ o. IsTreeShown true drawn.now.tables o × (o.marks ≡ marks)) }
    ensures refused { IfErr result (NotLaidOver true false drawn.now.tables) }
{
    match build_tree(alloc, drawn) {
        Ok(
            Built {
                vertices,
                segs,
                subs,
                nodes,
            },
        ) => Ok(Overlay {
            vertices,
            segs,
            subs,
            nodes,
            marks,
        }),
        Err(error) => {
            let unbuilt = Unbuilt {
                error: tree_refusal(error),
                map: None,
            };
            Err(Refusal::Build(WriteError::Build(unbuilt)))
        }
    }
}

/// These marks alone.
pub(crate) fn without_tree(alloc: Global, marks: Vec<Mark>) -> Overlay
    ensures laid { (result.subs.items ≡ []) × (result.nodes.items ≡ []) }
    ensures marks { result.marks ≡ marks }
{
    Overlay {
        vertices: Vec::new(alloc),
        segs: Vec::new(alloc),
        subs: Vec::new(alloc),
        nodes: Vec::new(alloc),
        marks,
    }
}

/// What is laid over the picture of a map.
pub(crate) fn laid_over(alloc: Global, drawn: &Map, layers: Layers) -> Result<Overlay, Refusal>
    ensures laid { IfOk result (IsLaidOver layers drawn.now.tables) }
    ensures refused { IfErr result (NotLaidOver layers.nodes layers.lint drawn.now.tables) }
{
    let marks = match marks_shown(alloc, drawn, layers.lint) {
        Ok(marks) => marks,
        Err(refusal) => return Err(refusal),
    };
    if layers.nodes {
        with_tree(alloc, drawn, marks)
    } else {
        Ok(without_tree(alloc, marks))
    }
}
