//! The parts of the picture, in their order.
ghost use Rattle.std.specs.Prelude.{◌≡◌};
ghost use Rattle.map_picture.specs.Picture.{part_kind, picture_parts};

use map_tables::Kind;

/// A part of the picture: an element for each item of a table.
#[derive(Clone, Copy, Debug, PartialEq, Eq)]
pub enum Part {
    Lines,
    Things,
    Vertices,
}

const PARTS: [Part; 3] = [Part::Lines, Part::Things, Part::Vertices];

/// The parts of a picture.
pub(crate) fn picture_parts() -> &'static [Part]
    ensures { result.now ≡ picture_parts }
{
    &PARTS
}

/// The table whose items a part shows.
pub(crate) fn kind_of(part: Part) -> Kind
    ensures { result ≡ part_kind part }
{
    match part {
        Part::Lines => Kind::Line,
        Part::Things => Kind::Thing,
        Part::Vertices => Kind::Vertex,
    }
}
