//! The walls of a line, and what else shows a texture or a flat.
/// The upper, the lower or the middle wall of a side.
#[derive(Clone, Copy, Debug, PartialEq, Eq)]
pub enum Part {
    Upper,
    Lower,
    Middle,
}

/// A wall of a line.
#[derive(Clone, Copy, Debug, PartialEq, Eq)]
pub struct Wall {
    pub is_left: bool,
    pub part: Part,
}

/// What shows a texture or a flat: a sector's floor or ceiling, or a wall of a line.
#[derive(Clone, Copy, Debug, PartialEq, Eq)]
pub enum Surface {
    Floor,
    Ceiling,
    OfLine(Wall),
}

/// The walls of a line, in the order in which they are looked at.
pub(crate) const WALLS: [Wall; 6] = [
    Wall {
        is_left: false,
        part: Part::Upper,
    },
    Wall {
        is_left: false,
        part: Part::Lower,
    },
    Wall {
        is_left: false,
        part: Part::Middle,
    },
    Wall {
        is_left: true,
        part: Part::Upper,
    },
    Wall {
        is_left: true,
        part: Part::Lower,
    },
    Wall {
        is_left: true,
        part: Part::Middle,
    },
];
