//! The records of a level's lumps.
ghost use Rattle.std.specs.Prelude.{◌≡◌, ◌==◌, position};

/// A name of a lump, a texture or a flat: eight bytes, a shorter name padded with NUL.
#[derive(Clone, Copy, Debug, PartialEq, Eq)]
pub struct Name8 {
    pub bytes: [u8; 8],
}

impl Name8 {
    ghost use Rattle.std.specs.Prelude.{◌≡◌, ◌≢◌, ◌≤◌, All, length};
    ghost use Rattle.lump_records.specs.Names.{name_of, name_text};

    /// The name of a text of at most eight bytes.
    pub fn from_text(text: &[u8]) -> Name8
        requires { length text.now ≤ 8 }
        ensures name { result ≡ name_of text.now }
        ensures kept { All (λ byte. byte ≢ 0) text.now → name_text result ≡ text.now }
    {
        let mut bytes = [0; 8];
        bytes[..text.len()].copy_from_slice(text);
        Name8 { bytes }
    }

    /// The bytes before the first NUL.
    pub fn text(&self) -> &[u8]
        ensures text { result.now ≡ name_text self.now }
        ensures length { length result.now ≤ 8 }
    {
        match first_nul(&self.bytes) {
            Some(end) => &self.bytes[..end],
            None => &self.bytes,
        }
    }
}

// The index of the first NUL.
fn first_nul(bytes: &[u8]) -> Option<usize>
    ensures { result ≡ position (λ byte. byte == 0) bytes.now }
{
    bytes.iter().position(|byte| *byte == 0)
}

/// A thing of THINGS: where a player, a monster or an item stands. The angle is in degrees.
#[derive(Clone, Copy, Debug, PartialEq, Eq)]
pub struct Thing {
    pub x: i16,
    pub y: i16,
    pub angle: i16,
    pub kind: i16,
    pub options: i16,
}

impl Thing {
    ghost use Rattle.std.specs.Prelude.{◌≡◌};
    ghost use Rattle.lump_records.specs.Things.{thing_place};

    /// Where the thing stands.
    pub fn place(&self) -> Vertex
        ensures { result ≡ thing_place self.now }
    {
        Vertex {
            x: self.x,
            y: self.y,
        }
    }
}

/// A linedef of LINEDEFS, from vertex `v1` to vertex `v2`. The right side is on the right of that
/// direction; a `left` of `NO_SIDE` means that there is no left side.
#[derive(Clone, Copy, Debug, PartialEq, Eq)]
pub struct Line {
    pub v1: u16,
    pub v2: u16,
    pub flags: u16,
    pub special: u16,
    pub tag: u16,
    pub right: u16,
    pub left: u16,
}

/// `left` of a line without a left side.
pub const NO_SIDE: u16 = 0xffff;

impl Line {
    ghost use Rattle.std.specs.Prelude.{◌≡◌};
    ghost use Rattle.lump_records.specs.Sides.{has_left, is_two_sided};

    /// Whether the line has a left side.
    pub fn has_left(&self) -> bool
        ensures { result ≡ has_left self.now }
    {
        self.left != NO_SIDE
    }

    /// Whether the line's two-sided flag (value 4) is set.
    pub fn is_two_sided(&self) -> bool
        ensures { result ≡ is_two_sided self.now }
    {
        self.flags / 4 % 2 == 1
    }
}

/// A sidedef of SIDEDEFS: a wall's textures, their offsets in map units, and the sector that it faces.
#[derive(Clone, Copy, Debug, PartialEq, Eq)]
pub struct Side {
    pub x_offset: i16,
    pub y_offset: i16,
    pub upper: Name8,
    pub lower: Name8,
    pub middle: Name8,
    pub sector: u16,
}

/// A vertex of VERTEXES, in map units.
#[derive(Clone, Copy, Debug, PartialEq, Eq, Hash)]
pub struct Vertex {
    pub x: i16,
    pub y: i16,
}

/// A seg of SEGS: the part of a line from vertex `first` to vertex `second`. Side 0 runs in the line's direction,
/// side 1 against it; the angle is in units of 1/65,536 turn, and the offset is in map units.
#[derive(Clone, Copy, Debug, PartialEq, Eq)]
pub struct Seg {
    pub first: u16,
    pub second: u16,
    pub angle: u16,
    pub line: u16,
    pub side: u16,
    pub offset: u16,
}

/// A subsector of SSECTORS: `count` segs from seg `first` on.
#[derive(Clone, Copy, Debug, PartialEq, Eq)]
pub struct Sub {
    pub count: u16,
    pub first: u16,
}

/// The bounding box of one child of a node.
#[derive(Clone, Copy, Debug, PartialEq, Eq)]
pub struct Bounds {
    pub top: i16,
    pub bottom: i16,
    pub left: i16,
    pub right: i16,
}

/// A node of NODES: a partition from `(x, y)` along `(dx, dy)`, and its two children. In a child's
/// number the bit 0x8000 means that the rest is a subsector's number.
#[derive(Clone, Copy, Debug, PartialEq, Eq)]
pub struct Node {
    pub x: i16,
    pub y: i16,
    pub dx: i16,
    pub dy: i16,
    pub right_box: Bounds,
    pub left_box: Bounds,
    pub right: u16,
    pub left: u16,
}

/// A sector of SECTORS: the heights of floor and ceiling in map units, and their flats.
#[derive(Clone, Copy, Debug, PartialEq, Eq)]
pub struct Sector {
    pub floor: i16,
    pub ceiling: i16,
    pub floor_name: Name8,
    pub ceiling_name: Name8,
    pub light: i16,
    pub special: i16,
    pub tag: i16,
}
