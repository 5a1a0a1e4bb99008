//! Of which kind the items are whose numbers the words of a command are, word by word, its first word too.
use map_tables::Kind;

const VERTEX: Option<Kind> = Some(Kind::Vertex);

const SECTOR: Option<Kind> = Some(Kind::Sector);

const SIDE: Option<Kind> = Some(Kind::Side);

const LINE: Option<Kind> = Some(Kind::Line);

const THING: Option<Kind> = Some(Kind::Thing);

/// A first word, and the number of a vertex.
pub const VERTEX_NUMBER: &[Option<Kind>] = &[None, VERTEX];

/// A first word, and the number of a sector.
pub const SECTOR_NUMBER: &[Option<Kind>] = &[None, SECTOR];

/// A first word, and the number of a line.
pub const LINE_NUMBER: &[Option<Kind>] = &[None, LINE];

/// A first word, and the number of a thing.
pub const THING_NUMBER: &[Option<Kind>] = &[None, THING];

/// side XO YO UP LOW MID SECTOR
pub const SIDE_FIELDS: &[Option<Kind>] = &[None, None, None, None, None, None, SECTOR];

/// set-side SIDE XO YO UP LOW MID SECTOR
pub const SET_SIDE_FIELDS: &[Option<Kind>] = &[None, SIDE, None, None, None, None, None, SECTOR];

/// line V1 V2 FLAGS SPECIAL TAG RIGHT LEFT
pub const LINE_FIELDS: &[Option<Kind>] = &[None, VERTEX, VERTEX, None, None, None, SIDE, SIDE];

/// set-line LINE V1 V2 FLAGS SPECIAL TAG RIGHT LEFT
pub const SET_LINE_FIELDS: &[Option<Kind>] = &[
    None, LINE, VERTEX, VERTEX, None, None, None, SIDE, SIDE,
];

/// No number of an item.
pub const NO_NUMBERS: &[Option<Kind>] = &[];
