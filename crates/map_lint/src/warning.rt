//! A warning, and its line of text.
use crate::shown::Shown;
use crate::whereabouts::Whereabouts;
use std::fmt;

/// What a level should keep. The number of a warning is that of the item that breaks the rule, except for two rules
/// on starts and one on exits, which say what it is.
#[derive(Clone, Copy, Debug, PartialEq, Eq)]
pub enum Rule {
    /// The first player has a start. The number is 1.
    PlayerStart,
    /// No player has two starts.
    OneStart,
    /// If there are deathmatch starts, there are at least four. The number is their count.
    DeathmatchStarts,
    /// No sector's ceiling lies below its floor.
    CeilingAboveFloor,
    /// A line whose special works by its tag has a tag.
    TagGiven,
    /// A line whose special works by its tag has the tag of some sector.
    TagOfSector,
    /// A sector's tag is some line's tag. Tags 0, 666 and 667 need no line.
    TagOfLine,
    /// A line's special is one of Doom's.
    LineSpecialKnown,
    /// A sector's special is one of Doom's.
    SectorSpecialKnown,
    /// A thing's type is one of Doom's.
    ThingKnown,
    /// A two-sided line within one sector has no upper or lower texture, since none would show.
    TextureShows,
    /// A sector lies on the right of its edges, and has an area. A sector without a border is exempt: a border is a
    /// line that has it on exactly one side.
    SectorInside,
    /// A line and another one share no point except an end of both.
    LinesApart,
    /// A thing lies in a sector.
    ThingInside,
    /// A door that opens by hand has a left side, which is what opens.
    DoorBacked,
    /// A line has the left side, or the two sides, that a donut needs there.
    DonutBacked,
    /// At most 64 lines scroll. The number is that of the 65th.
    ScrollsFit,
    /// A teleporter leads somewhere: if sectors have its tag, a landing belongs to one of them.
    TeleportLands,
    /// Something ends the level. The number is 0, of what does.
    LevelEnds,
    /// A door that a key opens has a key of its colour.
    KeyGiven,
    /// A sector that rises to the next higher floor has at most 22 lines across which a higher one lies.
    NeighboursFit,
    /// A player's start or a monster stands free: no line that stops it reaches into its square, and no other solid
    /// thing.
    ThingFree,
    /// The flats of a sector are among those of a WAD.
    FlatKnown,
    /// The textures of a line's sides are among those of a WAD.
    TextureKnown,
    /// A texture of fewer than 128 rows has all rows that a line's walls show of it.
    TextureReaches,
    /// The patches of a middle texture on a two-sided line share no column.
    PatchesApart,
}

/// A broken rule, the number of the item that breaks it, where to look for the item, and, of a rule on flats and
/// textures, the first surface of the item that breaks it.
#[derive(Clone, Copy, Debug, PartialEq, Eq)]
pub struct Warning {
    pub rule: Rule,
    pub number: u32,
    pub whereabouts: Whereabouts,
    pub shown: Option<Shown>,
}

impl Rule {
    ghost use Rattle.std.specs.Prelude.{◌≡◌};
    ghost use Rattle.map_lint.specs.Texts.{word_of};

    /// The word for what is wrong where the rule is broken.
    pub fn word(self) -> &'static str
        ensures { result.now ≡ word_of self }
    {
        match self {
            Rule::PlayerStart => "no-start",
            Rule::OneStart => "start-twice",
            Rule::DeathmatchStarts => "few-deathmatch-starts",
            Rule::CeilingAboveFloor => "ceiling-below-floor",
            Rule::TagGiven => "tag-missing",
            Rule::TagOfSector => "tag-of-no-sector",
            Rule::TagOfLine => "tag-of-no-line",
            Rule::LineSpecialKnown => "line-special-unknown",
            Rule::SectorSpecialKnown => "sector-special-unknown",
            Rule::ThingKnown => "thing-type-unknown",
            Rule::TextureShows => "texture-hidden",
            Rule::SectorInside => "sector-inside-out",
            Rule::LinesApart => "line-crossed",
            Rule::ThingInside => "thing-outside",
            Rule::DoorBacked => "door-without-back",
            Rule::DonutBacked => "donut-without-back",
            Rule::ScrollsFit => "too-many-scrolls",
            Rule::TeleportLands => "teleport-nowhere",
            Rule::LevelEnds => "no-exit",
            Rule::KeyGiven => "key-missing",
            Rule::NeighboursFit => "too-many-neighbours",
            Rule::ThingFree => "thing-stuck",
            Rule::FlatKnown => "flat-unknown",
            Rule::TextureKnown => "texture-unknown",
            Rule::TextureReaches => "texture-short",
            Rule::PatchesApart => "texture-patched",
        }
    }
}

impl fmt::Display for Whereabouts {
    ghost use Rattle.std.specs.Prelude.{Some};
    ghost use Rattle.map_lint.specs.Texts.{whereabouts_text};

    ghost output = { λ w. Some (whereabouts_text w) };

    // With a space in front, so that a warning without a place ends behind its number.
    fn fmt<W: fmt::Write>(&self, f: &mut fmt::Formatter<W>) -> fmt::Result {
        match *self {
            Whereabouts::Unplaced => Ok(()),
            Whereabouts::At(v) => write!(f, " at ({},{})", v.x, v.y),
            Whereabouts::Between(v, w) => write!(f, " at ({},{}) ({},{})", v.x, v.y, w.x, w.y),
        }
    }
}

impl fmt::Display for Warning {
    ghost use Rattle.std.specs.Prelude.{Some};
    ghost use Rattle.map_lint.specs.Texts.{warning_text};

    ghost output = { λ w. Some (warning_text w) };

    fn fmt<W: fmt::Write>(&self, f: &mut fmt::Formatter<W>) -> fmt::Result {
        let word = self.rule.word();
        let number = self.number;
        let whereabouts = self.whereabouts;
        match self.shown {
            None => write!(f, "{word} {number}{whereabouts}"),
            Some(shown) => write!(f, "{word} {number}{whereabouts} {shown}"),
        }
    }
}
