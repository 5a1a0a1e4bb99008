//! The groups of things that the picture distinguishes.
ghost use Rattle.std.specs.Prelude.{◌≡◌};
ghost use Rattle.map_picture.specs.Groups.{class_of, group_of, is_item, is_monster, is_player, shape_of};

use lump_records::is_among;

/// The group of a thing, by its type.
#[derive(Clone, Copy, Debug, PartialEq, Eq)]
pub enum Group {
    /// Where one of the four players starts.
    Player,
    /// Where a player starts in a deathmatch.
    Deathmatch,
    Monster,
    /// A weapon, ammunition, a key, or anything else that a player picks up.
    Item,
    Other,
}

// The types of the starts of the four players: the first and the last number of each run.
const PLAYERS: [(i32, i32); 1] = [(1, 4)];

// The types of monsters.
#[rattlefmt::skip]
const MONSTERS: [(i32, i32); 9] = [
    (7, 7), (9, 9), (16, 16), (58, 58), (64, 69), (71, 72), (84, 84), (88, 88), (3001, 3006),
];

// The types of weapons, ammunition, keys and whatever else is picked up.
#[rattlefmt::skip]
const ITEMS: [(i32, i32); 11] = [
    (5, 6), (8, 8), (13, 13), (17, 17), (38, 40), (82, 83), (2001, 2008), (2010, 2015), (2018, 2019), (2022, 2026),
    (2045, 2049),
];

// Whether the type is that of a start of one of the four players.
#[tactic(auto, unfolding(crate::specs::Groups::is_player))]
fn is_player(kind: i16) -> bool
    ensures { result ≡ is_player kind }
{
    is_among(&PLAYERS, i32::from(kind))
}

// Whether the type is that of a monster.
#[tactic(auto, unfolding(crate::specs::Groups::is_monster))]
fn is_monster(kind: i16) -> bool
    ensures { result ≡ is_monster kind }
{
    is_among(&MONSTERS, i32::from(kind))
}

// Whether the type is that of an item.
#[tactic(auto, unfolding(crate::specs::Groups::is_item))]
fn is_item(kind: i16) -> bool
    ensures { result ≡ is_item kind }
{
    is_among(&ITEMS, i32::from(kind))
}

/// The group of a type.
pub(crate) fn group_of(kind: i16) -> Group
    ensures { result ≡ group_of kind }
{
    if is_player(kind) {
        Group::Player
    } else if kind == 11 {
        Group::Deathmatch
    } else if is_monster(kind) {
        Group::Monster
    } else if is_item(kind) {
        Group::Item
    } else {
        Group::Other
    }
}

/// The class of the group's marks.
pub(crate) fn class_of(group: Group) -> &'static str
    ensures { result.now ≡ class_of group }
{
    match group {
        Group::Player => "player",
        Group::Deathmatch => "deathmatch",
        Group::Monster => "monster",
        Group::Item => "item",
        Group::Other => "other",
    }
}

/// The path of the group's marks, round the thing's place, for a thing that faces right.
pub(crate) fn shape_of(group: Group) -> &'static str
    ensures { result.now ≡ shape_of group }
{
    match group {
        Group::Player => "M16 0L-12 12L-5 0L-12 -12Z",
        Group::Deathmatch => "M16 0L-12 12L-12 -12Z",
        Group::Monster => "M20 0L8 12L-12 12L-12 -12L8 -12Z",
        Group::Item => "M8 0L0 8L-8 0L0 -8ZM8 0L14 0",
        Group::Other => "M8 -8L8 8L-8 8L-8 -8ZM8 0L14 0",
    }
}
