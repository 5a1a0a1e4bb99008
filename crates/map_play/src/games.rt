//! Which things stand in one game.
ghost use Rattle.std.specs.Prelude.{◌≡◌, ◌<◌};
ghost use Rattle.map_play.specs.Games.{is_any_start, is_on_skill, share_skill, are_other_starts, share_game};

use lump_records::{Thing, is_among};

// Where players begin.
const STARTS: [(i32, i32); 2] = [(1, 4), (11, 11)];

// Where they begin in a deathmatch.
const DEATHMATCH_STARTS: [(i32, i32); 1] = [(11, 11)];

/// Whether the thing is a player's start.
pub(crate) fn is_any_start(thing: &Thing) -> bool
    ensures { result ≡ is_any_start thing.now }
{
    is_among(&STARTS, i32::from(thing.kind))
}

// Whether the thing stands in games of the skill with the flag.
fn is_on_skill(flag: u16, thing: &Thing) -> bool
    requires { 0 < flag }
    ensures { result ≡ is_on_skill flag thing.now }
{
    is_any_start(thing) || thing.options.unsigned_abs() / flag % 2 == 1
}

/// Whether there is a skill in whose games both things stand.
pub(crate) fn share_skill(t: &Thing, u: &Thing) -> bool
    ensures { result ≡ share_skill t.now u.now }
{
    is_on_skill(1, t) && is_on_skill(1, u)
        || is_on_skill(2, t) && is_on_skill(2, u)
        || is_on_skill(4, t) && is_on_skill(4, u)
}

// Whether the first thing is a start of deathmatches, and the other one a start of any kind.
fn are_other_starts(t: &Thing, u: &Thing) -> bool
    ensures { result ≡ are_other_starts t.now u.now }
{
    is_among(&DEATHMATCH_STARTS, i32::from(t.kind)) && is_any_start(u)
}

/// Whether there is a game in which both things stand.
pub(crate) fn share_game(t: &Thing, u: &Thing) -> bool
    ensures { result ≡ share_game t.now u.now }
{
    share_skill(t, u) && !are_other_starts(t, u) && !are_other_starts(u, t)
}
