//! The crate's call: lists all warnings of a map, in a fixed order.
ghost use Rattle.std.specs.Prelude.{◌≡◌, ◌++◌, IfOk, OnOk, IsOkUnless};
ghost use Rattle.map_lint.specs.Facts.{AreFacts};
ghost use Rattle.map_lint.specs.Rules.{breaches, warnings};

use crate::error::LintError;
use crate::facts::{Facts, facts_of};
use crate::rules::{breaks, reach};
use crate::warning::{Rule, Warning};
use crate::whereabouts::whereabouts_of;
use map_tables::Map;
use std::alloc::Global;

// The rules, in the order of their warnings.
const RULES: [Rule; 22] = [
    Rule::PlayerStart,
    Rule::OneStart,
    Rule::DeathmatchStarts,
    Rule::CeilingAboveFloor,
    Rule::TagGiven,
    Rule::TagOfSector,
    Rule::TagOfLine,
    Rule::LineSpecialKnown,
    Rule::SectorSpecialKnown,
    Rule::ThingKnown,
    Rule::TextureShows,
    Rule::SectorInside,
    Rule::LinesApart,
    Rule::ThingInside,
    Rule::DoorBacked,
    Rule::DonutBacked,
    Rule::ScrollsFit,
    Rule::TeleportLands,
    Rule::LevelEnds,
    Rule::KeyGiven,
    Rule::NeighboursFit,
    Rule::ThingFree,
];

// Adds a warning for each number that breaks the rule.
fn list_breaches(
    map: &Map,
    facts: &Facts,
    rule: Rule,
    found: &mut Vec<Warning>,
) -> Result<(), LintError>
    requires { AreFacts map.now.tables facts.now }
    ensures { OnOk result (found.new.items ≡ found.old.items ++ breaches map.now.tables rule) }
{
    for n in 0..reach(map, rule) {
        if breaks(map, facts, rule, n) {
            let whereabouts = whereabouts_of(map, rule, n);
            found.push(Warning {
                rule,
                number: n,
                whereabouts,
                shown: None,
            })?;
        }
    }
    Ok(())
}

/// Lists what a level maker wants to know before playing the level, and `map_checks` doesn't report: a warning for
/// each item of the map that breaks a rule, by rule in the order of `Rule`, then by number. Its time grows linearly
/// with the map's size and, for crossing lines, with the pairs of lines that share a band of 128 rows; for players and
/// monsters with the lines and the solid things in the bands near them; for donuts and rising floors with the sectors
/// that have their tags times the lines. Fails only if memory runs out.
pub fn lint(alloc: Global, map: &Map) -> Result<Vec<Warning>, LintError>
    ensures found { IfOk result (λ found. found.items ≡ warnings map.now.tables) }
    ensures memory { IsOkUnless result LintError.OutOfMemory }
{
    let facts = facts_of(alloc, map)?;
    let mut found = Vec::new(alloc);
    for rule in &RULES {
        list_breaches(map, &facts, *rule, &mut found)?;
    }
    Ok(found)
}
