//! A law about the hindrances of a level: the contract of a function whose body is empty.
ghost use Rattle.wad_levels.specs.Lengths.{OthersHinderTheRest};

/// What hinders a level without its lines of no length is what else hinders the level, with the numbers that lines
/// have there.
pub fn others_hinder_the_rest()
    ensures { OthersHinderTheRest }
{}
