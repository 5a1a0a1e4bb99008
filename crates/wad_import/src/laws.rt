//! A law about changes: the contract of a call with an empty body.
ghost use Rattle.wad_import.specs.Unchanged.{UntoldLevelsStay};

/// No change of a level is reported exactly if the map has the very lists of the level.
pub fn keep_untold_lists()
    ensures { UntoldLevelsStay }
{}
