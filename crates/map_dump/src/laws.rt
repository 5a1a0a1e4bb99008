//! Laws of dumps. Each is the contract of a function whose body is empty.
ghost use Rattle.map_dump.specs.Laws.{DumpsAreCutIntoLines, DumpsDrawAgain, DumpsTellProjectsApart};
ghost use Rattle.map_dump.specs.MapDumps.{MapDumpsAreCutIntoLines, MapDumpsDraw, MapDumpsDrawAll};

/// The lines of a project's dump lead from the empty project to it.
pub fn draw_again()
    ensures { DumpsDrawAgain }
{}

/// Two projects with the same dump are equal.
pub fn tell_projects_apart()
    ensures { DumpsTellProjectsApart }
{}

/// The text of a project's dump, cut at LF, is the lines of the dump.
pub fn are_cut_into_lines()
    ensures { DumpsAreCutIntoLines }
{}

/// The lines of a map's dump draw it over every project that has room for it, and leave its other maps as they were.
pub fn draw_maps_over()
    ensures { MapDumpsDraw }
{}

/// The dumps of maps with different names, one after another, draw these maps from the empty project.
pub fn draw_maps_in_turn()
    ensures { MapDumpsDrawAll }
{}

/// The text of maps' dumps, cut at LF, is the lines of the dumps.
pub fn map_dumps_are_cut_into_lines()
    ensures { MapDumpsAreCutIntoLines }
{}
