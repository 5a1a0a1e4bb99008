//! A law about the levels that are dumped: the contract of a call that does nothing.
ghost use Rattle.cli_dump.specs.DrawnLevels.{DumpedLevelsDraw};

use map_dump::{draw_maps_in_turn, map_dumps_are_cut_into_lines};

/// The lines that `tell_level_dumps` writes, drawn over the empty project, give the map of each level that was dumped,
/// if no two have the same name and a project has room for them.
pub fn draw_dumped_levels()
    ensures { DumpedLevelsDraw }
{
    draw_maps_in_turn();
    map_dumps_are_cut_into_lines();
}
