//! Edits of the current map that can't be refused, because `ready` has already accepted them.
ghost use Rattle.std.specs.Prelude.{◌≡◌, ◌≤◌, None, IfSome, slice_get};
ghost use Rattle.map_tables.specs.Edits.{after_edit, edit_need, edit_number, with_name};
ghost use Rattle.map_tables.specs.EditFaults.{edit_faults};
ghost use Rattle.map_tables.specs.Outcomes.{Covers, Spends, least};
ghost use Rattle.map_tables.specs.ProjectEdits.{name_faults};
ghost use Rattle.map_tables.specs.Projects.{project_of};
ghost use Rattle.map_tables.specs.Ranges.{IsEdit, IsLine, IsNamed, is_marker};
ghost use Rattle.map_tables.specs.Tables.{count_of, table_limit};
ghost use Rattle.map_tables.specs.WellFormed.{HasEnds, HasSides};

use lump_records::{Line, Name8};
use map_tables::{Edit, Item, Kind, Maps};

/// How many items the current map has of the kind.
pub fn count(maps: &Maps, kind: Kind) -> u32
    ensures number { result ≡ count_of maps.now.tables kind }
    ensures limit { result ≤ table_limit kind }
{
    maps.current().count(kind)
}

/// The line of the current map with this number.
pub fn line_of(maps: &Maps, n: u32) -> Option<Line>
    ensures item { result ≡ slice_get maps.now.tables.lines n }
    ensures range { IfSome result IsLine }
    ensures ends { IfSome result (HasEnds maps.now.tables.vertices) }
    ensures sides { IfSome result (HasSides maps.now.tables.sides) }
{
    maps.current().line(n)
}

/// Makes an edit that the map accepts and has memory for, and returns its number.
pub fn put(maps: &mut Maps, edit: Edit) -> u32
    requires range { IsEdit edit }
    requires accepted { least (edit_faults maps.old.tables edit) ≡ None }
    requires covered { Covers maps.old.spare (edit_need edit) }
    ensures tables { maps.new.tables ≡ after_edit maps.old.tables edit }
    ensures number { result ≡ edit_number maps.old.tables edit }
    ensures spare { Spends (edit_need edit) maps.old.spare maps.new.spare }
    ensures others { maps.new.others ≡ maps.old.others }
{
    maps.edit(edit).unwrap()
}

/// Gives the current map a name that no other map has.
pub fn put_name(maps: &mut Maps, name: Name8)
    requires range { IsNamed is_marker name }
    requires accepted { least (name_faults (project_of maps.old) name) ≡ None }
    ensures tables { maps.new.tables ≡ with_name maps.old.tables name }
    ensures others { maps.new.others ≡ maps.old.others }
{
    maps.set_name(name).unwrap();
}
