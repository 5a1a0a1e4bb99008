//! Laws about maps and bodies. Each is the contract of a function whose body is empty.
ghost use Rattle.std.specs.Prelude.{ℕ};
ghost use Rattle.lump_records.specs.declared.records.Line.{Line};
ghost use Rattle.lump_records.specs.declared.records.Side.{Side};
ghost use Rattle.lump_records.specs.declared.records.Vertex.{Vertex};
ghost use Rattle.map_tables.specs.Tables.{Tables};
ghost use Rattle.map_tables.specs.Laws.{FaultsRise, BodiesTellProjects, OneMapKeepsItsLength};

/// The causes for which an edit of a map is refused are listed by rising code, so the first one that holds has the
/// least code.
pub fn list_faults_by_rising_code()
    ensures { (m : Tables) (n : ℕ) (v : Vertex) (s : Side) (l : Line) → FaultsRise m n v s l }
{}

/// At most one well-formed project has the bytes of a body, in either version.
pub fn tell_projects_apart()
    ensures { BodiesTellProjects }
{}

/// The body of a project of one map is as long as the body of that map.
pub fn keep_the_length_of_one_map()
    ensures { OneMapKeepsItsLength }
{}
