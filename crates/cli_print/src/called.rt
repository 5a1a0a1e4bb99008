//! The map that a request names.
ghost use Rattle.std.specs.Prelude.{◌≡◌, None, Some, MatchOption, find};
ghost use Rattle.map_tables.specs.Projects.{project_of};
ghost use Rattle.cli_print.specs.Called.{is_called};

use map_tables::{Map, Maps};

// Whether the map has the name.
fn is_called(map: &Map, name: &[u8]) -> bool
    ensures { result ≡ is_called name.now map.now.tables }
{
    let own = map.name();
    own.text() == name
}

/// The first map with the name.
pub fn map_called<'a>(maps: &'a Maps, name: &[u8]) -> Option<&'a Map>
    ensures { MatchOption result (find (is_called name.now) (project_of maps.now).maps ≡ None)
        (λ m. find (is_called name.now) (project_of maps.now).maps ≡ Some m.now.tables) }
{
    for n in 0..maps.len() {
        if let Some(map) = maps.at(n) {
            if is_called(map, name) {
                return Some(map);
            }
        }
    }
    None
}
