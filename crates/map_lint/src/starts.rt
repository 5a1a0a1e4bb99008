//! How many starts of each kind a map has.
ghost use Rattle.std.specs.Prelude.{◌≡◌, IfOk};
ghost use Rattle.map_lint.specs.Starts.{is_of_type, things_of_type, starts_twice};
ghost use Rattle.map_lint.specs.Tallies.{AreStarts};

use crate::error::LintError;
use lump_records::Thing;
use map_tables::{Kind, Map};
use std::alloc::Global;

// Whether the thing has the type.
fn is_of_type(thing: &Thing, kind: u32) -> bool
    ensures { result ≡ is_of_type kind thing.now }
{
    i64::from(thing.kind) == i64::from(kind)
}

/// How many things have the type.
pub(crate) fn things_of_type(map: &Map, kind: u32) -> u32
    ensures { result ≡ things_of_type map.now.tables kind }
{
    let mut count = 0;
    for n in 0..map.count(Kind::Thing) {
        let thing = map.thing(n).unwrap();
        if is_of_type(&thing, kind) {
            count += 1;
        }
    }
    count
}

/// How many things have each type below 5. Types 1 to 4 are the players' starts.
pub(crate) fn starts_of(alloc: Global, map: &Map) -> Result<Vec<u32>, LintError>
    ensures { IfOk result (λ starts. AreStarts map.now.tables 5 starts.items) }
{
    let mut starts = Vec::new(alloc);
    for kind in 0..5 {
        starts.push(things_of_type(map, kind))?;
    }
    Ok(starts)
}

/// Whether the thing is the start of a player who has another one.
pub(crate) fn starts_twice(map: &Map, starts: &[u32], thing: &Thing) -> bool
    requires { AreStarts map.now.tables 5 starts.now }
    ensures { result ≡ starts_twice map.now.tables thing.now }
{
    1 <= thing.kind && thing.kind <= 4 && 1 < starts[usize::from(thing.kind.unsigned_abs())]
}
