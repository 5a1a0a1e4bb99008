//! The header of a project file.
ghost use Rattle.std.specs.Prelude.{IfErr, IfOk};
ghost use Rattle.store_project.specs.Places.{IsAllowed};
ghost use Rattle.store_project.specs.Stands.{TellsLengths};
ghost use Rattle.store_salvage.specs.Refusals.{RefusesGeometry};

use crate::bytes::part;
use crate::error::SalvageError;
use store_project::{Geometry, lengths_in};

// The length of a header, in bytes.
const HEADER: usize = 16;

/// Reads the geometry in the file's header.
pub fn read_header(file: &[u8]) -> Result<Geometry, SalvageError>
    ensures header { IfOk result (λ g. TellsLengths g file.now) }
    ensures allowed { IfOk result (λ g. IsAllowed g.slot g.journal) }
    ensures refused { IfErr result (RefusesGeometry file.now) }
{
    if file.len() < HEADER {
        return Err(SalvageError::NotAProject);
    }
    let mut bytes = [0; HEADER];
    bytes.copy_from_slice(part(file, 0, HEADER));
    match lengths_in(bytes) {
        Some(geometry) if geometry.is_allowed() => Ok(geometry),
        Some(_) => Err(SalvageError::BadGeometry),
        None => Err(SalvageError::NotAProject),
    }
}
