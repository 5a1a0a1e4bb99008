//! The first bytes of a project file.
ghost use Rattle.std.specs.Prelude.{ℕ, ◌≡◌, ◌<◌, ◌^◌, IfOk, IfErr, IfSome, IfNone};
ghost use Rattle.store_disk.specs.Files.{HasAt};
ghost use Rattle.store_disk.specs.Stops.{Each};
ghost use Rattle.store_disk.specs.Stops.{CountsFaults};
ghost use Rattle.store_disk.specs.Reading.{OnlyReads};
ghost use Rattle.store_project.specs.Places.{header_bytes, IsAllowed};
ghost use Rattle.store_project.specs.Opening.{RefusesHeader};

use crate::ProjectError;
use crate::geometry::Geometry;
use byteorder::{ByteOrder, LittleEndian};
use store_disk::Disk;

// The magic number, the version, and the two lengths.
pub fn header(geometry: Geometry) -> [u8; 16]
    ensures { result ≡ header_bytes geometry.slot geometry.journal }
{
    let mut bytes = [76, 86, 80, 74, 1, 0, 0, 0, 0, 0, 0, 0, 0, 0, 0, 0];
    LittleEndian::write_u32(&mut bytes[8..], geometry.slot);
    LittleEndian::write_u32(&mut bytes[12..], geometry.journal);
    bytes
}

// The lengths at their offsets in a header. It calls std, whose clauses say that the bytes of a number are read as that
// number.
fn lengths_of(bytes: [u8; 16]) -> Geometry
    ensures small { (result.slot < 2 ^ 32) × (result.journal < 2 ^ 32) }
    ensures only { (slot : ℕ) → (journal : ℕ) → slot < 2 ^ 32 → journal < 2 ^ 32
        → bytes ≡ header_bytes slot journal → (result.slot ≡ slot) × (result.journal ≡ journal) }
{
    Geometry {
        slot: u32::from_le_bytes([bytes[8], bytes[9], bytes[10], bytes[11]]),
        journal: u32::from_le_bytes([bytes[12], bytes[13], bytes[14], bytes[15]]),
    }
}

/// The lengths in a header; `None` if the bytes are not a header.
pub fn lengths_in(bytes: [u8; 16]) -> Option<Geometry>
    ensures some { IfSome result (λ g. bytes ≡ header_bytes g.slot g.journal) }
    ensures small { IfSome result (λ g. (g.slot < 2 ^ 32) × (g.journal < 2 ^ 32)) }
    ensures none { IfNone result ((slot : ℕ) → (journal : ℕ) → slot < 2 ^ 32 → journal < 2 ^ 32
        → ¬ (bytes ≡ header_bytes slot journal)) }
{
    let geometry = lengths_of(bytes);
    if bytes == header(geometry) {
        Some(geometry)
    } else {
        None
    }
}

// Reads the geometry from the file's header.
pub fn read_header<D: Disk>(disk: &mut D) -> Result<Geometry, ProjectError>
    ensures header { IfOk result
        (λ g. Each (D.reads disk.old) (HasAt 0 (header_bytes g.slot g.journal))) }
    ensures allowed { IfOk result (λ g. IsAllowed g.slot g.journal) }
    ensures refused { IfErr result (RefusesHeader (D.reads disk.old)) }
    ensures reads { OnlyReads D.Disk disk.old disk.new }
    ensures count { CountsFaults ProjectError.Device (D.failures disk.old)
        (D.failures disk.new) result }
{
    if disk.len()? < 16 {
        return Err(ProjectError::NotAProject);
    }
    let mut bytes = [0; 16];
    disk.read(0, &mut bytes)?;
    match lengths_in(bytes) {
        Some(geometry) if geometry.is_allowed() => Ok(geometry),
        Some(_) => Err(ProjectError::BadGeometry),
        None => Err(ProjectError::NotAProject),
    }
}
