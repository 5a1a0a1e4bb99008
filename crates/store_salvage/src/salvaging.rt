//! Salvages what can be read of a project file, damaged or not.
ghost use Rattle.std.specs.Prelude.{ℕ, IfErr, IfNone, IfOk, IfSome};
ghost use Rattle.map_tables.specs.Projects.{ProjectMaps, project_of};
ghost use Rattle.map_tables.specs.ProjectBody.{IsProjectOf};
ghost use Rattle.store_project.specs.Damage.{IsProjectDamagedAt};
ghost use Rattle.store_project.specs.Stands.{Stands};
ghost use Rattle.store_salvage.specs.Refusals.{RefusesLiveBody, RefusesSalvage};
ghost use Rattle.store_salvage.specs.Salvages.{IsSalvaged, GivesAll, StandsForMaps};

use crate::error::SalvageError;
use crate::header::read_header;
use crate::replaying::read_journal;
use crate::slots::live_slot;
use map_tables::{MapError, Maps};
use std::alloc::Global;

/// What was salvaged.
#[derive(Drop)]
pub struct Salvaged {
    /// The maps after the kept records.
    pub maps: Maps,
    /// How many records of the journal are kept: the first ones, as long as each is accepted.
    pub records: u32,
    /// The offset at which opening would find the file damaged; `None` if it isn't damaged.
    pub damage: Option<u64>,
    /// How many whole records follow the kept ones.
    pub behind: u32,
}

// Reads the maps in a live body, whose slot is at offset `place`.
fn maps_of(alloc: Global, body: &[u8], place: u64) -> Result<Maps, SalvageError>
    ensures maps { IfOk result (λ maps. IsProjectOf body.now (project_of maps)) }
    ensures refused { IfErr result (RefusesLiveBody body.now place) }
{
    match Maps::decode_body(alloc, body) {
        Ok(maps) => Ok(maps),
        Err(MapError::OutOfMemory) => Err(SalvageError::OutOfMemory),
        Err(_) => Err(SalvageError::Damaged { place }),
    }
}

/// Returns the maps of the live slot of a project file after the longest prefix of its journal's records that they
/// accept in turn, and the offset of the damage.
///
/// Nothing is salvaged if no body of a project can be read: it then fails with `NotAProject`, `BadGeometry`,
/// `Blank` or `Damaged` at a slot, as opening does.
pub fn salvage(alloc: Global, file: &[u8]) -> Result<Salvaged, SalvageError>
    ensures salvaged { IfOk result
        (λ s. IsSalvaged (project_of s.maps) s.records s.behind file.now) }
    // The damage is where opening finds it. If there is none, the file stands for these maps.
    ensures damaged { IfOk result
        (λ s. IfSome s.damage (λ place. IsProjectDamagedAt place file.now)) }
    ensures sound { IfOk result
        (λ s. IfNone s.damage (StandsForMaps (project_of s.maps) file.now)) }
    // A file that stands for a project gives that project, unless memory runs out.
    ensures whole { (cap : ℕ) → (generation : ℕ) → (map : ProjectMaps)
        → Stands cap map generation file.now → GivesAll result map }
    ensures refused { IfErr result (RefusesSalvage file.now) }
{
    let geometry = match read_header(file) {
        Ok(geometry) => geometry,
        Err(error) => return Err(error),
    };
    let places = geometry.places();
    let (slot, live) = match live_slot(file, places.a, places.b) {
        Ok(live) => live,
        Err(error) => return Err(error),
    };
    let parts = places.parts(slot);
    let mut maps = match maps_of(alloc, live.body, parts.live.base) {
        Ok(maps) => maps,
        Err(error) => return Err(error),
    };
    let read = match read_journal(&mut maps, file, parts.journal, geometry.cap()) {
        Ok(read) => read,
        Err(error) => return Err(error),
    };
    let damage = read.damage(file.len() as u64, parts.other_journal.base);
    Ok(Salvaged {
        maps,
        records: read.kept,
        damage,
        behind: read.behind,
    })
}
