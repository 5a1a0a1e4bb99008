//! Reads the file of a project, or makes a new one.
ghost use Rattle.std.specs.Prelude.{◌≡◌, ◌≤◌, ◌<◌, ◌⊎◌, ◌+◌, ◌^◌, ℕ, List, [], ◌∷◌, ◌++◌, false, true, Ok, None, length, IfOk, IfErr, IsErrOf, OnErr, OnOk};
ghost use Rattle.store_disk.specs.Moments.{LeavesOnly};
ghost use Rattle.store_disk.specs.Stops.{Each};
ghost use Rattle.store_journal.specs.Records.{records_bytes, IsJournal};
ghost use Rattle.store_journal.specs.Damage.{IsJournalDamagedAt};
ghost use Rattle.store_journal.specs.Refusals.{IfGateDamaged, RefusesToOpenJournal};
ghost use Rattle.store_journal.specs.State.{journal_at, opened};
ghost use Rattle.store_slots.specs.Handles.{first_area, generation_of, second_of, slot_of, HasSomeSlots};
ghost use Rattle.store_disk.specs.Stops.{CountsFaults};
ghost use Rattle.store_disk.specs.Reading.{OnlyReads};
ghost use Rattle.map_tables.specs.Projects.{body_len, empty_project, project_of, ProjectMaps};
ghost use Rattle.store_project.specs.Places.{cap_of, which_parts, IsAllowed, IsInOrder, AreLaidOut};
ghost use Rattle.store_project.specs.Stands.{HasGeometry, StandsAt};
ghost use Rattle.map_commands.specs.ProjectLines.{LeadsTo};
ghost use Rattle.store_project.specs.Opening.{AreReplayed, HoldsMap, IsOfBody, IsOfSlots, IsOpened, IsRefusedRead, IsJournalReplayed, RefusesCreate, RefusesLines, RefusesSlots};

use crate::ProjectError;
use crate::geometry::Geometry;
use crate::header::{header, read_header};
use crate::places::{Parts, Places};
use map_commands::{CommandError, add_by, apply, parse};
use map_tables::{MapError, Maps};
use std::alloc::{AllocError, Global};
use store_disk::{Area, Disk};
use store_journal::{Journal, JournalError, Reader, blank};
use store_slots::{CheckpointError, Slots, first};

/// The parts of a project, as they were read from its file, without its maps: these are large, so they are read into
/// the place where the caller keeps them.
#[derive(Drop)]
pub struct Opened {
    pub geometry: Geometry,
    pub places: Places,
    pub slots: Slots,
    pub journal: Journal,
}

// Applies a line of the journal by `parse` and `apply`. False if it is not a command that the maps accept.
#[inline(never)]
fn advance_by_parts(maps: &mut Maps, line: &[u8], cap: u32) -> Result<bool, AllocError>
    requires { body_len (project_of maps.old) ≤ cap }
    ensures led { result ≡ Ok true
        → LeadsTo cap (project_of maps.old) line.now (project_of maps.new) }
    ensures not_led { result ≡ Ok false → (new : _)
        → ¬ LeadsTo cap (project_of maps.old) line.now new }
    ensures fits { body_len (project_of maps.new) ≤ cap }
{
    let Ok(command) = parse(line) else {
        return Ok(false);
    };
    match apply(maps, &command, cap) {
        Ok(_) => Ok(true),
        Err(CommandError::OutOfMemory) => Err(AllocError),
        Err(_) => Ok(false),
    }
}

// Applies a line of the journal. False if it is not a command that the maps accept.
fn advance(maps: &mut Maps, line: &[u8], cap: u32) -> Result<bool, AllocError>
    requires { body_len (project_of maps.old) ≤ cap }
    ensures led { result ≡ Ok true
        → LeadsTo cap (project_of maps.old) line.now (project_of maps.new) }
    ensures not_led { result ≡ Ok false → (new : _)
        → ¬ LeadsTo cap (project_of maps.old) line.now new }
    ensures fits { body_len (project_of maps.new) ≤ cap }
{
    if add_by(maps, line, cap) {
        return Ok(true);
    }
    advance_by_parts(maps, line, cap)
}

// Applies the line behind a gate, if none was refused before it. The gate of the first refused line, if there is one.
fn advance_unless(
    refused: Option<u64>,
    maps: &mut Maps,
    gate: u64,
    line: &[u8],
    cap: u32,
) -> Result<Option<u64>, AllocError>
    requires { body_len (project_of maps.old) ≤ cap }
    ensures replayed { IfOk result (λ after. (at : ℕ) (base : ProjectMaps)
        (lines : List (List ℕ)) → gate ≡ at + length (records_bytes lines)
        → AreReplayed cap at base lines refused (project_of maps.old)
        → AreReplayed cap at base (lines ++ line.now ∷ []) after (project_of maps.new)) }
    ensures fits { body_len (project_of maps.new) ≤ cap }
{
    match refused {
        Some(earlier) => Ok(Some(earlier)),
        None => match advance(maps, line, cap) {
            Ok(true) => Ok(None),
            Ok(false) => Ok(Some(gate)),
            Err(error) => Err(error),
        },
    }
}

// Reads the live journal and applies its lines to the maps, up to the first that is not an accepted command. It answers
// the gate of that line only after the last one, because a damaged gate is told before it.
fn replay<D: Disk>(
    disk: &mut D,
    area: Area,
    maps: &mut Maps,
    cap: u32,
) -> Result<(Journal, Option<u64>), JournalError>
    requires { body_len (project_of maps.old) ≤ cap }
    ensures journal { IfOk result (λ r. r.0 ≡ journal_at area r.0.next) }
    ensures replayed { IfOk result (λ r. IsJournalReplayed (D.reads disk.old) cap area
        (project_of maps.old) r.0.next r.1 (project_of maps.new)) }
    ensures fits { body_len (project_of maps.new) ≤ cap }
    ensures damaged { IfErr result (λ e. IfGateDamaged e
        (λ place. Each (D.reads disk.old) (IsJournalDamagedAt area place))) }
    ensures no_other { IfErr result RefusesToOpenJournal }
    ensures reads { OnlyReads D.Disk disk.old disk.new }
    ensures count { CountsFaults JournalError.Device (D.failures disk.old)
        (D.failures disk.new) result }
{
    let mut reader = Reader::begin(disk, area)?;
    let mut refused = None;
    loop {
        let gate = reader.place();
        match reader.read_next(disk) {
            Ok(true) => {}
            Ok(false) => return Ok((reader.into_journal(), refused)),
            Err(error) => return Err(error),
        }
        refused = match advance_unless(refused, maps, gate, reader.payload(), cap) {
            Ok(refused) => refused,
            Err(_) => return Err(JournalError::OutOfMemory),
        };
    }
}

// The refusal if the slots can't be read.
fn refusal_of_slots(error: CheckpointError) -> ProjectError
    ensures { IsOfSlots error result }
{
    match error {
        CheckpointError::Device => ProjectError::Device,
        CheckpointError::OutOfMemory => ProjectError::OutOfMemory,
        CheckpointError::Blank => ProjectError::Blank,
        CheckpointError::Damaged { place } => ProjectError::Damaged { place },
        CheckpointError::GenerationsSpent => ProjectError::GenerationsSpent,
        CheckpointError::SlotFull => ProjectError::BadGeometry,
    }
}

// The refusal if a body can't be read whose slot stands at this place.
fn refusal_of_body(error: MapError, place: u64) -> ProjectError
    ensures { IsOfBody error place result }
{
    match error {
        MapError::OutOfMemory => ProjectError::OutOfMemory,
        _ => ProjectError::Damaged { place },
    }
}

// Reads the slots, and in place of the maps those in the live body.
fn read_slots<D: Disk>(
    alloc: Global,
    disk: &mut D,
    geometry: Geometry,
    places: Places,
    maps: &mut Maps,
) -> Result<Slots, ProjectError>
    requires allowed { IsAllowed geometry.slot geometry.journal }
    requires laid_out { AreLaidOut geometry places }
    requires only { Each (D.may_leave disk.old) (D.reads disk.old) }
    ensures holds { IfOk result (λ s. Each (D.reads disk.old)
        (HoldsMap (which_parts places (slot_of s)) (generation_of s) (project_of maps.new))) }
    ensures slots { IfOk result (λ s. Each (D.reads disk.old) (HasSomeSlots s)) }
    ensures areas { IfOk result (λ s. (first_area s ≡ places.a) × (second_of s ≡ places.b)
        × (slot_of s ≤ 1)) }
    ensures fits { OnOk result (body_len (project_of maps.new) ≤ cap_of geometry) }
    ensures refused { IfErr result (RefusesSlots (D.reads disk.old) geometry places) }
    ensures reads { OnlyReads D.Disk disk.old disk.new }
    ensures only { Each (D.may_leave disk.new) (D.reads disk.new) }
    ensures count { CountsFaults ProjectError.Device (D.failures disk.old)
        (D.failures disk.new) result }
{
    let (slots, found) = match Slots::open(alloc, disk, places.a, places.b) {
        Ok(live) => live,
        Err(error) => return Err(refusal_of_slots(error)),
    };
    match maps.read_body(alloc, &found.body) {
        Ok(()) => Ok(slots),
        Err(error) => Err(refusal_of_body(error, places.parts(found.slot).live.base)),
    }
}

// Reads the live journal and applies its lines to the maps. `Damaged` gives the lowest place of a bad gate; the first
// gate of the other journal is one if it is missing. If no gate is bad, it gives the gate of the first line that is not
// an accepted command.
fn read_lines<D: Disk>(
    disk: &mut D,
    parts: Parts,
    maps: &mut Maps,
    cap: u32,
) -> Result<Journal, ProjectError>
    requires { body_len (project_of maps.old) ≤ cap }
    ensures journal { IfOk result (λ j. j ≡ journal_at parts.journal j.next) }
    ensures replayed { IfOk result (λ j. IsJournalReplayed (D.reads disk.old) cap parts.journal
        (project_of maps.old) j.next None (project_of maps.new)) }
    ensures other { OnOk result
        (Each (D.reads disk.old) (λ file. parts.other_journal.base < length file)) }
    ensures fits { body_len (project_of maps.new) ≤ cap }
    ensures refused { IfErr result
        (RefusesLines (D.reads disk.old) cap parts (project_of maps.old)) }
    ensures reads { OnlyReads D.Disk disk.old disk.new }
    ensures count { CountsFaults ProjectError.Device (D.failures disk.old)
        (D.failures disk.new) result }
{
    let end = disk.len()?;
    let other = parts.other_journal.base;
    match replay(disk, parts.journal, maps, cap) {
        Ok(_) if end <= other => Err(ProjectError::Damaged { place: other }),
        Ok((journal, None)) => Ok(journal),
        Ok((_, Some(place))) => Err(ProjectError::Damaged { place }),
        Err(JournalError::Damaged { place }) if end <= other => Err(ProjectError::Damaged {
            place: place.min(other),
        }),
        Err(JournalError::Damaged { place }) => Err(ProjectError::Damaged { place }),
        Err(JournalError::OutOfMemory) => Err(ProjectError::OutOfMemory),
        Err(JournalError::Device) => Err(ProjectError::Device),
        Err(_) => unreachable!(),
    }
}

// Reads a project from a fully synced disk, and its maps in place of those that are given. It only reads.
fn read_synced<D: Disk>(
    alloc: Global,
    disk: &mut D,
    maps: &mut Maps,
) -> Result<Opened, ProjectError>
    requires only { Each (D.may_leave disk.old) (D.reads disk.old) }
    ensures opened { IfOk result
        (λ o. Each (D.reads disk.old) (IsOpened o (project_of maps.new))) }
    ensures journal { IfOk result (λ o. o.journal
        ≡ journal_at (which_parts o.places (slot_of o.slots)).journal o.journal.next) }
    ensures places { IfOk result (λ o. IsAllowed o.geometry.slot o.geometry.journal
        × AreLaidOut o.geometry o.places) }
    ensures areas { IfOk result
        (λ o. (first_area o.slots ≡ o.places.a) × (second_of o.slots ≡ o.places.b)
        × (slot_of o.slots ≤ 1)) }
    ensures fits { IfOk result (λ o. body_len (project_of maps.new) ≤ cap_of o.geometry) }
    ensures refused { IfErr result (IsRefusedRead (D.reads disk.old)) }
    ensures reads { OnlyReads D.Disk disk.old disk.new }
    ensures count { CountsFaults ProjectError.Device (D.failures disk.old)
        (D.failures disk.new) result }
{
    let geometry = match read_header(disk) {
        Ok(geometry) => geometry,
        Err(error) => return Err(error),
    };
    let places = geometry.places();
    let slots = match read_slots(alloc, disk, geometry, places, maps) {
        Ok(slots) => slots,
        Err(error) => return Err(error),
    };
    let parts = places.parts(slots.slot());
    match read_lines(disk, parts, maps, geometry.cap()) {
        Ok(journal) => Ok(Opened {
            geometry,
            places,
            slots,
            journal,
        }),
        Err(error) => Err(error),
    }
}

/// Reads a project, and its maps in place of those that are given: one sync, and then only reads.
pub fn read_project<D: Disk>(
    alloc: Global,
    disk: &mut D,
    maps: &mut Maps,
) -> Result<Opened, ProjectError>
    ensures opened { IfOk result
        (λ o. Each (D.reads disk.new) (IsOpened o (project_of maps.new))) }
    ensures journal { IfOk result (λ o. o.journal
        ≡ journal_at (which_parts o.places (slot_of o.slots)).journal o.journal.next) }
    ensures places { IfOk result (λ o. IsAllowed o.geometry.slot o.geometry.journal
        × AreLaidOut o.geometry o.places) }
    ensures areas { IfOk result
        (λ o. (first_area o.slots ≡ o.places.a) × (second_of o.slots ≡ o.places.b)
        × (slot_of o.slots ≤ 1)) }
    ensures fits { IfOk result (λ o. body_len (project_of maps.new) ≤ cap_of o.geometry) }
    ensures refused { IfErr result (IsRefusedRead (D.reads disk.new)) }
    ensures only { OnOk result (Each (D.may_leave disk.new) (D.reads disk.new)) }
    ensures reads { Each (D.reads disk.new) (D.reads disk.old) }
    ensures still { Each (D.reads disk.old) (D.reads disk.new) }
    ensures any_moment { LeavesOnly D.Disk disk.old disk.new (D.may_leave disk.old) }
    ensures count { CountsFaults ProjectError.Device (D.failures disk.old)
        (D.failures disk.new) result }
{
    match disk.sync() {
        Ok(()) => read_synced(alloc, disk, maps),
        Err(_) => Err(ProjectError::Device),
    }
}

/// Makes a new project on an empty disk: the header, the first slot with the empty map, two closed gates, and one sync.
pub fn write_new<D: Disk>(
    disk: &mut D,
    geometry: Geometry,
) -> Result<(Places, Slots, Journal), ProjectError>
    ensures made { IfOk result (λ r. Each (D.may_leave disk.new)
        (λ file. HasGeometry geometry r.0 file
        × StandsAt (cap_of geometry) (which_parts r.0 0) empty_project 1 file)) }
    ensures slots { IfOk result (λ r. Each (D.may_leave disk.new) (HasSomeSlots r.1)) }
    ensures none { IfOk result (λ r. Each (D.may_leave disk.new) (IsJournal r.0.first [])) }
    ensures handle { IfOk result
        (λ r. (slot_of r.1 ≡ 0) × (generation_of r.1 ≡ 1) × (first_area r.1 ≡ r.0.a)
        × (second_of r.1 ≡ r.0.b)) }
    ensures journal { IfOk result (λ r. r.2 ≡ opened r.0.first []) }
    ensures places { IfOk result
        (λ r. IsAllowed geometry.slot geometry.journal × AreLaidOut geometry r.0) }
    ensures empty { OnOk result (Each (D.reads disk.old) (λ file. length file ≡ 0)) }
    ensures refused { IfErr result (RefusesCreate (D.reads disk.old) geometry) }
    // A refusal other than `Device` comes before any write.
    ensures untouched { IfErr result (λ e. (e ≡ ProjectError.Device)
        ⊎ OnlyReads D.Disk disk.old disk.new) }
    // A file that isn't empty is only read, whatever the refusal.
    ensures stays { OnErr result (Each (D.reads disk.old) (λ file. length file ≡ 0)
        ⊎ OnlyReads D.Disk disk.old disk.new) }
    ensures count { CountsFaults ProjectError.Device (D.failures disk.old)
        (D.failures disk.new) result }
{
    if !geometry.is_allowed() {
        return Err(ProjectError::BadGeometry);
    }
    if disk.len()? != 0 {
        return Err(ProjectError::NotEmpty);
    }
    let places = geometry.places();
    disk.write_at(0, &header(geometry))?;
    let slots = first(disk, places.a, places.b, &Maps::empty_body())?;
    let journal = match blank(disk, places.first) {
        Ok(journal) => journal,
        Err(_) => return Err(ProjectError::Device),
    };
    match blank(disk, places.second) {
        Ok(_) => {}
        Err(_) => return Err(ProjectError::Device),
    }
    disk.sync()?;
    Ok((places, slots, journal))
}
