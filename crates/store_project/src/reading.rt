//! Reads a project, or its maps alone, from a disk that is handed back.
ghost use Rattle.std.specs.Prelude.{◌≡◌, ◌≤◌, ◌<◌, IfOk, IfErr, MatchResult, OnOk};
ghost use Rattle.store_disk.specs.Moments.{LeavesOnly};
ghost use Rattle.store_disk.specs.Stops.{Each, Rose};
ghost use Rattle.store_journal.specs.State.{journal_at};
ghost use Rattle.store_slots.specs.Handles.{first_area, second_of, slot_of};
ghost use Rattle.map_tables.specs.Projects.{body_len, project_of};
ghost use Rattle.store_project.specs.Places.{cap_of, which_parts, IsAllowed, AreLaidOut};
ghost use Rattle.store_project.specs.Opening.{HasMaps, IsOpened, IsRefusedRead};

use crate::ProjectError;
use crate::opening::{Opened, read_project};
use map_tables::Maps;
use std::alloc::Global;
use store_disk::{Buffer, Disk, ReadAhead};

/// Why no project could be opened, read or made on a disk, and the disk.
#[derive(Drop)]
pub struct Refused<D> {
    pub error: ProjectError,
    pub disk: D,
}

/// Reads a project through a buffer, and its maps in place of those that are given: one sync, and then only reads.
pub(crate) fn read_through<D: Disk>(
    alloc: Global,
    disk: D,
    maps: &mut Maps,
) -> Result<(Opened, D), Refused<D>>
    ensures opened { IfOk result (λ r. Each (D.reads r.1) (IsOpened r.0 (project_of maps.new))) }
    ensures journal { IfOk result (λ r. r.0.journal
        ≡ journal_at (which_parts r.0.places (slot_of r.0.slots)).journal r.0.journal.next) }
    ensures places { IfOk result (λ r. IsAllowed r.0.geometry.slot r.0.geometry.journal
        × AreLaidOut r.0.geometry r.0.places) }
    ensures areas { IfOk result
        (λ r. (first_area r.0.slots ≡ r.0.places.a) × (second_of r.0.slots ≡ r.0.places.b)
        × (slot_of r.0.slots ≤ 1)) }
    ensures fits { IfOk result (λ r. body_len (project_of maps.new) ≤ cap_of r.0.geometry) }
    ensures only { IfOk result (λ r. Each (D.may_leave r.1) (D.reads r.1)) }
    ensures refused { IfErr result (λ r. IsRefusedRead (D.reads r.disk) r.error) }
    ensures any_moment { MatchResult result
        (λ r. LeavesOnly D.Disk disk r.1 (D.may_leave disk))
        (λ r. LeavesOnly D.Disk disk r.disk (D.may_leave disk)) }
    ensures reads { MatchResult result
        (λ r. Each (D.reads r.1) (D.reads disk) × Each (D.reads disk) (D.reads r.1))
        (λ r. Each (D.reads r.disk) (D.reads disk) × Each (D.reads disk) (D.reads r.disk)) }
    ensures count { IfErr result (λ r. r.error ≡ ProjectError.Device
        → Rose (D.failures disk) (D.failures r.disk)) }
{
    let Ok(buffer) = Buffer::new(alloc) else {
        let error = ProjectError::OutOfMemory;
        return Err(Refused { error, disk });
    };
    let mut ahead = ReadAhead::new(disk, buffer);
    let read = read_project(alloc, &mut ahead, maps);
    let disk = ahead.into_inner();
    match read {
        Ok(opened) => Ok((opened, disk)),
        Err(error) => Err(Refused { error, disk }),
    }
}

/// Reads the maps of the project that the disk's bytes stand for, in place of those that are given, and hands the disk
/// back. It reads as `Project::open` does, for a caller that needs the maps alone: it begins with one sync, and writes
/// nothing. After a refusal, which is one of `Project::open`, the maps are those of some project.
pub fn read_maps<D: Disk>(alloc: Global, disk: D, maps: &mut Maps) -> Result<D, Refused<D>>
    ensures read { OnOk result (HasMaps (D.reads disk) maps.new) }
    ensures refused { IfErr result (λ r. IsRefusedRead (D.reads disk) r.error) }
    // It changes nothing that the disk reads, and a stop within the call leaves no new image.
    ensures reads { MatchResult result
        (λ d. Each (D.reads d) (D.reads disk) × Each (D.reads disk) (D.reads d))
        (λ r. Each (D.reads r.disk) (D.reads disk) × Each (D.reads disk) (D.reads r.disk)) }
    ensures any_moment { MatchResult result
        (λ d. LeavesOnly D.Disk disk d (D.may_leave disk))
        (λ r. LeavesOnly D.Disk disk r.disk (D.may_leave disk)) }
    ensures count { IfErr result (λ r. r.error ≡ ProjectError.Device
        → Rose (D.failures disk) (D.failures r.disk)) }
{
    match read_through(alloc, disk, maps) {
        Ok((_, disk)) => Ok(disk),
        Err(refused) => Err(refused),
    }
}
