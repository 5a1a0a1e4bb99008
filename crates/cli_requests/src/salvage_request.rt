//! The request `dump --salvage`: the lines that draw the maps again which can be read from a damaged project.
ghost use Rattle.std.specs.Prelude.{◌≡◌, ◌≤◌, ◌⊎◌, IfErr, IfOk, OnOk};
ghost use Rattle.std.specs.Io.KnownBytes.{Appends};
ghost use Rattle.store_disk.specs.Reading.{OnlyReads};
ghost use Rattle.store_disk.specs.Stops.{Each, Rose};
ghost use Rattle.run_edit.specs.Recovery.{IsOnlyRead};
ghost use Rattle.cli_requests.specs.Salvaging.{IsSalvagedFrom, IsSalvagedOver, damage_line, damage_text, refusal_for_salvage, whole_text};

use cli_dump::tell_lines;
use cli_refusals::Refusal;
use cli_sources::HandedBack;
use std::alloc::Global;
use std::io::{self, Write};
use store_disk::Disk;
use store_project::ProjectError;
use store_salvage::{SalvageError, Salvaged, salvage};

// The refusal of a salvage, as that of a project.
fn refusal_of(error: SalvageError) -> ProjectError
    ensures { result ≡ refusal_for_salvage error }
{
    match error {
        SalvageError::Damaged { place } => ProjectError::Damaged { place },
        SalvageError::Blank => ProjectError::Blank,
        SalvageError::NotAProject => ProjectError::NotAProject,
        SalvageError::BadGeometry => ProjectError::BadGeometry,
        SalvageError::OutOfMemory => ProjectError::OutOfMemory,
    }
}

// All bytes of a disk.
fn read_bytes<D: Disk>(alloc: Global, disk: &mut D) -> Result<Vec<u8>, ProjectError>
    ensures told { IfOk result (λ bytes. Each (D.reads disk.old) (λ file. bytes.items ≡ file)) }
    ensures refused { IfErr result
        (λ e. (e ≡ ProjectError.Device) ⊎ (e ≡ ProjectError.OutOfMemory)) }
    ensures reads { OnlyReads D.Disk disk.old disk.new }
    ensures count { IfErr result (λ e. e ≡ ProjectError.Device
        → Rose (D.failures disk.old) (D.failures disk.new)) }
{
    let Ok(len) = disk.len() else {
        return Err(ProjectError::Device);
    };
    let Ok(mut bytes) = vec![in alloc; 0; len as usize] else {
        return Err(ProjectError::OutOfMemory);
    };
    match disk.read(0, &mut bytes) {
        Ok(()) => Ok(bytes),
        Err(_) => Err(ProjectError::Device),
    }
}

// Writes where a file is damaged, how many records are kept and how many aren't.
fn write_damage<F: Write>(place: u64, kept: u32, behind: u32, faults: &mut F) -> io::Result<()>
    ensures { OnOk result (Appends (F.contents faults.old) (F.contents faults.new)
        (damage_text place kept behind)) }
{
    write!(
        faults,
        "leveled: damaged at {place}: {kept} records are kept, {behind} behind them are not\n"
    )
}

// Writes that a file isn't damaged, and how many records it has.
fn write_whole<F: Write>(kept: u32, faults: &mut F) -> io::Result<()>
    ensures { OnOk result (Appends (F.contents faults.old) (F.contents faults.new)
        (whole_text kept)) }
{
    write!(faults, "leveled: no damage: {kept} records\n")
}

// Writes where the file is damaged, if it is, and how many records are kept.
fn tell_damage<F: Write>(found: &Salvaged, faults: &mut F) -> io::Result<()>
    ensures { OnOk result (Appends (F.contents faults.old) (F.contents faults.new)
        (damage_line found.now.damage found.now.records found.now.behind)) }
{
    match found.damage {
        Some(place) => write_damage(place, found.records, found.behind, faults),
        None => write_whole(found.records, faults),
    }
}

// Writes the lines that draw the maps again which can be read from a file's bytes.
fn write_salvaged<W: Write, F: Write>(
    alloc: Global,
    file: &[u8],
    writer: &mut W,
    faults: &mut F,
) -> Result<u8, Refusal>
    ensures small { IfOk result (λ s. s ≤ 3) }
    ensures salvaged { IsSalvagedFrom file.now result
        (W.contents writer.old) (W.contents writer.new) }
{
    let found = match salvage(alloc, file) {
        Ok(found) => found,
        Err(error) => return Err(Refusal::Project(refusal_of(error))),
    };
    let how = tell_lines(alloc, &found.maps, writer);
    if how.is_ok() {
        // The lines are written, so a report that can't be isn't a refusal.
        let _ = tell_damage(&found, faults);
    }
    how
}

/// Writes the lines that draw the maps again which can be read from a disk's project, damaged or not, and reports where
/// it is damaged. The disk is only read.
#[inline(never)]
pub fn salvage_lines<D: Disk, W: Write, F: Write>(
    alloc: Global,
    disk: D,
    writer: &mut W,
    faults: &mut F,
) -> HandedBack<D>
    ensures small { IfOk result.how (λ s. s ≤ 3) }
    ensures salvaged { IsSalvagedOver D.Disk disk result.disk result.how
        (W.contents writer.old) (W.contents writer.new) }
    ensures only_read { IsOnlyRead D.Disk disk result.disk }
{
    let mut disk = disk;
    let bytes = match read_bytes(alloc, &mut disk) {
        Ok(bytes) => bytes,
        Err(error) => {
            let how = Err(Refusal::Project(error));
            return HandedBack { how, disk };
        }
    };
    let how = write_salvaged(alloc, &bytes, writer, faults);
    HandedBack { how, disk }
}
