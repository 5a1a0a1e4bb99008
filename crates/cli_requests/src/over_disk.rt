//! The requests `create`, `edit` and `check`, over a disk that each takes and gives back.
//!
//! A project has room for 32 maps in its value, 20 KB. So a call that holds one, or the maps of a WAD's level, is never
//! inlined, here and in the other requests: else the frame of `perform` would have room for all of them, and touch it.
ghost use Rattle.std.specs.Prelude.{◌≡◌, ◌≤◌, Err, IfErr, IfOk, option_map};
ghost use Rattle.std.specs.Io.KnownBytes.{Appends};
ghost use Rattle.cli_requests.specs.Requests.{IsCreated, IsEditedOver, IsMade};
ghost use Rattle.run_edit.specs.Recovery.{IsOnlyRead};
ghost use Rattle.cli_print.specs.Checking.{IsCheckedIn};
ghost use Rattle.cli_print.specs.Origins.{no_origin};
ghost use Rattle.cli_sources.specs.Opened.{OverMaps};
ghost use Rattle.run_edit.specs.declared.error.EditorError.TheVariants.{WriterFailed};
ghost use Rattle.cli_refusals.specs.declared.refusal.Refusal.{Refusal};

use cli_print::{NoOrigin, TURNS, tell_findings};
use cli_refusals::{DONE, Refusal, ended};
use cli_sources::{HandedBack, maps_on, not_opened, open_project};
use map_tables::Maps;
use run_edit::{EditorError, run};
use std::alloc::Global;
use std::io::{Read, Write};
use store_disk::Disk;
use store_project::{Geometry, Project, Refused};

// Writes a text, and flushes the writer.
fn say<W: Write>(text: &[u8], writer: &mut W) -> Result<u8, Refusal>
    ensures said { IfOk result (λ status. (status ≡ 0)
        × Appends (W.contents writer.old) (W.contents writer.new) text.now) }
    ensures failed { IfErr result (λ r. r ≡ Refusal.Lines WriterFailed) }
{
    let written = match writer.write_all(text) {
        Ok(()) => writer.flush(),
        Err(error) => Err(error),
    };
    match written {
        Ok(()) => Ok(DONE),
        Err(_) => Err(Refusal::Lines(EditorError::WriterFailed)),
    }
}

/// Makes a project on a disk, and writes `created`.
#[inline(never)]
pub fn create<D: Disk, W: Write>(
    alloc: Global,
    disk: D,
    geometry: Geometry,
    writer: &mut W,
) -> HandedBack<D>
    ensures small { IfOk result.how (λ s. s ≤ 3) }
    ensures created { IsCreated geometry.slot geometry.journal result.how
        (W.contents writer.old) (W.contents writer.new) }
    ensures made { IsMade D.Disk geometry disk result.disk result.how }
{
    match Project::create(alloc, disk, geometry) {
        Ok(project) => HandedBack {
            how: say(b"created\n", writer),
            disk: project.into_disk(),
        },
        Err(Refused { error, disk }) => HandedBack {
            how: Err(Refusal::Project(error)),
            disk,
        },
    }
}

/// Answers the lines of the input over the project of a disk.
#[inline(never)]
pub fn edit<D: Disk, R: Read, W: Write>(
    alloc: Global,
    disk: D,
    reader: &mut R,
    writer: &mut W,
) -> HandedBack<D>
    ensures small { IfOk result.how (λ s. s ≤ 3) }
    ensures answered { IsEditedOver D.Disk disk result.disk result.how
        (R.remaining reader.old) (R.remaining reader.new)
        (W.contents writer.old) (W.contents writer.new) }
{
    let mut project = match open_project(alloc, disk) {
        Ok(project) => project,
        Err(refused) => return not_opened(refused),
    };
    let how = ended(run(alloc, &mut project, reader, writer, TURNS));
    HandedBack {
        how,
        disk: project.into_disk(),
    }
}

/// Writes what is wrong or unfinished in the map with the name of a disk's project, or in the current one. The disk is
/// only read.
#[inline(never)]
pub fn check<D: Disk, W: Write>(
    alloc: Global,
    disk: D,
    name: Option<&str>,
    writer: &mut W,
) -> HandedBack<D>
    ensures small { IfOk result.how (λ s. s ≤ 3) }
    ensures found { OverMaps D.Disk disk result.disk result.how
        (W.contents writer.old) (W.contents writer.new)
        (λ maps. IsCheckedIn no_origin (option_map (λ s. s.now) name.entry) maps result.how
        (W.contents writer.old) (W.contents writer.new)) }
    ensures only_read { IsOnlyRead D.Disk disk result.disk }
{
    let mut maps = Maps::new(alloc);
    match maps_on(alloc, disk, &mut maps) {
        Ok(disk) => HandedBack {
            how: tell_findings(alloc, &maps, name, &NoOrigin, writer),
            disk,
        },
        Err(back) => back,
    }
}
