//! The project that a disk's bytes stand for, or its maps alone, for a request that takes the disk and gives it back.
ghost use Rattle.std.specs.Prelude.{◌≡◌, ◌≤◌, Err, IfErr, IfOk};
ghost use Rattle.store_project.specs.Opening.{HasMaps, IsRefusedRead};
ghost use Rattle.run_edit.specs.Recovery.{IsOnlyRead};
ghost use Rattle.cli_sources.specs.Opened.{IsFaultCounted, IsOpenedFrom, NotOpened};
ghost use Rattle.cli_refusals.specs.declared.refusal.Refusal.{Refusal};

use cli_refusals::Refusal;
use map_tables::Maps;
use std::alloc::Global;
use store_disk::Disk;
use store_project::{Project, Refused, read_maps};

/// How a request over a disk ended, and the disk.
#[derive(Drop)]
pub struct HandedBack<D> {
    pub how: Result<u8, Refusal>,
    pub disk: D,
}

/// The project that a disk's bytes stand for, or why there is none, and the disk, which is only read. A request that
/// needs the maps alone reads them by `maps_on` into its own.
pub fn open_project<D: Disk>(alloc: Global, disk: D) -> Result<Project<D>, Refused<D>>
    ensures opened { IfOk result (IsOpenedFrom D.Disk disk) }
    ensures refused { IfErr result (λ r. IsRefusedRead (D.reads disk) r.error
        × IsOnlyRead D.Disk disk r.disk × IsFaultCounted D.Disk disk r.disk r.error) }
{
    Project::open(alloc, disk)
}

/// How a request ends whose project can't be read, and the disk.
pub fn not_opened<D: Disk>(refused: Refused<D>) -> HandedBack<D>
    ensures how { result.how ≡ Err (Refusal.Project refused.error) }
    ensures disk { result.disk ≡ refused.disk }
{
    HandedBack {
        how: Err(Refusal::Project(refused.error)),
        disk: refused.disk,
    }
}

/// Reads the maps that a disk's bytes stand for in place of those that are given, and hands back the disk, which is
/// only read; or how a request ends without them.
pub fn maps_on<D: Disk>(alloc: Global, disk: D, maps: &mut Maps) -> Result<D, HandedBack<D>>
    ensures read { IfOk result (λ d. HasMaps (D.reads disk) maps.new × IsOnlyRead D.Disk disk d) }
    ensures refused { IfErr result (λ r. NotOpened D.Disk disk r.disk r.how
        × IsOnlyRead D.Disk disk r.disk) }
    ensures small { IfErr result (λ r. IfOk r.how (λ s. s ≤ 3)) }
{
    match read_maps(alloc, disk, maps) {
        Ok(disk) => Ok(disk),
        Err(refused) => Err(not_opened(refused)),
    }
}
