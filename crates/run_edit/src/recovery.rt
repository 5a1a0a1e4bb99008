//! Sessions of calls and runs, each stopped at any moment, and the PWAD that is built from the disk that they leave.
ghost use Rattle.std.specs.Prelude.{◌≡◌, ◌++◌, List, ℕ, Err, MatchResult};
ghost use Rattle.store_disk.specs.Stops.{Rose};
ghost use Rattle.map_tables.specs.Projects.{project_of};
ghost use Rattle.store_project.specs.Calls.{AllMade, ProjectCall};
ghost use Rattle.store_project.specs.Sessions.{IsLeftBy, Session};
ghost use Rattle.store_project.specs.States.{State};
ghost use Rattle.store_project.specs.declared.error.ProjectError.{ProjectError};
ghost use Rattle.wad_build.specs.Projects.{IsRefusalOfAll, IsSoundBuildOfAll};
ghost use Rattle.wad_build.specs.declared.error.BuildError.{BuildError};
ghost use Rattle.run_edit.specs.Recovery.{BuildsKept, IsOnlyRead, RefusesKept};
ghost use Rattle.run_edit.specs.Sessions.{AllDone, Deed};

use crate::error::RecoveryError;
use map_tables::Maps;
use std::alloc::Global;
use store_disk::Disk;
use store_project::{Project, Refused, hold_each_acknowledged};
use wad_build::build_all;

/// A session may consist of runs as well as calls of `apply`, `checkpoint` and `put`: by the contract of `run`, a run
/// is the calls that its lines made. So a session is a list of calls, as `hold_each_acknowledged` requires, and may
/// stop between any two of them. The function has an empty body: its contract is the law.
pub fn sessions_hold_runs<D: Disk>()
    ensures { (first : State D) (deeds : List (Deed D)) (front back : List ProjectCall)
        (last : State D)
        → AllDone D.Disk first deeds (front ++ back) last
        → (mid : State D) × AllMade D.Disk first front mid × AllMade D.Disk mid back last }
{}

/// The PWAD that was built from the maps on a disk, or why there is none; and the disk.
#[derive(Drop)]
pub struct Recovery<D> {
    pub wad: Result<Vec<u8>, RecoveryError>,
    pub disk: D,
}

// The PWAD of all maps, or why there is none.
fn build_maps(alloc: Global, maps: &Maps) -> Result<Vec<u8>, RecoveryError>
    ensures { MatchResult result
        (λ wad. IsSoundBuildOfAll (project_of maps.now).maps wad.items)
        (λ e. (cause : BuildError) × (e ≡ RecoveryError.Build cause)
        × IsRefusalOfAll (project_of maps.now).maps cause) }
{
    match build_all(alloc, maps) {
        Ok(wad) => Ok(wad),
        Err(error) => Err(RecoveryError::Build(error)),
    }
}

/// Opens the project on a disk that any sessions left, each stopped at any moment, and builds the PWAD of all its maps.
/// The disk is only read, and returned.
///
/// The maps are those after a prefix of the accepted commands that holds every acknowledged one
/// (`hold_each_acknowledged`), and those that the disk's bytes stand for. For the name of each map, the PWAD reads back
/// as a sound level of this map (`sound_builds_read_back`).
///
/// # Errors
///
/// `Open` only for a fault of the device, which the disk counts as a failure during the call, or for lack of memory;
/// `Build` if `build_all` refuses those maps: 30, 31, 60 to 64 and 66.
pub fn build_after_any_stop<D: Disk>(alloc: Global, disk: D) -> Recovery<D>
    ensures built { (cap : ℕ) (sessions : List Session) (file : List ℕ) → D.reads disk file
        → IsLeftBy D.Disk cap sessions disk
        → MatchResult result.wad (λ wad. BuildsKept cap sessions file wad.items)
        (RefusesKept cap sessions file) }
    // So a stop at any moment of the call leaves what a stop before the call left.
    ensures only_read { IsOnlyRead D.Disk disk result.disk }
    ensures count { result.wad ≡ Err (RecoveryError.Open ProjectError.Device)
        → Rose (D.failures disk) (D.failures result.disk) }
{
    hold_each_acknowledged::<D>();
    match Project::open(alloc, disk) {
        Ok(project) => Recovery {
            wad: build_maps(alloc, project.maps()),
            disk: project.into_disk(),
        },
        Err(Refused { error, disk }) => Recovery {
            wad: Err(RecoveryError::Open(error)),
            disk,
        },
    }
}
