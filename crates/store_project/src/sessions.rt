//! The project's calls over any number of sessions. Each begins with `create` or `open`, and may be stopped at any
//! moment.
ghost use Rattle.std.specs.Prelude.{◌≡◌, ◌⊎◌, ◌++◌, ◌∷◌, [], List, ℕ, Result, IfErr, IfOk, MatchResult, OnOk, length};
ghost use Rattle.store_disk.specs.Moments.{LeavesOnly};
ghost use Rattle.store_disk.specs.Stops.{Each};
ghost use Rattle.map_tables.specs.Projects.{empty_project, project_of};
ghost use Rattle.store_project.specs.Calls.{Applies, Checkpoints, PutsGroup};
ghost use Rattle.store_project.specs.Groups.{CanPut, IsGroupFor, Staged};
ghost use Rattle.store_project.specs.Opening.{RefusesCreate};
ghost use Rattle.store_project.specs.Places.{cap_of, IsAllowed};
ghost use Rattle.store_project.specs.Sessions.{Creates, HoldsEach, IsLeftBy, KeepEach, Opens, PassInTurn, RefusesOpen, Session};
ghost use Rattle.store_project.specs.Stands.{TellsLengths};
ghost use Rattle.store_project.specs.States.{State};
ghost use Rattle.store_project.specs.declared.error.ProjectError.{ProjectError};

use crate::{Geometry, Project, ProjectError, ProjectGroup, Refused};
use std::alloc::Global;
use store_disk::Disk;

/// After any list of commands, over any number of sessions, stopped before or within any disk write: each image
/// stands for the map of a prefix of the accepted commands that holds every acknowledged one, and that is what `open`
/// gives. The prefix has all lines of a group or none. The function has no body: its contract is the law.
pub fn hold_each_acknowledged<D: Disk>()
    ensures any_moment { (cap : ℕ) (before : List Session) (s : Session) (mid : State D)
        (last : State D)
        → PassInTurn D.Disk (Creates D.Disk cap) before s mid last
        → LeavesOnly D.Disk mid.disk last.disk (HoldsEach cap (before ++ s ∷ [])) }

    // The map that `open` reads from what they left holds them too, and so does each image at every moment of that
    // call.
    ensures opened { (cap : ℕ) (sessions : List Session) (disk : D) (first : State D)
        → IsLeftBy D.Disk cap sessions disk
        → Opens D.Disk disk first
        → (first.cap ≡ cap) × KeepEach cap empty_project sessions (project_of first.maps)
        × LeavesOnly D.Disk disk first.disk (HoldsEach cap sessions) }

    // `open` is refused only by a device fault or for lack of memory, and then the disk is as good as before.
    ensures refused { (cap : ℕ) (sessions : List Session) (disk : D) (after : D)
        (error : ProjectError)
        → IsLeftBy D.Disk cap sessions disk
        → RefusesOpen D.Disk disk after error
        → ((error ≡ ProjectError.Device) ⊎ (error ≡ ProjectError.OutOfMemory))
        × IsLeftBy D.Disk cap sessions after
        × LeavesOnly D.Disk disk after (HoldsEach cap sessions) }

    // A stop within `open`, refused or not, leaves a disk that these sessions left.
    ensures stopped { (cap : ℕ) (sessions : List Session) (disk next : D) (first : State D)
        → IsLeftBy D.Disk cap sessions disk
        → Opens D.Disk disk first
        → Each (D.may_leave next) (D.left_since first.disk (D.moment disk))
        → IsLeftBy D.Disk cap sessions next }
    ensures stopped_refused { (cap : ℕ) (sessions : List Session) (disk after next : D)
        (error : ProjectError)
        → IsLeftBy D.Disk cap sessions disk
        → RefusesOpen D.Disk disk after error
        → Each (D.may_leave next) (D.left_since after (D.moment disk))
        → IsLeftBy D.Disk cap sessions next }
{}

/// `Project::apply`, whose promises are those that the law asks of a call.
pub fn applies<D: Disk>(project: &mut Project<D>, line: &[u8]) -> Result<u32, ProjectError>
    ensures { Applies D.Disk project.old line.now result project.new }
{
    project.apply(line)
}

/// `Project::checkpoint`, likewise.
pub fn checkpoints<D: Disk>(project: &mut Project<D>) -> Result<u64, ProjectError>
    ensures { Checkpoints D.Disk project.old result project.new }
{
    project.checkpoint()
}

/// `Project::put` of a group of some lines, likewise.
pub fn puts<D: Disk>(project: &mut Project<D>, group: ProjectGroup) -> Result<(), ProjectError>
    requires { IsGroupFor project.old group }
    ensures { (staged : List Staged) → CanPut project.old group staged
        → PutsGroup D.Disk project.old staged result project.new }
{
    project.put(group)
}

/// `Project::create`, with whose project the first session begins. Its refusals are the same.
pub fn creates<D: Disk>(
    alloc: Global,
    disk: D,
    geometry: Geometry,
) -> Result<Project<D>, Refused<D>>
    ensures created { IfOk result (Creates D.Disk (cap_of geometry)) }
    ensures lengths { IfOk result (λ p. Each (D.may_leave p.disk) (TellsLengths geometry)) }
    ensures allowed { OnOk result (IsAllowed geometry.slot geometry.journal) }
    ensures empty { OnOk result (Each (D.reads disk) (λ file. length file ≡ 0)) }
    ensures refused { IfErr result (λ r. RefusesCreate (D.reads disk) geometry r.error) }
{
    Project::create(alloc, disk, geometry)
}

/// `Project::open`, with whose project each later session begins, on a disk that tells its bytes.
pub fn opens<D: Disk>(alloc: Global, disk: D) -> Result<Project<D>, Refused<D>>
    ensures { (file : List ℕ) → D.reads disk file → MatchResult result
        (λ p. Opens D.Disk disk p)
        (λ r. RefusesOpen D.Disk disk r.disk r.error) }
{
    match Project::open(alloc, disk) {
        Ok(project) => Ok(project),
        Err(refused) => Err(refused),
    }
}
