//! A project on a disk: each accepted command is there before it is acknowledged.
mod group;

ghost use Rattle.std.specs.Prelude.{◌≡◌, ◌≤◌, ◌<◌, ◌⊎◌, ◌↔◌, ◌+◌, ◌-◌, ◌^◌, [], length, false, true, Ok, IfOk, IfErr, IsErrOf, IfSome, MatchResult, OnOk};
ghost use Rattle.store_disk.specs.Moments.{LeavesOnly};
ghost use Rattle.store_disk.specs.Stops.{Each};
ghost use Rattle.store_journal.specs.State.{IsAbove};
ghost use Rattle.map_tables.specs.Projects.{body_len, project_of};
ghost use Rattle.map_commands.specs.ProjectReadiness as readiness;
ghost use Rattle.map_commands.specs.ProjectCommands.{project_spelling};
ghost use Rattle.map_commands.specs.ProjectStep.{project_after, project_number_of, step};

use crate::ProjectError;
use crate::change::turn;
use crate::error::refusal_of;
use crate::geometry::Geometry;
use crate::opening::write_new;
use crate::places::Places;
use crate::reading::{Refused, read_through};
pub use group::{ProjectGroup, copy_of};
use map_commands::{Ready, commit, parse, ready};
use map_tables::{Map, Maps};
use std::alloc::Global;
use std::marker::Model;
use store_disk::Disk;
use store_journal::{Journal, JournalError};
use store_slots::{CheckpointError, Image, Slots};

/// The maps of a project on a disk. It owns the disk until `into_disk`.
pub struct Project<D: Disk> {
    alloc: Global,
    disk: D,
    geometry: Geometry,
    places: Places,
    slots: Slots,
    journal: Journal,
    maps: Maps,
    must_reopen: bool,
}

// Written by hand, so that a function that owns a project drops it by a single call.
impl<D: Disk + Drop> Drop for Project<D> {
    fn drop(self) {
        let Project {
            alloc: _,
            disk: _disk,
            geometry: _,
            places: _,
            slots: _slots,
            journal: _journal,
            maps: _maps,
            must_reopen: _,
        } = self;
    }
}

impl<D: Disk> Model for Project<D> {
    ghost use Rattle.store_project.specs.States.{State};

    ghost Value = { State D };

    ghost use Rattle.store_project.specs.Fields.{project_state, IsProjectSound};

    ghost view = { project_state };

    ghost invariant = { IsProjectSound D.Disk };
}

impl<D: Disk> Project<D> {
    ghost use Rattle.store_disk.specs.Stops.{Rose};
    ghost use Rattle.store_disk.specs.Reading.{OnlyReads};
    ghost use Rattle.map_tables.specs.Projects.{empty_project, ProjectMaps, WellFormedProject};
    ghost use Rattle.store_project.specs.Places.{cap_of, IsAllowed};
    ghost use Rattle.store_project.specs.Opening.{IsRefusedRead, RefusesCreate, StandsOnlyFor};
    ghost use Rattle.store_project.specs.Stands.{IsOutcome, StandsFor, TellsLengths};
    ghost use Rattle.map_commands.specs.ProjectLines.{LeadsTo};
    ghost use Rattle.store_slots.specs.Handles.{body_in, generation_in};
    ghost use Rattle.map_tables.specs.ProjectBody.{project_body};
    ghost use Rattle.store_project.specs.States.{IsProjectKept};
    ghost use Rattle.store_project.specs.Outcomes.{CanLack, EndsApply, EndsCheckpoint, EndsRoom, IsEmptied, IsFresh, TurnsWhereFull};

    /// The maps.
    pub fn maps(&self) -> &Maps
        ensures { result.now ≡ self.now.maps }
    {
        &self.maps
    }

    /// The current map.
    pub fn map(&self) -> &Map
        ensures { result.now.tables ≡ self.now.maps.tables }
    {
        self.maps.current()
    }

    /// The live generation.
    pub fn generation(&self) -> u64
        ensures { result ≡ self.now.generation }
    {
        self.slots.generation()
    }

    /// How long the body of all maps may be, in bytes.
    pub fn cap(&self) -> u32
        ensures cap { result ≡ self.now.cap }
        ensures fits { body_len (project_of self.now.maps) ≤ self.now.cap }
    {
        self.geometry.cap()
    }

    /// Whether the project must be opened again, because a device fault left it unknown what the disk holds.
    pub fn must_reopen(&self) -> bool
        ensures reopen { result ≡ self.now.must_reopen }
        ensures kept { IsProjectKept D.Disk self.now }
    {
        self.must_reopen
    }

    /// The disk.
    pub fn into_disk(self) -> D
        ensures disk { result ≡ self.disk }
        ensures kept { IsProjectKept D.Disk self }
    {
        let Project {
            alloc: _,
            disk: owned,
            geometry: _,
            places: _,
            slots: _slots,
            journal: _journal,
            maps: _maps,
            must_reopen: _,
        } = self;
        owned
    }

    /// A new project with the empty map on an empty disk. It allocates no memory, and ends with its only sync.
    pub fn create(alloc: Global, disk: D, geometry: Geometry) -> Result<Project<D>, Refused<D>>
        ensures made { IfOk result (λ p. ((project_of p.maps) ≡ empty_project) × (p.generation ≡ 1)
            × (p.must_reopen ≡ false) × (p.cap ≡ cap_of geometry)
            × (p.journal ≡ geometry.journal)) }
        ensures kept { IfOk result (λ p. IsProjectKept D.Disk p) }
        // It has exactly these lengths, which are allowed, and the file was empty.
        ensures lengths { IfOk result (λ p. Each (D.may_leave p.disk) (TellsLengths geometry)) }
        ensures allowed { OnOk result (IsAllowed geometry.slot geometry.journal) }
        ensures empty { OnOk result (Each (D.reads disk) (λ file. length file ≡ 0)) }
        ensures refused { IfErr result (λ r. RefusesCreate (D.reads disk) geometry r.error) }
        // A refusal other than `Device` changes nothing in the file.
        ensures untouched { IfErr result (λ r. (r.error ≡ ProjectError.Device)
            ⊎ OnlyReads D.Disk disk r.disk) }
        // A file that isn't empty is only read, whatever the refusal.
        ensures stays { IfErr result (λ r. Each (D.reads disk) (λ file. length file ≡ 0)
            ⊎ OnlyReads D.Disk disk r.disk) }
        ensures count { IfErr result (λ r. r.error ≡ ProjectError.Device
            → Rose (D.failures disk) (D.failures r.disk)) }
    {
        let mut disk = disk;
        let maps = Maps::new(alloc);
        match write_new(&mut disk, geometry) {
            Ok((places, slots, journal)) => Ok(Project {
                alloc,
                disk,
                geometry,
                places,
                slots,
                journal,
                maps,
                must_reopen: false,
            }),
            Err(error) => Err(Refused { error, disk }),
        }
    }

    /// Opens the project that the disk's bytes stand for. It begins with one sync, and writes nothing.
    pub fn open(alloc: Global, disk: D) -> Result<Project<D>, Refused<D>>
        // The map and the generation are those that the bytes stand for, as the disk reads after its sync.
        ensures opened { IfOk result (λ p. (p.must_reopen ≡ false)
            × Each (D.reads p.disk) (StandsOnlyFor p.cap (project_of p.maps) p.generation)) }
        // Each image now stands for the map, and a stop within the call leaves no new image.
        ensures kept { IfOk result (λ p. IsProjectKept D.Disk p) }
        ensures any_moment { MatchResult result
            (λ p. LeavesOnly D.Disk disk p.disk (D.may_leave disk))
            (λ r. LeavesOnly D.Disk disk r.disk (D.may_leave disk)) }
        ensures refused { IfErr result (λ r. IsRefusedRead (D.reads r.disk) r.error) }
        // It changes nothing that the disk reads.
        ensures reads { MatchResult result
            (λ p. Each (D.reads p.disk) (D.reads disk) × Each (D.reads disk) (D.reads p.disk))
            (λ r. Each (D.reads r.disk) (D.reads disk) × Each (D.reads disk) (D.reads r.disk)) }
        ensures count { IfErr result (λ r. r.error ≡ ProjectError.Device
            → Rose (D.failures disk) (D.failures r.disk)) }
    {
        let mut maps = Maps::new(alloc);
        match read_through(alloc, disk, &mut maps) {
            Ok((opened, disk)) => Ok(Project {
                alloc,
                disk,
                geometry: opened.geometry,
                places: opened.places,
                slots: opened.slots,
                journal: opened.journal,
                maps,
                must_reopen: false,
            }),
            Err(refused) => Err(refused),
        }
    }

    // Whether the journal has room for a line of so many bytes.
    fn has_room(&self, len: usize) -> bool
        ensures full { result ≡ false → IsAbove self.now.room len }
        ensures room { result ≡ true → ¬ IsAbove self.now.room len }
        ensures kept { IsProjectKept D.Disk self.now }
    {
        match self.journal.room() {
            Some(room) => len <= room as usize,
            None => false,
        }
    }

    // Writes the image's slot and opens it.
    fn turn_to(&mut self, image: &Image) -> Result<u64, ProjectError>
        requires ready { self.old.must_reopen ≡ false }
        requires next { generation_in image.now ≡ self.old.generation + 1 }
        requires number { self.old.generation + 1 < 2 ^ 64 }
        requires body { body_in image.now ≡ project_body (project_of self.old.maps) }
        requires well_formed { WellFormedProject (project_of self.old.maps) }
        ensures device { IfErr result (λ e. e ≡ ProjectError.Device) }
        ensures ends { EndsCheckpoint D.Disk result self.old self.new }
        ensures maps { self.new.maps ≡ self.old.maps }
        ensures any_moment { LeavesOnly D.Disk self.old.disk self.new.disk
            (StandsFor self.old.cap (project_of self.old.maps)) }
        ensures room { OnOk result (IsFresh self.new.room) }
        ensures emptied { OnOk result (IsEmptied self.new) }
        ensures cap { self.new.cap ≡ self.old.cap }
        ensures journal { self.new.journal ≡ self.old.journal }
        ensures later { D.failures self.old.disk ≤ D.failures self.new.disk }
        ensures kept { IsProjectKept D.Disk self.new }
    {
        let parts = self.places.parts(self.slots.slot());
        match turn(&mut self.disk, self.slots, parts, image) {
            Ok(slots) => {
                self.slots = slots;
                self.journal = Journal::fresh(&self.disk, parts.other_journal);
                Ok(self.slots.generation())
            }
            Err(_) => {
                self.must_reopen = true;
                Err(ProjectError::Device)
            }
        }
    }

    /// Puts the maps into the other slot, and makes that the live one, with the next generation and an empty journal.
    /// It returns the new generation and changes no map.
    pub fn checkpoint(&mut self) -> Result<u64, ProjectError>
        // `GenerationsSpent` exactly if no generation is left.
        ensures spent { IsErrOf result ProjectError.GenerationsSpent
            ↔ (self.old.must_reopen ≡ false) × (self.old.generation ≡ 2 ^ 64 - 1) }
        ensures ends { EndsCheckpoint D.Disk result self.old self.new }
        ensures maps { self.new.maps ≡ self.old.maps }
        // A stop at any moment of the call leaves the map.
        ensures any_moment { self.old.must_reopen ≡ false
            → LeavesOnly D.Disk self.old.disk self.new.disk
            (StandsFor self.old.cap (project_of self.old.maps)) }
        ensures room { OnOk result (IsFresh self.new.room) }
        ensures emptied { OnOk result (IsEmptied self.new) }
        ensures cap { self.new.cap ≡ self.old.cap }
        ensures journal { self.new.journal ≡ self.old.journal }
        ensures later { D.failures self.old.disk ≤ D.failures self.new.disk }
        ensures kept { IsProjectKept D.Disk self.new }
    {
        if self.must_reopen {
            return Err(ProjectError::Reopen);
        }
        if self.slots.generation() == u64::MAX {
            return Err(ProjectError::GenerationsSpent);
        }
        let Ok(body) = self.maps.encode_body(self.alloc) else {
            return Err(ProjectError::OutOfMemory);
        };
        match self.slots.image(self.alloc, &body) {
            Ok(image) => self.turn_to(&image),
            Err(CheckpointError::OutOfMemory) => Err(ProjectError::OutOfMemory),
            Err(_) => unreachable!(),
        }
    }

    // Makes sure that the journal has room for a line of so many bytes, by a checkpoint if it has none.
    fn make_room(&mut self, len: usize) -> Result<(), ProjectError>
        requires ready { self.old.must_reopen ≡ false }
        requires short { len ≤ 256 }
        ensures spent { IsErrOf result ProjectError.GenerationsSpent
            ↔ IsAbove self.old.room len × (self.old.generation ≡ 2 ^ 64 - 1) }
        ensures ends { EndsRoom D.Disk result self.old self.new len }
        ensures untouched { IfErr result (λ e. (e ≡ ProjectError.Device) ⊎ (self.new ≡ self.old)) }
        ensures turned { OnOk result (TurnsWhereFull self.old self.new len) }
        ensures later { D.failures self.old.disk ≤ D.failures self.new.disk }
        ensures maps { self.new.maps ≡ self.old.maps }
        ensures any_moment { LeavesOnly D.Disk self.old.disk self.new.disk
            (StandsFor self.old.cap (project_of self.old.maps)) }
        ensures cap { self.new.cap ≡ self.old.cap }
        ensures journal { self.new.journal ≡ self.old.journal }
        ensures kept { IsProjectKept D.Disk self.new }
    {
        if self.has_room(len) {
            return Ok(());
        }
        match self.checkpoint() {
            Ok(_) => Ok(()),
            Err(error) => Err(error),
        }
    }

    // Appends the line of a command that the maps are ready for, and then changes them.
    fn record(&mut self, line: &[u8], ready: Ready) -> Result<u32, ProjectError>
        requires reopen { self.old.must_reopen ≡ false }
        requires short { length line.now ≤ 256 }
        requires room { ¬ IsAbove self.old.room (length line.now) }
        requires line { line.now ≡ project_spelling ready.command }
        requires ready { readiness.CanCommit self.old.maps ready.command }
        requires accepted { step (project_of self.old.maps) ready.command self.old.cap
            ≡ Ok (
              project_after (project_of self.old.maps) ready.command,
              project_number_of (project_of self.old.maps) ready.command,
            ) }
        ensures device { IfErr result (λ e. e ≡ ProjectError.Device) }
        ensures ends { EndsApply D.Disk result self.old self.new line.now }
        ensures generation { OnOk result (self.new.generation ≡ self.old.generation) }
        ensures later { D.failures self.old.disk ≤ D.failures self.new.disk }
        ensures any_moment { LeavesOnly D.Disk self.old.disk self.new.disk
            (IsOutcome self.old.cap (project_of self.old.maps) line.now) }
        ensures cap { self.new.cap ≡ self.old.cap }
        ensures journal { self.new.journal ≡ self.old.journal }
        ensures kept { IsProjectKept D.Disk self.new }
    {
        match self.journal.append(&mut self.disk, line) {
            Ok(()) => Ok(commit(&mut self.maps, ready)),
            Err(JournalError::Device) => {
                self.must_reopen = true;
                Err(ProjectError::Device)
            }
            Err(_) => unreachable!(),
        }
    }

    /// Applies the command that a line is. The command is on the disk before its number is returned.
    ///
    /// After a `Device` the maps are as before, and each call is refused with `Reopen` until the file is opened again.
    pub fn apply(&mut self, line: &[u8]) -> Result<u32, ProjectError>
        // The refusal is `GenerationsSpent`, or before it `OutOfMemory`, if an accepted line finds neither room nor a
        // generation left.
        ensures spent { self.old.must_reopen ≡ false → IsAbove self.old.room (length line.now)
            → self.old.generation ≡ 2 ^ 64 - 1 → (new : ProjectMaps)
            → LeadsTo self.old.cap (project_of self.old.maps) line.now new
            → IsErrOf result ProjectError.GenerationsSpent
            ⊎ IsErrOf result ProjectError.OutOfMemory }
        ensures ends { EndsApply D.Disk result self.old self.new line.now }

        // A stop at any moment of the call leaves the old maps, or those that the line leads to.
        ensures any_moment { self.old.must_reopen ≡ false
            → LeavesOnly D.Disk self.old.disk self.new.disk
            (IsOutcome self.old.cap (project_of self.old.maps) line.now) }

        // A refusal other than `Device` leaves the maps alone at every moment.
        ensures refused_moment { IfErr result (λ e. self.old.must_reopen ≡ false
            → (e ≡ ProjectError.Device)
            ⊎ LeavesOnly D.Disk self.old.disk self.new.disk
            (StandsFor self.old.cap (project_of self.old.maps))) }
        ensures untouched { IfErr result (λ e. (e ≡ ProjectError.Device)
            ⊎ ((self.new.disk ≡ self.old.disk) × (self.new.generation ≡ self.old.generation))) }

        // Memory can run out only for a command that adds items, or if a checkpoint has to come first.
        ensures memory { IsErrOf result ProjectError.OutOfMemory → CanLack self.old.room line.now }

        // A checkpoint is made exactly if the journal has no room.
        ensures turned { OnOk result (TurnsWhereFull self.old self.new (length line.now)) }

        // Each image now stands for the map, unless the project must be opened again.
        ensures kept { IsProjectKept D.Disk self.new }
        ensures cap { self.new.cap ≡ self.old.cap }
        ensures journal { self.new.journal ≡ self.old.journal }
    {
        if self.must_reopen {
            return Err(ProjectError::Reopen);
        }
        let command = match parse(line) {
            Ok(command) => command,
            Err(error) => return Err(refusal_of(error)),
        };
        let ready = match ready(&mut self.maps, &command, self.geometry.cap()) {
            Ok(ready) => ready,
            Err(error) => return Err(refusal_of(error)),
        };
        match self.make_room(line.len()) {
            Ok(()) => {}
            Err(error) => return Err(error),
        }
        self.record(line, ready)
    }
}
