//! Groups of commands: each is decided at once, and all of them go to the disk by one call.
ghost use Rattle.std.specs.Prelude.{◌≡◌, ◌≤◌, ◌⊎◌, ◌↔◌, ◌+◌, ◌-◌, ◌++◌, ◌∷◌, ℕ, List, [], false, true, All, map, length, nat_le, vec_items, IfOk, IfErr, IfSome, IsErrOf, OnErr, OnOk};
ghost use Rattle.store_disk.specs.Moments.{LeavesOnly};
ghost use Rattle.store_journal.specs.Groups.{IsGroupOf};
ghost use Rattle.store_journal.specs.Records.{records_bytes};
ghost use Rattle.store_journal.specs.State.{IsAbove};
ghost use Rattle.map_tables.specs.Projects.{body_len, project_of};
ghost use Rattle.map_commands.specs.ProjectCommands.{InProjectRange, project_spelling};
ghost use Rattle.map_commands.specs.ProjectLines.{Leads};

use crate::ProjectError;
use crate::error::refusal_of;
use crate::project::Project;
use map_commands::{ProjectCommand, apply, commit, parse, ready};
use map_tables::Maps;
use std::alloc::{AllocError, Global};
use std::marker::Model;
use std::mem;
use store_disk::Disk;
use store_journal::{Group, JournalError};

// How many bytes stand before a line in its record.
const HEAD: usize = 5;

/// Command lines that were accepted over the maps of a project, and the maps after them. Neither the project nor its
/// disk has them yet.
#[derive(Drop)]
pub struct ProjectGroup {
    maps: Maps,
    lines: Group,
    commands: Vec<ProjectCommand>,
}

impl Model for ProjectGroup {
    ghost use Rattle.store_project.specs.Groups.{GroupState};

    ghost Value = { GroupState };

    ghost view = { λ group. record { maps = group.maps; bytes = group.lines } };

    ghost use Rattle.store_project.specs.Fields.{IsGroupOfCommands};

    ghost invariant = { λ group. IsGroupOfCommands group.commands.items group.lines };
}

impl ProjectGroup {
    /// The maps after the group's lines.
    pub fn maps(&self) -> &Maps
        ensures { result.now ≡ self.now.maps }
    {
        &self.maps
    }

    // No lines, over these maps.
    fn over(alloc: Global, maps: Maps) -> Result<ProjectGroup, AllocError>
        ensures lines { IfOk result (λ group. IsGroupOf [] group.bytes) }
        ensures maps { IfOk result (λ group. group.maps ≡ maps) }
    {
        let lines = Group::new(alloc)?;
        let commands = Vec::new(alloc);
        Ok(ProjectGroup {
            maps,
            lines,
            commands,
        })
    }

    /// How many bytes the records of its lines take.
    pub fn records_len(&self) -> usize
        ensures { result ≡ length self.now.bytes - 1 }
    {
        self.lines.len() - 1
    }

    // Adds a command and the line that it is.
    fn push(&mut self, line: &[u8], command: ProjectCommand) -> Result<(), AllocError>
        requires line { line.now ≡ project_spelling command }
        requires range { InProjectRange command }
        requires short { length line.now ≤ 256 }
        ensures pushed { OnOk result ((lines : List (List ℕ)) → IsGroupOf lines self.old.bytes
            → IsGroupOf (lines ++ line.now ∷ []) self.new.bytes) }
        ensures stays { OnErr result (self.new.bytes ≡ self.old.bytes) }
        ensures maps { self.new.maps ≡ self.old.maps }
    {
        self.commands.push(command)?;
        match self.lines.push(line) {
            Ok(()) => Ok(()),
            Err(error) => {
                let _ = self.commands.pop();
                Err(error)
            }
        }
    }

    // A group of no lines over the maps that this one's lead to after its lines. `None` if there is no memory for it.
    fn caught_up(self, alloc: Global, cap: u32) -> Option<ProjectGroup>
        requires { body_len (project_of self.maps) ≤ cap }
        ensures lines { IfSome result (λ group. IsGroupOf [] group.bytes) }
        ensures led { IfSome result (λ group. (lines : List (List ℕ)) → IsGroupOf lines self.bytes
            → Leads cap (project_of self.maps) lines (project_of group.maps)) }
    {
        let ProjectGroup {
            mut maps,
            lines: _lines,
            commands,
        } = self;
        if !replay(&mut maps, &commands, cap) {
            return None;
        }
        match ProjectGroup::over(alloc, maps) {
            Ok(group) => Some(group),
            Err(_) => None,
        }
    }
}

// Does commands in turn. False if there was no memory for one of them, or one was refused.
fn replay(maps: &mut Maps, commands: &[ProjectCommand], cap: u32) -> bool
    requires range { All InProjectRange commands.now }
    requires fits { body_len (project_of maps.old) ≤ cap }
    ensures { result ≡ true → Leads cap (project_of maps.old) (map project_spelling commands.now)
        (project_of maps.new) }
{
    for command in commands {
        if apply(maps, command, cap).is_err() {
            return false;
        }
    }
    true
}

// Whether so many bytes have room for the records of these lines.
fn fit(lines: &[Vec<u8>], left: usize) -> bool
    ensures { result ≡ nat_le (length (records_bytes (map vec_items lines.now))) left }
{
    let mut left = left;
    for line in lines {
        if left < HEAD || left - HEAD < line.len() {
            return false;
        }
        left -= HEAD + line.len();
    }
    true
}

/// The same maps once more, by way of their body. Only lack of memory refuses it.
pub fn copy_of(alloc: Global, maps: &Maps) -> Result<Maps, AllocError>
    ensures { IfOk result (λ copy. project_of copy ≡ project_of maps.now) }
{
    let Ok(body) = maps.encode_body(alloc) else {
        return Err(AllocError);
    };
    match Maps::decode_body(alloc, &body) {
        Ok(copy) => Ok(copy),
        Err(_) => Err(AllocError),
    }
}

impl<D: Disk> Project<D> {
    ghost use Rattle.std.specs.Prelude.{List};
    ghost use Rattle.store_project.specs.Groups.{CanPut, EndsPut, EndsStage, IsGroupFor, LacksRoom, Staged, staged_after};
    ghost use Rattle.store_project.specs.Stands.{StandsForEither};
    ghost use Rattle.store_project.specs.States.{IsProjectKept};

    /// An empty group over the project's maps, which it copies.
    pub fn begin_group(&self) -> Result<ProjectGroup, ProjectError>
        ensures begun { IfOk result (λ group. CanPut self.now group []) }
        ensures reopen { IsErrOf result ProjectError.Reopen ↔ (self.now.must_reopen ≡ true) }
        ensures no_other { IfErr result
            (λ e. (e ≡ ProjectError.Reopen) ⊎ (e ≡ ProjectError.OutOfMemory)) }
    {
        if self.must_reopen {
            return Err(ProjectError::Reopen);
        }
        let Ok(maps) = copy_of(self.alloc, &self.maps) else {
            return Err(ProjectError::OutOfMemory);
        };
        match ProjectGroup::over(self.alloc, maps) {
            Ok(group) => Ok(group),
            Err(_) => Err(ProjectError::OutOfMemory),
        }
    }

    // Whether the journal has room for records of so many bytes and then for a line of so many.
    fn has_room_behind(&self, records: usize, len: usize) -> bool
        ensures full { result ≡ false → IsAbove self.now.room (records + len) }
        ensures room { result ≡ true → ¬ IsAbove self.now.room (records + len) }
    {
        match self.journal.room() {
            Some(room) => len <= room as usize && records <= room as usize - len,
            None => false,
        }
    }

    /// Whether the journal has room for the records of these lines, behind others that take so many bytes.
    pub fn has_room_for(&self, behind: usize, lines: &[Vec<u8>]) -> bool
        ensures full { result ≡ false → LacksRoom self.now behind (map vec_items lines.now) }
        ensures room { result ≡ true → ¬ LacksRoom self.now behind (map vec_items lines.now) }
    {
        match self.journal.room() {
            Some(room) => {
                let left = room as usize + HEAD;
                behind <= left && fit(lines, left - behind)
            }
            None => false,
        }
    }

    /// Decides the command that a line is over the maps of a group, and adds it to the group. It makes no device call.
    ///
    /// The answer is the command's number, or the refusal that `apply` would give over these maps. It is `None` if the
    /// line is accepted and the journal has no room for it behind the group's lines: then put the group and stage the
    /// line in a new one, or apply it if the group is empty. Without a number the group is as it was.
    pub fn stage(&self, group: &mut ProjectGroup, line: &[u8]) -> Result<Option<u32>, ProjectError>
        requires { IsGroupFor self.now group.old }
        ensures ends { EndsStage self.now result group.old group.new line.now }
        ensures can { (staged : List Staged) → CanPut self.now group.old staged
            → CanPut self.now group.new (staged_after staged line.now result) }
    {
        let command = match parse(line) {
            Ok(command) => command,
            Err(error) => return Err(refusal_of(error)),
        };
        let ready = match ready(&mut group.maps, &command, self.geometry.cap()) {
            Ok(ready) => ready,
            Err(error) => return Err(refusal_of(error)),
        };
        if !self.has_room_behind(group.lines.len() - 1, line.len()) {
            return Ok(None);
        }
        match group.push(line, command) {
            Ok(()) => Ok(Some(commit(&mut group.maps, ready))),
            Err(_) => Err(ProjectError::OutOfMemory),
        }
    }

    // Puts the lines of a group on the disk. Then its maps are the project's, and it has those that were the project's.
    fn exchange(&mut self, group: &mut ProjectGroup) -> Result<(), ProjectError>
        requires { IsGroupFor self.old group.old }
        ensures ends { EndsPut D.Disk result self.old self.new (project_of group.old.maps) }
        ensures any_moment { self.old.must_reopen ≡ false
            → LeavesOnly D.Disk self.old.disk self.new.disk
            (StandsForEither self.old.cap (project_of self.old.maps) (project_of group.old.maps)) }
        ensures kept { IsProjectKept D.Disk self.new }
        ensures cap { self.new.cap ≡ self.old.cap }
        ensures journal { self.new.journal ≡ self.old.journal }
        ensures before { OnOk result (project_of group.new.maps ≡ project_of self.old.maps) }
        ensures lines { group.new.bytes ≡ group.old.bytes }
        ensures fits { OnOk result (body_len (project_of self.old.maps) ≤ self.old.cap) }
    {
        if self.must_reopen {
            return Err(ProjectError::Reopen);
        }
        if group.lines.is_empty() {
            return Ok(());
        }
        match self.journal.append_all(&mut self.disk, &group.lines) {
            Ok(()) => {
                mem::swap(&mut self.maps, &mut group.maps);
                Ok(())
            }
            Err(JournalError::Device) => {
                self.must_reopen = true;
                Err(ProjectError::Device)
            }
            Err(_) => unreachable!(),
        }
    }

    /// Puts the lines of a group on the disk, by four device calls; after an `Ok` all of them are there, and its maps
    /// are the project's. An empty group takes no device call.
    ///
    /// After a `Device` the maps are as before, and each call is refused with `Reopen` until the file is opened again.
    /// There is no other refusal.
    pub fn put(&mut self, group: ProjectGroup) -> Result<(), ProjectError>
        requires { IsGroupFor self.old group }
        ensures ends { EndsPut D.Disk result self.old self.new (project_of group.maps) }

        // A stop at any moment of the call leaves the maps without the group's lines or with all of them.
        ensures any_moment { self.old.must_reopen ≡ false
            → LeavesOnly D.Disk self.old.disk self.new.disk
            (StandsForEither self.old.cap (project_of self.old.maps) (project_of group.maps)) }
        ensures kept { IsProjectKept D.Disk self.new }
        ensures cap { self.new.cap ≡ self.old.cap }
        ensures journal { self.new.journal ≡ self.old.journal }
    {
        let mut group = group;
        self.exchange(&mut group)
    }

    /// Puts the lines of a group on the disk as `put` does, and returns an empty group over the project's maps, unless
    /// there is no memory for it. That takes a step for each line, where `begin_group` copies the maps.
    pub fn put_and_begin(
        &mut self,
        group: ProjectGroup,
    ) -> Result<Option<ProjectGroup>, ProjectError>
        requires { IsGroupFor self.old group }
        ensures ends { EndsPut D.Disk result self.old self.new (project_of group.maps) }

        // A stop at any moment of the call leaves the maps without the group's lines or with all of them.
        ensures any_moment { self.old.must_reopen ≡ false
            → LeavesOnly D.Disk self.old.disk self.new.disk
            (StandsForEither self.old.cap (project_of self.old.maps) (project_of group.maps)) }
        ensures kept { IsProjectKept D.Disk self.new }
        ensures cap { self.new.cap ≡ self.old.cap }
        ensures journal { self.new.journal ≡ self.old.journal }
        ensures begun { IfOk result (λ next. IfSome next (λ empty. CanPut self.new empty [])) }
    {
        let mut group = group;
        match self.exchange(&mut group) {
            Ok(()) => {}
            Err(error) => return Err(error),
        }
        Ok(group.caught_up(self.alloc, self.geometry.cap()))
    }
}
