//! A project file, onto which a script is drawn. Its commands wait in a group, and go to the disk together.
ghost use Rattle.std.specs.Prelude.{◌≡◌, ◌⊎◌, ℕ, List, None, Some, Ok, Err, true, false, Result, IfSome, MatchOption, length};
ghost use Rattle.store_journal.specs.State.{IsAbove};
ghost use Rattle.store_project.specs.Groups.{IsFullFor, IsGroupFor};
ghost use Rattle.run_edit.specs.Editing.{outcome_in};
ghost use Rattle.run_edit.specs.Groups.{IsEmptyFor};
ghost use Rattle.store_project.specs.declared.error.ProjectError.{ProjectError};
ghost use Rattle.run_canvas.specs.Canvases.{is_query_line};

mod room;

use crate::asking::{is_query_line, tell_of};
use crate::canvas::Canvas;
use crate::error::ScriptError;
use map_tables::Maps;
use std::alloc::Global;
use std::io::Write;
use std::marker::Model;
use store_disk::Disk;
use store_project::{Project, ProjectError, ProjectGroup};

// How many bytes of lines may wait before the next line is begun.
const MOST_STAGED: usize = 65_536;

/// A project onto which a script is drawn. Accepted commands wait in a group, which goes to the disk at once: before
/// the answer to a query is written, where the next line is begun behind 64 KB of commands, where the journal has no
/// room for the next command or for all commands of the next shape, and at the script's end. A command that finds no
/// memory for a group is put by itself; a shape whose commands find none is refused (31).
pub struct ProjectCanvas<D: Disk> {
    project: Project<D>,
    group: Option<ProjectGroup>,
    spare: Option<ProjectGroup>,
    staged: usize,
    is_alone: bool,
    holds_earlier: bool,
    has_lost: bool,
}

impl<D: Disk> Model for ProjectCanvas<D> {
    ghost use Rattle.run_canvas.specs.Waiting.{Drawing};
    ghost use Rattle.run_canvas.specs.Drawings.{IsSoundDrawing, drawing_of};

    ghost Value = { Drawing D };

    ghost view = { drawing_of };

    ghost invariant = { IsSoundDrawing };
}

// The outcome of a line: its number, or the refusal's code.
fn outcome_in(answer: Result<u32, ProjectError>) -> Result<u32, u16>
    ensures { result ≡ outcome_in answer }
{
    match answer {
        Ok(number) => Ok(number),
        Err(error) => Err(error.code()),
    }
}

// An empty group, if there is memory for one: the one that is kept, or else a new one.
fn empty_group<D: Disk>(project: &Project<D>, spare: Option<ProjectGroup>) -> Option<ProjectGroup>
    requires { IfSome spare (IsEmptyFor project.now) }
    ensures begun { IfSome result (IsEmptyFor project.now) }
    ensures none { result ≡ None → spare ≡ None }
{
    match spare {
        Some(group) => Some(group),
        None => match project.begin_group() {
            Ok(group) => Some(group),
            Err(_) => None,
        },
    }
}

impl<D: Disk> ProjectCanvas<D> {
    ghost use Rattle.store_project.specs.Calls.{Applies};
    ghost use Rattle.run_canvas.specs.Canvases.{NothingWaits, project_canvas};
    ghost use Rattle.run_canvas.specs.Waiting.{CannotWait, IsApplied, IsUnchanged, Loses, Settles, Stages, first_drawing};

    /// A project onto which nothing is drawn yet.
    pub fn new(project: Project<D>) -> Self
        ensures first { result ≡ first_drawing project }
        ensures settled { NothingWaits (project_canvas D.Disk) result }
    {
        ProjectCanvas {
            project,
            group: None,
            spare: None,
            staged: 0,
            is_alone: false,
            holds_earlier: false,
            has_lost: false,
        }
    }

    /// The project. What waits is dropped.
    pub fn into_project(self) -> Project<D>
        ensures { result ≡ self.project }
    {
        let ProjectCanvas {
            project: owned,
            group: _group,
            spare: _spare,
            staged: _,
            is_alone: _,
            holds_earlier: _,
            has_lost: _,
        } = self;
        owned
    }

    // Decides a line behind those of a group that waited, if the journal has room for it.
    fn stage_behind(&mut self, group: ProjectGroup, line: &[u8]) -> Option<Result<u32, u16>>
        requires together { self.old.is_alone ≡ false }
        requires ready { self.old.project.must_reopen ≡ false }
        requires group { IsGroupFor self.old.project group }
        ensures staged { MatchOption result
            (IsUnchanged (record self.old { group = Some group }) self.new)
            (λ outcome. Stages (record self.old { group = Some group }) line.now outcome self.new) }
        ensures full { result ≡ None → IsFullFor self.old.project group line.now }
    {
        let mut group = group;
        let staged = self.project.stage(&mut group, line);
        self.group = Some(group);
        match staged {
            Ok(Some(number)) => {
                self.staged = self.staged.saturating_add(line.len());
                Some(Ok(number))
            }
            Ok(None) => None,
            Err(error) => Some(Err(error.code())),
        }
    }

    // Decides a line in an empty group, if there is memory for one and the journal has room for the line.
    fn stage_first(&mut self, line: &[u8]) -> Option<Result<u32, u16>>
        requires together { self.old.is_alone ≡ false }
        requires none { self.old.group ≡ None }
        ensures staged { MatchOption result (IsUnchanged self.old self.new)
            (λ outcome. Stages self.old line.now outcome self.new) }
        ensures full { result ≡ None
            → IsAbove self.old.project.room (length line.now) ⊎ (self.old.has_spare ≡ false) }
    {
        let mut group = match empty_group(&self.project, self.spare.take()) {
            Some(group) => group,
            None => return None,
        };
        match self.project.stage(&mut group, line) {
            Ok(Some(number)) => {
                self.group = Some(group);
                self.staged = line.len();
                self.holds_earlier = false;
                Some(Ok(number))
            }
            Ok(None) => None,
            Err(error) => Some(Err(error.code())),
        }
    }

    // Decides a line behind those that wait, if it can wait too.
    fn stage(&mut self, line: &[u8]) -> Option<Result<u32, u16>>
        requires together { self.old.is_alone ≡ false }
        ensures staged { MatchOption result (IsUnchanged self.old self.new)
            (λ outcome. Stages self.old line.now outcome self.new) }
        ensures alone { result ≡ None → CannotWait self.old line.now }
    {
        match self.group.take() {
            Some(group) => self.stage_behind(group, line),
            None => self.stage_first(line),
        }
    }

    // Puts what waits. No empty group is kept then.
    fn put(&mut self) -> bool
        ensures settled { result ≡ true → Settles D.Disk self.old self.new
            × (self.new.is_alone ≡ self.old.is_alone) × (self.new.has_lost ≡ self.old.has_lost) }
        ensures lost { result ≡ false → Loses D.Disk self.old self.new }
        ensures spare { self.new.has_spare ≡ false }
    {
        self.spare = None;
        let Some(group) = self.group.take() else {
            return true;
        };
        match self.project.put(group) {
            Ok(()) => true,
            Err(_) => {
                self.has_lost = self.holds_earlier;
                false
            }
        }
    }

    // The same if it is due.
    fn put_if(&mut self, is_due: bool) -> bool
        ensures settled { result ≡ true
            → (self.new ≡ self.old) ⊎ Settles D.Disk self.old self.new }
        ensures lost { result ≡ false → Loses D.Disk self.old self.new }
    {
        if is_due { self.put() } else { true }
    }

    // Puts a line by itself.
    fn apply(&mut self, line: &[u8]) -> Result<u32, u16>
        requires none { self.old.group ≡ None }
        requires spare { self.old.has_spare ≡ false }
        ensures applied { (answer : Result ℕ ProjectError)
            × Applies D.Disk self.old.project line.now answer self.new.project
            × (result ≡ outcome_in answer) }
        ensures others { self.new ≡ record self.old { project = self.new.project } }
    {
        outcome_in(self.project.apply(line))
    }

    // Puts what waits, and then a line by itself.
    fn put_alone(&mut self, line: &[u8]) -> Result<u32, u16>
        ensures { IsApplied D.Disk self.old line.now result self.new
            ⊎ ((result ≡ Err 30) × Loses D.Disk self.old self.new) }
    {
        if !self.put() {
            return Err(ProjectError::Device.code());
        }
        self.apply(line)
    }
}

impl<D: Disk> Canvas for ProjectCanvas<D> {
    ghost use Rattle.run_canvas.specs.Canvases.{TellsBehind};
    ghost use Rattle.run_canvas.specs.Waiting.{BeginsLine, ChangesProject, Loses, Settles, drawn_maps};
    ghost use Rattle.run_canvas.specs.LossLaws.{lost_since};
    ghost use Rattle.run_canvas.specs.RoomLaws.{room_made, room_refused};
    ghost use Rattle.run_canvas.specs.Rooms.{MakesRoom};
    ghost use Rattle.run_canvas.specs.PutLaws.{alone_stays, lost_settled, lost_told, lost_within, nothing_told, settled_again, waited_before};

    ghost changes = { ChangesProject D.Disk };

    ghost maps_in = { drawn_maps };

    ghost cap_in = { λ d. d.project.cap };

    ghost is_query = { is_query_line };

    ghost tells = { TellsBehind D.Disk };

    ghost begins = { λ old place alone new. BeginsLine D.Disk old alone new };

    ghost makes_room = { MakesRoom D.Disk };

    ghost settles = { Settles D.Disk };

    ghost loses = { Loses D.Disk };

    ghost is_alone = { λ d. d.is_alone };

    ghost holds_earlier = { λ d. d.holds_earlier };

    ghost has_lost = { λ d. d.has_lost };

    fn change(&mut self, line: &[u8]) -> Result<u32, u16> {
        if self.is_alone {
            return self.put_alone(line);
        }
        match self.stage(line) {
            Some(outcome) => outcome,
            None => self.put_alone(line),
        }
    }

    fn maps(&self) -> &Maps {
        match &self.group {
            Some(group) => group.maps(),
            None => self.project.maps(),
        }
    }

    fn cap(&self) -> u32 {
        self.project.cap()
    }

    fn is_query(line: &[u8]) -> bool {
        is_query_line(line)
    }

    fn tell<W: Write>(
        &mut self,
        alloc: Global,
        line: &[u8],
        writer: &mut W,
    ) -> Result<Option<u16>, ScriptError> {
        let is_put = self.put();
        if !is_put {
            return Ok(Some(ProjectError::Device.code()));
        }
        if self.project.must_reopen() {
            return Ok(Some(ProjectError::Reopen.code()));
        }
        tell_of(alloc, self.project.maps(), line, writer)
    }

    fn begin_line(&mut self, _place: usize, alone: bool) -> bool {
        let is_due = alone || self.staged >= MOST_STAGED;
        if !self.put_if(is_due) {
            return false;
        }
        self.is_alone = alone;
        self.holds_earlier = self.group.is_some();
        self.has_lost = false;
        true
    }

    fn make_room(&mut self, lines: &[Vec<u8>]) -> Option<u16> {
        if self.is_alone {
            return None;
        }
        match self.clear_journal(lines) {
            Some(code) => Some(code),
            None => self.keep_spare(),
        }
    }

    fn settle(&mut self) -> bool {
        self.put()
    }

    fn holds_earlier(&self) -> bool {
        self.holds_earlier
    }

    fn has_lost(&self) -> bool {
        self.has_lost
    }

    ghost loss_since = { λ old new last line outcome. lost_since _ old new last line outcome };

    ghost loss_within = { λ old new line code. lost_within _ old new line code };

    ghost stays_alone = { λ old new line number. alone_stays _ old new line number };

    ghost told_all = { λ old new last line refusal u w.
        nothing_told _ old new last line refusal u w };

    ghost loss_told = { λ old new line code u w. lost_told _ old new line code u w };

    ghost begun = { λ old new place alone. waited_before _ old new alone };

    ghost room_made = { λ old new lines. room_made _ old new lines };

    ghost room_refused = { λ old new lines code. room_refused _ old new lines code };

    ghost lost_settled = { λ old new. lost_settled _ old new };

    ghost settled_again = { λ old mid new. settled_again _ old mid new };
}
