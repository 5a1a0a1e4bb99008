//! Room for commands that are to wait together: in the journal, and a group in memory.
ghost use Rattle.std.specs.Prelude.{◌≡◌, None, true, false, map, vec_items};

use crate::project_canvas::ProjectCanvas;
use std::alloc::Global;
use store_disk::Disk;
use store_project::ProjectError;

impl<D: Disk> ProjectCanvas<D> {
    ghost use Rattle.run_canvas.specs.Rooms.{BeginsGroup, ClearsJournal, LacksRoomFor, TurnsFor, waiting_len};

    // How many bytes of the journal what waits takes.
    fn waiting_len(&self) -> usize
        ensures { result ≡ waiting_len self.now.group }
    {
        match &self.group {
            Some(group) => group.records_len(),
            None => 0,
        }
    }

    // Whether the journal has room for these lines behind what waits.
    fn has_room_for(&self, lines: &[Vec<u8>]) -> bool
        ensures full { result ≡ false → LacksRoomFor self.now (map vec_items lines.now) }
        ensures room { result ≡ true → ¬ LacksRoomFor self.now (map vec_items lines.now) }
    {
        self.project.has_room_for(self.waiting_len(), lines)
    }

    // Empties the journal by a checkpoint, unless it has room for these lines. Returns the code of a refusal.
    fn turn_for(&mut self, lines: &[Vec<u8>]) -> Option<u16>
        requires none { self.old.group ≡ None }
        requires spare { self.old.has_spare ≡ false }
        ensures { TurnsFor D.Disk self.old (map vec_items lines.now) result self.new }
    {
        if self.has_room_for(lines) {
            return None;
        }
        match self.project.checkpoint() {
            Ok(_) => None,
            Err(error) => Some(error.code()),
        }
    }

    // Clears the journal for these lines: puts what waits and empties it, unless it has room for them.
    pub(crate) fn clear_journal(&mut self, lines: &[Vec<u8>]) -> Option<u16>
        ensures { ClearsJournal D.Disk self.old (map vec_items lines.now) result self.new }
    {
        if self.has_room_for(lines) {
            return None;
        }
        if !self.put() {
            return Some(ProjectError::Device.code());
        }
        self.turn_for(lines)
    }

    // Begins an empty group for commands that are to wait, if none do. Returns the code of a refusal.
    pub(crate) fn keep_spare(&mut self) -> Option<u16>
        ensures { BeginsGroup self.old result self.new }
    {
        if self.group.is_some() || self.spare.is_some() {
            return None;
        }
        match self.project.begin_group() {
            Ok(group) => {
                self.spare = Some(group);
                None
            }
            Err(error) => Some(error.code()),
        }
    }
}
