//! Replays the records of a journal up to the damage, and counts those after it.
ghost use Rattle.std.specs.Prelude.{◌≡◌, ◌≤◌, ◌<◌, ◌⊎◌, ◌+◌, ◌^◌, ℕ, true, false, Ok, length, min, IfErr, IfNone, IfOk, IfSome};
ghost use Rattle.map_tables.specs.Projects.{body_len, project_of};
ghost use Rattle.map_commands.specs.ProjectLines.{LeadsTo};
ghost use Rattle.store_salvage.specs.Replays.{IsDamageOf, IsReplayed};

use crate::error::SalvageError;
use crate::records::{HEAD, read_record};
use map_commands::{CommandError, apply, parse};
use map_tables::Maps;
use store_disk::{Area, OPEN_GATE};

/// The result of reading a journal. Offsets are those of the file.
#[derive(Clone, Copy)]
pub struct Replayed {
    /// How many records are kept.
    pub kept: u32,
    /// How many whole records follow the kept ones.
    pub behind: u32,
    /// The offset of the gate after the kept records.
    pub kept_to: u64,
    /// The offset where the gate after all whole records is, or should be.
    pub end: u64,
    /// Whether that gate exists and is closed.
    pub is_closed: bool,
}

// Applies a line of the journal to the maps. Returns false if the maps don't accept it; they are then unchanged.
fn advance(maps: &mut Maps, line: &[u8], cap: u32) -> Result<bool, SalvageError>
    requires { body_len (project_of maps.old) ≤ cap }
    ensures led { result ≡ Ok true
        → LeadsTo cap (project_of maps.old) line.now (project_of maps.new) }
    ensures not_led { result ≡ Ok false → (new : _)
        → ¬ LeadsTo cap (project_of maps.old) line.now new }
    ensures stays { result ≡ Ok false → project_of maps.new ≡ project_of maps.old }
    ensures fits { body_len (project_of maps.new) ≤ cap }
    ensures memory { IfErr result (λ e. e ≡ SalvageError.OutOfMemory) }
{
    let Ok(command) = parse(line) else {
        return Ok(false);
    };
    match apply(maps, &command, cap) {
        Ok(_) => Ok(true),
        Err(CommandError::OutOfMemory) => Err(SalvageError::OutOfMemory),
        Err(_) => Ok(false),
    }
}

// Applies the line if no line before it was lost, and returns whether the maps accepted it. Otherwise they are
// unchanged.
fn keeps(maps: &mut Maps, line: &[u8], cap: u32, behind: u32) -> Result<bool, SalvageError>
    requires { body_len (project_of maps.old) ≤ cap }
    ensures kept { result ≡ Ok true → (behind ≡ 0)
        × LeadsTo cap (project_of maps.old) line.now (project_of maps.new) }
    ensures lost { result ≡ Ok false → behind ≡ 0 → (new : _)
        → ¬ LeadsTo cap (project_of maps.old) line.now new }
    ensures stays { result ≡ Ok false → project_of maps.new ≡ project_of maps.old }
    ensures fits { body_len (project_of maps.new) ≤ cap }
    ensures memory { IfErr result (λ e. e ≡ SalvageError.OutOfMemory) }
{
    if behind > 0 {
        return Ok(false);
    }
    advance(maps, line, cap)
}

// Replays the records of an area. The file or the area ends at `end`.
fn replay(
    maps: &mut Maps,
    file: &[u8],
    area: Area,
    end: usize,
    cap: u32,
) -> Result<Replayed, SalvageError>
    requires fits { body_len (project_of maps.old) ≤ cap }
    requires inside { area.base < end }
    requires ends { end ≡ min (length file.now) (area.base + area.length) }
    ensures replayed { IfOk result
        (λ r. IsReplayed cap area (project_of maps.old) (project_of maps.new) r file.now) }
    ensures memory { IfErr result (λ e. e ≡ SalvageError.OutOfMemory) }
{
    let mut kept = 0;
    let mut behind = 0;
    let mut kept_to = area.base as usize;
    let mut next = kept_to;
    while let Some(line) = read_record(file, area, next, end) {
        next += HEAD + line.len();
        if keeps(maps, line, cap, behind)? {
            kept += 1;
            kept_to = next;
        } else {
            behind += 1;
        }
    }
    Ok(Replayed {
        kept,
        behind,
        kept_to: kept_to as u64,
        end: next as u64,
        is_closed: file[next] != OPEN_GATE,
    })
}

/// Replays the records of an area as long as the maps accept them, and counts the whole records after those.
pub fn read_journal(
    maps: &mut Maps,
    file: &[u8],
    area: Area,
    cap: u32,
) -> Result<Replayed, SalvageError>
    requires { body_len (project_of maps.old) ≤ cap }
    ensures replayed { IfOk result
        (λ r. IsReplayed cap area (project_of maps.old) (project_of maps.new) r file.now) }
    ensures memory { IfErr result (λ e. e ≡ SalvageError.OutOfMemory) }
{
    let base = area.base as usize;
    let end = file.len().min(base + area.length as usize);
    if base < end {
        return replay(maps, file, area, end, cap);
    }
    Ok(Replayed {
        kept: 0,
        behind: 0,
        kept_to: area.base,
        end: area.base,
        is_closed: false,
    })
}

impl Replayed {
    /// The offset at which opening would find the file damaged: the least offset of a bad gate, otherwise that of
    /// the first record that isn't kept; `None` if the file isn't damaged. The file has `len` bytes, and the other
    /// journal's first gate is at `other`.
    pub fn damage(self, len: u64, other: u64) -> Option<u64>
        ensures none { IfNone result
            ((self.is_closed ≡ true) × (other < len) × (self.behind ≡ 0)) }
        ensures place { IfSome result (IsDamageOf self len other) }
    {
        if !self.is_closed {
            return Some(if len <= other {
                self.end.min(other)
            } else {
                self.end
            });
        }
        if len <= other {
            return Some(other);
        }
        if self.behind > 0 {
            return Some(self.kept_to);
        }
        None
    }
}
