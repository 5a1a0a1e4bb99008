//! Reads the records of a journal.
ghost use Rattle.std.specs.Prelude.{◌≡◌, ◌≤◌, ◌<◌, ◌⊎◌, ◌+◌, [], ◌∷◌, length, min, IfNone, IfSome};
ghost use Rattle.store_disk.specs.Files.{HasAt};
ghost use Rattle.store_disk.specs.Gates.{open_gate, IsClosedAt};
ghost use Rattle.store_journal.specs.Damage.{IsBadRecord};
ghost use Rattle.store_journal.specs.Records.{record_bytes};

use crate::bytes::{length_at, part};
use store_disk::{Area, OPEN_GATE};

/// How many bytes of a record are before its payload: the gate and the length.
pub const HEAD: usize = 5;

// The size of a record with an empty payload, and the gate after it.
const LEAST: usize = 6;

// The greatest length of a payload.
const LONGEST: usize = 256;

// The payload of the record at an open gate; `None` if the record is bad. The file or the area ends at `end`.
fn read_open_record(file: &[u8], area: Area, place: usize, end: usize) -> Option<&[u8]>
    requires inside { place < end }
    requires ends { end ≡ min (length file.now) (area.base + area.length) }
    requires is_open { HasAt place (open_gate ∷ []) file.now }
    ensures found { IfSome result (λ payload. HasAt place (record_bytes payload.now) file.now) }
    ensures fits { IfSome result (λ payload.
        (length payload.now ≤ 256) × (place + 6 + length payload.now ≤ end)) }
    ensures bad { IfNone result (IsBadRecord area place file.now) }
{
    if end - place < LEAST {
        return None;
    }
    let len = length_at(file, place + 1) as usize;
    if len > LONGEST || len > end - place - LEAST {
        return None;
    }
    Some(part(file, place + HEAD, len))
}

/// The payload of the record whose gate is at offset `place`; `None` if that gate is closed or the record is bad.
/// The file or the area ends at `end`.
pub fn read_record(file: &[u8], area: Area, place: usize, end: usize) -> Option<&[u8]>
    requires inside { place < end }
    requires ends { end ≡ min (length file.now) (area.base + area.length) }
    ensures found { IfSome result (λ payload. HasAt place (record_bytes payload.now) file.now) }
    ensures fits { IfSome result (λ payload.
        (length payload.now ≤ 256) × (place + 6 + length payload.now ≤ end)) }
    ensures none { IfNone result (IsClosedAt place file.now ⊎ IsBadRecord area place file.now) }
{
    if file[place] == OPEN_GATE {
        read_open_record(file, area, place, end)
    } else {
        None
    }
}
