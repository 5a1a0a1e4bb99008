//! Where the parts of a project file stand.
ghost use Rattle.std.specs.Prelude.{◌≡◌, ◌≤◌, ◌↔◌, IsTrue};
ghost use Rattle.store_project.specs.Places.{IsAllowed, AreLaidOut, cap_of, which_parts};

use crate::geometry::Geometry;
use store_disk::Area;

/// The two slots of a file, followed by their journals.
#[derive(Clone, Copy)]
pub struct Places {
    pub a: Area,
    pub b: Area,
    pub first: Area,
    pub second: Area,
}

/// The live slot and the other one, each with its journal.
#[derive(Clone, Copy)]
pub struct Parts {
    pub live: Area,
    pub other: Area,
    pub journal: Area,
    pub other_journal: Area,
}

impl Geometry {
    // Whether both lengths are within the limits.
    pub fn is_allowed(self) -> bool
        ensures { IsTrue result ↔ IsAllowed self.slot self.journal }
    {
        is_within(self.slot, 33, 2_007_015) && is_within(self.journal, 512, 1_048_576)
    }

    // Where the parts of a file stand.
    pub fn places(self) -> Places
        requires { IsAllowed self.slot self.journal }
        ensures laid_out { AreLaidOut self result }
        ensures allowed { IsAllowed self.slot self.journal }
    {
        let slot = self.slot as u64;
        let journal = self.journal as u64;
        Places {
            a: Area {
                base: 16,
                length: self.slot,
            },
            b: Area {
                base: 16 + slot,
                length: self.slot,
            },
            first: Area {
                base: 16 + 2 * slot,
                length: self.journal,
            },
            second: Area {
                base: 16 + 2 * slot + journal,
                length: self.journal,
            },
        }
    }

    // The greatest length of a body, in bytes.
    pub fn cap(self) -> u32
        requires { 13 ≤ self.slot }
        ensures { result ≡ cap_of self }
    {
        self.slot - 13
    }
}

// Whether a length is within two limits.
fn is_within(length: u32, low: u32, high: u32) -> bool
    ensures { IsTrue result ↔ (low ≤ length) × (length ≤ high) }
{
    low <= length && length <= high
}

impl Places {
    // The parts of the file, if this slot is the live one.
    pub fn parts(self, slot: u8) -> Parts
        ensures { result ≡ which_parts self slot }
    {
        if slot == 0 {
            Parts {
                live: self.a,
                other: self.b,
                journal: self.first,
                other_journal: self.second,
            }
        } else {
            Parts {
                live: self.b,
                other: self.a,
                journal: self.second,
                other_journal: self.first,
            }
        }
    }
}
