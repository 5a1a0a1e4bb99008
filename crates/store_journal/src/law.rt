//! Laws of what the bytes of an area stand for. The functions have no bodies: their contracts are the laws.
ghost use Rattle.std.specs.Prelude.{◌≡◌, ◌<◌, ◌≤◌, ◌+◌, [], List, ℕ, length};
ghost use Rattle.store_disk.specs.Areas.{IsApart};
ghost use Rattle.store_disk.specs.Files.{KeepsOutside};
ghost use Rattle.store_disk.specs.Gates.{IsClosedAt};
ghost use Rattle.store_disk.specs.declared.area.Area.{Area};
ghost use Rattle.store_journal.specs.Damage.{IsJournalDamagedAt};
ghost use Rattle.store_journal.specs.Records.{IsJournal};

/// An area's bytes stand for at most one list of payloads, are damaged at most at one place, and are never both.
pub fn stand_for_one_list()
    ensures list { (area : Area) (file : List ℕ) (ps qs : List (List ℕ))
        → IsJournal area ps file → IsJournal area qs file → ps ≡ qs }
    ensures place { (area : Area) (file : List ℕ) (p q : ℕ)
        → IsJournalDamagedAt area p file → IsJournalDamagedAt area q file → p ≡ q }
    ensures not_both { (area : Area) (file : List ℕ) (ps : List (List ℕ)) (p : ℕ)
        → IsJournal area ps file → ¬ IsJournalDamagedAt area p file }
{}

/// What an area's bytes stand for depends on these bytes alone: a change outside the area doesn't affect it. If the
/// first gate is closed, they stand for the empty list.
pub fn stand_by_themselves()
    ensures kept { (area : Area) (payloads : List (List ℕ)) (at n : ℕ) (old new : List ℕ)
        → IsApart area at n → KeepsOutside at n old new
        → IsJournal area payloads old → IsJournal area payloads new }
    ensures none { (area : Area) (file : List ℕ)
        → 0 < area.length → IsClosedAt area.base file → IsJournal area [] file }
{}

/// If an area stands for a list of payloads, its first gate lies in the file, and is closed if the list is empty. A
/// damaged place lies in its area.
pub fn begin_in_their_area()
    ensures first { (area : Area) (payloads : List (List ℕ)) (file : List ℕ)
        → IsJournal area payloads file → (0 < area.length) × (area.base < length file) }
    ensures closed { (area : Area) (file : List ℕ) → IsJournal area [] file
        → IsClosedAt area.base file }
    ensures place { (area : Area) (file : List ℕ) (place : ℕ) → 0 < area.length
        → IsJournalDamagedAt area place file
        → (area.base ≤ place) × (place < area.base + area.length) }
{}
