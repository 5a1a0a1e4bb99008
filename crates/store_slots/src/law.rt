//! Laws about what the bytes of two slots stand for. The functions' bodies are empty: their contracts are the laws.
ghost use Rattle.std.specs.Prelude.{◌≡◌, ◌<◌, List, ℕ};
ghost use Rattle.store_disk.specs.Files.{KeepsOutside};
ghost use Rattle.store_disk.specs.declared.area.Area.{Area};
ghost use Rattle.store_disk.specs.Areas.{IsApart};
ghost use Rattle.store_slots.specs.Bodies.{IsLive};
ghost use Rattle.store_slots.specs.Damage.{AreBlank, AreSlotsDamagedAt};

/// Two slots have at most one live slot, generation and body, and are damaged at most at one offset. No two of
/// live, damaged and blank hold at once.
pub fn stand_for_one_body()
    ensures one { (a b : Area) (g h : ℕ) (x y file : List ℕ)
        → IsLive a b g x file → IsLive a b h y file → (g ≡ h) × (x ≡ y) }
    ensures one_slot { (a b : Area) (g h : ℕ) (x y file : List ℕ)
        → IsLive a b g x file → ¬ IsLive b a h y file }
    ensures place { (a b : Area) (p q : ℕ) (file : List ℕ)
        → AreSlotsDamagedAt a b p file → AreSlotsDamagedAt a b q file → p ≡ q }
    ensures not_damaged { (a b : Area) (g p : ℕ) (x file : List ℕ)
        → IsLive a b g x file → ¬ AreSlotsDamagedAt a b p file }
    ensures nor_damaged { (a b : Area) (g p : ℕ) (x file : List ℕ)
        → IsLive b a g x file → ¬ AreSlotsDamagedAt a b p file }
    ensures not_blank { (a b : Area) (g : ℕ) (x file : List ℕ) → IsLive a b g x file
        → ¬ AreBlank a b file }
    ensures nor_blank { (a b : Area) (g : ℕ) (x file : List ℕ) → IsLive b a g x file
        → ¬ AreBlank a b file }
    ensures nor_both { (a b : Area) (p : ℕ) (file : List ℕ) → AreBlank a b file
        → ¬ AreSlotsDamagedAt a b p file }
{}

/// What the bytes of two slots stand for depends only on these bytes.
pub fn stand_by_themselves()
    ensures kept { (live other : Area) (generation : ℕ) (body : List ℕ) (at n : ℕ)
        (old new : List ℕ)
        → 0 < other.length → IsApart live at n → IsApart other at n → KeepsOutside at n old new
        → IsLive live other generation body old → IsLive live other generation body new }
{}
