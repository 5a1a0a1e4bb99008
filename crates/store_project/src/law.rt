//! Laws of what the bytes of a project file stand for. The functions have no bodies: their contracts are the laws.
ghost use Rattle.std.specs.Prelude.{◌≡◌, List, ℕ};
ghost use Rattle.map_tables.specs.Projects.{ProjectMaps};
ghost use Rattle.store_project.specs.Damage.{HasBadGeometry, IsBlank, IsProjectDamagedAt, IsForeign};
ghost use Rattle.store_project.specs.Stands.{Stands};

/// The bytes of a file stand for at most one map with one generation, and fix how long a body may be.
pub fn stand_for_one_map()
    ensures { (file : List ℕ) (cap limit : ℕ) (map other : ProjectMaps) (g h : ℕ)
        → Stands cap map g file → Stands limit other h file → (cap ≡ limit) × (map ≡ other)
        × (g ≡ h) }
{}

/// At most one of these holds of the bytes of a file: they stand for a map, no slot is open, they are damaged at one
/// place, the geometry is outside its limits, or they are not a project file.
pub fn exclude_one_another()
    ensures stands_blank { (file : List ℕ) (cap : ℕ) (map : ProjectMaps) (g : ℕ)
        → Stands cap map g file → ¬ IsBlank file }
    ensures stands_damaged { (file : List ℕ) (cap : ℕ) (map : ProjectMaps) (g place : ℕ)
        → Stands cap map g file → ¬ IsProjectDamagedAt place file }
    ensures stands_bad { (file : List ℕ) (cap : ℕ) (map : ProjectMaps) (g : ℕ)
        → Stands cap map g file → ¬ HasBadGeometry file }
    ensures stands_foreign { (file : List ℕ) (cap : ℕ) (map : ProjectMaps) (g : ℕ)
        → Stands cap map g file → ¬ IsForeign file }
    ensures blank_damaged { (file : List ℕ) (place : ℕ) → IsBlank file
        → ¬ IsProjectDamagedAt place file }
    ensures blank_bad { (file : List ℕ) → IsBlank file → ¬ HasBadGeometry file }
    ensures blank_foreign { (file : List ℕ) → IsBlank file → ¬ IsForeign file }
    ensures damaged_once { (file : List ℕ) (p q : ℕ)
        → IsProjectDamagedAt p file → IsProjectDamagedAt q file → p ≡ q }
    ensures damaged_bad { (file : List ℕ) (place : ℕ) → IsProjectDamagedAt place file
        → ¬ HasBadGeometry file }
    ensures damaged_foreign { (file : List ℕ) (place : ℕ)
        → IsProjectDamagedAt place file → ¬ IsForeign file }
    ensures bad_foreign { (file : List ℕ) → HasBadGeometry file → ¬ IsForeign file }
{}
