//! Laws about what is built: what a built PWAD reads back as, and that a map has one. The functions' bodies are empty:
//! their contracts are the laws.
ghost use Rattle.std.specs.Prelude.{◌≡◌, ℕ, List, None};
ghost use Rattle.lump_records.specs.Names.{name_text};
ghost use Rattle.map_tables.specs.Tables.{Tables};
ghost use Rattle.wad_build.specs.Audit.{first_fault};
ghost use Rattle.wad_levels.specs.Levels.{IsLevel, Lumps};
ghost use Rattle.wad_build.specs.Projects.{HoldsOnly};
ghost use Rattle.wad_build.specs.Sound.{IsBuiltLevel, IsSoundBuild, IsSoundLevel};
ghost use Rattle.wad_levels.specs.Views.{RefusesLevel};
ghost use Rattle.wad_levels.specs.declared.error.ReadError.{ReadError};

/// `read_level` of the bytes of a sound build returns a sound level of the map, or memory runs out; `audit` finds
/// no fault in that level.
pub fn sound_builds_read_back()
    ensures read { (m : Tables) (wad : List ℕ) (level : Lumps)
        → IsSoundBuild m wad → IsLevel wad (name_text m.name) level → IsSoundLevel m level }
    ensures memory { (m : Tables) (wad : List ℕ) (e : ReadError)
        → IsSoundBuild m wad → RefusesLevel wad (name_text m.name) e → e ≡ ReadError.OutOfMemory }
    ensures no_fault { (m : Tables) (level : Lumps)
        → IsSoundLevel m level → first_fault level ≡ None }
{}

/// A map has one built level, and maps have one PWAD: the contract of `build_all` leaves no byte of it open.
pub fn maps_have_one_build()
    ensures level { (m : Tables) (a b : Lumps) → IsBuiltLevel m a → IsBuiltLevel m b → a ≡ b }
    ensures bytes { (ms : List Tables) (a b : List ℕ) → HoldsOnly ms a → HoldsOnly ms b → a ≡ b }
{}
