//! Runs of numbers, each given by its first and its last.
ghost use Rattle.std.specs.Prelude.{◌≡◌};
ghost use Rattle.lump_records.specs.Runs.{is_among};

/// Whether the number lies in one of the runs.
pub fn is_among(runs: &[(i32, i32)], number: i32) -> bool
    ensures { result ≡ is_among runs.now number }
{
    runs.iter().any(|run| run.0 <= number && number <= run.1)
}
