//! The status that the program answers: of a request, a run, findings and a level.
ghost use Rattle.std.specs.Prelude.{◌≡◌, ◌≤◌, IfOk, Result};
ghost use Rattle.cli_refusals.specs.Statuses.{run_end, status_after, status_in, status_told};

use crate::refusal::Refusal;
use run_edit::EditorError;

/// The status of a request that was done.
pub const DONE: u8 = 0;

// The status if maps have findings, a level has a fault, or a level was left.
const FOUND: u8 = 3;

// The status of a refused request.
const REFUSED: u8 = 1;

/// The status of a request that ended so.
pub fn status_in(how: &Result<u8, Refusal>) -> u8
    ensures status { result ≡ status_in how.now }
    ensures small { IfOk how.now (λ s. s ≤ 3) → result ≤ 3 }
{
    match how {
        Ok(status) => *status,
        Err(_) => REFUSED,
    }
}

/// The status after a run.
pub fn ended(run: Result<u64, EditorError>) -> Result<u8, Refusal>
    ensures ended { result ≡ run_end run }
    ensures small { IfOk result (λ s. s ≤ 3) }
{
    match run {
        Ok(_) => Ok(DONE),
        Err(error) => Err(Refusal::Lines(error)),
    }
}

/// The status after this many findings.
pub fn status_after(found: u32) -> u8
    ensures status { result ≡ status_after found }
    ensures small { result ≤ 3 }
{
    if found == 0 { DONE } else { FOUND }
}

/// The status that tells whether a level is sound.
pub fn status_told(sound: bool) -> u8
    ensures status { result ≡ status_told sound }
    ensures small { result ≤ 3 }
{
    if sound { DONE } else { FOUND }
}
