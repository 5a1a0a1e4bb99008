//! Why nothing can be salvaged, and the number of each refusal.
use std::fmt;
use thiserror::Error;

/// Why no maps can be read from a file.
#[derive(Clone, Copy, Debug, PartialEq, Eq, Error)]
pub enum SalvageError {
    /// `place` is the offset in the file of the slot that can't be read.
    Damaged { place: u64 },
    Blank,
    NotAProject,
    BadGeometry,
    OutOfMemory,
}

// One call writes each fixed text, so that the proof has one call to follow.
impl fmt::Display for SalvageError {
    ghost use Rattle.std.specs.Prelude.{Some};
    ghost use Rattle.store_salvage.specs.Refusals.{message_of};

    ghost output = { λ e. Some (message_of e) };

    fn fmt<W: fmt::Write>(&self, f: &mut fmt::Formatter<W>) -> fmt::Result {
        let text = match self {
            SalvageError::Damaged { place } => return write!(f, "damaged at {place}"),
            SalvageError::Blank => "no slot is open",
            SalvageError::NotAProject => "not a project",
            SalvageError::BadGeometry => "a length is outside its limits",
            SalvageError::OutOfMemory => "out of memory",
        };
        f.write_str(text)
    }
}

impl SalvageError {
    ghost use Rattle.std.specs.Prelude.{◌≡◌};
    ghost use Rattle.store_salvage.specs.Refusals.{code_of};

    /// The refusal's number.
    pub fn code(&self) -> u16
        ensures { result ≡ code_of self.now }
    {
        match self {
            SalvageError::Damaged { .. } => 40,
            SalvageError::Blank => 41,
            SalvageError::NotAProject => 42,
            SalvageError::BadGeometry => 44,
            SalvageError::OutOfMemory => 31,
        }
    }
}
