//! Why a dump could not be written, and the number of each refusal.
use thiserror::Error;

/// Why a dump could not be written.
#[derive(Clone, Copy, Debug, PartialEq, Eq, Error)]
pub enum DumpError {
    #[error("the writer failed")]
    WriterFailed,
    /// There was no memory for a line.
    #[error("out of memory")]
    OutOfMemory,
}

impl DumpError {
    ghost use Rattle.std.specs.Prelude.{◌≡◌};
    ghost use Rattle.map_dump.specs.Errors.{code_of};

    /// The refusal's number: 38 or 31.
    pub fn code(&self) -> u16
        ensures { result ≡ code_of self.now }
    {
        match self {
            DumpError::WriterFailed => 38,
            DumpError::OutOfMemory => 31,
        }
    }
}
