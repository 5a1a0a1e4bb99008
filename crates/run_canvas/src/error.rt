//! Why the drawing of a script was cut off, and the number of the refusal.
use thiserror::Error;

/// Why the drawing of a script was cut off, though none of its lines was refused.
#[derive(Clone, Copy, Debug, PartialEq, Eq, Error)]
pub enum ScriptError {
    #[error("out of memory")]
    OutOfMemory,
    #[error("the writer failed")]
    WriterFailed,
}

impl ScriptError {
    ghost use Rattle.std.specs.Prelude.{◌≡◌};
    ghost use Rattle.run_canvas.specs.Errors.{code_of};

    /// The number of the refusal.
    pub fn code(&self) -> u16
        ensures { result ≡ code_of self.now }
    {
        match self {
            ScriptError::OutOfMemory => 31,
            ScriptError::WriterFailed => 38,
        }
    }
}
