//! Why a text could not be written.
ghost use Rattle.std.specs.Prelude.{◌≡◌};

use std::io::{self, ErrorKind};
use thiserror::Error;

/// The writer failed: any part of the text may have been written.
#[derive(Clone, Copy, Debug, PartialEq, Eq, Error)]
#[error("the writer failed")]
pub struct WriterFailed;

impl WriterFailed {
    /// The refusal's number: 38.
    pub fn code(&self) -> u16
        ensures { result ≡ 38 }
    {
        38
    }
}

impl From<io::Error> for WriterFailed {
    fn from(_error: io::Error) -> WriterFailed {
        WriterFailed
    }
}

impl From<WriterFailed> for io::Error {
    fn from(_failed: WriterFailed) -> io::Error {
        io::Error::from(ErrorKind::Other)
    }
}
