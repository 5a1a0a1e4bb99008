//! Why bytes are no WAD, and why a WAD isn't written.
use lump_text::WriterFailed;
use thiserror::Error;

/// Why bytes are no WAD, in the order in which it is told. Callers give the number of their own refusal.
#[derive(Clone, Copy, Debug, PartialEq, Eq, Error)]
pub enum WadError {
    #[error("the file is no WAD")]
    NotAWad,
    #[error("the directory ends beyond the file")]
    DirectoryOutside,
}

/// A source doesn't give the bytes at a place.
#[derive(Clone, Copy, Debug, PartialEq, Eq, Error)]
#[error("the source failed")]
pub struct SourceFailed;

/// Why bytes aren't copied from a source to a writer. Any part of them may have been written.
#[derive(Clone, Copy, Debug, PartialEq, Eq, Error)]
pub enum CopyFailed {
    #[error("the source failed")]
    Source,
    #[error("the writer failed")]
    Writer,
}

impl From<WriterFailed> for CopyFailed {
    fn from(_failed: WriterFailed) -> CopyFailed {
        CopyFailed::Writer
    }
}
