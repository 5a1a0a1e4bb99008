//! What is asked for of a picture, and why there is none.
ghost use Rattle.std.specs.Prelude.{◌≡◌};
ghost use Rattle.map_picture.specs.Sheet.{has_margin, is_framed};
ghost use Rattle.map_picture.specs.declared.options.PictureError.TheVariants.{OutOfMemory};

use lump_records::Bounds;
use std::alloc::{AllocError, AllocFailed};
use thiserror::Error;

/// The options of a picture.
#[derive(Clone, Copy, Debug, PartialEq, Eq)]
pub struct PictureOptions {
    /// Whether the numbers of sectors, lines, vertices and things are shown beside them, as many as fit.
    pub numbers: bool,
    /// Whether each closed sector is filled by its floor's height, with a legend beside the map.
    pub heights: bool,
    /// Whether a grid of 64 units is under the map, with a scale beside it.
    pub grid: bool,
    /// The part of the map that the page shows, in place of the least box round all vertices and things with a margin.
    pub crop: Option<Bounds>,
}

/// Why there is no whole picture.
#[derive(Clone, Copy, Debug, PartialEq, Eq, Error)]
pub enum PictureError {
    /// There is no memory for the numbers or the filled sectors. Nothing was written.
    #[error("out of memory")]
    OutOfMemory,
    /// Any part of the picture may have been written.
    #[error("the writer failed")]
    WriterFailed,
}

impl From<AllocError> for PictureError {
    ghost from_gives = { λ _ e. e ≡ OutOfMemory };

    fn from(_e: AllocError) -> PictureError {
        PictureError::OutOfMemory
    }
}

impl<T: Drop> From<AllocFailed<T>> for PictureError {
    ghost from_gives = { λ _ e. e ≡ OutOfMemory };

    fn from(_e: AllocFailed<T>) -> PictureError {
        PictureError::OutOfMemory
    }
}

/// Whether the page has a margin on the right for a legend or a scale.
pub(crate) fn has_margin(options: PictureOptions) -> bool
    ensures { result ≡ has_margin options }
{
    options.heights || options.grid
}

/// Whether the map is drawn in a frame, outside of which nothing of it is seen.
pub(crate) fn is_framed(options: PictureOptions) -> bool
    ensures { result ≡ is_framed options }
{
    has_margin(options) || options.crop.is_some()
}
