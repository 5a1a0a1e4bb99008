//! The container of a WAD: what its directory and its lumps are, and how one is written.
#![tactic(auto)]

mod buffer;
mod entry;
mod error;
mod fields;
mod list;
mod names;
mod source;
mod wad;
mod writer;

pub use buffer::{ByteBuffer, write_zeros};
pub use entry::Entry;
pub use error::{CopyFailed, SourceFailed, WadError};
pub use fields::{long_at, name_at};
pub use list::LumpList;
pub use names::is_asked;
pub use source::Source;
pub use wad::Wad;
pub use writer::WadWriter;
