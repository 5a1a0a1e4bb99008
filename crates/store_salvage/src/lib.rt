//! What can be read of a damaged project: the maps after the journal's records up to the damage.
#![tactic(auto)]

mod bytes;
mod error;
mod header;
mod records;
mod replaying;
mod salvaging;
mod slots;

pub use error::SalvageError;
pub use salvaging::{Salvaged, salvage};
