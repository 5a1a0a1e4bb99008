//! A map of a level that another editor drew.
#![tactic(auto)]

mod change;
mod changes;
mod counts;
mod error;
mod import;
mod laws;
mod lists;
mod mended;
mod needs;
mod tables;
mod vertices;

pub use change::Change;
pub use error::ImportError;
pub use import::{Imported, import_drawn, import_level};
pub use laws::keep_untold_lists;
