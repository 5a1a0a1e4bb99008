//! What is wrong or unfinished in a map.
#![tactic(auto)]

mod corners;
mod error;
mod finding;
mod report;
mod start;
mod textures;
mod unused;

pub use error::CheckError;
pub use finding::{Finding, Texture};
pub use report::check;
