//! The node builder: the tree over all sides of lines, or of a map's, with its vertices, segs, subsectors and nodes.
#![tactic(auto)]

mod built;
mod corners;
mod error;
mod growth;
mod kept;
mod laws;
mod open_tree;
mod orders;
mod parting;
mod placed;
mod pushing;
mod segs;
mod shape;
mod step;
mod subsectors;

pub use built::{Built, build_lines, build_tree};
pub use error::TreeError;
pub use laws::lines_have_one_build;
