//! Tells which lines of a script are refused: the first one, and further ones, for which it is drawn again without
//! those before.
#![tactic(auto)]

mod further;
mod told;

pub use further::further_told;
pub use told::stop_told;
