//! Says which line of a script was refused, what was wrong with it, and in which blocks it stands.
#![tactic(auto)]

mod block_reasons;
mod call_reasons;
mod calling;
mod explaining;
mod forms;
mod kind_reasons;
mod open_blocks;
mod particulars;
mod reasons;
mod refused;
mod shape_reasons;
mod unfit;

pub use explaining::{explain, help_text};
pub use refused::{write_refused, write_refused_line};
