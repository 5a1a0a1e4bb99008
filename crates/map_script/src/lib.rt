//! Scripts that people write: cleans their lines, resolves the names in them, and says why a line can't be
//! resolved.
#![tactic(auto)]

mod at_lines;
mod cutting;
mod defining;
mod error;
mod files;
mod firsts;
mod frame;
mod held;
mod including;
mod kinds;
mod letting;
mod looping;
mod meaning;
mod names;
mod own_words;
mod placed;
mod placing;
mod reckoning;
mod reference;
mod referent;
mod resolving;
mod script;
mod sums;
mod text;
mod words;

pub use at_lines::{at_placing, at_words};
pub use defining::{call_words, define_fault, define_words, give_parameters};
pub use error::DrawError;
pub use files::ScriptFiles;
pub use firsts::{Firsts, ItemCounts, Numbers, counts_of, firsts_of, firsts_since};
pub use including::{include_words, includes_any, only_word};
pub use kinds::Misfit;
pub use letting::{give_words, let_words};
pub use looping::{Range, closes, loop_name, loop_range, loop_words, opens};
pub use meaning::Meaning;
pub use names::{Mark, Names};
pub use placing::{Facing, Placing};
pub use referent::{Answer, Referent, referent_of};
pub use resolving::{command_of, defined_name, misfit_in, resolve};
pub use script::{ScriptLine, ScriptLines, script_lines};
pub use words::first_word;
