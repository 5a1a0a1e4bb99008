//! The editor: reads input lines and writes their answers.
#![tactic(auto)]

mod answers;
mod batch;
mod build_queries;
mod counted_wad;
mod drawing;
mod editing;
mod error;
mod fate;
mod findings;
mod hex;
mod input_line;
mod inspection;
mod limits;
mod listing;
mod lump;
mod outcome;
mod outcomes;
mod project_run;
mod query;
mod reading;
mod recovery;
mod retrying;
mod session;
mod spoken;

pub use answers::write_answer;
pub use counted_wad::{write_counts, write_wad};
pub use drawing::{Drawing, run_in_memory};
pub use editing::answer;
pub use error::{EditorError, InspectError, RecoveryError, WriteError};
pub use findings::{write_findings, write_total};
pub use input_line::InputLine;
pub use inspection::inspect;
pub use limits::LONGEST_BODY;
pub use lump::{BuiltLump, Lump};
pub use project_run::run;
pub use query::{Query, read_query};
pub use recovery::{Recovery, build_after_any_stop, sessions_hold_runs};
pub use retrying::read_retrying;
pub use spoken::Spoken;
pub use wad_build::BuildCounts as Counts;
