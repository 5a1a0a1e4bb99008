//! Why a request was refused, which status it answers, and the lines that say so.
#![tactic(auto)]

mod refusal;
mod status;
mod unbuilt;

pub use refusal::{Causes, Refusal, report, report_causes};
pub use status::{DONE, ended, status_after, status_in, status_told};
