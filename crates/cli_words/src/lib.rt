//! The program's arguments: the command line that clap reads, and what the arguments ask for.
#![tactic(auto)]

mod app;
mod asked;
mod command_line;
mod help;
mod lint_words;
mod picture_words;
mod rule_words;
mod topic;

pub use asked::{Request, RequestError};
pub use command_line::request;
pub use help::{CODES, SCRIPTS};
pub use rule_words::RULE_WORDS;
pub use topic::Topic;
