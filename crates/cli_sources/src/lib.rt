//! Opens what a request is over: the project that a disk's bytes stand for, or its maps alone.
#![tactic(auto)]

mod opening;

pub use opening::{HandedBack, maps_on, not_opened, open_project};
