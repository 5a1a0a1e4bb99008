//! The blocks and shapes of a script, and where it stopped.
#![tactic(auto)]

mod blocks;
mod deeds;
mod defined;
mod hanging;
mod leaving;
mod mentioning;
mod naming;
mod ranges;
mod stop;
mod wording;

pub use blocks::{block_len, order_fault};
pub use deeds::are_near;
pub use defined::{Shape, shape_called, shapes_in};
pub use hanging::{ends_telling, hangs};
pub use leaving::{files_without, lines_without};
pub use ranges::{QUERY_FORMS, RANGES};
pub use stop::{OpenBlock, Stop};
