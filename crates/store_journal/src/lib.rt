//! A journal on a disk: records behind gates, each on the disk before it is acknowledged.
#![tactic(auto)]

mod error;
mod group;
mod journal;
mod law;
mod payloads;
mod reading;
mod record;

pub use error::JournalError;
pub use group::Group;
pub use journal::{Journal, blank};
pub use law::{begin_in_their_area, stand_by_themselves, stand_for_one_list};
pub use reading::Reader;
