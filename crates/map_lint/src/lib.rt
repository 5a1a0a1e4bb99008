//! What a level maker wants to know before playing a level.
#![tactic(auto)]

mod areas;
mod borders;
mod error;
mod facts;
mod graphics;
mod known;
mod name_text;
mod patched;
mod report;
mod rows;
mod rules;
mod short;
mod shown;
mod starts;
mod tags;
mod texture_index;
mod wall;
mod walls;
mod warning;
mod whereabouts;

pub use error::LintError;
pub use graphics::lint_graphics;
pub use report::lint;
pub use shown::Shown;
pub use wall::{Part, Surface, Wall};
pub use warning::{Rule, Warning};
pub use whereabouts::Whereabouts;
