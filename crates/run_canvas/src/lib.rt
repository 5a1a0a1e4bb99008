//! What scripts are drawn onto: a project in a file, or maps in memory, which may keep the origins of their items.
#![tactic(auto)]

mod asking;
mod canvas;
mod draft;
mod error;
mod map_origins;
mod origin_draft;
mod project_canvas;

pub use canvas::Canvas;
pub use draft::Draft;
pub use error::ScriptError;
pub use origin_draft::OriginDraft;
pub use project_canvas::ProjectCanvas;
