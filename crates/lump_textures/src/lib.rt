//! What is known of a texture of a WAD.
#![tactic(auto)]

mod marks;
mod patch;
mod patched;
mod texture;

pub use patch::Patch;
pub use patched::is_patched;
pub use texture::Texture;
