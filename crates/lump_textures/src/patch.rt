//! A patch of a texture.

/// A patch, which is a picture on a texture: the texture's column on which its first one lies, and how many columns it
/// has, none if the number isn't above 0.
#[derive(Clone, Copy, Debug, PartialEq, Eq)]
pub struct Patch {
    pub first: i16,
    pub width: i16,
}
