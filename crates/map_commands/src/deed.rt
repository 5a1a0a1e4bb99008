//! What a command does to the maps, as far as later lines of a script may depend on it.

/// What a command does to the maps.
#[derive(Clone, Copy)]
pub enum Deed {
    /// Nothing.
    Reads,
    /// It adds a sector, and perhaps other items than things.
    AddsSector,
    /// It adds a thing.
    AddsThing,
    /// It changes a thing, or takes one away.
    SetsThing,
    /// It adds or changes other items than things, and frees the place of no vertex.
    Draws,
    /// It may free the place of a vertex.
    Frees,
    /// It may make another map the current one, or give one another name.
    Turns,
}
