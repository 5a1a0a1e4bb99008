//! A law about the definitions, as the contract of a function whose body is empty.
ghost use Rattle.map_plane.specs.Segments.{TestsTellCrossings};

/// The tests by side values hold exactly for those lines that have a point in common that isn't an end of both.
pub fn tell_crossings()
    ensures { TestsTellCrossings }
{}
