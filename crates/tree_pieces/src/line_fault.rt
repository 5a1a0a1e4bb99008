//! Why a list of line records can't be built.

/// Why a line can't be built, in the order of the tests.
#[derive(Clone, Copy, Debug, PartialEq, Eq)]
pub enum LineFault {
    /// One of its vertices isn't there.
    NoVertex,
    /// Its right side isn't there.
    NoRightSide,
    /// Its ends have one place.
    NoLength,
    /// An end lies outside the range of coordinates, -16,384 to 16,383.
    EndOutside,
    /// It is longer than 32,767 map units.
    TooLong,
}

/// Why a list of lines can't be built: the number of the first line that can't, with its first fault.
#[derive(Clone, Copy, Debug, PartialEq, Eq)]
pub enum LinesError {
    Faulty(usize, LineFault),
    OutOfMemory,
}
