//! How places stand among the words of a command.

/// How places stand among the words of a command.
#[derive(Clone, Copy)]
pub enum Layout {
    /// X Y for each corner.
    Corners,
    /// X Y ANGLE.
    Looking,
    /// X1 Y1 X2 Y2, the lower left and the upper right corner of four walls.
    Walls,
}
