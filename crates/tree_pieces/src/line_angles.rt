//! The angles of lines in their own direction, found once for the segs of both sides.
ghost use Rattle.std.specs.Prelude.{All, IfOk};
ghost use Rattle.tree_pieces.specs.declared.edge.Facing.TheVariants.{Along};
ghost use Rattle.tree_pieces.specs.Plane.{ray, IsEdge};
ghost use Rattle.tree_pieces.specs.LineAngles.{IsRayAngle, AreAngles};

use crate::angle::angle16;
use crate::edge::{Edge, Facing};
use crate::lines::Lines;
use crate::values::ray_of;
use std::alloc::{AllocError, Global};

// The angle of a line in its own direction.
fn line_angle(edge: Edge) -> u16
    requires { IsEdge edge }
    ensures { IsRayAngle (ray edge Along) result }
{
    let ray = ray_of(edge, Facing::Along);
    angle16(ray.dx, ray.dy)
}

/// The angle of each line in its own direction, by number. The segs of its left side run at the
/// `reversed_angle`.
pub fn angles_in(alloc: Global, lines: &Lines) -> Result<Vec<u16>, AllocError>
    ensures { IfOk result (λ angles. AreAngles lines.now angles.items) }
{
    let edges = lines.as_slice();
    let mut angles = Vec::with_capacity(alloc, edges.len())?;
    for edge in edges {
        angles.push(line_angle(*edge))?;
    }
    Ok(angles)
}
