//! The lines of a band of rows.
ghost use Rattle.std.specs.Prelude.{◌≡◌, OnOk};

use crate::places::PlacedLine;
use std::alloc::{AllocError, Global};
use std::marker::Model;

/// Lines in the order in which they were added.
#[derive(Drop)]
pub struct Band {
    lines: Vec<PlacedLine>,
}

impl Model for Band {
    ghost use Rattle.std.specs.Prelude.{List};
    ghost use Rattle.map_plane.specs.declared.places.PlacedLine.{PlacedLine};

    ghost Value = { List PlacedLine };

    ghost view = { λ b. b.lines.items };
}

impl Band {
    ghost use Rattle.std.specs.Prelude.{◌≡◌, [], ◌∷◌, ◌++◌, OnOk};

    /// A band without lines. It allocates no memory.
    pub(crate) fn new(alloc: Global) -> Band
        ensures { result ≡ [] }
    {
        Band {
            lines: Vec::new(alloc),
        }
    }

    /// Adds a line at the end.
    pub(crate) fn push(&mut self, line: PlacedLine) -> Result<(), AllocError>
        ensures { OnOk result (self.new ≡ self.old ++ line ∷ []) }
    {
        self.lines.push(line)?;
        Ok(())
    }

    /// The band's lines.
    pub fn lines(&self) -> &[PlacedLine]
        ensures { result.now ≡ self.now }
    {
        &self.lines
    }
}
