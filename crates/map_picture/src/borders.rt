//! The lines that each sector has on one of their sides, found in one pass over the lines.
ghost use Rattle.std.specs.Prelude.{◌≡◌, ◌++◌, ◌∷◌, [], length, replicate, IfOk, OnOk};
ghost use Rattle.map_picture.specs.Borders.{AreBorders, FilesFor, FilesBorder};

use crate::items::sector_of;
use crate::options::PictureError;
use lump_records::Line;
use map_tables::{Kind, Map};
use std::alloc::Global;
use std::marker::Model;

/// The numbers of a sector's lines.
#[derive(Drop)]
pub(crate) struct Borders {
    lines: Vec<u32>,
}

impl Model for Borders {
    ghost use Rattle.std.specs.Prelude.{ℕ, List};

    ghost Value = { List ℕ };

    ghost view = { λ a. a.lines.items };
}

impl Borders {
    // No lines. It allocates no memory.
    fn new(alloc: Global) -> Borders
        ensures { result ≡ [] }
    {
        Borders {
            lines: Vec::new(alloc),
        }
    }

    // Appends a line.
    fn push(&mut self, line: u32) -> Result<(), PictureError>
        ensures { OnOk result (self.new ≡ self.old ++ line ∷ []) }
    {
        self.lines.push(line)?;
        Ok(())
    }

    /// The numbers of the lines.
    pub(crate) fn lines(&self) -> &[u32]
        ensures { result.now ≡ self.now }
    {
        &self.lines
    }
}

// Appends the line to the list of the sector, if it is one of these.
fn file_for(borders: &mut [Borders], sector: u16, n: u32) -> Result<(), PictureError>
    ensures { OnOk result (FilesFor sector n borders.old borders.new) }
{
    let place = usize::from(sector);
    if place < borders.len() {
        return borders[place].push(n);
    }
    Ok(())
}

// Appends the line to the lists of the sectors on its sides.
fn file_line(borders: &mut [Borders], map: &Map, n: u32, line: &Line) -> Result<(), PictureError>
    ensures { OnOk result (FilesBorder map.now.tables n line.now borders.old borders.new) }
{
    let right = sector_of(map, line.right);
    match file_for(borders, right, n) {
        Ok(()) => {}
        Err(error) => return Err(error),
    }
    if line.has_left() {
        let left = sector_of(map, line.left);
        if right != left {
            return file_for(borders, left, n);
        }
    }
    Ok(())
}

// No lines for each sector.
fn empty_borders(alloc: Global, count: usize) -> Result<Vec<Borders>, PictureError>
    ensures { IfOk result (λ v. v.items ≡ replicate count []) }
{
    let mut borders = Vec::with_capacity(alloc, count)?;
    for sector in 0..count {
        borders.push(Borders::new(alloc))?;
    }
    Ok(borders)
}

/// The lines of each sector.
pub(crate) fn sector_borders(alloc: Global, map: &Map) -> Result<Vec<Borders>, PictureError>
    ensures { IfOk result (λ v.
        AreBorders map.now.tables (length map.now.tables.lines) v.items) }
{
    let mut borders = empty_borders(alloc, map.count(Kind::Sector) as usize)?;
    for n in 0..map.count(Kind::Line) {
        let line = map.line(n).unwrap();
        match file_line(&mut borders, map, n, &line) {
            Ok(()) => {}
            Err(error) => return Err(error),
        }
    }
    Ok(borders)
}
