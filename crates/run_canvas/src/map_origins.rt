//! Which line of a script added each item of a map.
ghost use Rattle.std.specs.Prelude.{◌≡◌, ◌≤◌, ◌++◌, ◌<◌, ◌+◌, IfErr, IfOk, remove, replicate, slice_get, vec_capacity, vec_len};
ghost use Rattle.map_commands.specs.Step.{need_of};
ghost use Rattle.map_tables.specs.Outcomes.{no_need};
ghost use Rattle.run_canvas.specs.OriginFields.{FitsOrigins, item_origins};
ghost use Rattle.run_canvas.specs.Origins.{no_origins, origins_after, origins_by, with_origins, without_origin};

use map_commands::{Command, ProjectCommand, need_of};
use map_tables::{Edit, Kind, Need};
use std::alloc::{AllocError, Global};
use std::default::MadeWith;

/// For each item of a map the place of the line that added it, by the items' numbers.
pub(crate) struct MapOrigins {
    vertices: Vec<usize>,
    sectors: Vec<usize>,
    sides: Vec<usize>,
    lines: Vec<usize>,
    things: Vec<usize>,
}

// A `drop` of its own, so that a function that owns the origins frees their lists by one call.
impl Drop for MapOrigins {
    fn drop(self) {
        let MapOrigins {
            vertices: _vertices,
            sectors: _sectors,
            sides: _sides,
            lines: _lines,
            things: _things,
        } = self;
    }
}

// An unused place of an array holds no origins, which allocates no memory.
impl MadeWith<Global> for MapOrigins {
    fn made_with(alloc: Global) -> MapOrigins {
        MapOrigins::new(alloc)
    }
}

// Makes room for so many origins more.
fn reserve(list: &mut Vec<usize>, count: u32) -> Result<(), AllocError>
    ensures same { list.new.items ≡ list.old.items }
    ensures room { IfOk result (λ _. vec_len list.new + count ≤ vec_capacity list.new) }
    ensures needed { IfErr result (λ _. 0 < count) }
{
    list.reserve(count as usize)
}

// Puts so many origins behind the others, for which there is room.
fn put(list: &mut Vec<usize>, count: u32, place: usize)
    requires { vec_len list.old + count ≤ vec_capacity list.old }
    ensures { list.new.items ≡ list.old.items ++ replicate count place }
{
    let _ = list.resize(list.len() + count as usize, place);
}

// Removes the origin with the number, if there is one.
fn remove_at(list: &mut Vec<usize>, n: usize)
    ensures { list.new.items ≡ remove list.old.items n }
{
    if n < list.len() {
        list.remove(n);
    }
}

impl MapOrigins {
    /// Those of a map without items. It allocates no memory.
    pub(crate) fn new(alloc: Global) -> MapOrigins
        ensures { item_origins result ≡ no_origins }
    {
        MapOrigins {
            vertices: Vec::new(alloc),
            sectors: Vec::new(alloc),
            sides: Vec::new(alloc),
            lines: Vec::new(alloc),
            things: Vec::new(alloc),
        }
    }

    // The origins of the items of a kind.
    fn by(&self, kind: Kind) -> &[usize]
        ensures { result.now ≡ origins_by (item_origins self.now) kind }
    {
        match kind {
            Kind::Vertex => self.vertices.as_slice(),
            Kind::Sector => self.sectors.as_slice(),
            Kind::Side => self.sides.as_slice(),
            Kind::Line => self.lines.as_slice(),
            Kind::Thing => self.things.as_slice(),
        }
    }

    /// The origin of the item of a kind and a number, if there is one.
    pub(crate) fn get(&self, kind: Kind, n: u32) -> Option<usize>
        ensures { result ≡ slice_get (origins_by (item_origins self.now) kind) n }
    {
        self.by(kind).get(n as usize).copied()
    }

    // Makes room for the origins of so many items more.
    fn reserve(&mut self, need: Need) -> Result<(), AllocError>
        ensures same { item_origins self.new ≡ item_origins self.old }
        ensures room { IfOk result (λ _. FitsOrigins need self.new) }
        ensures needed { need ≡ no_need → IfErr result (λ _. ⊥) }
    {
        reserve(&mut self.vertices, need.vertices)?;
        reserve(&mut self.sectors, need.sectors)?;
        reserve(&mut self.sides, need.sides)?;
        reserve(&mut self.lines, need.lines)?;
        reserve(&mut self.things, need.things)?;
        Ok(())
    }

    // Puts the origin of so many items more, for which there is room: the line at a place.
    fn put(&mut self, need: Need, place: usize)
        requires { FitsOrigins need self.old }
        ensures { item_origins self.new ≡ with_origins (item_origins self.old) need place }
    {
        put(&mut self.vertices, need.vertices, place);
        put(&mut self.sectors, need.sectors, place);
        put(&mut self.sides, need.sides, place);
        put(&mut self.lines, need.lines, place);
        put(&mut self.things, need.things, place);
    }

    // Puts the origin of what a command adds.
    fn add(&mut self, need: Need, place: usize) -> Result<(), AllocError>
        ensures ok { IfOk result (λ _.
            item_origins self.new ≡ with_origins (item_origins self.old) need place) }
        ensures refused { IfErr result (λ _. item_origins self.new ≡ item_origins self.old) }
        ensures needed { need ≡ no_need → IfErr result (λ _. ⊥) }
    {
        match self.reserve(need) {
            Ok(()) => {
                self.put(need, place);
                Ok(())
            }
            Err(error) => Err(error),
        }
    }

    // Removes the origin of the item of a kind and a number.
    fn remove(&mut self, kind: Kind, n: usize)
        ensures { item_origins self.new ≡ without_origin (item_origins self.old) kind n }
    {
        match kind {
            Kind::Vertex => remove_at(&mut self.vertices, n),
            Kind::Sector => remove_at(&mut self.sectors, n),
            Kind::Side => remove_at(&mut self.sides, n),
            Kind::Line => remove_at(&mut self.lines, n),
            Kind::Thing => remove_at(&mut self.things, n),
        }
    }

    /// Notes what a command of the line at a place does to the items. A command that adds nothing never lacks memory.
    pub(crate) fn note(&mut self, command: &Command, place: usize) -> Result<(), AllocError>
        ensures ok { IfOk result (λ _.
            item_origins self.new ≡ origins_after (item_origins self.old) command.now place) }
        ensures refused { IfErr result (λ _. item_origins self.new ≡ item_origins self.old) }
        ensures needed { need_of command.now ≡ no_need → IfErr result (λ _. ⊥) }
    {
        match command {
            Command::Edit(Edit::Drop(kind, n)) => {
                self.remove(*kind, *n as usize);
                Ok(())
            }
            _ => self.add(need_of(&ProjectCommand::Current(*command)), place),
        }
    }
}
