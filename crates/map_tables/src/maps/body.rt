//! Encodes a project's body, and decodes it in both versions.
ghost use Rattle.std.specs.Prelude.{◌≡◌, ◌<◌, ◌↔◌, ◌∷◌, [], ◌++◌, false, IfOk, IfErr, IsOkUnless, IsTrue, OnOk, length, drop, slice_index};
ghost use Rattle.map_tables.specs.WellFormed.{WellFormed};
ghost use Rattle.map_tables.specs.Parts.{RefusesFor};
ghost use Rattle.map_tables.specs.Projects.{WellFormedProject, project_of, empty_project, body_len};
ghost use Rattle.map_tables.specs.ProjectBody.{project_body, alone, IsProjectOf, RefusesProject, AreMapsOf, NoMapsHave, NoneFollow, ReadsNext};

use crate::error::MapError;
use crate::map::{Map, decode_body, first_map};
use crate::maps::{MAP_LIMIT, Maps};
use std::alloc::Global;

// The version of a project's body that is written.
const VERSION: u8 = 2;

// Whether the bytes begin with version 2 and a number.
fn has_version_2(bytes: &[u8]) -> bool
    ensures { IsTrue result ↔ (bytes.now ≡ 2 ∷ slice_index bytes.now 1 ∷ drop 2 bytes.now) }
{
    bytes.len() >= 2 && bytes[0] == VERSION
}

impl Maps {
    /// The body of a new project, version 2: only the empty map MAP01.
    pub fn empty_body() -> [u8; 20]
        ensures bytes { result ≡ project_body empty_project }
        ensures well_formed { WellFormedProject empty_project }
    {
        *b"\x02\0MAP01\0\0\0\0\0\0\0\0\0\0\0\0\0"
    }

    // The version and the current number.
    fn head(&self) -> [u8; 2]
        ensures bytes { result ≡ 2 ∷ (project_of self.now).current ∷ [] }
        ensures well_formed { WellFormedProject (project_of self.now) }
    {
        [VERSION, self.number as u8]
    }

    /// The project's body, version 2: the current number, and each map's name, counts and tables.
    pub fn encode_body(&self, alloc: Global) -> Result<Vec<u8>, MapError>
        ensures bytes { IfOk result (λ v. v.items ≡ project_body (project_of self.now)) }
        ensures length { IfOk result (λ v. length v.items ≡ body_len (project_of self.now)) }
        ensures well_formed { OnOk result (WellFormedProject (project_of self.now)) }
        ensures memory { IsOkUnless result MapError.OutOfMemory }
    {
        let mut bytes = Vec::with_capacity(alloc, self.body_len() as usize)?;
        bytes.extend_from_slice(&self.head())?;
        for n in 0..self.len() {
            self.nth(n as usize).put_part(alloc, &mut bytes)?;
        }
        Ok(bytes)
    }

    // Leaves this map as the only one.
    fn keep_only(&mut self, map: Map)
        requires { WellFormed map.tables }
        ensures project { project_of self.new ≡ alone map.tables }
        ensures well_formed { WellFormedProject (project_of self.new) }
    {
        self.others.clear();
        self.number = 0;
        self.map = map;
    }

    // Replaces the maps by those whose parts are these bytes; the last one is current.
    fn read_maps(&mut self, alloc: Global, bytes: &[u8]) -> Result<(), MapError>
        ensures maps { OnOk result (AreMapsOf bytes.now (project_of self.new)) }
        ensures refused { IfErr result (RefusesFor (NoMapsHave bytes.now)) }
    {
        let first = first_map(alloc, bytes)?;
        let mut at = first.part_len() as usize;
        self.keep_only(first);
        while at < bytes.len() {
            at += self.read_next(alloc, &bytes[at..])?;
        }
        Ok(())
    }

    // Replaces the maps by those of the project that has these bytes as its body of version 2.
    fn read_version_2(&mut self, alloc: Global, bytes: &[u8]) -> Result<(), MapError>
        requires { bytes.now ≡ 2 ∷ slice_index bytes.now 1 ∷ drop 2 bytes.now }
        ensures project { OnOk result (IsProjectOf bytes.now (project_of self.new)) }
        ensures refused { IfErr result (RefusesProject bytes.now) }
    {
        let number = usize::from(bytes[1]);
        self.read_maps(alloc, &bytes[2..])?;
        if self.len() as usize <= number {
            return Err(MapError::Damaged(0));
        }
        self.make_current(number);
        Ok(())
    }

    /// Replaces the maps by those of the project whose body these bytes are, of version 2 or, for a project of one map,
    /// of version 1. After a refusal the maps are those of some project. `Damaged` with place 0 if no well-formed
    /// project has these bytes in either version.
    ///
    /// A project has room for 32 maps in its value, so a caller reads into the place where it keeps them.
    pub fn read_body(&mut self, alloc: Global, bytes: &[u8]) -> Result<(), MapError>
        ensures project { OnOk result (IsProjectOf bytes.now (project_of self.new)) }
        ensures refused { IfErr result (RefusesProject bytes.now) }
    {
        if has_version_2(bytes) {
            return self.read_version_2(alloc, bytes);
        }
        let map = decode_body(alloc, bytes)?;
        self.keep_only(map);
        Ok(())
    }

    /// The project whose body these bytes are, as `read_body` reads it.
    pub fn decode_body(alloc: Global, bytes: &[u8]) -> Result<Maps, MapError>
        ensures project { IfOk result (λ maps. IsProjectOf bytes.now (project_of maps)) }
        ensures refused { IfErr result (RefusesProject bytes.now) }
    {
        let mut maps = Maps::new(alloc);
        maps.read_body(alloc, bytes)?;
        Ok(maps)
    }

    // Appends the map whose part the bytes begin with, and makes it current. It returns the length of its part.
    fn read_next(&mut self, alloc: Global, bytes: &[u8]) -> Result<usize, MapError>
        ensures next { IfOk result
            (λ n. ReadsNext bytes.now n (project_of self.old) (project_of self.new)) }
        ensures refused { IfErr result
            (RefusesFor (NoneFollow (project_of self.old).maps bytes.now)) }
    {
        let map = first_map(alloc, bytes)?;
        if self.has_map(map.name()) {
            return Err(MapError::Damaged(0));
        }
        if self.len() as usize == MAP_LIMIT {
            return Err(MapError::Damaged(0));
        }
        let len = map.part_len() as usize;
        self.push(map);
        Ok(len)
    }
}
