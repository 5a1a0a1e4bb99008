//! In which file each line of a script stands: the script's own, or one that it includes.
ghost use Rattle.std.specs.Prelude.{◌≡◌, ◌<◌, ◌++◌, false, length, replicate, slice_get, string_bytes, IfErr, IfOk, IsOkUnless, IsTrue, Some};
ghost use Rattle.map_script.specs.Files.{files_of};
ghost use Rattle.map_script.specs.declared.error.DrawError.TheVariants.{OutOfMemory};

use crate::error::DrawError;
use std::alloc::Global;
use std::marker::Model;

/// Some lines of a script, one behind the other, that stand in one file.
#[derive(Drop)]
pub struct FilePart {
    /// The file's name.
    pub name: String,
    /// How many lines these are.
    pub count: usize,
}

/// The name of the file of each line of a script. It takes memory for each part of a file, and none for a line.
#[derive(Drop)]
pub struct ScriptFiles {
    parts: Vec<FilePart>,
}

impl Model for ScriptFiles {
    ghost use Rattle.std.specs.Prelude.{ℕ, List};
    ghost use Rattle.map_script.specs.Files.{files_of};

    ghost Value = { List (List ℕ) };

    ghost view = { λ f. files_of f.parts.items };
}

// Whether a part is one of the file with this name.
fn is_of(part: &FilePart, name: &str) -> bool
    ensures { IsTrue result → string_bytes part.now.name ≡ name.now }
{
    part.name.as_str() == name
}

// Adds so many lines to the last part, if it is one of the file with this name.
fn grow_last(parts: &mut Vec<FilePart>, name: &str, count: usize) -> bool
    ensures grown { IsTrue result → files_of parts.new.items
        ≡ files_of parts.old.items ++ replicate count name.now }
    ensures stays { result ≡ false → parts.new.items ≡ parts.old.items }
{
    let Some(last) = parts.len().checked_sub(1) else {
        return false;
    };
    if !is_of(&parts[last], name) {
        return false;
    }
    match parts[last].count.checked_add(count) {
        Some(all) => {
            parts[last].count = all;
            true
        }
        None => false,
    }
}

// The name of the file of the line at a place.
fn name_in(parts: &[FilePart], place: usize) -> &str
    requires { place < length (files_of parts.now) }
    ensures { slice_get (files_of parts.now) place ≡ Some result.now }
{
    let mut left = place;
    for part in parts {
        if left < part.count {
            return part.name.as_str();
        }
        left -= part.count;
    }
    unreachable!()
}

impl ScriptFiles {
    ghost use Rattle.std.specs.Prelude.{◌≡◌, ◌<◌, ◌++◌, [], length, replicate, slice_get, IfErr, IfOk, IsOkUnless, Some};
    ghost use Rattle.map_script.specs.declared.error.DrawError.TheVariants.{OutOfMemory};

    /// No lines. It allocates no memory.
    pub fn new(alloc: Global) -> Self
        ensures { result ≡ [] }
    {
        ScriptFiles {
            parts: Vec::new(alloc),
        }
    }

    /// Puts so many lines behind the others, which stand in the file with the name.
    ///
    /// # Errors
    ///
    /// Only `OutOfMemory`; the lines stay as they are.
    pub fn put(&mut self, alloc: Global, name: &str, count: usize) -> Result<(), DrawError>
        ensures ok { IfOk result (λ _. self.new ≡ self.old ++ replicate count name.now) }
        ensures refused { IfErr result (λ _. self.new ≡ self.old) }
        ensures memory { IsOkUnless result OutOfMemory }
    {
        put_part(alloc, &mut self.parts, name, count)
    }

    /// The name of the file of the line at a place, from 0.
    pub fn file(&self, place: usize) -> &str
        requires { place < length self.now }
        ensures { slice_get self.now place ≡ Some result.now }
    {
        name_in(&self.parts, place)
    }
}

// Puts so many lines of the file with this name behind the others.
fn put_part(
    alloc: Global,
    parts: &mut Vec<FilePart>,
    name: &str,
    count: usize,
) -> Result<(), DrawError>
    ensures ok { IfOk result (λ _. files_of parts.new.items
        ≡ files_of parts.old.items ++ replicate count name.now) }
    ensures refused { IfErr result (λ _. files_of parts.new.items ≡ files_of parts.old.items) }
    ensures memory { IsOkUnless result OutOfMemory }
{
    if grow_last(parts, name, count) {
        return Ok(());
    }
    let name = String::from_str(alloc, name)?;
    parts.push(FilePart { name, count })?;
    Ok(())
}
