//! The requests that make a project or change one, and `dump --salvage`, over the file at a path.
ghost use Rattle.std.specs.Prelude.{◌≡◌, ◌≤◌, ◌⊎◌, false, Ok, IfErr, IfOk};
ghost use Rattle.std.specs.Io.KnownBytes.{Keeps};
ghost use Rattle.cli_scripts.specs.DrawnInto.{IsDrawnInto, IsTriedOntoSome};
ghost use Rattle.cli_requests.specs.Salvaging.{IsSalvagedInto};
ghost use Rattle.cli_requests.specs.Requests.{IsCreated};
ghost use Rattle.cli_program.specs.Deeds.{IsEdited};
ghost use Rattle.cli_refusals.specs.declared.refusal.Refusal.{Refusal};

use cli_files::{
    Access, Cause, Content, GaplessFile, Hold, NotedFile, ReadFile, content_in, open_held,
    open_to_read,
};
use cli_refusals::{Causes, Refusal};
use cli_requests::{create, edit, salvage_lines};
use cli_scripts::{Script, draw, read_at, try_over};
use std::io::{Read, Write};
use std::os::unix::fs::FileExt;
use std::rt::Files;
use store_disk::{Disk, FileDisk};
use store_project::{Geometry, ProjectError};

/// Opens a request's file and holds it until it is closed, or notes why it can't.
pub fn open_at<E: Files>(
    rt: &E,
    path: &str,
    access: Access,
    why: &mut Causes,
) -> Result<E::File, Refusal>
where
    E::File: Hold,
    ensures { IfErr result (λ r. r ≡ Refusal.Project ProjectError.Device) }
{
    match open_held(rt, path, access) {
        Ok(file) => Ok(file),
        Err(cause) => {
            why.file = Some(cause);
            Err(Refusal::Project(ProjectError::Device))
        }
    }
}

/// The file that a request writes, held until it is dropped, which knows why its last call failed; or notes why it
/// can't be opened.
pub fn file_at<E: Files>(
    rt: &E,
    path: &str,
    why: &mut Causes,
) -> Result<NotedFile<E::File>, Refusal>
where
    E::File: Hold,
    ensures { IfErr result (λ r. r ≡ Refusal.Project ProjectError.Device) }
{
    let file = open_at(rt, path, Access::Writes, why)?;
    Ok(NotedFile::new(file))
}

/// Opens a file that a request only reads, so that nobody changes meanwhile what it reads; or notes why it can't.
pub fn open_read<E: AllocGlobal + Files>(
    rt: &E,
    path: &str,
    why: &mut Causes,
) -> Result<ReadFile<E::File>, Refusal>
where
    E::File: FileExt + Hold,
    ensures { IfErr result (λ r. (r ≡ Refusal.Project ProjectError.Device)
        ⊎ (r ≡ Refusal.Project ProjectError.OutOfMemory)) }
{
    match open_to_read(rt, path) {
        Ok(file) => Ok(file),
        Err(Cause::OutOfMemory) => Err(Refusal::Project(ProjectError::OutOfMemory)),
        Err(cause) => {
            why.file = Some(cause);
            Err(Refusal::Project(ProjectError::Device))
        }
    }
}

// What a file holds that is no empty one.
fn held_in<F: FileExt>(file: &F) -> Option<Cause> {
    match content_in(file) {
        Ok(content) => Some(Cause::Holds(content)),
        Err(_) => None,
    }
}

// What a file holds that is no project. A project of another version begins as one.
fn no_project<F: FileExt>(file: &F) -> Option<Cause> {
    match content_in(file) {
        Ok(Content::Project) => None,
        Ok(content) => Some(Cause::Holds(content)),
        Err(_) => None,
    }
}

/// How a request over a file ended; if the file failed, notes why, and if it is no project, what it is.
pub fn ended_over<F: FileExt>(
    file: &NotedFile<F>,
    how: Result<u8, Refusal>,
    why: &mut Causes,
) -> Result<u8, Refusal>
    ensures { result ≡ how }
{
    match &how {
        Err(Refusal::Project(ProjectError::Device)) => why.file = file.fault(),
        Err(Refusal::Project(ProjectError::NotAProject)) => why.file = no_project(&file),
        _ => {}
    }
    how
}

/// Makes a project in the file at the path.
pub fn create_file<E, W>(
    rt: &E,
    path: &str,
    slot: u32,
    journal: u32,
    writer: &mut W,
    why: &mut Causes,
) -> Result<u8, Refusal>
where
    E: AllocGlobal + Files,
    E::File: FileExt + Hold,
    W: Write,
    ensures small { IfOk result (λ s. s ≤ 3) }
    ensures created { IsCreated slot journal result
        (W.contents writer.old) (W.contents writer.new) }
{
    let geometry = Geometry { slot, journal };
    let file = GaplessFile::new(open_at(rt, path, Access::Making, why)?);
    let how = create(rt.alloc(), FileDisk::new(&file, true), geometry, writer).how;
    match how {
        Err(Refusal::Project(ProjectError::Device)) => why.file = file.take_back(),
        Err(Refusal::Project(ProjectError::NotEmpty)) => why.file = held_in(&&file),
        _ => {}
    }
    how
}

/// Answers the lines of the input over the project in the file at the path.
pub fn edit_file<E, R, W>(
    rt: &E,
    path: &str,
    reader: &mut R,
    writer: &mut W,
    why: &mut Causes,
) -> Result<u8, Refusal>
where
    E: AllocGlobal + Files,
    E::File: FileExt + Hold,
    R: Read,
    W: Write,
    ensures small { IfOk result (λ s. s ≤ 3) }
    ensures answered { IsEdited ⟦<FileDisk<&'static NotedFile<E::File>> as Disk>⟧ result
        (R.remaining reader.old) (R.remaining reader.new)
        (W.contents writer.old) (W.contents writer.new) }
{
    let file = file_at(rt, path, why)?;
    let disk = FileDisk::new(&file, true);
    let how = edit(rt.alloc(), disk, reader, writer).how;
    ended_over(&file, how, why)
}

/// Draws a script onto the project in the file at the path. The script is the file at `script`, or standard input,
/// which is `-`; or notes why the script can't be opened or read.
pub fn draw_file<E, R, W, F>(
    rt: &E,
    path: &str,
    script: &str,
    is_verbose: bool,
    reader: &mut R,
    writer: &mut W,
    faults: &mut F,
    why: &mut Causes,
) -> Result<u8, Refusal>
where
    E: AllocGlobal + Files,
    E::File: FileExt + Hold,
    R: Read,
    W: Write,
    F: Write,
    ensures small { IfOk result (λ s. s ≤ 3) }
    ensures drawn { IsDrawnInto ⟦<FileDisk<&'static NotedFile<E::File>> as Disk>⟧
        script.now is_verbose result (R.remaining reader.old) (R.remaining reader.new)
        (W.contents writer.old) (W.contents writer.new) }
    ensures quiet { result ≡ Ok 0 → Keeps (F.contents faults.old) (F.contents faults.new) }
{
    let whole = match read_at(rt, script, reader, faults, &mut why.beside) {
        Ok(whole) => whole,
        Err(how) => return how,
    };
    let file = match file_at(rt, path, why) {
        Ok(file) => file,
        Err(refusal) => return Err(refusal),
    };
    let disk = FileDisk::new(&file, true);
    let script = Script {
        lines: &whole.lines,
        files: &whole.files,
        is_verbose,
    };
    let how = draw(rt.alloc(), disk, script, writer, faults).how;
    ended_over(&file, how, why)
}

/// Tries the script at `script`, a file or `-`, over the maps of the project in the file at the path, which stays as it
/// is; or notes why a file can't be opened or read.
pub fn try_onto<E, R, W, F>(
    rt: &E,
    path: &str,
    script: &str,
    is_verbose: bool,
    reader: &mut R,
    writer: &mut W,
    faults: &mut F,
    why: &mut Causes,
) -> Result<u8, Refusal>
where
    E: AllocGlobal + Files,
    E::File: FileExt + Hold,
    R: Read,
    W: Write,
    F: Write,
    ensures small { IfOk result (λ s. s ≤ 3) }
    ensures tried { IsTriedOntoSome script.now is_verbose result
        (R.remaining reader.old) (R.remaining reader.new)
        (W.contents writer.old) (W.contents writer.new) }
    ensures quiet { result ≡ Ok 0 → Keeps (F.contents faults.old) (F.contents faults.new) }
{
    let whole = match read_at(rt, script, reader, faults, &mut why.beside) {
        Ok(whole) => whole,
        Err(how) => return how,
    };
    let file = match open_read(rt, path, why) {
        Ok(file) => NotedFile::new(file),
        Err(refusal) => return Err(refusal),
    };
    let disk = FileDisk::new(&file, false);
    let script = Script {
        lines: &whole.lines,
        files: &whole.files,
        is_verbose,
    };
    let how = try_over(rt.alloc(), disk, script, writer, faults).how;
    ended_over(&file, how, why)
}

/// Writes the lines that draw the maps again which can be read from the project in the file at the path, damaged or
/// not, and reports where it is damaged.
pub fn salvage_file<E, W, F>(
    rt: &E,
    path: &str,
    writer: &mut W,
    faults: &mut F,
    why: &mut Causes,
) -> Result<u8, Refusal>
where
    E: AllocGlobal + Files,
    E::File: FileExt + Hold,
    W: Write,
    F: Write,
    ensures small { IfOk result (λ s. s ≤ 3) }
    ensures salvaged { IsSalvagedInto result (W.contents writer.old) (W.contents writer.new) }
{
    let file = NotedFile::new(open_read(rt, path, why)?);
    let disk = FileDisk::new(&file, false);
    let how = salvage_lines(rt.alloc(), disk, writer, faults).how;
    ended_over(&file, how, why)
}
