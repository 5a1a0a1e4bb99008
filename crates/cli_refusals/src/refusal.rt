//! Why a request was refused, and the lines that say so.
ghost use Rattle.std.specs.Prelude.{◌≡◌, OnOk};
ghost use Rattle.std.specs.Io.KnownBytes.{Appends};
ghost use Rattle.cli_refusals.specs.Reports.{build_name, inspect_name, project_name, refusal_line, refusal_report, run_name, why_text};
ghost use Rattle.cli_refusals.specs.declared.refusal.Refusal.TheVariants.{Build, Level, Lines};

use crate::unbuilt::write_unbuilt;
use cli_files::{Cause, write_cause};
use cli_words::Request;
use run_edit::{EditorError, InspectError, WriteError};
use std::alloc::Global;
use std::io::{self, Write};
use store_project::ProjectError;
use wad_build::{BuildError, ReadError};
use wad_import::ImportError;

/// Why a request was refused.
#[derive(Clone, Copy)]
pub enum Refusal {
    /// The lines of the input, or the output.
    Lines(EditorError),
    /// The project file.
    Project(ProjectError),
    /// The level of a WAD.
    Level(InspectError),
    /// The PWAD of the maps.
    Build(WriteError),
    /// The project has no map of the name.
    NoSuchMap,
    /// The level of a WAD is no map, whatever is changed of it.
    NotAMap(ImportError),
    /// What the level's own tree names isn't there.
    TreeOutside,
}

/// Why a request's files can't be opened, read or made, or what they hold instead, if that is known; at most one of
/// `out` and `beside` is given.
#[derive(Clone, Copy)]
pub struct Causes {
    /// Of FILE or WAD.
    pub file: Option<Cause>,
    /// Of OUT.
    pub out: Option<Cause>,
    /// Of what is read beside FILE, SCRIPT or the WAD of `lint`.
    pub beside: Option<Cause>,
}

impl From<EditorError> for Refusal {
    ghost from_gives = { λ error r. r ≡ Lines error };

    fn from(error: EditorError) -> Refusal {
        Refusal::Lines(error)
    }
}

impl From<InspectError> for Refusal {
    ghost from_gives = { λ error r. r ≡ Level error };

    fn from(error: InspectError) -> Refusal {
        Refusal::Level(error)
    }
}

impl From<WriteError> for Refusal {
    ghost from_gives = { λ error r. r ≡ Build error };

    fn from(error: WriteError) -> Refusal {
        Refusal::Build(error)
    }
}

impl Refusal {
    ghost use Rattle.std.specs.Prelude.{◌≡◌};
    ghost use Rattle.cli_refusals.specs.Reports.{code_of, refusal_name};

    // The number of the refusal.
    fn code(&self) -> u16
        ensures { result ≡ code_of self.now }
    {
        match self {
            Refusal::Lines(error) => error.code(),
            Refusal::Project(error) => error.code(),
            Refusal::Level(error) => error.code(),
            Refusal::Build(error) => error.code(),
            Refusal::NoSuchMap => 18,
            Refusal::NotAMap(_) => 77,
            Refusal::TreeOutside => 78,
        }
    }

    // The name of the refusal, as the program prints it.
    fn name(&self) -> &'static str
        ensures { result.now ≡ refusal_name self.now }
    {
        match self {
            Refusal::Lines(error) => run_name(*error),
            Refusal::Project(error) => project_name(*error),
            Refusal::Level(error) => inspect_name(*error),
            Refusal::Build(WriteError::Build(unbuilt)) => build_name(unbuilt.error),
            Refusal::Build(WriteError::WriterFailed) => "WriterFailed",
            Refusal::NoSuchMap => "NoSuchMap",
            Refusal::NotAMap(_) => "NotAMap",
            Refusal::TreeOutside => "TreeOutside",
        }
    }
}

// The name of the refusal that ended a run.
fn run_name(error: EditorError) -> &'static str
    ensures { result.now ≡ run_name error }
{
    match error {
        EditorError::OutOfMemory => "Memory",
        EditorError::InputTooLong => "InputTooLong",
        EditorError::ReaderFailed => "ReaderFailed",
        EditorError::WriterFailed => "WriterFailed",
    }
}

// The name of a project file's refusal.
fn project_name(error: ProjectError) -> &'static str
    ensures { result.now ≡ project_name error }
{
    match error {
        ProjectError::Refused(_) => "Refused",
        ProjectError::Device => "Device",
        ProjectError::OutOfMemory => "Memory",
        ProjectError::Reopen => "Reopen",
        ProjectError::GenerationsSpent => "GenerationsSpent",
        ProjectError::Damaged { .. } => "Damaged",
        ProjectError::Blank => "Blank",
        ProjectError::NotAProject => "NotAProject",
        ProjectError::NotEmpty => "NotEmpty",
        ProjectError::BadGeometry => "BadGeometry",
    }
}

// The name of a level's refusal.
fn inspect_name(error: InspectError) -> &'static str
    ensures { result.now ≡ inspect_name error }
{
    match error {
        InspectError::Level(ReadError::LumpLength) => "LumpLength",
        InspectError::Level(ReadError::NotAWad) => "NotAWad",
        InspectError::Level(ReadError::DirectoryOutside) => "DirectoryOutside",
        InspectError::Level(ReadError::NoSuchLevel) => "NoSuchLevel",
        InspectError::Level(ReadError::LumpMissing) => "LumpMissing",
        InspectError::Level(ReadError::LumpOutside) => "LumpOutside",
        InspectError::Level(ReadError::HexenLevel) => "HexenLevel",
        InspectError::Level(ReadError::TextureLump) => "TextureLump",
        InspectError::Level(ReadError::OutOfMemory) => "Memory",
        InspectError::WriterFailed => "WriterFailed",
    }
}

// The name of a build's refusal.
fn build_name(error: BuildError) -> &'static str
    ensures { result.now ≡ build_name error }
{
    match error {
        BuildError::NothingToBuild => "NothingToBuild",
        BuildError::TooManyVertices => "TooManyVertices",
        BuildError::TooManySegs => "TooManySegs",
        BuildError::TooManySubsectors => "TooManySubsectors",
        BuildError::TooDeep => "TooDeep",
        BuildError::BlockmapTooLarge => "BlockmapTooLarge",
        BuildError::OutOfMemory => "Memory",
    }
}

// Writes the number and the name of a refusal, and the place where a file is damaged.
fn write_refusal<F: Write>(refusal: &Refusal, faults: &mut F) -> io::Result<()>
    ensures { OnOk result (Appends (F.contents faults.old) (F.contents faults.new)
        (refusal_line refusal.now)) }
{
    let code = refusal.code();
    let name = refusal.name();
    match refusal {
        Refusal::Project(ProjectError::Damaged { place }) => {
            writeln!(faults, "leveled: {code} {name} at {place}")
        }
        _ => writeln!(faults, "leveled: {code} {name}"),
    }
}

// Writes which map can't be built, why a level is no map, or what builds one that lacks lumps.
fn write_why<F: Write>(refusal: &Refusal, faults: &mut F) -> io::Result<()>
    ensures { OnOk result (Appends (F.contents faults.old) (F.contents faults.new)
        (why_text refusal.now)) }
{
    match refusal {
        Refusal::Build(WriteError::Build(unbuilt)) => write_unbuilt(*unbuilt, faults),
        Refusal::NotAMap(error) => writeln!(faults, "  {error}"),
        Refusal::Level(InspectError::Level(ReadError::LumpMissing)) => {
            writeln!(
                faults,
                "  not all of its lumps are there: `leveled rebuild IN OUT` builds them"
            )
        }
        _ => Ok(()),
    }
}

/// Writes why a request was refused, as `leveled: CODE NAME`; also the place where a file is damaged, which map can't
/// be built, why a level is no map, or what builds one that lacks lumps.
///
/// # Errors
///
/// The writer's first; the second line is tried even if the first one failed.
pub fn report<F: Write>(refusal: &Refusal, faults: &mut F) -> io::Result<()>
    ensures { OnOk result (Appends (F.contents faults.old) (F.contents faults.new)
        (refusal_report refusal.now)) }
{
    let line = write_refusal(refusal, faults);
    let why = write_why(refusal, faults);
    match line {
        Ok(()) => why,
        Err(error) => Err(error),
    }
}

// The file that a request opens, and the one that it makes, or reads beside it. A script without a file is the input.
fn paths_of(request: &Request) -> (&str, &str) {
    match request {
        Request::Scratch => ("", ""),
        Request::Create { file, .. }
        | Request::Edit { file }
        | Request::Check { file, .. }
        | Request::Dump { file, .. }
        | Request::Salvage { file } => (file.as_str(), ""),
        Request::Inspect { wad, .. } | Request::Levels { wad } => (wad.as_str(), ""),
        Request::TryScript { script, over, .. } => match over {
            Some(over) => (over.as_str(), script.as_str()),
            None => (script.as_str(), ""),
        },
        Request::Build { file, out } => (file.as_str(), out.as_str()),
        Request::Rebuild { wad, out, .. } => (wad.as_str(), out.as_str()),
        Request::Picture {
            file,
            out: other,
            ..
        }
        | Request::Draw {
            file,
            script: other,
            ..
        }
        | Request::Lint {
            file,
            iwad: other,
            ..
        } => match other {
            Some(other) => (file.as_str(), other.as_str()),
            None => (file.as_str(), "standard input"),
        },
    }
}

// Whether a request changes a project and there is no file at its path.
fn lacks_project(request: &Request, why: &Causes) -> bool {
    let is_change = match request {
        Request::Edit { .. } | Request::Draw { .. } => true,
        _ => false,
    };
    match &why.file {
        Some(Cause::System(error)) => is_change && error.kind() == io::ErrorKind::NotFound,
        _ => false,
    }
}

/// Writes why a file can't be opened, read or made, or what it holds instead, as `  PATH: REASON`, if that is known;
/// and what makes a project where there is none to change.
pub fn report_causes<F: Write>(alloc: Global, request: &Request, why: &Causes, faults: &mut F) {
    let (file, other) = paths_of(request);
    if let Some(cause) = &why.file {
        let _ = write_cause(alloc, file, cause, faults);
    }
    if lacks_project(request, why) {
        let _ = writeln!(faults, "  `leveled create FILE` makes a project");
    }
    if let Some(cause) = &why.out {
        let _ = write_cause(alloc, other, cause, faults);
    }
    if let Some(cause) = &why.beside {
        let _ = write_cause(alloc, other, cause, faults);
    }
}
