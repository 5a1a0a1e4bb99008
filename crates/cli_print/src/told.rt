//! The lines of findings and warnings, made in memory: of a map all can be written, or none.
ghost use Rattle.std.specs.Prelude.{◌≡◌, ◌++◌, [], List, ℕ, IfErr, IfOk, Some, flat_map};
ghost use Rattle.lump_records.specs.Names.{name_text};
ghost use Rattle.map_dump.specs.Texts.{with_lf};
ghost use Rattle.run_edit.specs.declared.error.EditorError.TheVariants.{OutOfMemory};
ghost use Rattle.cli_print.specs.Linting.{behind};
ghost use Rattle.cli_print.specs.Origins.{finding_told, items_in, origins_text, warning_told};

use crate::items::{About, about_finding, about_warning};
use crate::origin::{Origin, put, put_origins};
use lump_records::Name8;
use map_checks::Finding;
use map_lint::Warning;
use run_edit::EditorError;
use std::alloc::Global;
use std::fmt::Display;
use std::io::Write;

// Puts the text of a remark behind a text.
fn put_remark<T: Display>(remark: &T, text: &mut Vec<u8>) -> Result<(), EditorError>
    ensures put { (said : List ℕ) → T.output remark.now ≡ Some said
        → IfOk result (λ _. text.new.items ≡ text.old.items ++ said) }
    ensures memory { IfErr result (λ e. e ≡ OutOfMemory) }
{
    match write!(text, "{remark}") {
        Ok(()) => Ok(()),
        Err(_) => Err(EditorError::OutOfMemory),
    }
}

// Puts a line: what stands in front, the remark, and where the items that it is about come from.
fn put_line<T: Display, O: Origin>(
    alloc: Global,
    front: &[u8],
    remark: &T,
    about: About,
    map: &Name8,
    origin: &O,
    text: &mut Vec<u8>,
) -> Result<(), EditorError>
    ensures put { (said : List ℕ) → T.output remark.now ≡ Some said
        → IfOk result (λ _. text.new.items ≡ text.old.items ++ with_lf (front.now ++ (said
        ++ origins_text (O.origin origin.now) (name_text map.now) (items_in about)))) }
    ensures memory { IfErr result (λ e. e ≡ OutOfMemory) }
{
    put(front, text)?;
    put_remark(remark, text)?;
    put_origins(alloc, map, about, origin, text)?;
    put(b"\n", text)
}

/// Puts a line for each finding of the map with the name.
pub(crate) fn put_findings<O: Origin>(
    alloc: Global,
    front: &[u8],
    found: &[Finding],
    map: &Name8,
    origin: &O,
    text: &mut Vec<u8>,
) -> Result<(), EditorError>
    ensures put { IfOk result (λ _. text.new.items ≡ text.old.items ++ flat_map
        (λ f. with_lf (front.now ++ finding_told (O.origin origin.now) (name_text map.now) f))
        found.now) }
    ensures memory { IfErr result (λ e. e ≡ OutOfMemory) }
{
    for finding in found {
        let about = about_finding(finding);
        match put_line(alloc, front, finding, about, map, origin, text) {
            Ok(()) => {}
            Err(error) => return Err(error),
        }
    }
    Ok(())
}

// Puts a line for each warning of the map with the name.
fn put_warnings<O: Origin>(
    alloc: Global,
    front: &[u8],
    warned: &[Warning],
    map: &Name8,
    origin: &O,
    text: &mut Vec<u8>,
) -> Result<(), EditorError>
    ensures put { IfOk result (λ _. text.new.items ≡ text.old.items ++ flat_map
        (λ w. with_lf (front.now ++ warning_told (O.origin origin.now) (name_text map.now) w))
        warned.now) }
    ensures memory { IfErr result (λ e. e ≡ OutOfMemory) }
{
    for warning in warned {
        let about = about_warning(warning);
        match put_line(alloc, front, warning, about, map, origin, text) {
            Ok(()) => {}
            Err(error) => return Err(error),
        }
    }
    Ok(())
}

// The name and a space.
fn front_of(alloc: Global, map: &Name8) -> Result<Vec<u8>, EditorError>
    ensures front { IfOk result (λ front. front.items ≡ behind (name_text map.now) []) }
    ensures memory { IfErr result (λ e. e ≡ OutOfMemory) }
{
    let mut front = Vec::new(alloc);
    put(map.text(), &mut front)?;
    put(b" ", &mut front)?;
    Ok(front)
}

/// A line for each finding, and then for each warning, all behind the map's name.
pub(crate) fn lines_told<O: Origin>(
    alloc: Global,
    map: &Name8,
    found: &[Finding],
    warned: &[Warning],
    origin: &O,
) -> Result<Vec<u8>, EditorError>
    ensures told { IfOk result (λ text. text.items
        ≡ flat_map (λ f. with_lf (behind (name_text map.now)
        (finding_told (O.origin origin.now) (name_text map.now) f))) found.now
        ++ flat_map (λ w. with_lf (behind (name_text map.now)
        (warning_told (O.origin origin.now) (name_text map.now) w))) warned.now) }
    ensures memory { IfErr result (λ e. e ≡ OutOfMemory) }
{
    let front = front_of(alloc, map)?;
    let mut text = Vec::new(alloc);
    put_findings(alloc, &front, found, map, origin, &mut text)?;
    put_warnings(alloc, &front, warned, map, origin, &mut text)?;
    Ok(text)
}
