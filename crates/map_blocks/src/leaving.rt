//! A script without one of its lines.
ghost use Rattle.std.specs.Prelude.{◌≡◌, ◌≤◌, ◌<◌, ◌++◌, length, IfOk, IsOkUnless};
ghost use Rattle.std.specs.List.{between, remove};
ghost use Rattle.map_script.specs.declared.error.DrawError.TheVariants.{OutOfMemory};

use map_script::{DrawError, ScriptFiles, ScriptLines};
use std::alloc::Global;

// Puts the lines from one place up to another behind others.
fn put_lines(
    lines: &ScriptLines,
    from: usize,
    until: usize,
    rest: &mut ScriptLines,
) -> Result<(), DrawError>
    requires begins { from ≤ until }
    requires ends { until ≤ length lines.now }
    ensures ok { IfOk result (λ _. rest.new ≡ rest.old ++ between from until lines.now) }
    ensures memory { IsOkUnless result OutOfMemory }
{
    for place in from..until {
        let line = lines.line(place);
        match rest.put(&line) {
            Ok(()) => {}
            Err(error) => return Err(error),
        }
    }
    Ok(())
}

// Puts the files of the lines from one place up to another behind others.
fn put_files(
    alloc: Global,
    files: &ScriptFiles,
    from: usize,
    until: usize,
    rest: &mut ScriptFiles,
) -> Result<(), DrawError>
    requires begins { from ≤ until }
    requires ends { until ≤ length files.now }
    ensures ok { IfOk result (λ _. rest.new ≡ rest.old ++ between from until files.now) }
    ensures memory { IsOkUnless result OutOfMemory }
{
    for place in from..until {
        let name = files.file(place);
        match rest.put(alloc, name, 1) {
            Ok(()) => {}
            Err(error) => return Err(error),
        }
    }
    Ok(())
}

/// The lines of a script without the one at a place.
///
/// # Errors
///
/// Only `OutOfMemory`.
pub fn lines_without(
    alloc: Global,
    lines: &ScriptLines,
    place: usize,
) -> Result<ScriptLines, DrawError>
    requires { place < length lines.now }
    ensures ok { IfOk result (λ rest. rest ≡ remove lines.now place) }
    ensures memory { IsOkUnless result OutOfMemory }
{
    let count = lines.len();
    let mut rest = ScriptLines::empty(alloc);
    put_lines(lines, 0, place, &mut rest)?;
    put_lines(lines, place + 1, count, &mut rest)?;
    Ok(rest)
}

/// The file of each line of a script of so many lines, without the line at a place.
///
/// # Errors
///
/// Only `OutOfMemory`.
pub fn files_without(
    alloc: Global,
    files: &ScriptFiles,
    count: usize,
    place: usize,
) -> Result<ScriptFiles, DrawError>
    requires count { count ≡ length files.now }
    requires within { place < count }
    ensures ok { IfOk result (λ rest. rest ≡ remove files.now place) }
    ensures memory { IsOkUnless result OutOfMemory }
{
    let mut rest = ScriptFiles::new(alloc);
    put_files(alloc, files, 0, place, &mut rest)?;
    put_files(alloc, files, place + 1, count, &mut rest)?;
    Ok(rest)
}
