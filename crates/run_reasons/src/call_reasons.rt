//! Says what was wrong with a line that draws a shape of the script.
ghost use Rattle.std.specs.Prelude.{◌<◌, length};

use crate::calling::says;
use crate::forms::count_words;
use crate::reasons::reason_of_reference;
use map_blocks::{Shape, shape_called, shapes_in};
use map_script::{DrawError, Names, ScriptLines, resolve};
use map_tables::Map;
use std::alloc::{AllocError, Global};
use std::str;

// The form of a shape, its name and its parameters, as those of commands are written.
fn form_of(alloc: Global, shape: &Shape) -> Result<String, AllocError> {
    let name = str::from_utf8(&shape.name).unwrap_or("");
    let parameters = str::from_utf8(&shape.parameters).unwrap_or("");
    let mut form = name.to_owned(alloc)?;
    for parameter in parameters.split(' ') {
        if !parameter.is_empty() {
            form.push_str(" ")?;
            form.push_str(parameter)?;
        }
    }
    Ok(form)
}

/// The form of the shape that the line at a place draws, if it draws one of the script's.
pub fn called_at(
    alloc: Global,
    lines: &ScriptLines,
    place: usize,
) -> Result<Option<String>, AllocError>
    requires { place < length lines.now }
{
    let line = lines.line(place);
    match shapes_in(alloc, lines) {
        Ok(shapes) => match shape_called(&shapes, place, line.text) {
            Some(shape) => Ok(Some(form_of(alloc, shape)?)),
            None => Ok(None),
        },
        // The line is told as any other.
        Err(_) => Ok(None),
    }
}

/// Says what was wrong with a line that draws a shape of this form.
pub fn reason_of_call(
    alloc: Global,
    map: &Map,
    names: &Names,
    form: &str,
    line: &[u8],
    code: u16,
) -> Result<String, AllocError> {
    match resolve(alloc, names, map, line) {
        Ok(text) if code == 1 => {
            let count = count_words(str::from_utf8(&text).unwrap_or(form));
            let wanted = count_words(form);
            format!(in alloc; "it has {count} words in place of {wanted}: {form}")
        }
        Ok(_) if code == 23 => format!(in alloc; "the shape has no command that answers a number"),
        Ok(_) => says(alloc, code),
        Err(error) => reason_of_reference(alloc, map, names, line, error),
    }
}
