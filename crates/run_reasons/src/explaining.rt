//! Says of a line that stands in no script why it was refused, and which lines there are.
use crate::calling::says;
use crate::forms::{form_near, form_of, range_at, text_of};
use crate::reasons::reason_of;
use crate::unfit::form_meant;
use map_blocks::{QUERY_FORMS, Stop};
use map_commands::{CommandError, FORMS};
use map_script::{
    Names, ScriptLines, at_words, closes, define_words, defined_name, let_words, loop_words,
    script_lines,
};
use map_shapes::is_shape_line;
use map_tables::Maps;
use std::alloc::{AllocError, Global};
use std::str;

// How a session is left, below the forms of its lines.
const WAYS_OUT: &str = "help WORD\nquit, exit or Ctrl-D\n";

// Whether a line has the sign of a name.
fn has_sign(line: &[u8]) -> bool {
    line.iter().any(|b| *b == b'$')
}

// Whether a line draws a block, a name or a shape, which only scripts have.
fn is_of_scripts(line: &[u8]) -> bool {
    let begins_block = loop_words(line).is_some() || at_words(line).is_some();
    let defines = define_words(line).is_some() || closes(line);
    let names = let_words(line).is_some() || defined_name(line).is_some() || has_sign(line);
    begins_block || defines || names || is_shape_line(line)
}

// Says what is meant by a line that has more than its words: other blanks, or a remark.
fn only_words(alloc: Global, line: &[u8]) -> Result<String, AllocError> {
    match str::from_utf8(line) {
        Ok(text) => format!(in alloc; "perhaps this is meant: {text}"),
        Err(_) => says(alloc, CommandError::NotACommand.code()),
    }
}

// Says why a line was refused that is a script of one line or none.
fn reason_in(
    alloc: Global,
    maps: &Maps,
    lines: &ScriptLines,
    line: &[u8],
    code: u16,
) -> Result<String, AllocError> {
    if lines.len() == 0 {
        return format!(in alloc; "a line is a command or a query: help lists them");
    }
    let words = lines.line(0).text;
    if words == line {
        let stop = Stop {
            place: 0,
            code,
            open: Vec::new(alloc),
        };
        return reason_of(alloc, maps, &Names::new(alloc), lines, &stop);
    }
    only_words(alloc, words)
}

/// Says what was wrong with a single command that got this code, given the maps as they are. No name stands for
/// anything. `line` is at most its first 257 bytes.
pub fn explain(alloc: Global, maps: &Maps, line: &[u8], code: u16) -> Result<String, AllocError> {
    if line.len() > 256 {
        return format!(in alloc; "a line has 256 bytes at most");
    }
    if code == CommandError::NotACommand.code() && is_of_scripts(line) {
        return format!(in alloc; "names, shapes and blocks are for scripts, which draw takes");
    }
    match script_lines(alloc, line) {
        Ok(lines) => reason_in(alloc, maps, &lines, line, code),
        Err(_) => says(alloc, CommandError::OutOfMemory.code()),
    }
}

// Appends some forms, each on a line.
fn put_forms(told: &mut String, forms: &[&'static [u8]]) -> Result<(), AllocError> {
    for form in forms {
        told.push_str(text_of(form))?;
        told.push_str("\n")?;
    }
    Ok(())
}

// The forms of all commands and queries, and how to leave.
fn all_forms(alloc: Global) -> Result<String, AllocError> {
    let mut told = String::new(alloc);
    put_forms(&mut told, FORMS)?;
    put_forms(&mut told, QUERY_FORMS)?;
    told.push_str(WAYS_OUT)?;
    Ok(told)
}

// A form, and the range of each of its numbers.
fn with_ranges(alloc: Global, form: &str) -> Result<String, AllocError> {
    let mut told = format!(in alloc; "{form}\n")?;
    for place in form.split(' ') {
        if let Some((low, high)) = range_at(place) {
            let range = format!(in alloc; "  {place} {low} to {high}\n")?;
            told.push_str(range.as_str())?;
        }
    }
    Ok(told)
}

// The form that begins with a word, or that there is none.
fn form_text(alloc: Global, word: &str) -> Result<String, AllocError> {
    match form_of(word) {
        Some(form) => with_ranges(alloc, form),
        None => match form_meant(word).or(form_near(word)) {
            Some(form) => format!(in alloc; "no such line; perhaps this is meant: {form}\n"),
            None => format!(in alloc; "no such line; help lists them\n"),
        },
    }
}

/// What a line `help` or `help WORD` asks for: the forms of all commands and queries and how to leave, or the form that
/// begins with WORD.
pub fn help_text(alloc: Global, line: &[u8]) -> Result<String, AllocError> {
    let text = str::from_utf8(line).unwrap_or("help ?");
    match text.split_once(' ') {
        Some((_, word)) => form_text(alloc, word),
        None => all_forms(alloc),
    }
}
