//! The lines of a script, cleaned.
ghost use Rattle.std.specs.Prelude.{◌≡◌, [], ◌∷◌, ◌++◌, ◌≤◌, ◌<◌, length, slice_get, IfErr, IfOk, IsOkUnless, Some, option_copied};
ghost use Rattle.std.specs.List.{slice_split};
ghost use Rattle.std.specs.Str.Lines.{strip_carriage_return};
ghost use Rattle.map_script.specs.declared.error.DrawError.TheVariants.{OutOfMemory};
ghost use Rattle.map_script.specs.Scripts.{begins_comment, cleaned, is_line_end, script_lines, without_mark};
ghost use Rattle.map_script.specs.Views.{AreLineEnds, begin_of, len_behind, line_end_of, lines_behind, lines_from, seen, text_between, with_script_line};
ghost use Rattle.map_script.specs.Words.{is_some_text};

use crate::error::DrawError;
use crate::text::{put_word, without_first};
use crate::words::next_word;
use std::alloc::Global;
use std::marker::Model;

/// A line of a script that has a word: its number, from 1, and its words, separated by single spaces.
#[derive(Clone, Copy)]
pub struct ScriptLine<'a> {
    pub number: usize,
    pub text: &'a [u8],
}

/// The number of a line, and where its text ends among those of all lines, which stand one behind the other.
#[derive(Clone, Copy)]
pub struct LineEnd {
    pub number: u32,
    pub end: u32,
}

/// The lines of a script that have a word, each cleaned and with its number. They take as much memory as the script,
/// and eight bytes for each line.
#[derive(Drop)]
pub struct ScriptLines {
    texts: Vec<u8>,
    ends: Vec<LineEnd>,
}

impl Model for ScriptLines {
    ghost use Rattle.std.specs.Prelude.{ℕ, List, length};
    ghost use Rattle.map_script.specs.Views.{AreLineEnds, lines_from};

    ghost Value = { List (ℕ × List ℕ) };

    ghost view = { λ s. lines_from s.texts.items 0 s.ends.items };

    ghost invariant = { λ s. AreLineEnds 0 s.ends.items (length s.texts.items) };
}

// Where the text of a line begins: where the one before it ends.
fn begin_of(ends: &[LineEnd], place: usize) -> usize
    requires { place ≤ length ends.now }
    ensures { result ≡ begin_of 0 ends.now place }
{
    if place == 0 {
        0
    } else {
        ends[place - 1].end as usize
    }
}

// A part of a text, from one place up to another.
fn text_between(text: &[u8], from: usize, until: usize) -> &[u8]
    requires begins { from ≤ until }
    requires ends { until ≤ length text.now }
    ensures { result.now ≡ text_between text.now from until }
{
    &text[from..until]
}

// The line at a place among lines whose texts end so.
fn line_in<'a>(texts: &'a [u8], ends: &[LineEnd], place: usize) -> ScriptLine<'a>
    requires place { place < length ends.now }
    requires ends { AreLineEnds 0 ends.now (length texts.now) }
    ensures { slice_get (lines_from texts.now 0 ends.now) place ≡ Some (seen result) }
{
    let line = ends[place];
    let begin = begin_of(ends, place);
    ScriptLine {
        number: line.number as usize,
        text: text_between(texts, begin, line.end as usize),
    }
}

impl ScriptLines {
    ghost use Rattle.std.specs.Prelude.{◌≡◌, ◌<◌, ◌^◌, ◌++◌, ◌∷◌, [], length, slice_get, IfErr, IfOk, IsOkUnless, Some};
    ghost use Rattle.map_script.specs.Views.{seen};
    ghost use Rattle.map_script.specs.declared.error.DrawError.TheVariants.{OutOfMemory};

    /// No lines. It allocates no memory.
    pub fn empty(alloc: Global) -> Self
        ensures { result ≡ [] }
    {
        ScriptLines {
            texts: Vec::new(alloc),
            ends: Vec::new(alloc),
        }
    }

    /// Puts a line behind the others, with its number.
    ///
    /// # Errors
    ///
    /// Only `OutOfMemory`, also for lines of 4 GiB and more; the lines stay as they are.
    pub fn put(&mut self, line: &ScriptLine<'_>) -> Result<(), DrawError>
        ensures ok { IfOk result (λ _. self.new ≡ self.old ++ seen line.now ∷ []) }
        ensures refused { IfErr result (λ _. self.new ≡ self.old) }
        ensures memory { IsOkUnless result OutOfMemory }
    {
        add_line(&mut self.texts, &mut self.ends, line.number, line.text)
    }

    /// How many lines there are.
    pub fn len(&self) -> usize
        ensures count { result ≡ length self.now }
        ensures few { result < 2 ^ 63 }
    {
        self.ends.len()
    }

    /// The line at a place among them, from 0.
    pub fn line(&self, place: usize) -> ScriptLine<'_>
        requires { place < length self.now }
        ensures { slice_get self.now place ≡ Some (seen result) }
    {
        line_in(&self.texts, &self.ends, place)
    }
}

// The script without a leading byte order mark.
fn without_mark(script: &[u8]) -> &[u8]
    ensures mark { result.now ≡ without_mark script.now }
{
    if script.starts_with(b"\xef\xbb\xbf") {
        &script[3..]
    } else {
        script
    }
}

// The line before the first LF, and the text after the LF if there is one.
#[tactic(auto, using(crate::proofs::Cleaning::lines_at, crate::proofs::Cleaning::lines_none))]
fn next_line(script: &[u8]) -> (&[u8], Option<&[u8]>)
    ensures lines { slice_split is_line_end script.now
        ≡ result.0.now ∷ lines_behind (option_copied result.1) }
    ensures short { len_behind (option_copied result.1) ≤ length script.now }
{
    for (i, b) in script.iter().enumerate() {
        if *b == b'\n' {
            return (&script[..i], Some(&script[i + 1..]));
        }
    }
    (script, None)
}

// The line without a CR at its end.
fn without_return(line: &[u8]) -> &[u8]
    ensures { result.now ≡ strip_carriage_return line.now }
{
    match line {
        [front @ .., b'\r'] => front,
        _ => line,
    }
}

// Whether the text is not empty.
fn is_some_text(text: &[u8]) -> bool
    ensures { result ≡ is_some_text text.now }
{
    match text {
        [] => false,
        [_, ..] => true,
    }
}

// Whether a comment begins with the word.
fn begins_comment(word: &[u8]) -> bool
    ensures { result ≡ begins_comment word.now }
{
    match word {
        [first, ..] => *first == b'#',
        [] => false,
    }
}

// Cleans the line.
#[tactic(auto, using(crate::proofs::Cleaning::cleaned_start, crate::proofs::Cleaning::cleaned_more, crate::proofs::Cleaning::cleaned_comment, crate::proofs::Cleaning::cleaned_end))]
fn clean(alloc: Global, line: &[u8]) -> Result<Vec<u8>, DrawError>
    ensures ok { IfOk result (λ text. text.items ≡ cleaned line.now) }
    ensures memory { IsOkUnless result OutOfMemory }
{
    let mut text = Vec::new(alloc);
    let mut rest = without_return(line);
    while let Some((word, behind)) = next_word(rest) {
        if begins_comment(word) {
            return Ok(without_first(text));
        }
        match put_word(&mut text, word) {
            Ok(()) => rest = behind,
            Err(error) => return Err(error),
        }
    }
    Ok(without_first(text))
}

// Whether a line has a word before its comment.
fn has_word(line: &[u8]) -> bool {
    match next_word(without_return(line)) {
        Some((word, _)) => !begins_comment(word),
        None => false,
    }
}

// How many lines have a word: so much room is made for them at once, and none is left over.
fn count_lines(script: &[u8]) -> usize {
    let mut count = 0;
    let mut rest = Some(script);
    while let Some(text) = rest {
        let (line, behind) = next_line(text);
        if has_word(line) {
            count += 1;
        }
        rest = behind;
    }
    count
}

/// The lines of a script that have a word, each cleaned and with its number.
///
/// # Errors
///
/// Only `OutOfMemory`, also for lines of 4 GiB and more.
#[tactic(auto, using(crate::proofs::Cleaning::take_line))]
pub fn script_lines(alloc: Global, script: &[u8]) -> Result<ScriptLines, DrawError>
    ensures ok { IfOk result (λ lines. lines ≡ script_lines script.now) }
    ensures memory { IsOkUnless result OutOfMemory }
{
    let mut texts = Vec::with_capacity(alloc, script.len())?;
    let mut ends = Vec::with_capacity(alloc, count_lines(script))?;
    let mut rest = Some(without_mark(script));
    let mut number: usize = 0;
    while let Some(text) = rest {
        let (line, behind) = next_line(text);
        number += 1;
        match put_line(alloc, &mut texts, &mut ends, number, line) {
            Ok(()) => rest = behind,
            Err(error) => return Err(error),
        }
    }
    Ok(ScriptLines { texts, ends })
}

// The number and the end of a line, if they have 32 bits.
fn line_end(number: usize, end: usize) -> Result<LineEnd, DrawError>
    ensures ok { IfOk result (λ e. (e.number ≡ number) × (e.end ≡ end)) }
    ensures memory { IsOkUnless result OutOfMemory }
{
    match (u32::try_from(number), u32::try_from(end)) {
        (Ok(number), Ok(end)) => Ok(LineEnd { number, end }),
        _ => Err(DrawError::OutOfMemory),
    }
}

// Adds the number and the end of a line.
#[tactic(auto, using(crate::proofs::LineTexts::end_added))]
fn add_end(ends: &mut Vec<LineEnd>, number: usize, end: usize) -> Result<(), DrawError>
    ensures ok { IfOk result (λ _.
        ends.new.items ≡ ends.old.items ++ line_end_of number end ∷ []) }
    ensures refused { IfErr result (λ _. ends.new.items ≡ ends.old.items) }
    ensures memory { IsOkUnless result OutOfMemory }
{
    let end = line_end(number, end)?;
    ends.push(end)?;
    Ok(())
}

// Adds a line, whose text is cleaned, or leaves all as it is.
#[tactic(auto, using(crate::proofs::LineTexts::line_added, crate::proofs::LineTexts::ends_added, crate::proofs::LineTexts::cut_back))]
fn add_line(
    texts: &mut Vec<u8>,
    ends: &mut Vec<LineEnd>,
    number: usize,
    text: &[u8],
) -> Result<(), DrawError>
    requires { AreLineEnds 0 ends.old.items (length texts.old.items) }
    ensures ok { IfOk result
        (λ _. lines_from texts.new.items 0 ends.new.items
        ≡ lines_from texts.old.items 0 ends.old.items ++ (number, text.now) ∷ []) }
    ensures ends { AreLineEnds 0 ends.new.items (length texts.new.items) }
    ensures texts_stay { IfErr result (λ _. texts.new.items ≡ texts.old.items) }
    ensures ends_stay { IfErr result (λ _. ends.new.items ≡ ends.old.items) }
    ensures memory { IsOkUnless result OutOfMemory }
{
    let before = texts.len();
    texts.extend_from_slice(text)?;
    match add_end(ends, number, texts.len()) {
        Ok(()) => Ok(()),
        Err(error) => {
            texts.truncate(before);
            Err(error)
        }
    }
}

// Adds a line, if it has a word.
fn put_line(
    alloc: Global,
    texts: &mut Vec<u8>,
    ends: &mut Vec<LineEnd>,
    number: usize,
    line: &[u8],
) -> Result<(), DrawError>
    requires { AreLineEnds 0 ends.old.items (length texts.old.items) }
    ensures ok { IfOk result
        (λ _. lines_from texts.new.items 0 ends.new.items
        ≡ with_script_line (lines_from texts.old.items 0 ends.old.items) number line.now) }
    ensures ends { IfOk result (λ _. AreLineEnds 0 ends.new.items (length texts.new.items)) }
    ensures memory { IsOkUnless result OutOfMemory }
{
    let text = clean(alloc, line)?;
    if !is_some_text(&text) {
        return Ok(());
    }
    add_line(texts, ends, number, &text)
}
