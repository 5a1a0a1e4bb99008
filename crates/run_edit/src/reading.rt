//! The loop of a run: each turn reads some bytes, cuts them at LF, answers the lines and flushes the answers.
ghost use Rattle.std.specs.Prelude.{◌≡◌, ◌≤◌, ℕ, List, ◌∷◌, [], length, take, IfOk, OnOk, MatchResult};
ghost use Rattle.std.specs.Io.KnownBytes.{Keeps};
ghost use Rattle.run_edit.specs.declared.error.EditorError.TheVariants.{WriterFailed};
ghost use Rattle.run_edit.specs.Lines.{IsBegun, line_if_any};
ghost use Rattle.run_edit.specs.Runs.{Exchange, Feeds, Ran, TakesLines, none_waits};

use crate::error::EditorError;
use crate::input_line::InputLine;
use crate::retrying::read_retrying;
use crate::session::Session;
use std::alloc::Global;
use std::io::{Read, Write};

// Flushes the writer, so that a pipe or a terminal gets the answers.
fn flush<W: Write>(writer: &mut W) -> Result<(), EditorError>
    ensures { MatchResult result (λ _. Keeps (W.contents writer.old) (W.contents writer.new))
        (λ e. e ≡ WriterFailed) }
{
    match writer.flush() {
        Ok(()) => Ok(()),
        Err(_) => Err(EditorError::WriterFailed),
    }
}

// Whether the bytes end more than one line.
fn ends_several(bytes: &[u8]) -> bool {
    let mut is_second = false;
    for b in bytes {
        if *b == b'\n' {
            if is_second {
                return true;
            }
            is_second = true;
        }
    }
    false
}

// Answers a last line without LF, if it isn't empty.
fn finish<S: Session, W: Write>(
    alloc: Global,
    session: &mut S,
    line: &InputLine,
    writer: &mut W,
) -> Result<u64, EditorError>
    ensures { (part : List ℕ) → IsBegun line.now part
        → TakesLines S.goes none_waits result session.old session.new
        (line_if_any part) (W.contents writer.old) (W.contents writer.new)
        × IfOk result (λ n. n ≡ length (line_if_any part)) }
{
    let kept = line.as_slice();
    if kept.is_empty() {
        return Ok(0);
    }
    match take_alone(alloc, session, kept, writer) {
        Ok(()) => match flush(writer) {
            Ok(()) => Ok(1),
            Err(error) => Err(error),
        },
        Err(error) => Err(error),
    }
}

// Answers one line.
fn take_alone<S: Session, W: Write>(
    alloc: Global,
    session: &mut S,
    line: &[u8],
    writer: &mut W,
) -> Result<(), EditorError>
    requires { length line.now ≤ 257 }
    ensures { (whole : List ℕ) → line.now ≡ take 257 whole
        → TakesLines S.goes none_waits result session.old session.new (whole ∷ [])
        (W.contents writer.old) (W.contents writer.new) }
{
    let mut waiting = S::none_waiting();
    match session.take(alloc, &mut waiting, line, false, writer) {
        Ok(()) => {}
        Err(error) => return Err(error),
    }
    session.settle(&mut waiting, writer)
}

// TakesLines one byte: LF ends the line, which is taken; any other byte is appended to it.
fn take_byte<S: Session, W: Write>(
    alloc: Global,
    session: &mut S,
    waiting: &mut S::Waiting,
    line: &mut InputLine,
    b: u8,
    may_wait: bool,
    writer: &mut W,
) -> Result<u64, EditorError>
    requires { (lines : List (List ℕ)) × S.waits session.old waiting.old lines }
    ensures feeds { (lines : List (List ℕ)) (part : List ℕ)
        → S.waits session.old waiting.old lines → IsBegun line.old part
        → Feeds S.goes (S.waits session.new waiting.new) result session.old session.new
        lines part (b ∷ []) line.new (W.contents writer.old) (W.contents writer.new) }
    ensures left { OnOk result
        ((lines : List (List ℕ)) × S.waits session.new waiting.new lines) }
    ensures few { IfOk result (λ n. n ≤ 1) }
{
    if b != b'\n' {
        line.push(b);
        return Ok(0);
    }
    match session.take(alloc, waiting, line.as_slice(), may_wait, writer) {
        Ok(()) => {
            line.clear();
            Ok(1)
        }
        Err(error) => Err(error),
    }
}

// TakesLines more bytes: each line that they end, and keeps the bytes after the last LF.
fn feed<S: Session, W: Write>(
    alloc: Global,
    session: &mut S,
    waiting: &mut S::Waiting,
    line: &mut InputLine,
    bytes: &[u8],
    writer: &mut W,
) -> Result<u64, EditorError>
    requires { S.waits session.old waiting.old [] }
    ensures feeds { (part : List ℕ) → IsBegun line.old part
        → Feeds S.goes (S.waits session.new waiting.new) result session.old session.new
        [] part bytes.now line.new (W.contents writer.old) (W.contents writer.new) }
    ensures left { OnOk result
        ((lines : List (List ℕ)) × S.waits session.new waiting.new lines) }
    ensures few { IfOk result (λ n. n ≤ length bytes.now) }
{
    let may_wait = ends_several(bytes);
    let mut answered: u64 = 0;
    for b in bytes {
        match take_byte(alloc, session, waiting, line, *b, may_wait, writer) {
            Ok(count) => answered += count,
            Err(error) => return Err(error),
        }
    }
    Ok(answered)
}

// TakesLines the bytes of one turn, and flushes the answers.
fn take_turn<S: Session, W: Write>(
    alloc: Global,
    session: &mut S,
    waiting: &mut S::Waiting,
    line: &mut InputLine,
    bytes: &[u8],
    writer: &mut W,
) -> Result<u64, EditorError>
    requires { S.waits session.old waiting.old [] }
    ensures feeds { (part : List ℕ) → IsBegun line.old part
        → Feeds S.goes none_waits result session.old session.new
        [] part bytes.now line.new (W.contents writer.old) (W.contents writer.new) }
    ensures left { OnOk result (S.waits session.new waiting.new []) }
    ensures few { IfOk result (λ n. n ≤ length bytes.now) }
{
    let count = match feed(alloc, session, waiting, line, bytes, writer) {
        Ok(count) => count,
        Err(error) => return Err(error),
    };
    match session.settle(waiting, writer) {
        Ok(()) => match flush(writer) {
            Ok(()) => Ok(count),
            Err(error) => Err(error),
        },
        Err(error) => Err(error),
    }
}

/// Answers the lines of the reader, and returns how many lines it answered. It makes at most `turns` reads of at most
/// 4,096 bytes each, and flushes the writer after each of these turns.
pub fn run_lines<S: Session, R: Read, W: Write>(
    alloc: Global,
    session: &mut S,
    reader: &mut R,
    writer: &mut W,
    turns: u32,
) -> Result<u64, EditorError>
    ensures { (trace : List Exchange)
        × Ran S.goes session.old session.new trace turns result
        (R.remaining reader.old) (R.remaining reader.new)
        (W.contents writer.old) (W.contents writer.new) }
{
    let mut line = InputLine::new();
    let mut waiting = S::none_waiting();
    let mut answered: u64 = 0;
    let mut buffer = [0; 4096];
    for _ in 0..turns {
        let count = match read_retrying(reader, &mut buffer) {
            Ok(count) => count,
            Err(_) => return Err(EditorError::ReaderFailed),
        };
        if count == 0 {
            match finish(alloc, session, &line, writer) {
                Ok(last) => return Ok(answered + last),
                Err(error) => return Err(error),
            }
        }
        let bytes = &buffer[..count];
        match take_turn(alloc, session, &mut waiting, &mut line, bytes, writer) {
            Ok(more) => answered += more,
            Err(error) => return Err(error),
        }
    }
    Err(EditorError::InputTooLong)
}
