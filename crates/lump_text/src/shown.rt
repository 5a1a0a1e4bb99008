//! How text that comes from a file or an argument is shown to a person: what isn't visible as `?`, and what is long
//! without its middle.
ghost use Rattle.std.specs.Prelude.{◌≡◌, ◌≤◌, ◌<◌, ◌++◌, IfOk, OnOk, length, string_bytes};
ghost use Rattle.std.specs.Io.KnownBytes.{Appends};
ghost use Rattle.lump_text.specs.Shown.{shown_byte, shown_ends, shown_line, shown_lines, shown_text, shown_whole, shown_within};

use crate::error::WriterFailed;
use std::alloc::{AllocError, Global};
use std::io::Write;

// How much of each end of a name or a path is shown.
const NAME: usize = 60;

// How much of each end of a line is shown.
const LINE: usize = 120;

// A byte as it is shown.
fn shown_byte(byte: u8) -> u8
    ensures { result ≡ shown_byte byte }
{
    if 32 <= byte && byte <= 126 {
        byte
    } else {
        b'?'
    }
}

// Writes bytes as they are shown, all of them.
fn write_whole<W: Write>(text: &[u8], writer: &mut W) -> Result<(), WriterFailed>
    ensures { OnOk result
        (Appends (W.contents writer.old) (W.contents writer.new) (shown_whole text.now)) }
{
    for byte in text {
        match writer.write_all(&[shown_byte(*byte)]) {
            Ok(()) => {}
            Err(_) => return Err(WriterFailed),
        }
    }
    Ok(())
}

// Writes the first and the last bytes of a text, so many of each.
fn write_ends<W: Write>(half: usize, text: &[u8], writer: &mut W) -> Result<(), WriterFailed>
    requires { half ≤ length text.now }
    ensures { OnOk result
        (Appends (W.contents writer.old) (W.contents writer.new) (shown_ends half text.now)) }
{
    write_whole(&text[..half], writer)?;
    writer.write_all(b" .. ")?;
    write_whole(&text[text.len() - half..], writer)
}

// Writes a text whole, or without its middle if it has more than twice so many bytes.
fn write_within<W: Write>(half: usize, text: &[u8], writer: &mut W) -> Result<(), WriterFailed>
    requires { half ≤ 120 }
    ensures { OnOk result
        (Appends (W.contents writer.old) (W.contents writer.new) (shown_within half text.now)) }
{
    if text.len() <= 2 * half {
        write_whole(text, writer)
    } else {
        write_ends(half, text, writer)
    }
}

/// Writes a name or a path as it is shown: each byte that is no visible character and no space as `?`, and of more than
/// 120 bytes the first 60, ` .. ` and the last 60.
///
/// # Errors
///
/// `WriterFailed`: any part of it may have been written.
#[tactic(auto, unfolding(crate::specs::Shown::shown_text))]
pub fn write_shown<W: Write>(text: &[u8], writer: &mut W) -> Result<(), WriterFailed>
    ensures { OnOk result
        (Appends (W.contents writer.old) (W.contents writer.new) (shown_text text.now)) }
{
    write_within(NAME, text, writer)
}

// Writes a line as it is shown, with its end, unless it is empty.
fn write_line<W: Write>(line: &[u8], writer: &mut W) -> Result<(), WriterFailed>
    ensures { OnOk result
        (Appends (W.contents writer.old) (W.contents writer.new) (shown_line line.now)) }
{
    if line.is_empty() {
        return Ok(());
    }
    write_within(LINE, line, writer)?;
    writer.write_all(b"\n")?;
    Ok(())
}

// The line before the first LF, and the text behind the LF.
#[tactic(auto, using(crate::proofs::Lines::lines_at, crate::proofs::Lines::lines_none))]
fn next_line(text: &[u8]) -> (&[u8], &[u8])
    requires { 0 < length text.now }
    ensures lines { shown_lines text.now
        ≡ shown_line result.0.now ++ shown_lines result.1.now }
    ensures short { length result.1.now < length text.now }
{
    for (i, b) in text.iter().enumerate() {
        if *b == b'\n' {
            return (&text[..i], &text[i + 1..]);
        }
    }
    (text, b"")
}

/// Writes the lines of a text as they are shown: of one with more than 240 bytes the first 120, ` .. ` and the last
/// 120. Empty lines are left out.
///
/// # Errors
///
/// `WriterFailed`: any part of them may have been written.
pub fn write_shown_lines<W: Write>(text: &[u8], writer: &mut W) -> Result<(), WriterFailed>
    ensures { OnOk result
        (Appends (W.contents writer.old) (W.contents writer.new) (shown_lines text.now)) }
{
    let mut rest = text;
    while !rest.is_empty() {
        let (line, behind) = next_line(rest);
        match write_line(line, writer) {
            Ok(()) => rest = behind,
            Err(error) => return Err(error),
        }
    }
    Ok(())
}

/// A name or a path as `write_shown` writes it.
pub fn shown_name(alloc: Global, text: &[u8]) -> Result<String, AllocError>
    ensures { IfOk result (λ told. string_bytes told ≡ shown_text text.now) }
{
    let mut told = Vec::new(alloc);
    match write_shown(text, &mut told) {
        Ok(()) => {}
        Err(_) => return Err(AllocError),
    }
    match String::from_utf8(told) {
        Ok(told) => Ok(told),
        Err(_) => unreachable!(),
    }
}
