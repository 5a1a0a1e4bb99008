//! A session with a person: each line is answered as it is typed, and below a refused command stands what was wrong.
ghost use Rattle.std.specs.Prelude.{◌≡◌, ℕ, List, [], ◌∷◌, ◌++◌, true, false, take, MatchOption, MatchResult};
ghost use Rattle.std.specs.List.{list_any};
ghost use Rattle.std.specs.Io.KnownBytes.{Appends, Consumes, IsAtEnd, Keeps};
ghost use Rattle.run_edit.specs.declared.error.EditorError.TheVariants.{ReaderFailed, WriterFailed};
ghost use Rattle.run_edit.specs.Lines.{IsBegun, line_if_any, whole_lines};
ghost use Rattle.run_edit.specs.Runs.{AnswersLine, Exchange, Feeds, IsTrace, TakesLines, none_waits};
ghost use Rattle.cli_requests.specs.Typing.{RepliesTyped, Typed, asks_help, quits};

use lump_text::write_shown_lines;
use map_tables::Maps;
use run_edit::{EditorError, InputLine, Spoken, read_retrying};
use run_reasons::{explain, help_text};
use std::alloc::Global;
use std::io::{Read, Write};

// How many bytes a session reads at most: as many as 1,048,576 reads of 4,096 give.
const LONGEST_INPUT: u64 = 4_294_967_296;

// Whether a line ends the session.
fn quits(line: &[u8]) -> bool
    ensures { result ≡ quits line.now }
{
    line == b"quit".as_slice() || line == b"exit".as_slice()
}

// Whether a line asks for help.
fn asks_help(line: &[u8]) -> bool
    ensures { result ≡ asks_help line.now }
{
    line.len() <= 256 && (line == b"help".as_slice() || line.starts_with(b"help "))
}

// Flushes the writer, so that the terminal gets what was written.
fn flush<W: Write>(writer: &mut W) -> Result<(), EditorError>
    ensures { MatchResult result (λ _. Keeps (W.contents writer.old) (W.contents writer.new))
        (λ e. e ≡ WriterFailed) }
{
    match writer.flush() {
        Ok(()) => Ok(()),
        Err(_) => Err(EditorError::WriterFailed),
    }
}

// Writes a text.
fn write_text<W: Write>(text: &[u8], writer: &mut W) -> Result<(), EditorError>
    ensures { MatchResult result
        (λ _. Appends (W.contents writer.old) (W.contents writer.new) text.now)
        (λ e. e ≡ WriterFailed) }
{
    match writer.write_all(text) {
        Ok(()) => Ok(()),
        Err(_) => Err(EditorError::WriterFailed),
    }
}

// Writes the help that a line asks for.
fn write_help<W: Write>(alloc: Global, line: &[u8], writer: &mut W) -> Result<(), EditorError>
    ensures { (text : List ℕ) × MatchResult result
        (λ _. Appends (W.contents writer.old) (W.contents writer.new) text)
        (λ e. e ≡ WriterFailed) }
{
    match help_text(alloc, line) {
        Ok(text) => write_text(text.as_bytes(), writer),
        Err(_) => write_text(b"out of memory\n", writer),
    }
}

// Gives the help that a line asks for.
fn give_help<W: Write>(alloc: Global, line: &[u8], writer: &mut W) -> Result<(), EditorError>
    ensures { (text : List ℕ) × MatchResult result
        (λ _. Appends (W.contents writer.old) (W.contents writer.new) text)
        (λ e. e ≡ WriterFailed) }
{
    match write_help(alloc, line, writer) {
        Ok(()) => flush(writer),
        Err(error) => Err(error),
    }
}

// Says below a refused command what was wrong, but for a lack of memory and a failed file. If that can't be written, it
// is left out.
fn say_why<F: Write>(
    alloc: Global,
    maps: &Maps,
    line: &[u8],
    refusal: Option<u16>,
    faults: &mut F,
) {
    let Some(code) = refusal else {
        return;
    };
    if 30 <= code && code <= 32 {
        return;
    }
    let Ok(reason) = explain(alloc, maps, line, code) else {
        return;
    };
    let Ok(told) = format!(in alloc; "  {reason}") else {
        return;
    };
    let _ = write_shown_lines(told.as_bytes(), faults);
}

// Answers a line. `line` is at most its first 257 bytes.
fn answer_line<P: Spoken, W: Write, F: Write>(
    alloc: Global,
    partner: &mut P,
    line: &[u8],
    writer: &mut W,
    faults: &mut F,
) -> Result<(), EditorError>
    ensures { (whole : List ℕ) → line.now ≡ take 257 whole
        → AnswersLine P.answers result partner.old partner.new whole
        (W.contents writer.old) (W.contents writer.new) }
{
    let refusal = match partner.reply(alloc, line, writer) {
        Ok(refusal) => refusal,
        Err(error) => return Err(error),
    };
    match flush(writer) {
        Ok(()) => {}
        Err(error) => return Err(error),
    }
    say_why(alloc, partner.maps_now(), line, refusal, faults);
    Ok(())
}

// Answers a line, or gives the help that it asks for. `line` is at most its first 257 bytes.
fn take_line<P: Spoken, W: Write, F: Write>(
    alloc: Global,
    partner: &mut P,
    line: &[u8],
    writer: &mut W,
    faults: &mut F,
) -> Result<(), EditorError>
    ensures { (whole : List ℕ) → line.now ≡ take 257 whole
        → AnswersLine (RepliesTyped P.answers) result partner.old partner.new whole
        (W.contents writer.old) (W.contents writer.new) }
{
    if asks_help(line) {
        return give_help(alloc, line, writer);
    }
    answer_line(alloc, partner, line, writer, faults)
}

// Takes one more byte: LF ends the line, which gets its text; any other byte is appended to it. Returns how many lines
// it ended.
fn take_byte<P: Spoken, W: Write, F: Write>(
    alloc: Global,
    partner: &mut P,
    line: &mut InputLine,
    b: u8,
    writer: &mut W,
    faults: &mut F,
) -> Result<u64, EditorError>
    ensures { (part : List ℕ) → IsBegun line.old part
        → Feeds (IsTrace (RepliesTyped P.answers)) none_waits result partner.old partner.new
        [] part (b ∷ []) line.new (W.contents writer.old) (W.contents writer.new) }
{
    if b != b'\n' {
        line.push(b);
        return Ok(0);
    }
    match take_line(alloc, partner, line.as_slice(), writer, faults) {
        Ok(()) => {
            line.clear();
            Ok(1)
        }
        Err(error) => Err(error),
    }
}

// Gives a last line without LF its text, if it isn't empty.
fn finish<P: Spoken, W: Write, F: Write>(
    alloc: Global,
    partner: &mut P,
    line: &InputLine,
    writer: &mut W,
    faults: &mut F,
) -> Result<(), EditorError>
    ensures { (part : List ℕ) → IsBegun line.now part
        → TakesLines (IsTrace (RepliesTyped P.answers)) none_waits result partner.old partner.new
        (line_if_any part) (W.contents writer.old) (W.contents writer.new) }
{
    let kept = line.as_slice();
    if kept.is_empty() {
        return Ok(());
    }
    take_line(alloc, partner, kept, writer, faults)
}

// Whether the line that is being read ends the session, as far as it is read.
fn is_leaving(line: &InputLine) -> bool
    ensures { (part : List ℕ) → IsBegun line.now part → result ≡ quits part }
{
    quits(line.as_slice())
}

// Whether a byte ends a line that ends the session.
fn ends_session(line: &InputLine, b: u8) -> bool
    ensures left { result ≡ true
        → (b ≡ 10) × ((part : List ℕ) → IsBegun line.now part → quits part ≡ true) }
    ensures on { result ≡ false → (part : List ℕ) → IsBegun line.now part
        → list_any quits (whole_lines (part ++ b ∷ [])) ≡ false }
{
    if b != b'\n' {
        return false;
    }
    is_leaving(line)
}

// The next byte, if there is one. It is read alone: what stands behind a line is left where it is until the line has
// its answer.
fn next_byte<R: Read>(reader: &mut R) -> Result<Option<u8>, EditorError>
    ensures { MatchResult result
        (λ byte. MatchOption byte
        (Consumes (R.remaining reader.old) (R.remaining reader.new) []
        × IsAtEnd (R.remaining reader.new))
        (λ b. Consumes (R.remaining reader.old) (R.remaining reader.new) (b ∷ [])))
        (λ e. (e ≡ ReaderFailed)
        × Consumes (R.remaining reader.old) (R.remaining reader.new) []) }
{
    let mut buffer = [0; 1];
    match read_retrying(reader, &mut buffer) {
        Ok(count) => {
            if count == 0 {
                Ok(None)
            } else {
                Ok(Some(buffer[0]))
            }
        }
        Err(_) => Err(EditorError::ReaderFailed),
    }
}

/// Answers the lines that a person types, each as soon as it is read, until a line `quit` or `exit` or the end of the
/// input. Nothing is read behind such a line. What is wrong with a refused command is said on `faults`.
///
/// # Errors
///
/// - `InputTooLong` after 4,294,967,296 bytes, and `ReaderFailed`: every line that was read whole has been answered.
/// - `WriterFailed`: no further line was answered.
pub fn run_typed<P: Spoken, R: Read, W: Write, F: Write>(
    alloc: Global,
    partner: &mut P,
    reader: &mut R,
    writer: &mut W,
    faults: &mut F,
) -> Result<(), EditorError>
    ensures { (trace : List Exchange)
        × Typed P.answers partner.old partner.new trace result
        (R.remaining reader.old) (R.remaining reader.new)
        (W.contents writer.old) (W.contents writer.new) }
{
    let mut line = InputLine::new();
    for _ in 0..LONGEST_INPUT {
        let byte = match next_byte(reader) {
            Ok(byte) => byte,
            Err(error) => return Err(error),
        };
        let Some(b) = byte else {
            if is_leaving(&line) {
                return Ok(());
            }
            return finish(alloc, partner, &line, writer, faults);
        };
        if ends_session(&line, b) {
            return Ok(());
        }
        match take_byte(alloc, partner, &mut line, b, writer, faults) {
            Ok(_more) => {}
            Err(error) => return Err(error),
        }
    }
    Err(EditorError::InputTooLong)
}
