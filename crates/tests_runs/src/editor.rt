//! Lines and their answers in memory.

use crate::expect::same;
use crate::streams::{Input, Output};
use map_tables::Map;
use run_edit::{EditorError, run_in_memory, write_findings};
use std::alloc::Global;
use std::process::Abort;
use std::test::Fail;
use tests_rows::expect_scripts;

const ROW: &[u8] = b"vertex 0 0\nvertex 128 0\nhex VERTEXES\n";

const ROW_ANSWERS: &[u8] = b"ok 0\nok 1\n00 00 00 00 80 00 00 00\n";

// How many lines a run answered, or why it ended, and what it wrote.
type Ended = (Result<u64, EditorError>, Vec<u8>);

// Runs over this reader.
fn run(alloc: Global, reader: &mut Input<'_>, turns: u32) -> Result<Ended, Fail> {
    let mut out = Output::new(alloc);
    let answered = run_in_memory(alloc, reader, &mut out, turns);
    Ok((answered, out.written()?))
}

// How many lines of this input are answered, or why the run ends, and what it writes.
fn told(alloc: Global, input: &[u8], turns: u32) -> Result<String, Fail> {
    let (answered, out) = run(alloc, &mut Input::of(input), turns)?;
    let out = String::from_utf8(out)?;
    Ok(format!(in alloc; "{answered:?} {out}")?)
}

/// The answers to the lines of a row behind its first one, which says what is tested.
pub fn answered(alloc: Global, row: &str) -> Result<String, Fail> {
    let (_, lines) = row.split_once('\n').unwrap_or(("", row));
    let (answered, out) = run(alloc, &mut Input::of(lines.as_bytes()), 2)?;
    match answered {
        Ok(_) => Ok(String::from_utf8(out)?),
        Err(_) => Err(Fail::from("the run ended early")),
    }
}

// Input, how many lines it has, and their answers.
const LINES: &str = "\
    ~Ok(0) ^\
    vertex 0 0\nvertex 128 0\nhex VERTEXES\n~Ok(3) ok 0\nok 1\n00 00 00 00 80 00 00 00\n^\
    hex VERTEXES~Ok(1) -\n^\
    vertex -16384 16383\nhex VERTEXES\nvertex 16384 0\nvertex -16384 16383\nhex VERTEXES\n~Ok(5) ok 0\n\
    00 c0 ff 3f\nno 2\nno 10\n00 c0 ff 3f\n^\
    vertex 00 0\nvertex -0 0\nvertex  1 1\n\nvertex 1\n~Ok(5) no 1\nno 1\nno 1\nno 1\nno 1\n^\
    hex\nhex  VERTEXES\nhex VERTEXES \nhex vertexes\n hex VERTEXES\n~Ok(5) no 1\nno 1\nno 1\nno 1\nno 1\n^\
    vertex 0 0\r\nvertex 0 0\n~Ok(2) no 1\nok 0\n^\
    vertex 1 2\nvertex 3 4~Ok(2) ok 0\nok 1\n^\
    \n\n\n~Ok(3) no 1\nno 1\nno 1\n";

#[test]
fn answers_lines(rt: HostRuntime) -> Result<(), Fail> {
    expect_scripts(rt.alloc(), LINES, |alloc, input| {
        told(alloc, input.as_bytes(), 2)
    })
}

// The line `vertex 0 ` with this many digits after it.
fn long_line(alloc: Global, digits: u32) -> Result<String, Fail> {
    let mut line = format!(in alloc; "vertex 0 ")?;
    for _ in 0..digits {
        line.push_str("1")?;
    }
    line.push_str("\n")?;
    Ok(line)
}

// How many digits the line has, and its answer. In a line of 256 bytes the number is out of its range; a longer line is
// no command, however long it is.
const DIGITS: &str = "\
    247~Ok(1) no 2\n^\
    248~Ok(1) no 1\n^\
    249~Ok(1) no 1\n^\
    9000~Ok(1) no 1\n";

#[test]
fn refuses_long_lines(rt: HostRuntime) -> Result<(), Fail> {
    expect_scripts(rt.alloc(), DIGITS, |alloc, digits| {
        told(alloc, long_line(alloc, digits.parse()?)?.as_bytes(), 4)
    })
}

// The lines after a long one are answered as usual.
const BEHIND: &str = "4090~Ok(4) no 1\nok 0\nok 1\n00 00 00 00 80 00 00 00\n";

// The answers to a long line and those behind it.
fn behind(alloc: Global, digits: &str) -> Result<String, Fail> {
    let mut lines = long_line(alloc, digits.parse()?)?;
    lines.push_str("vertex 0 0\nvertex 128 0\nhex VERTEXES\n")?;
    told(alloc, lines.as_bytes(), 3)
}

#[test]
fn answers_lines_behind_a_long_one(rt: HostRuntime) -> Result<(), Fail> {
    expect_scripts(rt.alloc(), BEHIND, behind)
}

// Whether a run over this input uses up its turns, with this output.
fn is_too_long(
    alloc: Global,
    reader: &mut Input<'_>,
    turns: u32,
    wanted: &[u8],
) -> Result<bool, Fail> {
    let (answered, out) = run(alloc, reader, turns)?;
    Ok(answered == Err(EditorError::InputTooLong) && out.as_slice() == wanted)
}

#[test]
fn counts_turns(rt: HostRuntime) -> Result<(), Fail> {
    let one = is_too_long(rt.alloc(), &mut Input::of(ROW), 1, ROW_ANSWERS)?;
    let none = is_too_long(rt.alloc(), &mut Input::of(ROW), 0, b"")?;
    // A run makes no more reads than it has turns.
    let mut many = Input::slow(b"\n\n\n\n\n\n\n\n", false);
    let five = b"no 1\nno 1\nno 1\nno 1\nno 1\n";
    let is_five = is_too_long(rt.alloc(), &mut many, 5, five)?;
    assert_eq!(rt; (one, none, is_five, many.reads), (true, true, true, 5));
    Ok(())
}

// 37 reads of one byte each, and one that finds the end.
#[test]
fn takes_a_turn_for_each_read(rt: HostRuntime) -> Result<(), Fail> {
    let mut reader = Input::slow(ROW, false);
    let is_too_long = is_too_long(rt.alloc(), &mut reader, 37, ROW_ANSWERS)?;
    assert!(rt; is_too_long);
    let (answered, out) = run(rt.alloc(), &mut Input::slow(ROW, false), 38)?;
    assert_eq!(rt; (answered, out.as_slice()), (Ok(3), ROW_ANSWERS));
    Ok(())
}

#[test]
fn stops_where_the_reader_fails(rt: HostRuntime) -> Result<(), Fail> {
    let mut reader = Input::slow(b"vertex 0 0\nvert", true);
    let (answered, out) = run(rt.alloc(), &mut reader, 100)?;
    let failed = Err(EditorError::ReaderFailed);
    assert_eq!(rt; (answered, out.as_slice()), (failed, b"ok 0\n".as_slice()));
    Ok(())
}

// How a run ends whose writer takes this many bytes.
fn answered_in(alloc: Global, room: usize) -> Result<u64, EditorError> {
    run_in_memory(alloc, &mut Input::of(ROW), &mut Output::of(alloc, room), 2)
}

#[test]
fn stops_where_the_writer_fails(rt: HostRuntime) {
    let failed = Err(EditorError::WriterFailed);
    for room in 0..34 {
        same(&rt, &(room, answered_in(rt.alloc(), room)), &(room, failed));
    }
    same(&rt, &answered_in(rt.alloc(), 34), &Ok(3));
}

// No further line is read after a failed write: the writer takes two bytes of the first answer and then fails.
#[test]
fn reads_no_line_after_one_that_was_not_told(rt: HostRuntime) {
    let mut reader = Input::slow(ROW, false);
    let mut writer = Output::of(rt.alloc(), 2);
    let answered = run_in_memory(rt.alloc(), &mut reader, &mut writer, 100);
    assert_eq!(rt; answered, Err(EditorError::WriterFailed));
    assert_eq!(rt; reader.left, b"vertex 128 0\nhex VERTEXES\n".as_slice());
}

// No further line is answered after a failed write, even if it was read already.
#[test]
fn answers_no_line_after_one_that_was_not_told(rt: HostRuntime) {
    let mut writer = Output::of(rt.alloc(), 2);
    let answered = run_in_memory(rt.alloc(), &mut Input::of(ROW), &mut writer, 100);
    assert_eq!(rt; answered, Err(EditorError::WriterFailed));
    assert_eq!(rt; writer.failures, 1);
}

// A run ends so, and these answers are flushed.
fn expect_flushed(
    rt: &impl Abort,
    alloc: Global,
    reader: &mut Input<'_>,
    turns: u32,
    want: (Result<u64, EditorError>, &[u8]),
) {
    let mut writer = Output::new(alloc);
    let answered = run_in_memory(alloc, reader, &mut writer, turns);
    same(rt, &(answered, writer.flushed.as_slice()), &want);
}

#[test]
fn hands_on_the_answers_of_a_turn(rt: HostRuntime) {
    let too_long = (Err(EditorError::InputTooLong), ROW_ANSWERS);
    expect_flushed(&rt, rt.alloc(), &mut Input::of(ROW), 1, too_long);
    let mut broken = Input::slow(b"vertex 0 0\nvert", true);
    let failed = (Err(EditorError::ReaderFailed), b"ok 0\n".as_slice());
    expect_flushed(&rt, rt.alloc(), &mut broken, 100, failed);
    let mut unended = Input::of(b"vertex 0 0\nvertex 1 0");
    let ended = (Ok(2), b"ok 0\nok 1\n".as_slice());
    expect_flushed(&rt, rt.alloc(), &mut unended, 2, ended);
}

const CODES: &[(EditorError, u16)] = &[
    (EditorError::OutOfMemory, 31),
    (EditorError::InputTooLong, 36),
    (EditorError::ReaderFailed, 37),
    (EditorError::WriterFailed, 38),
];

#[test]
fn numbers_refusals(rt: HostRuntime) {
    for &(error, code) in CODES {
        same(&rt, &(error, error.code()), &(error, code));
    }
}

#[test]
fn writes_findings(rt: HostRuntime) -> Result<(), Fail> {
    let map = Map::new(rt.alloc());
    let mut out = Output::new(rt.alloc());
    assert_eq!(rt; write_findings(rt.alloc(), &map, &mut out), Ok(1));
    let told = out.written()?;
    assert_eq!(rt;
        told.as_slice(),
        b"no player start\nfindings 1\n".as_slice()
    );

    let mut writer = Output::of(rt.alloc(), 20);
    let written = write_findings(rt.alloc(), &map, &mut writer);
    assert_eq!(rt; written, Err(EditorError::WriterFailed));
    Ok(())
}
