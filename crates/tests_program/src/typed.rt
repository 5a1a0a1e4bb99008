//! `scratch` as a person types to it: what each line gets, what is said of a refused one, and how the session ends.

use cli_program::perform_typed;
use cli_words::Request;
use std::test::Fail;
use tests_rows::{expect_text, script_halves};
use tests_runs::streams::{Input, Output};

// What is typed, what standard output has then, and what standard error.
const SESSIONS: &str = "\
    ~~^\
    vertex 0 0\nvertex 64 0~ok 0\nok 1\n~^\
    vertex 0 0\nvertex 0 0\nvertex 64 0\n~ok 0\nno 10\nok 1\n~  vertex 0 stands at 0 0\n^\
    splitt 0 1 1\n~no 1\n~  perhaps this is meant: split LINE X Y\n^\
    vertex  0 0\n~no 1\n~  perhaps this is meant: vertex 0 0\n^\
    vertex 0 0 # a corner\n~no 1\n~  perhaps this is meant: vertex 0 0\n^\
    vertex $a.vertex 0\nlet a 1\narea 0 1\n~no 1\nno 1\nno 1\n\
    ~  names, shapes and blocks are for scripts, which draw takes\n\
    \x20 names, shapes and blocks are for scripts, which draw takes\n\
    \x20 names, shapes and blocks are for scripts, which draw takes\n^\
    \n~no 1\n~  a line is a command or a query: help lists them\n^\
    quit\nvertex 0 0\n~~^\
    vertex 0 0\nexit\nvertex 64 0\n~ok 0\n~^\
    vertex 0 0\nquit~ok 0\n~^\
    help split\ncheck\n~split LINE X Y\n  LINE 0 to 32766\n  X -16384 to 16383\n  Y -16384 to 16383\n\
    no player start\nfindings 1\n~^\
    help delete\nhelp castle\n~no such line; perhaps this is meant: drop KIND NUMBER\n\
    no such line; help lists them\n~";

// The status of a session over this reader; it must print this on standard error.
fn typed(
    rt: &HostRuntime,
    reader: &mut Input<'_>,
    writer: &mut Output,
    said: &[u8],
) -> Result<u8, Fail> {
    let mut faults = Vec::new(rt.alloc());
    let status = perform_typed(rt, &Request::Scratch, reader, writer, &mut faults);
    if faults.as_slice() == said {
        Ok(status)
    } else {
        Err(Fail::from("other faults"))
    }
}

// The status of a session, and its output.
fn written(rt: &HostRuntime, reader: &mut Input<'_>, said: &[u8]) -> Result<(u8, Vec<u8>), Fail> {
    let mut out = Output::new(rt.alloc());
    let status = typed(rt, reader, &mut out, said)?;
    Ok((status, out.written()?))
}

// A session over this reader has the output and the standard error that are wanted.
fn expect_session(
    rt: &HostRuntime,
    row: &str,
    reader: &mut Input<'_>,
    wanted: &str,
) -> Result<(), Fail> {
    let (answers, said) = script_halves(wanted);
    let (status, out) = written(rt, reader, said.as_bytes())?;
    if status == 0 && out.as_slice() == answers.as_bytes() {
        return Ok(());
    }
    expect_text(row, String::from_utf8(out)?.as_str(), answers)
}

// What is typed in a row is answered as it says, pasted and byte by byte.
fn expect_typed(rt: &HostRuntime, row: &str) -> Result<(), Fail> {
    let (lines, wanted) = script_halves(row);
    expect_session(rt, row, &mut Input::of(lines.as_bytes()), wanted)?;
    expect_session(rt, row, &mut Input::slow(lines.as_bytes(), false), wanted)
}

#[test]
fn answers_what_is_pasted_and_what_comes_byte_by_byte(rt: HostRuntime) -> Result<(), Fail> {
    for row in SESSIONS.split('^') {
        expect_typed(&rt, row)?;
    }
    Ok(())
}

#[test]
fn leaves_what_is_behind_quit(rt: HostRuntime) -> Result<(), Fail> {
    let mut reader = Input::of(b"vertex 0 0\nquit\nls\n");
    let (status, out) = written(&rt, &mut reader, b"")?;
    assert_eq!(rt; (status, out.as_slice()), (0, b"ok 0\n".as_slice()));
    assert_eq!(rt; reader.left, b"ls\n".as_slice());
    Ok(())
}

#[test]
fn flushes_each_answer(rt: HostRuntime) -> Result<(), Fail> {
    let mut writer = Output::new(rt.alloc());
    let mut reader = Input::slow(b"vertex 0 0\nhelp castle\nquit\n", false);
    let status = typed(&rt, &mut reader, &mut writer, b"")?;
    let flushed = b"ok 0\nno such line; help lists them\n".as_slice();
    assert_eq!(rt; (status, writer.flushed.as_slice()), (0, flushed));
    Ok(())
}

#[test]
fn tells_of_a_reader_that_fails(rt: HostRuntime) -> Result<(), Fail> {
    let mut broken = Input::slow(b"vertex 0 0\nvert", true);
    let (status, out) = written(&rt, &mut broken, b"leveled: 37 ReaderFailed\n")?;
    assert_eq!(rt; (status, out.as_slice()), (1, b"ok 0\n".as_slice()));
    Ok(())
}

#[test]
fn tells_of_a_writer_that_fails(rt: HostRuntime) -> Result<(), Fail> {
    let said = b"leveled: 38 WriterFailed\n";
    let mut reader = Input::of(b"vertex 0 0\nvertex 64 0\n");
    let status = typed(&rt, &mut reader, &mut Output::of(rt.alloc(), 2), said)?;
    assert_eq!(rt; (status, reader.left), (1, b"vertex 64 0\n".as_slice()));
    Ok(())
}
