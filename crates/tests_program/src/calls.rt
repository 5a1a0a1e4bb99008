//! Calls of the program, as rows of texts have them.

use cli_program::perform;
use cli_words::{Request, RequestError, request};
use std::test::Fail;
use tests_rows::{expect_text, part};
use tests_runs::streams::{Input, Output};
use tests_words::split;

// The status of a request; 255 if there is none.
fn status_in(
    rt: &HostRuntime,
    asked: &Result<Request, RequestError>,
    reader: &mut Input<'_>,
    out: &mut Output,
    faults: &mut Vec<u8>,
) -> u8 {
    match asked {
        Ok(asked) => perform(rt, asked, reader, out, faults),
        Err(_) => 255,
    }
}

/// Calls the program with these arguments, this input and this output: its status, and its standard error. The status
/// is 255 if the arguments are no request.
pub fn status_of(
    rt: &HostRuntime,
    words: &[&str],
    reader: &mut Input<'_>,
    out: &mut Output,
) -> (u8, Vec<u8>) {
    let asked = request(rt.alloc(), words);
    let mut faults = Vec::new(rt.alloc());
    let status = status_in(rt, &asked, reader, out, &mut faults);
    (status, faults)
}

/// The status of a call, its output, and its standard error.
pub type Ended = (u8, Vec<u8>, Vec<u8>);

/// Calls the program with the words of a text behind `leveled`, and with this input.
pub fn performed(rt: &HostRuntime, words: &str, input: &[u8]) -> Result<Ended, Fail> {
    let words = split(rt.alloc(), words)?;
    let mut out = Output::new(rt.alloc());
    let (status, faults) = status_of(rt, &words, &mut Input::of(input), &mut out);
    Ok((status, out.written()?, faults))
}

/// The same as a row has it: the status, the output and standard error, which `~` divides.
pub fn called(rt: &HostRuntime, words: &str, input: &[u8]) -> Result<String, Fail> {
    let (status, mut out, faults) = performed(rt, words, input)?;
    out.push(b'~')?;
    out.extend_from_slice(&faults)?;
    let told = String::from_utf8(out)?;
    Ok(format!(in rt.alloc(); "{status}~{told}")?)
}

// Calls the program as a row says.
fn expect_call(rt: &HostRuntime, row: &str) -> Result<(), Fail> {
    let mut wanted = row;
    let words = part(&mut wanted, '~');
    let input = part(&mut wanted, '~');
    let found = called(rt, words, input.as_bytes())?;
    expect_text(row, found.as_str(), wanted)
}

/// Calls the program as each row says: its arguments after `leveled`, its input, its status, its output, and its
/// standard error.
pub fn expect_calls(rt: &HostRuntime, rows: &str) -> Result<(), Fail> {
    for row in rows.split('^') {
        expect_call(rt, row)?;
    }
    Ok(())
}
