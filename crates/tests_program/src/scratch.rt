//! `scratch`: its status, its output, and what it reports if a reader or a writer fails.

use crate::calls::status_of;
use std::test::Fail;
use tests_runs::streams::{Input, Output};

const ROW: &[u8] = b"vertex 0 0\nvertex 128 0\nhex VERTEXES\n";

const ROW_ANSWERS: &[u8] = b"ok 0\nok 1\n00 00 00 00 80 00 00 00\n";

// The status of `scratch` over this reader; it must print this on standard error.
fn scratch(
    rt: &HostRuntime,
    reader: &mut Input<'_>,
    writer: &mut Output,
    said: &[u8],
) -> Result<u8, Fail> {
    let (status, faults) = status_of(rt, &["leveled", "scratch"], reader, writer);
    if faults.as_slice() == said {
        Ok(status)
    } else {
        Err(Fail::from("other faults"))
    }
}

// The status of `scratch`, and its output.
fn written(rt: &HostRuntime, reader: &mut Input<'_>, said: &[u8]) -> Result<(u8, Vec<u8>), Fail> {
    let mut out = Output::new(rt.alloc());
    let status = scratch(rt, reader, &mut out, said)?;
    Ok((status, out.written()?))
}

#[test]
fn performs_scratch(rt: HostRuntime) -> Result<(), Fail> {
    let (status, out) = written(&rt, &mut Input::of(ROW), b"")?;
    assert_eq!(rt; (status, out.as_slice()), (0, ROW_ANSWERS));
    Ok(())
}

// Each turn reads one byte, so the run takes many turns.
#[test]
fn performs_scratch_byte_by_byte(rt: HostRuntime) -> Result<(), Fail> {
    let (status, out) = written(&rt, &mut Input::slow(ROW, false), b"")?;
    assert_eq!(rt; (status, out.as_slice()), (0, ROW_ANSWERS));
    Ok(())
}

#[test]
fn tells_of_a_reader_that_fails(rt: HostRuntime) -> Result<(), Fail> {
    let mut broken = Input::slow(b"vertex 0 0\nvert", true);
    let (status, out) = written(&rt, &mut broken, b"leveled: 37 ReaderFailed\n")?;
    assert_eq!(rt; (status, out.as_slice()), (1, b"ok 0\n".as_slice()));
    Ok(())
}

#[test]
fn tells_of_a_writer_that_fails(rt: HostRuntime) -> Result<(), Fail> {
    let said = b"leveled: 38 WriterFailed\n";
    let (mut reader, mut writer) = (Input::of(ROW), Output::of(rt.alloc(), 2));
    let status = scratch(&rt, &mut reader, &mut writer, said)?;
    assert_eq!(rt; status, 1);
    Ok(())
}
