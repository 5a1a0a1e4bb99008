//! A source of bytes, and how a part of it is copied to a writer.
ghost use Rattle.std.specs.Prelude.{◌≡◌, ◌+◌, ◌<◌, ◌^◌, length, List, ℕ, Option, OnOk};
ghost use Rattle.wad_file.specs.Placed.{IsCopied, IsPartAt};

use crate::buffer::ROOM;
use crate::error::{CopyFailed, SourceFailed};
use std::io::Write;

/// Gives the bytes at any place of a WAD.
pub trait Source {
    // All its bytes, if contracts can see them. Of those of a file nothing is known: it may give others each time.
    ghost known_bytes: { Self → Option (List ℕ) };

    /// Fills `into` with the bytes from `at` on.
    ///
    /// # Errors
    ///
    /// `SourceFailed`: `into` may hold anything.
    fn fill_from(&mut self, at: u64, into: &mut [u8]) -> Result<(), SourceFailed>
        ensures part { OnOk result (IsPartAt (known_bytes self.old) at into.new) }
        ensures stays { known_bytes self.new ≡ known_bytes self.old };
}

impl Source for &[u8] {
    ghost use Rattle.std.specs.Prelude.{Some};

    ghost known_bytes = { λ bytes. Some bytes.now };

    fn fill_from(&mut self, at: u64, into: &mut [u8]) -> Result<(), SourceFailed> {
        let bytes: &[u8] = *self;
        let len = bytes.len() as u64;
        if at > len || len - at < into.len() as u64 {
            return Err(SourceFailed);
        }
        let start = at as usize;
        into.copy_from_slice(&bytes[start..start + into.len()]);
        Ok(())
    }
}

// Copies the bytes from `at` on, as many as `bytes` has.
fn copy_bytes<S: Source, W: Write>(
    source: &mut S,
    at: u64,
    bytes: &mut [u8],
    writer: &mut W,
) -> Result<(), CopyFailed>
    ensures copied { OnOk result
        (IsCopied (S.known_bytes source.old) at (length bytes.old)
        (W.contents writer.old) (W.contents writer.new)) }
    ensures stays { S.known_bytes source.new ≡ S.known_bytes source.old }
{
    match source.fill_from(at, &mut *bytes) {
        Ok(()) => {}
        Err(_) => return Err(CopyFailed::Source),
    }
    match writer.write_all(bytes) {
        Ok(()) => Ok(()),
        Err(_) => Err(CopyFailed::Writer),
    }
}

/// Copies `len` bytes from `at` on, some KB at a time.
///
/// # Errors
///
/// `Source` or `Writer`, whichever failed: any part of the bytes may have been written.
pub fn copy_part<S: Source, W: Write>(
    source: &mut S,
    at: u32,
    len: u32,
    writer: &mut W,
) -> Result<(), CopyFailed>
    ensures copied { OnOk result
        (IsCopied (S.known_bytes source.old) at len
        (W.contents writer.old) (W.contents writer.new)) }
    ensures stays { S.known_bytes source.new ≡ S.known_bytes source.old }
{
    let mut buffer = [0; ROOM];
    let at = at as u64;
    let len = len as usize;
    let times = len / ROOM;
    for k in 0..times {
        match copy_bytes(source, at + (k * ROOM) as u64, &mut buffer, writer) {
            Ok(()) => {}
            Err(error) => return Err(error),
        }
    }
    let rest = &mut buffer[..len % ROOM];
    match copy_bytes(source, at + (times * ROOM) as u64, rest, writer) {
        Ok(()) => Ok(()),
        Err(error) => Err(error),
    }
}
