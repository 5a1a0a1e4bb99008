//! Bytes on their way to a writer, which gets some KB at a time.
ghost use Rattle.std.specs.Prelude.{replicate, OnOk};
ghost use Rattle.std.specs.Io.KnownBytes.{Appends};

use arrayvec::ArrayVec;
use lump_text::WriterFailed;
use std::io::Write;
use std::marker::Model;

// How many bytes a buffer has room for.
pub(crate) const ROOM: usize = 8192;

/// Bytes on their way to a writer, which gets some KB at a time; no call allocates. A contract sees the bytes that the
/// writer hasn't got yet.
#[derive(Drop)]
pub struct ByteBuffer {
    held: ArrayVec<u8, ROOM>,
}

impl Model for ByteBuffer {
    ghost use Rattle.std.specs.Prelude.{ℕ, List};

    ghost Value = { List ℕ };

    ghost view = { λ p. p.held.items };
}

impl ByteBuffer {
    ghost use Rattle.std.specs.Prelude.{◌≡◌, [], OnOk};
    ghost use Rattle.std.specs.Io.KnownBytes.{Appends, append_known};

    /// No bytes are held.
    pub fn new() -> ByteBuffer
        ensures { result ≡ [] }
    {
        ByteBuffer {
            held: ArrayVec::new(),
        }
    }

    /// Puts bytes behind those that are held. If they no longer fit, the writer gets those.
    pub fn put<W: Write>(&mut self, bytes: &[u8], writer: &mut W) -> Result<(), WriterFailed>
        ensures { OnOk result
            (Appends (append_known (W.contents writer.old) self.old)
            (append_known (W.contents writer.new) self.new) bytes.now) }
    {
        if let Ok(()) = self.held.try_extend_from_slice(bytes) {
            return Ok(());
        }
        self.send(writer)?;
        if let Ok(()) = self.held.try_extend_from_slice(bytes) {
            return Ok(());
        }
        writer.write_all(bytes)?;
        Ok(())
    }

    /// Writes the bytes that are held. None are then.
    pub fn send<W: Write>(&mut self, writer: &mut W) -> Result<(), WriterFailed>
        ensures sent { OnOk result
            (Appends (W.contents writer.old) (W.contents writer.new) self.old) }
        ensures none { OnOk result (self.new ≡ []) }
    {
        writer.write_all(self.held.as_slice())?;
        self.held.clear();
        Ok(())
    }
}

/// Writes zeros, as many as `len` says.
pub fn write_zeros<W: Write>(len: usize, writer: &mut W) -> Result<(), WriterFailed>
    ensures { OnOk result
        (Appends (W.contents writer.old) (W.contents writer.new) (replicate len 0)) }
{
    let zeros = [0; ROOM];
    for _ in 0..len / ROOM {
        writer.write_all(&zeros)?;
    }
    writer.write_all(&zeros[..len % ROOM])?;
    Ok(())
}
