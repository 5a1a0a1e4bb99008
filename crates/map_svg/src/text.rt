//! Writes bytes, text escaped for XML, and paths.
ghost use Rattle.std.specs.Prelude.{OnOk};
ghost use Rattle.std.specs.Io.KnownBytes.{Appends};
ghost use Rattle.map_svg.specs.Texts.{escaped, escaped_byte, path_text};

use crate::places::Spot;
use lump_text::WriterFailed;
use std::io::Write;

/// Writes bytes unchanged.
///
/// # Errors
///
/// `WriterFailed`: any part of them may have been written.
pub fn write_bytes<W: Write>(bytes: &[u8], writer: &mut W) -> Result<(), WriterFailed>
    ensures { OnOk result (Appends (W.contents writer.old) (W.contents writer.new) bytes.now) }
{
    writer.write_all(bytes)?;
    Ok(())
}

// Writes a byte of a text, escaped for XML.
fn write_escaped_byte<W: Write>(byte: u8, writer: &mut W) -> Result<(), WriterFailed>
    ensures { OnOk result
        (Appends (W.contents writer.old) (W.contents writer.new) (escaped_byte byte)) }
{
    if byte == b'&' {
        write_bytes(b"&amp;", writer)
    } else if byte == b'<' {
        write_bytes(b"&lt;", writer)
    } else if byte == b'>' {
        write_bytes(b"&gt;", writer)
    } else {
        write_bytes(&[byte], writer)
    }
}

/// Writes a text escaped as XML content: `&`, `<` and `>` become entities.
///
/// # Errors
///
/// `WriterFailed`: any part of it may have been written.
pub fn write_escaped<W: Write>(text: &[u8], writer: &mut W) -> Result<(), WriterFailed>
    ensures { OnOk result
        (Appends (W.contents writer.old) (W.contents writer.new) (escaped text.now)) }
{
    for byte in text {
        match write_escaped_byte(*byte, writer) {
            Ok(()) => {}
            Err(error) => return Err(error),
        }
    }
    Ok(())
}

/// Ends a title, and draws a straight line between two places.
///
/// # Errors
///
/// `WriterFailed`: any part of it may have been written.
pub fn write_path<W: Write>(from: Spot, to: Spot, writer: &mut W) -> Result<(), WriterFailed>
    ensures { OnOk result
        (Appends (W.contents writer.old) (W.contents writer.new) (path_text from to)) }
{
    let (x1, y1, x2, y2) = (from.x, from.y, to.x, to.y);
    write!(writer, "</title>\n<path d=\"M{x1} {y1}L{x2} {y2}\"/>")?;
    Ok(())
}
