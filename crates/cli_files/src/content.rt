//! What a file holds, by its first bytes.
ghost use Rattle.std.specs.Prelude.{◌≡◌, take};
ghost use Rattle.cli_files.specs.Contents.{content_of};

use std::io;
use std::os::unix::fs::FileExt;

// How many of a file's first bytes tell what it holds.
const HEAD: usize = 512;

/// What a file holds.
#[derive(Clone, Copy)]
pub enum Content {
    /// Nothing.
    Nothing,
    /// A project, of any version.
    Project,
    /// An IWAD or a PWAD.
    Wad,
    /// A picture as SVG.
    Picture,
    /// A script, or another text.
    Text,
    /// Something else.
    Other,
}

/// What a file holds whose first bytes these are.
pub fn content_of(head: &[u8]) -> Content
    ensures { result ≡ content_of head.now }
{
    if head.starts_with(b"IWAD") || head.starts_with(b"PWAD") {
        return Content::Wad;
    }
    if head.starts_with(b"LVPJ") {
        return Content::Project;
    }
    if head.is_empty() {
        return Content::Nothing;
    }
    if head.contains(&0) {
        return Content::Other;
    }
    if head.starts_with(b"<svg") || head.starts_with(b"<?xml") {
        return Content::Picture;
    }
    Content::Text
}

/// What a file holds.
///
/// # Errors
///
/// Those of reading it.
pub fn content_in<F: FileExt>(file: &F) -> io::Result<Content> {
    let mut head = [0; HEAD];
    let mut len = 0;
    for _ in 0..HEAD {
        let count = file.read_at(&mut head[len..], len as u64)?;
        if count == 0 {
            break;
        }
        len += count;
    }
    Ok(content_of(&head[..len]))
}

/// What bytes hold that were read whole.
pub fn content_within(bytes: &[u8]) -> Content
    ensures { result ≡ content_of (take 512 bytes.now) }
{
    if bytes.len() <= HEAD {
        return content_of(bytes);
    }
    content_of(&bytes[..HEAD])
}
