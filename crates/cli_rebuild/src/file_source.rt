//! An open file as the source of a WAD's lumps.
use std::io::{self, Read, Seek, SeekFrom};
use wad_file::{Source, SourceFailed};

/// An open file whose bytes are read at any place, and why the last read failed, if one did.
#[derive(Drop)]
pub struct FileSource<F> {
    pub file: F,
    pub fault: Option<io::Error>,
}

// Fills the bytes with those of the file from `at` on.
fn fill_at<F: Read + Seek>(file: &mut F, at: u64, into: &mut [u8]) -> io::Result<()> {
    file.seek(SeekFrom::Start(at))?;
    file.read_exact(into)
}

impl<F: Read + Seek> Source for FileSource<F> {
    ghost use Rattle.std.specs.Prelude.{None};

    ghost known_bytes = { λ _. None };

    fn fill_from(&mut self, at: u64, into: &mut [u8]) -> Result<(), SourceFailed> {
        match fill_at(&mut self.file, at, into) {
            Ok(()) => Ok(()),
            Err(error) => {
                self.fault = Some(error);
                Err(SourceFailed)
            }
        }
    }
}
