//! A new file that is written without a gap, so that the device has room for each of its bytes.
ghost use Rattle.std.specs.Fs.{metadata_len};
ghost use Rattle.std.specs.Prelude.{◌≡◌, ◌↔◌, IsTrue, MatchResult};

use crate::Cause;
use crate::noted::NotedFile;
use std::fs::{Metadata, OpenFile};
use std::io;
use std::os::unix::fs::FileExt;

// The most zeros that one call writes.
const ZEROS: usize = 4096;

/// A file in which something new is made. A write that begins beyond the end first fills the gap with zeros, which a
/// read would return there anyway. So the device has room for each byte of the file, or the write fails.
#[derive(Drop)]
pub struct GaplessFile<F> {
    file: NotedFile<F>,
    was_empty: bool,
}

// Whether the system says that a file is empty.
fn is_told_empty(found: &io::Result<Metadata>) -> bool
    ensures { MatchResult found.now
        (λ m. IsTrue result ↔ (metadata_len m ≡ 0)) (λ _. ¬ IsTrue result) }
{
    match found {
        Ok(found) => found.len() == 0,
        Err(_) => false,
    }
}

impl<F: OpenFile + Drop> GaplessFile<F> {
    ghost use Rattle.std.specs.Prelude.{◌≡◌, IfSome};
    ghost use Rattle.cli_files.specs.Causes.{IsOfSystem};
    ghost use Rattle.cli_files.specs.GaplessFile.{file_within};

    /// Wraps a file that is open for writing.
    pub fn new(file: F) -> GaplessFile<F>
        ensures { file_within result ≡ file }
    {
        let was_empty = is_told_empty(&file.metadata());
        GaplessFile {
            file: NotedFile::new(file),
            was_empty,
        }
    }

    /// Empties the file if it was empty at first, and returns why the last call failed, if it did.
    pub fn take_back(self) -> Option<Cause>
        ensures { IfSome result IsOfSystem }
    {
        let fault = self.file.fault();
        if self.was_empty {
            let file = &self.file;
            let _ = file.set_len(0);
        }
        fault
    }
}

// Writes zeros from the end of the file up to this offset, if the file ends before it.
fn fill_to<F: FileExt + OpenFile>(file: &F, place: u64) -> io::Result<()> {
    let end = file.metadata()?.len();
    let zeros = [0; ZEROS];
    for at in (end..place).step_by(ZEROS) {
        let left = (place - at).min(ZEROS as u64) as usize;
        file.write_all_at(&zeros[..left], at)?;
    }
    Ok(())
}

impl<F: FileExt + OpenFile + Drop> FileExt for &GaplessFile<F> {
    ghost use Rattle.std.specs.Prelude.{◌≡◌};
    ghost use Rattle.std.specs.Io.{ReadsAtMost, WritesAtMost};

    fn read_at(&self, buf: &mut [u8], offset: u64) -> io::Result<usize> {
        let file = &self.file;
        file.read_at(buf, offset)
    }

    fn write_at(&self, buf: &[u8], offset: u64) -> io::Result<usize> {
        let file = &self.file;
        fill_to(&file, offset)?;
        file.write_at(buf, offset)
    }
}

impl<F: OpenFile + Drop> OpenFile for &GaplessFile<F> {
    fn metadata(&self) -> io::Result<Metadata> {
        let file = &self.file;
        file.metadata()
    }

    fn set_len(&self, size: u64) -> io::Result<()> {
        let file = &self.file;
        file.set_len(size)
    }

    fn sync_all(&self) -> io::Result<()> {
        let file = &self.file;
        file.sync_all()
    }

    fn sync_data(&self) -> io::Result<()> {
        let file = &self.file;
        file.sync_data()
    }
}
