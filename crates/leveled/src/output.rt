//! Standard output, which keeps why the system refused its last call.

use std::cell::Cell;
use std::io::{self, Write};

/// A writer that keeps why its last call failed, in a place that it is lent.
#[derive(Drop)]
pub struct NotedOutput<'a, W> {
    writer: W,
    fault: &'a Cell<Option<io::Error>>,
}

impl<'a, W> NotedOutput<'a, W> {
    /// A writer that keeps its fault in this place.
    pub fn new(writer: W, fault: &'a Cell<Option<io::Error>>) -> Self {
        NotedOutput { writer, fault }
    }
}

impl<W: Write> Write for NotedOutput<'_, W> {
    fn write(&mut self, buf: &[u8]) -> io::Result<usize> {
        let done = self.writer.write(buf);
        self.fault.set(done.err());
        done
    }

    fn flush(&mut self) -> io::Result<()> {
        let done = self.writer.flush();
        self.fault.set(done.err());
        done
    }
}
