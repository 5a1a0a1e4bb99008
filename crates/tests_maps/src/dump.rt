//! The dump of a worked project with two maps, and a writer that takes only so many bytes.

use crate::drawing::drawn;
use crate::expect::same;
use map_dump::{DumpError, write_dump, write_map_dump};
use std::io;
use std::io::Write;
use std::test::Fail;

// A room with a thing, and a second map with one vertex. The first map is current at the end.
const DRAWING: &str = "name E1M1;ROOM;thing 64 64 90 1 7;map MAP02;vertex -3 4;map E1M1";

// Its dump, worked by hand. A room's corners go clockwise from the lower left one.
const TEXT: &[u8] = b"name E1M1
vertex 0 0
vertex 0 128
vertex 128 128
vertex 128 0
sector 0 128 FLOOR4_8 CEIL3_5 160 0 0
side 0 0 - - STARTAN3 0
side 0 0 - - STARTAN3 0
side 0 0 - - STARTAN3 0
side 0 0 - - STARTAN3 0
line 0 1 1 0 0 0 -
line 1 2 1 0 0 1 -
line 2 3 1 0 0 2 -
line 3 0 1 0 0 3 -
thing 64 64 90 1 7
map MAP02
vertex -3 4
map E1M1
";

// The dumps of its two maps, one after the other.
const MAP_TEXTS: &[u8] = b"map E1M1
vertex 0 0
vertex 0 128
vertex 128 128
vertex 128 0
sector 0 128 FLOOR4_8 CEIL3_5 160 0 0
side 0 0 - - STARTAN3 0
side 0 0 - - STARTAN3 0
side 0 0 - - STARTAN3 0
side 0 0 - - STARTAN3 0
line 0 1 1 0 0 0 -
line 1 2 1 0 0 1 -
line 2 3 1 0 0 2 -
line 3 0 1 0 0 3 -
thing 64 64 90 1 7
map MAP02
vertex -3 4
";

// A writer that fails if it has no room for the bytes of a call.
#[derive(Drop)]
struct Full {
    room: usize,
}

impl Write for Full {
    fn write(&mut self, buf: &[u8]) -> io::Result<usize> {
        if buf.len() > self.room {
            return Err(io::Error::from(io::ErrorKind::StorageFull));
        }
        self.room -= buf.len();
        Ok(buf.len())
    }

    fn flush(&mut self) -> io::Result<()> {
        Ok(())
    }
}

#[test]
fn writes_two_maps(rt: HostRuntime) -> Result<(), Fail> {
    let maps = drawn(rt.alloc(), DRAWING)?;
    let mut text = Vec::new(rt.alloc());
    same(&rt, &write_dump(rt.alloc(), &maps, &mut text), &Ok(()));
    same(&rt, &text.as_slice(), &TEXT);
    Ok(())
}

#[test]
fn writes_each_map_alone(rt: HostRuntime) -> Result<(), Fail> {
    let maps = drawn(rt.alloc(), DRAWING)?;
    let mut text = Vec::new(rt.alloc());
    for n in 0..maps.len() {
        if let Some(map) = maps.at(n) {
            same(&rt, &write_map_dump(rt.alloc(), map, &mut text), &Ok(()));
        }
    }
    same(&rt, &text.as_slice(), &MAP_TEXTS);
    Ok(())
}

// The dump of a vertex in MAP01 has two lines, of 10 and 11 bytes. A writer with room for the first one only fails at
// the second.
#[test]
fn tells_of_a_full_writer(rt: HostRuntime) -> Result<(), Fail> {
    let maps = drawn(rt.alloc(), "vertex 0 0")?;
    let mut writer = Full { room: 10 };
    let told = write_dump(rt.alloc(), &maps, &mut writer);
    same(&rt, &told, &Err(DumpError::WriterFailed));
    same(&rt, &writer.room, &0);
    same(&rt, &DumpError::WriterFailed.code(), &38);
    same(&rt, &DumpError::OutOfMemory.code(), &31);
    Ok(())
}
