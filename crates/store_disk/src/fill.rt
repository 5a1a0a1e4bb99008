//! What a stop leaves of unsynced bytes: the images that `MemoryDisk::stop` can give.
/// What a stop leaves of the unsynced bytes: those written since the last successful sync, and those past the
/// file's length at that sync.
#[derive(Clone, Copy, Debug, PartialEq, Eq)]
pub enum Fill {
    /// As at the last sync, and zero past the file's end at that sync.
    Stable,
    /// As they read now.
    Written,
    /// Each is this byte.
    Byte(u8),
    /// The first ones, this many in the order of their offsets, as written; the others as at the last sync.
    Upto(u32),
}
