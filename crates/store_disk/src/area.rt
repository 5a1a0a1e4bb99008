//! A part of a disk.
ghost use Rattle.std.specs.Prelude.{◌+◌, ◌<◌, ◌^◌};

/// A part of a disk: `length` bytes from `base` on.
#[derive(Clone, Copy)]
pub struct Area {
    pub base: u64,
    pub length: u32,
    pub ghost in_range: { base + length < 2 ^ 64 },
}
