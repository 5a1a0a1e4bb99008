//! An entry in the record of a memory disk's calls.
ghost use Rattle.std.specs.Prelude.{◌≡◌};

// A successful call, as the record keeps it.
#[derive(Clone, Copy)]
pub enum Entry {
    Write { at: usize, size: usize },
    Sync,
}

impl Entry {
    ghost use Rattle.store_disk.specs.Entries.{has_place};

    // Whether it is a write whose range contains the offset `place`.
    pub fn has_place(&self, place: usize) -> bool
        ensures { result ≡ has_place place self.now }
    {
        match self {
            Entry::Write { at, size } => place >= *at && place - *at < *size,
            Entry::Sync => false,
        }
    }
}
