//! The input line that is being read; only its first 257 bytes are kept.
ghost use Rattle.std.specs.Prelude.{◌≡◌, ◌≤◌, ℕ, List, [], ◌∷◌, ◌++◌, length, take};

use std::marker::Model;

/// The input line that is being read: its first 257 bytes, one more than a command may have. So a longer line is known
/// to be too long without its rest.
#[derive(Drop)]
pub struct InputLine {
    bytes: [u8; 257],
    len: usize,
}

impl Model for InputLine {
    ghost Value = { List ℕ };

    ghost view = { λ l. take l.len l.bytes };

    ghost invariant = { λ l. l.len ≤ 257 };
}

impl InputLine {
    pub fn new() -> Self
        ensures { result ≡ [] }
    {
        InputLine {
            bytes: [0; 257],
            len: 0,
        }
    }

    /// The bytes that are kept.
    pub fn as_slice(&self) -> &[u8]
        ensures bytes { result.now ≡ self.now }
        ensures short { length result.now ≤ 257 }
    {
        &self.bytes[..self.len]
    }

    /// Appends one more byte of the line, if it is one of the first 257.
    pub fn push(&mut self, b: u8)
        ensures { self.new ≡ take 257 (self.old ++ b ∷ []) }
    {
        if self.len < 257 {
            self.bytes[self.len] = b;
            self.len += 1;
        }
    }

    /// Begins a new line.
    pub fn clear(&mut self)
        ensures { self.new ≡ [] }
    {
        self.len = 0;
    }
}
