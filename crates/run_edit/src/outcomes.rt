//! The outcomes of the lines that wait.
ghost use Rattle.std.specs.Prelude.{◌≡◌, ◌≤◌, ◌<◌, ℕ, List, Result, [], ◌∷◌, ◌++◌, length, take, false};

use std::marker::Model;

/// The outcomes of the lines that wait, in order: at most 256. It allocates nothing.
#[derive(Drop)]
pub struct Outcomes {
    places: [Result<u32, u16>; 256],
    len: usize,
}

impl Model for Outcomes {
    ghost Value = { List (Result ℕ ℕ) };

    ghost view = { λ o. take o.len o.places };

    ghost invariant = { λ o. o.len ≤ 256 };
}

impl Outcomes {
    pub fn new() -> Self
        ensures { result ≡ [] }
    {
        Outcomes {
            places: [Ok(0); 256],
            len: 0,
        }
    }

    /// The outcomes.
    pub fn as_slice(&self) -> &[Result<u32, u16>]
        ensures { result.now ≡ self.now }
    {
        &self.places[..self.len]
    }

    /// Whether there is no room for another one.
    pub fn is_full(&self) -> bool
        ensures { result ≡ false → length self.now < 256 }
    {
        self.as_slice().len() >= 256
    }

    /// Appends one more.
    pub fn push(&mut self, outcome: Result<u32, u16>)
        requires { length self.old < 256 }
        ensures { self.new ≡ self.old ++ outcome ∷ [] }
    {
        self.places[self.len] = outcome;
        self.len += 1;
    }
}
