//! What a name of a script stands for.
use crate::firsts::Firsts;
use crate::referent::Referent;

/// What a name stands for: words, of what their number is the number, and the first items that its line added.
#[derive(Drop)]
pub struct Meaning {
    /// Words, separated by single spaces: those of a `let`, or the number that a command answered.
    pub words: Vec<u8>,
    pub referent: Referent,
    pub firsts: Firsts,
}
