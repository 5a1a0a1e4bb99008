//! The words of a command line, and the numbers that they write.
#![tactic(auto)]

mod numerals;
mod parts;

pub use numerals::{number_before, numeral_in, short_natural};
pub use parts::{has_word_form, next_part};
