//! The words of a call, from a text.
use std::alloc::Global;
use std::test::Fail;

/// The words of a text behind `leveled`.
pub fn split<'a>(alloc: Global, text: &'a str) -> Result<Vec<&'a str>, Fail> {
    let mut words = Vec::new(alloc);
    words.push("leveled")?;
    for word in text.split(' ') {
        words.push(word)?;
    }
    Ok(words)
}
