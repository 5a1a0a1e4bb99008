//! Which files a new one may replace.
ghost use Rattle.std.specs.Prelude.{◌≡◌, ◌⊎◌, ◌↔◌, [], IfOk, IfSome, IsTrue};
ghost use Rattle.cli_files.specs.Replaced.{BeginsOrEmpty, IsReplaceable, front_of};

use std::alloc::Global;
use std::io::{self, Read};

/// What a new file holds. It may replace a file of the same form.
#[derive(Clone, Copy)]
pub enum Form {
    /// A PWAD.
    Pwad,
    /// A picture of a map, as `map_picture` draws it.
    Picture,
}

// The first bytes of every file of the form.
fn front_of(form: Form) -> &'static [u8]
    ensures { result.now ≡ front_of form }
{
    match form {
        Form::Pwad => b"PWAD",
        Form::Picture => b"<svg class=\"leveled\" ",
    }
}

// Whether `head` is empty or equals `front`.
fn is_none_or(head: &[u8], front: &[u8]) -> bool
    ensures { IsTrue result ↔ ((head.now ≡ []) ⊎ (head.now ≡ front.now)) }
{
    head.is_empty() || head == front
}

// Whether a file is empty or begins with `front`.
fn begins_or_empty<R: Read + Drop>(alloc: Global, front: &[u8], reader: R) -> io::Result<bool>
    ensures { IfSome (R.remaining reader)
        (λ bytes. IfOk result (λ may. IsTrue may ↔ BeginsOrEmpty front.now bytes)) }
{
    let mut head = Vec::new(alloc);
    reader.take(front.len() as u64).read_to_end(&mut head)?;
    Ok(is_none_or(head.as_slice(), front))
}

/// Whether a file may be replaced by one of the form: it is empty, or begins like one of the form.
///
/// # Errors
///
/// Those of the reader, or lack of memory.
pub fn may_be_replaced<R: Read + Drop>(alloc: Global, form: Form, reader: R) -> io::Result<bool>
    ensures { IfSome (R.remaining reader)
        (λ bytes. IfOk result (λ may. IsTrue may ↔ IsReplaceable form bytes)) }
{
    begins_or_empty(alloc, front_of(form), reader)
}
