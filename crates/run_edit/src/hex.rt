//! Bytes as hexadecimal text.
ghost use Rattle.std.specs.Prelude.{◌≡◌, ◌<◌, ◌++◌, flat_map, IfOk, OnOk};
ghost use Rattle.run_edit.specs.Texts.{hex_byte, hex_digit, hex_digits, hex_text, spaced_byte};

use std::alloc::{AllocError, Global};

// The digit for a value from 0 to 15, in lower case.
fn hex_digit(value: u8) -> u8
    requires { value < 16 }
    ensures { result ≡ hex_digit value }
{
    if value < 10 {
        b'0' + value
    } else {
        b'a' - 10 + value
    }
}

// Appends the two digits of a byte.
fn push_byte(text: &mut Vec<u8>, b: u8) -> Result<(), AllocError>
    ensures { OnOk result (text.new.items ≡ text.old.items ++ hex_byte b) }
{
    text.push(hex_digit(b / 16))?;
    text.push(hex_digit(b % 16))?;
    Ok(())
}

// Appends each byte with a space before it.
fn push_spaced(text: &mut Vec<u8>, bytes: &[u8]) -> Result<(), AllocError>
    ensures { OnOk result (text.new.items ≡ text.old.items ++ flat_map spaced_byte bytes.now) }
{
    for b in bytes {
        text.push(b' ')?;
        push_byte(text, *b)?;
    }
    Ok(())
}

// Appends all bytes with spaces between them, or `-` if there are none.
fn push_digits(text: &mut Vec<u8>, bytes: &[u8]) -> Result<(), AllocError>
    ensures { OnOk result (text.new.items ≡ text.old.items ++ hex_digits bytes.now) }
{
    match bytes {
        [] => {
            text.push(b'-')?;
            Ok(())
        }
        [first, rest @ ..] => {
            push_byte(text, *first)?;
            push_spaced(text, rest)?;
            Ok(())
        }
    }
}

/// The bytes as two digits each, with spaces between them, or `-` if there are none; then LF.
pub fn hex_text(alloc: Global, bytes: &[u8]) -> Result<Vec<u8>, AllocError>
    ensures { IfOk result (λ text. text.items ≡ hex_text bytes.now) }
{
    let mut text = Vec::new(alloc);
    push_digits(&mut text, bytes)?;
    text.push(b'\n')?;
    Ok(text)
}
