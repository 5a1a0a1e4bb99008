//! The words that are numbers, and the number in front of a text.
ghost use Rattle.std.specs.Prelude.{◌≡◌, ◌∷◌, ◌≤◌, IfNone, IfSome, decimal, false, min, negsuc, option_copied, pos, true};
ghost use Rattle.std.specs.Str.Parse.{digits_value};
ghost use Rattle.std.specs.Fmt.{signed_decimal};
ghost use Rattle.std.specs.List.{list_all};
ghost use Rattle.lump_records.specs.Drawing.{IsBetween};
ghost use Rattle.lump_records.specs.Names.{is_digit};
ghost use Rattle.map_words.specs.Words.{clamped, has_natural_front, is_natural, is_numeral, numeral_value, parts, parts_behind};

// One above the greatest distance from 0 of a number of sixteen bits.
const BEYOND: u32 = 32_769;

// Whether a byte is a digit.
fn is_digit(byte: u8) -> bool
    ensures { result ≡ is_digit byte }
{
    b'0' <= byte && byte <= b'9'
}

// The number that digits write, or `BEYOND` if it is greater. None if a byte is not a digit.
fn digits_in(bytes: &[u8]) -> Option<u32>
    ensures none { IfNone result (list_all is_digit bytes.now ≡ false) }
    ensures digits { IfSome result (λ _. list_all is_digit bytes.now ≡ true) }
    ensures value { IfSome result (λ n. n ≡ min (digits_value 10 bytes.now) 32769) }
{
    let mut value = 0;
    for byte in bytes {
        if !is_digit(*byte) {
            return None;
        }
        value = (10 * value + u32::from(*byte - b'0')).min(BEYOND);
    }
    Some(value)
}

// Whether the bytes can begin a number without a sign: there is at least one, and a leading 0 stands alone.
fn has_natural_front(word: &[u8]) -> bool
    ensures { result ≡ has_natural_front word.now }
{
    match word {
        [] => false,
        [_] => true,
        [b, ..] => *b != b'0',
    }
}

// Reads a word as a number without a sign, or `BEYOND` if it is greater. None if the word is not such a number.
fn natural_in(word: &[u8]) -> Option<u32>
    ensures none { IfNone result (is_natural word.now ≡ false) }
    ensures natural { IfSome result (λ _. is_natural word.now ≡ true) }
    ensures value { IfSome result (λ n. n ≡ min (digits_value 10 word.now) 32769) }
{
    if !has_natural_front(word) {
        return None;
    }
    digits_in(word)
}

/// Reads a word as a number, or as 32,769 with its sign if it is further from 0. None if the word is not a number.
pub fn numeral_in(word: &[u8]) -> Option<i32>
    ensures none { IfNone result (is_numeral word.now ≡ false) }
    ensures numeral { IfSome result (λ _. is_numeral word.now ≡ true) }
    ensures value { IfSome result (λ n. n ≡ clamped (numeral_value word.now)) }
{
    match word {
        [b'-', digits @ ..] => {
            if digits == b"0".as_slice() {
                return None;
            }
            match natural_in(digits) {
                Some(n) => Some(-(n as i32)),
                None => None,
            }
        }
        _ => match natural_in(word) {
            Some(n) => Some(n as i32),
            None => None,
        },
    }
}

/// The number of at most five digits in front of a text, and what stands behind the space after it, if there is one.
/// The loop has a fixed end, so that the compiler unrolls it.
#[inline(always)]
pub fn short_natural(text: &[u8]) -> Option<(u32, Option<&[u8]>)>
    ensures word { IfSome result
        (λ found. parts text.now ≡ decimal found.0 ∷ parts_behind (option_copied found.1)) }
    ensures small { IfSome result (λ found. found.0 ≤ 99999) }
{
    if text.is_empty() || !is_digit(text[0]) {
        return None;
    }
    let mut value = u32::from(text[0] - b'0');
    for len in 1..6 {
        if text.len() <= len {
            return Some((value, None));
        }
        let byte = text[len];
        if !is_digit(byte) {
            if byte == b' ' {
                return Some((value, Some(&text[len + 1..])));
            }
            return None;
        }
        if value == 0 {
            return None;
        }
        value = 10 * value + u32::from(byte - b'0');
    }
    None
}

// The number in front of a text, and what stands behind the space after it, if there is one: only a number of at most
// five digits, as nearly all are.
#[inline(always)]
fn short_number(text: &[u8]) -> Option<(i32, Option<&[u8]>)>
    ensures word { IfSome result
        (λ found. parts text.now ≡ signed_decimal found.0 ∷ parts_behind (option_copied found.1)) }
    ensures small { IfSome result (λ found. IsBetween (negsuc 99998) (pos 99999) found.0) }
{
    match text {
        [b'-', digits @ ..] => {
            let (n, behind) = short_natural(digits)?;
            if n == 0 {
                return None;
            }
            Some((-(n as i32), behind))
        }
        _ => {
            let (n, behind) = short_natural(text)?;
            Some((n as i32, behind))
        }
    }
}

/// The number between two bounds in front of a text, and what stands behind the space after it, if there is one: only a
/// number of at most five digits, as nearly all are.
#[inline(always)]
pub fn number_before(text: &[u8], low: i16, high: i16) -> Option<(i16, Option<&[u8]>)>
    ensures word { IfSome result
        (λ found. parts text.now ≡ signed_decimal found.0 ∷ parts_behind (option_copied found.1)) }
    ensures range { IfSome result (λ found. IsBetween low high found.0) }
{
    let (n, behind) = short_number(text)?;
    if n < i32::from(low) || i32::from(high) < n {
        return None;
    }
    Some((n as i16, behind))
}
