//! Bytes and numbers of words, and bytes as text.
ghost use Rattle.std.specs.Prelude.{◌<◌, IfSome};

use hazard_types::{List, Oom, Text};
use std::alloc::Global;

/// Returns the value of a hex digit, `0` to `9` or `a` to `f`, or `None` for another byte.
fn digit_of(byte: u8) -> Option<u8>
    ensures { IfSome result (λ digit. digit < 16) }
{
    if b'0' <= byte && byte <= b'9' {
        Some(byte - b'0')
    } else if b'a' <= byte && byte <= b'f' {
        Some(byte - b'a' + 10)
    } else {
        None
    }
}

/// Appends the byte that the first two hex digits of `piece` give, and the rest of `piece` as it
/// is, and returns `true`. Without two digits it appends nothing and returns `false`.
fn add_escaped(bytes: &mut Text, piece: &[u8]) -> Result<bool, Oom> {
    if piece.len() < 2 {
        return Ok(false);
    }
    let (Some(high), Some(low)) = (digit_of(piece[0]), digit_of(piece[1])) else {
        return Ok(false);
    };
    bytes.push(high * 16 + low)?;
    bytes.extend(&piece[2..])?;
    Ok(true)
}

/// Returns the bytes that a word gives, in which `\` and two hex digits are one byte and the word
/// `_` is no byte. It is `None` if a `\` has no two digits after it.
///
/// # Errors
///
/// Out of memory.
pub fn bytes_of(alloc: Global, word: &str) -> Result<Option<Text>, Oom> {
    let mut bytes = List::new(alloc);
    if word == "_" {
        return Ok(Some(bytes));
    }
    let mut is_first = true;
    for piece in word.split('\\') {
        if is_first {
            bytes.extend(piece.as_bytes())?;
            is_first = false;
        } else if !add_escaped(&mut bytes, piece.as_bytes())? {
            return Ok(None);
        }
    }
    Ok(Some(bytes))
}

/// Returns the hex digit, `0` to `9` or `a` to `f`, of a value below 16.
fn digit(value: u8) -> char
    requires { value < 16 }
{
    if value < 10 {
        char::from(b'0' + value)
    } else {
        char::from(b'a' + (value - 10))
    }
}

/// Appends bytes as a word of the form that `bytes_of` reads: `_` for no byte, and `\` and two hex
/// digits for each byte that is not `!` to `~` or is `\`.
///
/// # Errors
///
/// Out of memory.
pub fn add_bytes(answer: &mut String, bytes: &[u8]) -> Result<(), Oom> {
    if bytes.is_empty() {
        answer.push('_')?;
    }
    for byte in bytes {
        if b'!' <= *byte && *byte <= b'~' && *byte != b'\\' {
            answer.push(char::from(*byte))?;
        } else {
            answer.push('\\')?;
            answer.push(digit(*byte / 16))?;
            answer.push(digit(*byte % 16))?;
        }
    }
    Ok(())
}

/// Appends words to the answer, after a comma and a blank unless the answer is empty.
///
/// # Errors
///
/// Out of memory.
pub fn add(answer: &mut String, words: &str) -> Result<(), Oom> {
    if !answer.is_empty() {
        answer.push_str(", ")?;
    }
    answer.push_str(words)?;
    Ok(())
}

/// Appends `; `, the name of a part, a blank and its bytes as a word of the form that `bytes_of`
/// reads.
///
/// # Errors
///
/// Out of memory.
pub fn add_part(answer: &mut String, name: &str, bytes: &[u8]) -> Result<(), Oom> {
    answer.push_str("; ")?;
    answer.push_str(name)?;
    answer.push(' ')?;
    add_bytes(answer, bytes)
}

/// Returns `unread`, which is printed for a line that the script cannot read.
///
/// # Errors
///
/// Out of memory.
pub fn unread(alloc: Global) -> Result<String, Oom> {
    Ok(String::from_str(alloc, "unread")?)
}

/// Returns the numbers that decimal words with commas between them give, or an empty list for `-`.
/// It is `None` if a word is no number below 2^64.
///
/// # Errors
///
/// Out of memory.
pub fn numbers_of(alloc: Global, words: &str) -> Result<Option<List<u64>>, Oom> {
    let mut numbers = List::new(alloc);
    if words == "-" {
        return Ok(Some(numbers));
    }
    for word in words.split(',') {
        match word.parse::<u64>() {
            Ok(number) => numbers.push(number)?,
            Err(_) => return Ok(None),
        }
    }
    Ok(Some(numbers))
}
