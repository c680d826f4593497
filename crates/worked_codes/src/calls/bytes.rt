//! Bytes as a script writes them: pieces with `|` between them. A piece that begins with a number
//! and `*` is repeated that often. The escapes are `\r`, `\n`, `\t`, `\\`, and `\x` with two hex
//! digits.
use hazard_types::{List, Oom, Text};
use std::alloc::{AllocError, Global};

/// The largest number of repetitions of a piece.
const MOST_TIMES: u32 = 100_000;

/// How much of an escape has been read.
#[derive(Clone, Copy, Debug, PartialEq, Eq)]
enum Escape {
    /// No escape has begun.
    Outside,
    /// The backslash.
    Begun,
    /// The backslash and `x`.
    Hex,
    /// The backslash, `x`, and this digit.
    HexBehind(u8),
}

/// Returns the value of a hex digit, `0` to `9` or `a` to `f`, and 0 for any other byte.
fn hex_value(digit: u8) -> u8 {
    match digit {
        b'0'..=b'9' => digit - b'0',
        b'a'..=b'f' => digit - b'a' + 10,
        _ => 0,
    }
}

/// Returns the byte of two hex digits. A byte that is no hex digit counts as 0.
pub fn hex_byte(high: u8, low: u8) -> u8 {
    (hex_value(high) << 4) | hex_value(low)
}

/// Returns the byte that a backslash and this byte write: CR for `r`, LF for `n`, a tab for `t`,
/// and any other byte itself.
fn escaped(letter: u8) -> u8 {
    match letter {
        b'r' => b'\r',
        b'n' => b'\n',
        b't' => b'\t',
        _ => letter,
    }
}

/// Appends the bytes that a piece of a script's text writes. A backslash and `r`, `n` or `t` write
/// CR, LF or a tab, `\x` and two hex digits the byte of this value, and a backslash and any other
/// byte that byte. An escape that the piece ends in writes nothing.
fn push_piece(out: &mut Text, piece: &[u8]) -> Result<(), Oom> {
    let mut escape = Escape::Outside;
    for byte in piece {
        escape = match escape {
            Escape::Outside => {
                if *byte == b'\\' {
                    Escape::Begun
                } else {
                    out.push(*byte)?;
                    Escape::Outside
                }
            }
            Escape::Begun => {
                if *byte == b'x' {
                    Escape::Hex
                } else {
                    out.push(escaped(*byte))?;
                    Escape::Outside
                }
            }
            Escape::Hex => Escape::HexBehind(*byte),
            Escape::HexBehind(high) => {
                out.push(hex_byte(high, *byte))?;
                Escape::Outside
            }
        };
    }
    Ok(())
}

/// Returns how often a piece is written, and what of it: N, but at most 100,000, and REST for a
/// piece `N*REST` with a number N, else 1 and the whole piece.
fn times_of(piece: &str) -> (u32, &str) {
    match piece.split_once('*') {
        Some((times, rest)) => match times.parse::<u32>() {
            Ok(times) => (times.min(MOST_TIMES), rest),
            Err(_) => (1, piece),
        },
        None => (1, piece),
    }
}

/// Returns the bytes that a script's text writes: pieces with `|` between them. A piece `N*REST`
/// with a number N writes REST N times, but at most 100,000 times. A backslash before `r`, `n` or
/// `t` writes CR, LF or a tab, before `x` and two hex digits the byte of this value, and before any
/// other byte that byte.
///
/// # Errors
///
/// Out of memory.
pub fn bytes_of(alloc: Global, text: &str) -> Result<Text, Oom> {
    let mut out = List::new(alloc);
    for piece in text.split('|') {
        let (times, piece) = times_of(piece);
        for _ in 0..times {
            push_piece(&mut out, piece.as_bytes())?;
        }
    }
    Ok(out)
}

/// Appends a byte as printed: CR, LF and backslash as their escapes, a byte outside of printable
/// ASCII as `\?`, any other as it is.
fn push_shown(out: &mut String, byte: u8) -> Result<(), AllocError> {
    match byte {
        b'\r' => out.push_str("\\r"),
        b'\n' => out.push_str("\\n"),
        b'\\' => out.push_str("\\\\"),
        b' '..=b'~' => out.push(char::from(byte)),
        _ => out.push_str("\\?"),
    }
}

/// Returns the bytes as printed: CR, LF and backslash as their escapes, bytes outside of printable
/// ASCII as `\?`.
///
/// # Errors
///
/// Out of memory.
pub fn shown(alloc: Global, bytes: &[u8]) -> Result<String, AllocError> {
    let mut out = String::new(alloc);
    for byte in bytes {
        push_shown(&mut out, *byte)?;
    }
    Ok(out)
}
