//! Wraps texts.
ghost use Rattle.std.specs.Prelude.{◌≡◌, ◌≤◌, ◌<◌, [], ◌∷◌, ◌++◌, length, true, OnOk, IfOk};
ghost use Rattle.headline_text.specs.Wrapping.{room, fits_after, lead, start, fill, behind, part, column_after, wrapped, Follows};

use hazard_types::{Oom, Text};
use std::alloc::Global;

/// The greatest length of a line, in characters.
const WIDTH: usize = 66;

/// The greatest length of a word that is never cut, in characters.
const WHOLE: usize = 64;

/// The bytes between a line and the next, which starts with two blanks.
const NEXT_LINE: &[u8] = b"\n  ";

/// Whether a word fits after one blank on a line of at most 66 characters that has `column`
/// characters so far. Of a word of more than 64 characters, which may be cut, only one character
/// must fit.
fn fits_after(column: usize, word: &[u8]) -> bool
    requires { column ≤ 66 }
    ensures { result ≡ fits_after column word.now }
{
    let room = if word.len() <= WHOLE { word.len() } else { 1 };
    column + 1 + room <= WIDTH
}

/// Appends what comes before a word on a line that has `column` characters so far: nothing if it
/// has none, a blank if the word fits after one, else LF and two blanks. Returns how many
/// characters the last line then has.
fn begin(out: &mut Text, column: usize, word: &[u8]) -> Result<usize, Oom>
    requires { column ≤ 66 }
    ensures text { OnOk result (out.new ≡ out.old ++ lead column word.now) }
    ensures column { IfOk result (λ next. next ≡ start column word.now) }
    ensures within { IfOk result (λ next. next ≤ 66) }
{
    if column == 0 {
        return Ok(0);
    }
    if fits_after(column, word) {
        out.push(b' ')?;
        Ok(column + 1)
    } else {
        out.extend(NEXT_LINE)?;
        Ok(2)
    }
}

/// Appends a character to a line that has `column` characters so far, or to a next line, after LF
/// and two blanks, if that has 66. Returns how many characters the last line then has.
fn write_byte(out: &mut Text, column: usize, byte: u8) -> Result<usize, Oom>
    requires { column ≤ 66 }
    ensures text { OnOk result (out.new ≡ out.old ++ fill column (byte ∷ [])) }
    ensures column { IfOk result (λ next. next ≡ behind column (byte ∷ [])) }
    ensures within { IfOk result (λ next. next ≤ 66) }
{
    if column < WIDTH {
        out.push(byte)?;
        Ok(column + 1)
    } else {
        out.extend(NEXT_LINE)?;
        out.push(byte)?;
        Ok(3)
    }
}

/// Appends the characters of a word to a line that has `column` characters so far, and begins a
/// next line, with LF and two blanks, wherever a line has 66. Returns how many characters the last
/// line then has.
fn fill(out: &mut Text, column: usize, word: &[u8]) -> Result<usize, Oom>
    requires { column ≤ 66 }
    ensures text { OnOk result (out.new ≡ out.old ++ fill column word.now) }
    ensures column { IfOk result (λ next. next ≡ behind column word.now) }
    ensures within { IfOk result (λ next. next ≤ 66) }
{
    if word.len() <= WIDTH - column {
        out.extend(word)?;
        return Ok(column + word.len());
    }
    let mut next = column;
    for byte in word {
        next = write_byte(out, next, *byte)?;
    }
    Ok(next)
}

/// Appends a word to a line that has `column` characters so far: at its start if it has none, after
/// a blank if the word fits there, else on a next line, after LF and two blanks. A word of more
/// than 64 characters is cut where a line is full, and an empty word appends nothing. Returns how
/// many characters the last line then has.
fn put(out: &mut Text, column: usize, word: &[u8]) -> Result<usize, Oom>
    requires { column ≤ 66 }
    ensures text { OnOk result (out.new ≡ out.old ++ part column word.now) }
    ensures column { IfOk result (λ next. next ≡ column_after column word.now) }
    ensures within { IfOk result (λ next. next ≤ 66) }
{
    if word.is_empty() {
        return Ok(column);
    }
    let first = begin(out, column, word)?;
    fill(out, first, word)
}

/// Whether the word `text[start..end]` comes after exactly one blank, the byte at `to`, and fits
/// whole on the current line of at most 66 characters, so that blank and word can be copied as they
/// stand. `to` is the index in `text` up to which it is laid out already, and the line has `column`
/// characters by then. False if `column` is 0 or the word is empty.
fn follows(text: &[u8], column: usize, to: usize, start: usize, end: usize) -> bool
    requires column { column ≤ 66 }
    requires to { to ≤ end }
    requires start { start ≤ end }
    requires end { end < length text.now }
    ensures { result ≡ true → Follows text.now column to start end }
{
    if column == 0 || start != to + 1 || start == end || column + (end - to) > WIDTH {
        return false;
    }
    text[to] == b' '
}

/// Returns the words of a text, which spaces separate, on lines of at most 66 characters, with LF
/// between them and none at the end. Each line after the first starts with two blanks, and a word
/// of more than 64 characters is cut where the line is full. A text without a word has no line.
///
/// # Errors
///
/// Out of memory.
///
/// Source: docs/DECISIONS.md, "Headlines and wrapped text".
pub fn wrapped(alloc: Global, text: &[u8]) -> Result<Text, Oom>
    ensures { IfOk result (λ lines. lines ≡ wrapped text.now) }
{
    let mut out = Text::from_vec(Vec::with_capacity(alloc, text.len())?);
    let mut column = 0;
    let mut start = 0;
    let mut from = 0;
    let mut to = 0;
    for (i, byte) in text.iter().enumerate() {
        if *byte == b' ' {
            if follows(text, column, to, start, i) {
                column += i - to;
            } else {
                out.extend(&text[from..to])?;
                column = put(&mut out, column, &text[start..i])?;
                from = i;
            }
            to = i;
            start = i + 1;
        }
    }
    out.extend(&text[from..to])?;
    put(&mut out, column, &text[start..])?;
    Ok(out)
}
