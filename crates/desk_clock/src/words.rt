//! The words of a line, which blanks (spaces and tabs) separate.
ghost use Rattle.std.specs.Prelude.{◌≡◌, ◌==◌, not};
ghost use Rattle.std.specs.List.{position};
ghost use Rattle.desk_clock.specs.Words.{first_word, past_blanks, after_word, past_gap, after_slash, after_aside};
ghost use Rattle.hazard_types.specs.Characters.{is_blank};

use hazard_types::is_blank;

/// Returns the index of the first blank (space or tab) of `b`, or `None` if there is none.
fn blank_at(b: &[u8]) -> Option<usize>
    ensures { result ≡ position is_blank b.now }
{
    b.iter().position(|c| is_blank(*c))
}

/// Returns the index of the first byte that is no blank, or `None` if all are blanks.
fn find_nonblank(b: &[u8]) -> Option<usize>
    ensures { result ≡ position (λ c. not (is_blank c)) b.now }
{
    b.iter().position(|c| !is_blank(*c))
}

/// Returns the index of the first `/`, or `None` if there is none.
fn slash_at(b: &[u8]) -> Option<usize>
    ensures { result ≡ position (λ c. c == 47) b.now }
{
    b.iter().position(|c| *c == b'/')
}

/// Returns the bytes before the first blank, or all of them if there is none.
pub fn first_word(b: &[u8]) -> &[u8]
    ensures { result.now ≡ first_word b.now }
{
    match blank_at(b) {
        Some(end) => &b[..end],
        None => b,
    }
}

/// Returns what follows the blanks at the start of `b`: all of `b` if it starts with none, and
/// nothing if it has blanks only.
fn past_blanks(b: &[u8]) -> &[u8]
    ensures { result.now ≡ past_blanks b.now }
{
    match find_nonblank(b) {
        Some(from) => &b[from..],
        None => &b[b.len()..],
    }
}

/// Returns what follows the first word and the blanks after it; empty if no blank follows the word.
pub fn after_word(b: &[u8]) -> &[u8]
    ensures { result.now ≡ after_word b.now }
{
    match blank_at(b) {
        Some(end) => past_blanks(&b[end..]),
        None => &b[b.len()..],
    }
}

/// Returns what follows the first `/` and the blanks after it; empty if there is no `/` or if no
/// blank follows it.
fn after_slash(b: &[u8]) -> &[u8]
    ensures { result.now ≡ after_slash b.now }
{
    match slash_at(b) {
        Some(end) => past_gap(&b[end + 1..]),
        None => &b[b.len()..],
    }
}

/// Returns what follows the blanks that `b` starts with; empty if it starts with none.
fn past_gap(b: &[u8]) -> &[u8]
    ensures { result.now ≡ past_gap b.now }
{
    match blank_at(b) {
        Some(0) => past_blanks(b),
        _ => &b[b.len()..],
    }
}

/// Returns what follows a part between slashes at the start of `b` and the blanks after it, or all
/// of `b` if it does not start with `/`. Empty if such a part has no second slash, or if no blank
/// follows that slash.
pub fn after_aside(b: &[u8]) -> &[u8]
    ensures { result.now ≡ after_aside b.now }
{
    match b {
        [b'/', inside @ ..] => after_slash(inside),
        _ => b,
    }
}
