//! Decimal numbers in arguments and in header fields.
ghost use Rattle.std.specs.Prelude.{◌≡◌, ◌≤◌, Some, None, IfSome, nat_le, if◌then◌else◌};
ghost use Rattle.std.specs.List.{list_all};
ghost use Rattle.hazard_types.specs.Calendar.{is_digit};
ghost use Rattle.program_ends.specs.Numbers.{are_digits, count_in, number_in, with_digit};

/// Whether each byte of `word` is an ASCII decimal digit; true of an empty word.
fn have_digits_alone(word: &[u8]) -> bool
    ensures { result ≡ list_all is_digit word.now }
{
    word.iter().all(|c| c.is_ascii_digit())
}

/// Whether `word` is one or more ASCII decimal digits and nothing else.
fn are_digits(word: &[u8]) -> bool
    ensures { result ≡ are_digits word.now }
{
    !word.is_empty() && have_digits_alone(word)
}

/// Returns `number` with one more decimal digit at its end, that is 10 times `number` plus the
/// digit's value, or `None` if the result is above `most`. `digit` is the digit's ASCII byte, and
/// `number` is at most `most`.
fn with_digit(number: u64, digit: u8, most: u64) -> Option<u64>
    requires { number ≤ most }
    ensures { result ≡ (if nat_le (with_digit number digit) most
        then Some (with_digit number digit) else None) }
{
    let digit = u64::from(digit.saturating_sub(b'0'));
    if digit <= most && number <= (most - digit) / 10 {
        Some(10 * number + digit)
    } else {
        None
    }
}

/// Returns the number that one or more decimal digits give, leading zeros allowed. It is `None`
/// exactly if `word` is something else or the number is above `most`.
pub fn number_in(word: &[u8], most: u64) -> Option<u64>
    ensures value { result ≡ number_in most word.now }
    ensures within { IfSome result (λ n. n ≤ most) }
{
    if !are_digits(word) {
        return None;
    }
    let mut number = 0;
    for digit in word {
        match with_digit(number, *digit, most) {
            Some(next) => number = next,
            None => return None,
        }
    }
    Some(number)
}

/// Returns the number from 1 to `most` that one or more decimal digits give, leading zeros allowed.
/// It is `None` exactly if `word` is something else, or the number is 0 or above `most`.
pub fn count_in(word: &[u8], most: u64) -> Option<u64>
    ensures value { result ≡ count_in most word.now }
    ensures within { IfSome result (λ n. (1 ≤ n) × (n ≤ most)) }
{
    let number = number_in(word, most)?;
    if number == 0 { None } else { Some(number) }
}
