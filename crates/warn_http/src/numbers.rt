//! Decimal numbers in paths and fields.
ghost use Rattle.std.specs.Prelude.{◌≡◌, ◌<◌, IsTrue, min};
ghost use Rattle.std.specs.List.{list_all};
ghost use Rattle.hazard_types.specs.Calendar.{is_digit};
ghost use Rattle.warn_http.specs.Numbers.{number_from, are_digits, number_of};

/// A decimal number within a limit, or why there is none.
#[derive(Clone, Copy, Debug, PartialEq, Eq)]
pub enum Number {
    /// The bytes are not one or more decimal digits.
    NoNumber,
    /// The number is above the limit.
    TooLarge,
    Is(u32),
}

/// Greater numbers are read as this one.
const CAP: u64 = 4_294_967_296;

/// Whether all bytes are decimal digits; true if there are no bytes.
fn all_digits(bytes: &[u8]) -> bool
    ensures { result ≡ list_all is_digit bytes.now }
{
    bytes.iter().all(|b| b.is_ascii_digit())
}

/// Whether the bytes are one or more decimal digits.
fn are_digits(bytes: &[u8]) -> bool
    ensures { result ≡ are_digits bytes.now }
{
    !bytes.is_empty() && all_digits(bytes)
}

/// Returns the number that one or more decimal digits spell, or 4,294,967,296 (2^32) if it is
/// greater than that.
fn capped(digits: &[u8]) -> u64
    requires { IsTrue (are_digits digits.now) }
    ensures { result ≡ min CAP (number_from 0 digits.now) }
{
    let mut number: u64 = 0;
    for digit in digits {
        number = CAP.min(10 * number + u64::from(*digit - b'0'));
    }
    number
}

/// Returns the number that one or more decimal digits spell, with leading zeros or without. It is
/// `NoNumber` if the bytes are not one or more digits, and `TooLarge` if the number is above
/// `limit`.
#[tactic(auto, unfolding(crate::specs::Numbers::number_of))]
pub fn number_of(limit: u32, bytes: &[u8]) -> Number
    ensures { result ≡ number_of limit bytes.now }
{
    if !are_digits(bytes) {
        return Number::NoNumber;
    }
    let number = capped(bytes);
    if number <= u64::from(limit) {
        Number::Is(number as u32)
    } else {
        Number::TooLarge
    }
}
