//! The forms of the values of settings.
//!
//! Source: docs/SETTINGS.md, "Settings".
ghost use Rattle.std.specs.Prelude.{◌≡◌};
ghost use Rattle.std.specs.List.{list_all};
ghost use Rattle.hazard_types.specs.Calendar.{is_digit};
ghost use Rattle.hazard_types.specs.Places.{is_capital};
ghost use Rattle.desk_settings.specs.Forms.{begins_with_letter, is_line_byte, is_office_line, is_zone_name_byte, is_zone_name, is_heading, office_in, site_in, parse_ttaaii, local_zone_in};

use hazard_types::{LocalZone, is_name_byte, is_printable};

/// The greatest length of an office line, in characters.
const LINE_MOST: usize = 66;

/// The greatest length of a zone's name, in characters.
const NAME_MOST: usize = 40;

/// Returns `text` as an office's code, as `KLWX`, if it is four characters of A-Z and 0-9, else
/// `None`.
pub fn office_in(text: &[u8]) -> Option<[u8; 4]>
    ensures { result ≡ office_in text.now }
{
    let [a, b, c, d] = text else {
        return None;
    };
    if is_name_byte(*a) && is_name_byte(*b) && is_name_byte(*c) && is_name_byte(*d) {
        Some([*a, *b, *c, *d])
    } else {
        None
    }
}

/// Returns `text` as a site, as `LWX`, if it is three characters of A-Z and 0-9, else `None`.
pub fn site_in(text: &[u8]) -> Option<[u8; 3]>
    ensures { result ≡ site_in text.now }
{
    let [a, b, c] = text else {
        return None;
    };
    if is_name_byte(*a) && is_name_byte(*b) && is_name_byte(*c) {
        Some([*a, *b, *c])
    } else {
        None
    }
}

/// Whether all bytes are letters A to Z.
fn are_capitals(bytes: &[u8]) -> bool
    ensures { result ≡ list_all is_capital bytes.now }
{
    bytes.iter().all(|byte| byte.is_ascii_uppercase())
}

/// Whether all bytes are digits.
fn are_digits(bytes: &[u8]) -> bool
    ensures { result ≡ list_all is_digit bytes.now }
{
    bytes.iter().all(|byte| byte.is_ascii_digit())
}

/// Whether the bytes are four letters A to Z and after them two digits, as `WWUS41`.
fn is_heading(text: &[u8]) -> bool
    ensures { result ≡ is_heading text.now }
{
    text.len() == 6 && are_capitals(&text[..4]) && are_digits(&text[4..])
}

/// Returns `text` as the start of a heading line, as `WWUS41`, if it is four capital letters and
/// after them two digits, else `None`.
pub fn parse_ttaaii(text: &[u8]) -> Option<[u8; 6]>
    ensures { result ≡ parse_ttaaii text.now }
{
    let [a, b, c, d, e, f] = text else {
        return None;
    };
    if is_heading(text) {
        Some([*a, *b, *c, *d, *e, *f])
    } else {
        None
    }
}

/// Returns the zone of local times with this name, as `Eastern`, or `None` if there is none.
///
/// Source: docs/SETTINGS.md, "Settings" (key `zone`).
pub fn local_zone_in(text: &str) -> Option<LocalZone>
    ensures { result ≡ local_zone_in text.now }
{
    match text {
        "Atlantic" => Some(LocalZone::Atlantic),
        "Eastern" => Some(LocalZone::Eastern),
        "Central" => Some(LocalZone::Central),
        "Mountain" => Some(LocalZone::Mountain),
        "Arizona" => Some(LocalZone::Arizona),
        "Pacific" => Some(LocalZone::Pacific),
        "Alaska" => Some(LocalZone::Alaska),
        "Hawaii" => Some(LocalZone::Hawaii),
        "UTC" => Some(LocalZone::Utc),
        _ => None,
    }
}

/// Whether the first character is one of A-Z and a-z; false for an empty text.
fn begins_with_letter(text: &[u8]) -> bool
    ensures { result ≡ begins_with_letter text.now }
{
    match text {
        [first, ..] => first.is_ascii_alphabetic(),
        [] => false,
    }
}

/// Whether a character is printable (space to tilde) and not a digit.
fn is_line_byte(byte: u8) -> bool
    ensures { result ≡ is_line_byte byte }
{
    is_printable(byte) && !byte.is_ascii_digit()
}

/// Whether each byte may stand in the line of an office: it is printable (space to tilde) and not a
/// digit.
fn are_line_bytes(text: &[u8]) -> bool
    ensures { result ≡ list_all is_line_byte text.now }
{
    text.iter().all(|byte| is_line_byte(*byte))
}

/// Whether `text` may be the office line: 1 to 66 printable characters without a digit, of which
/// the first is a letter.
pub fn is_office_line(text: &[u8]) -> bool
    ensures { result ≡ is_office_line text.now }
{
    text.len() <= LINE_MOST && begins_with_letter(text) && are_line_bytes(text)
}

/// Whether a byte may stand in the name of a zone: it is printable (space to tilde) and not a
/// digit, `$`, `&` or `-`.
fn is_zone_name_byte(byte: u8) -> bool
    ensures { result ≡ is_zone_name_byte byte }
{
    is_line_byte(byte) && byte != b'$' && byte != b'&' && byte != b'-'
}

/// Whether each byte may stand in the name of a zone: it is printable (space to tilde) and not a
/// digit, `$`, `&` or `-`.
fn are_zone_name_bytes(text: &[u8]) -> bool
    ensures { result ≡ list_all is_zone_name_byte text.now }
{
    text.iter().all(|byte| is_zone_name_byte(*byte))
}

/// Whether `text` may be the name of a zone: 1 to 40 printable characters without a digit, `$`, `&`
/// and `-`, of which the first is a letter.
pub fn is_zone_name(text: &[u8]) -> bool
    ensures { result ≡ is_zone_name text.now }
{
    text.len() <= NAME_MOST && begins_with_letter(text) && are_zone_name_bytes(text)
}
