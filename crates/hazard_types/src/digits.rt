//! Numbers and day stamps in decimal digits.
ghost use Rattle.std.specs.Prelude.{◌≡◌, ◌<◌, ◌≤◌, ◌+◌, ◌-◌, ◌*◌, ◌++◌, IsTrue, IfSome, Some, OnOk, decimal};
ghost use Rattle.hazard_types.specs.Calendar.{is_digit};
ghost use Rattle.hazard_types.specs.declared.calendar.DayStamp.{DayStamp as Stamp};
ghost use Rattle.hazard_types.specs.Digits.{two_digits, three_digits, four_digits, wide, is_day_stamp, day_text, parse_day_stamp};

use crate::calendar::DayStamp;
use crate::list::{Oom, Text};
use std::alloc::Global;

/// Returns a number below 100 as two ASCII digits, with leading zeros.
pub fn two_digits(n: u8) -> [u8; 2]
    requires { n < 100 }
    ensures { result ≡ two_digits n }
{
    [b'0' + n / 10, b'0' + n % 10]
}

/// Returns a number below 1,000 as three ASCII digits, with leading zeros.
pub fn three_digits(n: u16) -> [u8; 3]
    requires { n ≤ 999 }
    ensures { result ≡ three_digits n }
{
    [
        b'0' + (n / 100) as u8,
        b'0' + (n / 10 % 10) as u8,
        b'0' + (n % 10) as u8,
    ]
}

/// Returns a number below 10,000 as four ASCII digits, with leading zeros.
pub fn four_digits(n: u16) -> [u8; 4]
    requires { n ≤ 9999 }
    ensures { result ≡ four_digits n }
{
    [
        b'0' + (n / 1000) as u8,
        b'0' + (n / 100 % 10) as u8,
        b'0' + (n / 10 % 10) as u8,
        b'0' + (n % 10) as u8,
    ]
}

/// Appends a number in decimal digits, without leading zeros.
///
/// # Errors
///
/// Out of memory.
pub fn write_number(alloc: Global, out: &mut Text, n: usize) -> Result<(), Oom>
    ensures { OnOk result (out.new ≡ out.old ++ decimal n) }
{
    let text = format!(in alloc; "{n}")?;
    out.extend(text.as_bytes())
}

/// Appends a number in four digits, with leading zeros, or in five if it is 10,000 or more.
///
/// # Errors
///
/// Out of memory.
#[tactic(auto, unfolding(crate::specs::Digits::wide))]
pub fn push_four_digits_or_more(alloc: Global, out: &mut Text, n: u16) -> Result<(), Oom>
    ensures { OnOk result (out.new ≡ out.old ++ wide n) }
{
    if n < 10_000 {
        out.extend(&four_digits(n))
    } else {
        write_number(alloc, out, n as usize)
    }
}

/// Whether the day is 1 to 31, the hour below 24 and the minute below 60.
pub fn is_day_stamp(d: DayStamp) -> bool
    ensures { result ≡ is_day_stamp d }
{
    1 <= d.day && d.day <= 31 && d.hour <= 23 && d.minute <= 59
}

/// Returns a day stamp in range as six digits: day, hour, minute.
///
/// Source: NWS Instruction 10-1702, UGC expiry; NWS Instruction 10-1701, WMO heading.
pub fn day_text(d: DayStamp) -> [u8; 6]
    requires { IsTrue (is_day_stamp d) }
    ensures { result ≡ day_text d }
{
    let day = two_digits(d.day);
    let hour = two_digits(d.hour);
    let minute = two_digits(d.minute);
    [day[0], day[1], hour[0], hour[1], minute[0], minute[1]]
}

/// Returns the number, 0 to 99, of two ASCII digits. Both bytes must be digits.
pub(crate) fn two_of(tens: u8, ones: u8) -> u8
    requires tens { IsTrue (is_digit tens) }
    requires ones { IsTrue (is_digit ones) }
    ensures { result ≡ 10 * (tens - 48) + (ones - 48) }
{
    10 * (tens - b'0') + (ones - b'0')
}

/// Returns the day of the month, the hour and the minute that six ASCII digits spell, as `180600`,
/// or `None` if the bytes are not six digits or one of the three is out of range.
#[tactic(auto, unfolding(crate::specs::Digits::parse_day_stamp))]
fn day_stamp_of(text: &[u8]) -> Option<DayStamp>
    ensures { result ≡ parse_day_stamp text.now }
{
    let [a, b, c, d, e, f] = text else {
        return None;
    };
    if !(a.is_ascii_digit()
        && b.is_ascii_digit()
        && c.is_ascii_digit()
        && d.is_ascii_digit()
        && e.is_ascii_digit()
        && f.is_ascii_digit())
    {
        return None;
    }
    let stamp = DayStamp {
        day: two_of(*a, *b),
        hour: two_of(*c, *d),
        minute: two_of(*e, *f),
    };
    if is_day_stamp(stamp) {
        Some(stamp)
    } else {
        None
    }
}

/// Returns the day of the month, the hour and the minute that six ASCII digits spell, as `180600`,
/// or `None` if the bytes are not six digits or one of the three is out of range.
///
/// Source: NWS Instruction 10-1702, UGC expiry; NWS Instruction 10-1701, WMO heading.
#[tactic(auto, using(crate::proofs::DayTexts::day_stamp_back, crate::proofs::DayTexts::day_stamp_is_read))]
pub fn parse_day_stamp(text: &[u8]) -> Option<DayStamp>
    ensures found { IfSome result (λ d. IsTrue (is_day_stamp d) × (text.now ≡ day_text d)) }
    ensures only { (d : Stamp) → IsTrue (is_day_stamp d) → text.now ≡ day_text d → result ≡ Some d }
    ensures value { result ≡ parse_day_stamp text.now }
{
    day_stamp_of(text)
}
