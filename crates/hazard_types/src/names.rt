//! The texts of significances, kinds, categories, zones, hazards and events, both ways.
ghost use Rattle.std.specs.Prelude.{◌≡◌, ◌≤◌, ◌++◌, OnOk, IfSome, Some};
ghost use Rattle.hazard_types.specs.Codes.{value_for_code};
ghost use Rattle.hazard_types.specs.Hazards.{hazard_code};
ghost use Rattle.hazard_types.specs.Tables.{category_rows};
ghost use Rattle.hazard_types.specs.Names.{category_code, sig_at, kind_code, kind_at, zone_text, zone_at, hazard_at, parse_four_digits, event_if, event_text, event_at, is_fl_phenomenon};

use crate::code_tables::categories;
use crate::codes::Category;
use crate::digits::{four_digits, push_four_digits_or_more, three_digits};
use crate::hazard::{Event, Hazard, Phen, Sig};
use crate::list::{Oom, Text};
use crate::table::find;
use crate::zone::{Kind, Zone};
use std::alloc::Global;

impl Sig {
    /// Returns the significance with this letter, or `None` if no significance has it.
    pub fn from_letter(letter: u8) -> Option<Self>
        ensures { result ≡ sig_at letter }
    {
        match letter {
            b'W' => Some(Sig::W),
            b'A' => Some(Sig::A),
            b'Y' => Some(Sig::Y),
            b'S' => Some(Sig::S),
            b'F' => Some(Sig::F),
            b'O' => Some(Sig::O),
            b'N' => Some(Sig::N),
            _ => None,
        }
    }
}

impl Kind {
    /// Returns the kind with this letter, or `None` if it is neither `C` nor `Z`.
    pub fn from_letter(letter: u8) -> Option<Self>
        ensures { result ≡ kind_at letter }
    {
        match letter {
            b'C' => Some(Kind::C),
            b'Z' => Some(Kind::Z),
            _ => None,
        }
    }

    /// Returns the letter of the kind, `C` or `Z`.
    pub fn letter(self) -> u8
        ensures { result ≡ kind_code self }
    {
        match self {
            Kind::C => b'C',
            Kind::Z => b'Z',
        }
    }
}

impl Category {
    /// Returns the three letters of the category.
    pub fn code(self) -> [u8; 3]
        ensures { result ≡ category_code self }
    {
        match self {
            Category::Wsw => *b"WSW",
            Category::Npw => *b"NPW",
            Category::Rfw => *b"RFW",
            Category::Cfw => *b"CFW",
            Category::Mww => *b"MWW",
            Category::Ffa => *b"FFA",
            Category::Flw => *b"FLW",
            Category::Fls => *b"FLS",
        }
    }

    /// Returns the category with these three letters, or `None` if no category has them.
    pub fn from_code(text: &[u8]) -> Option<Self>
        ensures { result ≡ value_for_code category_rows text.now }
    {
        find(&categories(), text)
    }
}

/// Returns the zone whose six characters the text is, as `MDZ003`: two capital letters for the
/// state, `C` or `Z` for the kind, and three digits for the number, 001 to 999. `None` for any
/// other text.
///
/// Source: NWS Instruction 10-1702, UGC.
#[tactic(auto, unfolding(crate::specs::Names::zone_at))]
pub fn parse_zone(text: &[u8]) -> Option<Zone>
    ensures { result ≡ zone_at text.now }
{
    let [first, second, kind, hundreds, tens, ones] = text else {
        return None;
    };
    if !hundreds.is_ascii_digit() || !tens.is_ascii_digit() || !ones.is_ascii_digit() {
        return None;
    }
    let number = 100 * u16::from(*hundreds - b'0')
        + 10 * u16::from(*tens - b'0')
        + u16::from(*ones - b'0');
    let kind = Kind::from_letter(*kind)?;
    Zone::new([*first, *second], kind, number)
}

/// Returns the six characters of a zone, as `MDZ003`.
///
/// Source: NWS Instruction 10-1702, UGC.
pub fn zone_text(zone: &Zone) -> [u8; 6]
    ensures { result ≡ zone_text zone.now }
{
    let state = zone.state();
    let digits = three_digits(zone.number());
    [
        state[0],
        state[1],
        zone.kind().letter(),
        digits[0],
        digits[1],
        digits[2],
    ]
}

/// Returns the hazard whose four characters the text is, as `WS.W`: any two capital letters for the
/// phenomenon, `.`, and the letter of a significance. `None` for any other text.
///
/// Source: NWS Instruction 10-1703, P-VTEC phenomena and significance codes.
#[tactic(auto, unfolding(crate::specs::Names::hazard_at))]
pub fn parse_hazard(text: &[u8]) -> Option<Hazard>
    ensures { result ≡ hazard_at text.now }
{
    let [first, second, b'.', sig] = text else {
        return None;
    };
    let phen = Phen::new([*first, *second])?;
    let sig = Sig::from_letter(*sig)?;
    Some(Hazard { phen, sig })
}

/// Returns the four characters of a hazard, as `WS.W`.
///
/// Source: NWS Instruction 10-1703, P-VTEC phenomena and significance codes.
pub fn hazard_text(hazard: &Hazard) -> [u8; 4]
    ensures { result ≡ hazard_code hazard.now }
{
    let [first, second] = hazard.phen.letters();
    [first, second, b'.', hazard.sig.letter()]
}

/// Returns the number, 0 to 9,999, that four ASCII digits spell, `a` first, or `None` if one of the
/// bytes is no digit.
#[tactic(auto, unfolding(crate::specs::Names::parse_four_digits))]
fn parse_four_digits(a: u8, b: u8, c: u8, d: u8) -> Option<u16>
    ensures value { result ≡ parse_four_digits a b c d }
    ensures range { IfSome result (λ n. n ≤ 9999) }
{
    if a.is_ascii_digit() && b.is_ascii_digit() && c.is_ascii_digit() && d.is_ascii_digit() {
        Some(
            1000 * u16::from(a - b'0')
                + 100 * u16::from(b - b'0')
                + 10 * u16::from(c - b'0')
                + u16::from(d - b'0'),
        )
    } else {
        None
    }
}

/// Returns the event with this hazard, event tracking number `etn` and year, or `None` if the
/// number is 0 or the year is not 2000 to 2099.
fn event_if(hazard: Hazard, etn: u16, year: u16) -> Option<Event>
    ensures { result ≡ event_if hazard etn year }
{
    if 1 <= etn && 2000 <= year && year <= 2099 {
        Some(Event { hazard, etn, year })
    } else {
        None
    }
}

/// Returns the event that fourteen characters such as `WS.W.0001.2018` are, or `None` if the text
/// is no event. The number is 0001 to 9999, the year 2000 to 2099.
///
/// Source: docs/REQUESTS.md, "The requests" (field `event`).
#[tactic(auto, unfolding(crate::specs::Names::event_at))]
pub fn parse_event(text: &[u8]) -> Option<Event>
    ensures { result ≡ event_at text.now }
{
    let [a, b, c, d, b'.', n, o, p, q, b'.', w, x, y, z] = text else {
        return None;
    };
    let hazard = parse_hazard(&[*a, *b, *c, *d])?;
    let etn = parse_four_digits(*n, *o, *p, *q)?;
    let year = parse_four_digits(*w, *x, *y, *z)?;
    event_if(hazard, etn, year)
}

/// Returns the fourteen characters of an event, as `WS.W.0001.2018`. Number and year are at most
/// 9,999.
///
/// Source: docs/REQUESTS.md, "The requests" (field `event`).
#[tactic(auto, using(crate::proofs::NamesBack::wide_four), unfolding(crate::specs::Digits::wide))]
pub fn event_text(event: &Event) -> [u8; 14]
    requires number { event.now.etn ≤ 9999 }
    requires year { event.now.year ≤ 9999 }
    ensures { result ≡ event_text event.now }
{
    let mut text = *b"pp.s.####.yyyy";
    text[10..14].copy_from_slice(&four_digits(event.year));
    text[5..9].copy_from_slice(&four_digits(event.etn));
    text[0..4].copy_from_slice(&hazard_text(&event.hazard));
    text
}

/// Appends the text of an event, as `WS.W.0001.2018`. A number or a year of 10,000 or more has five
/// digits.
///
/// # Errors
///
/// Out of memory.
pub fn write_event_text(alloc: Global, out: &mut Text, event: &Event) -> Result<(), Oom>
    ensures { OnOk result (out.new ≡ out.old ++ event_text event.now) }
{
    out.extend(&hazard_text(&event.hazard))?;
    out.push(b'.')?;
    push_four_digits_or_more(alloc, out, event.etn)?;
    out.push(b'.')?;
    push_four_digits_or_more(alloc, out, event.year)
}

/// Whether the hazard is a river flood: its phenomenon is FL.
pub fn is_fl_phenomenon(hazard: &Hazard) -> bool
    ensures { result ≡ is_fl_phenomenon hazard.now }
{
    hazard.phen.letters() == *b"FL"
}
