//! Reads UGC texts.
ghost use Rattle.std.specs.Prelude.{◌≡◌, ◌⊎◌, ◌+◌, ◌*◌, ◌-◌, ◌≤◌, ◌<◌, ◌++◌, [], Some, None, Ok, IfOk, IfSome, length, IsTrue, List as Seq, ℕ};
ghost use Rattle.std.specs.List.Sorted.{IsStrictlySortedBy};
ghost use Rattle.hazard_types.specs.Given.{Gives};
ghost use Rattle.hazard_types.specs.Places.{Place, by_place};
ghost use Rattle.hazard_types.specs.declared.calendar.DayStamp.{DayStamp as Expiry};
ghost use Rattle.ugc_codes.specs.Grammar.{is_gap, IsUgc};
ghost use Rattle.hazard_types.specs.Digits.{is_day_stamp};
ghost use Rattle.ugc_codes.specs.Faults.{FirstFault};
ghost use Rattle.ugc_codes.specs.Codes.{EndsInRange, parse_three_digits, full_code, short_code, code_of, rising_run, parse_run, parse_single, parse_expiry, parse_group};
ghost use Rattle.hazard_types.specs.Digits.{parse_day_stamp};
ghost use Rattle.ugc_codes.specs.Reading.{ugc_of, fault_at, Closes};

use crate::zone_set::ZoneSet;
use hazard_types::{DayStamp, Kind, List, Or, Zone, parse_day_stamp};
use std::alloc::Global;
use thiserror::Error;

/// The values of a UGC text, and its length.
#[derive(Clone, Debug, Drop, PartialEq, Eq)]
pub struct UgcRead {
    /// The zones, in order, each once; runs are spelled out.
    pub zones: List<Zone>,
    /// The day of the month, hour and minute (UTC) of the last group.
    pub expiry: DayStamp,
    /// The length of the text in bytes, up to and with the hyphen after the expiry.
    pub used: usize,
}

/// Why bytes do not start with a UGC text: the first fault. `at` is the byte where the group
/// starts, counted from 0.
#[derive(Clone, Copy, Debug, PartialEq, Eq, Error)]
pub enum UgcFault {
    /// The group is no zone and no run of zones, nor an expiry after a zone.
    #[error("byte {at}: no zone, run of zones or expiry begins here")]
    NotACode { at: usize },
    /// The group is a run whose last number is not greater than its first.
    #[error("byte {at}: a range must run upwards")]
    BadRange { at: usize },
    /// The bytes end without an expiry and its hyphen.
    #[error("the bytes end before the expiry does")]
    CutShort,
}

/// The value of a group: the zones from one to a last number (its own, for one zone), or the
/// expiry.
#[derive(Clone, Copy, Debug)]
pub enum Group {
    Zones(Zone, u16),
    Expiry(DayStamp),
}

/// Why a group has no value: it has no form of a group, or it is a run that does not go up.
#[derive(Clone, Copy, Debug)]
pub enum Refused {
    NoCode,
    NoRange,
}

/// Returns the number, 0 to 999, that three ASCII digits spell, `x` first, or `None` if one of the
/// bytes is no digit.
#[tactic(auto, unfolding(crate::specs::Codes::parse_three_digits))]
fn parse_three_digits(x: u8, y: u8, z: u8) -> Option<u16>
    ensures value { result ≡ parse_three_digits x y z }
    ensures range { IfSome result (λ n. n ≤ 999) }
{
    if x.is_ascii_digit() && y.is_ascii_digit() && z.is_ascii_digit() {
        Some(100 * u16::from(x - b'0') + 10 * u16::from(y - b'0') + u16::from(z - b'0'))
    } else {
        None
    }
}

/// Returns the zone that six characters give, as `MDZ003`: two letters A-Z of the state, the kind
/// `C` or `Z`, and the number, 001 to 999. `None` if they have another form.
#[tactic(auto, unfolding(crate::specs::Codes::full_code))]
fn full_code(text: &[u8; 6]) -> Option<Zone>
    ensures { result ≡ full_code text.now }
{
    let kind = Kind::from_letter(text[2])?;
    let number = parse_three_digits(text[3], text[4], text[5])?;
    Zone::new([text[0], text[1]], kind, number)
}

/// Returns the zone with the state and kind of `before`, the first zone of the group before, and
/// the number that three digits spell. It is `None` if `before` is `None` or the bytes are not 001
/// to 999.
#[tactic(auto, unfolding(crate::specs::Codes::short_code))]
fn short_code(before: &Option<Zone>, text: &[u8; 3]) -> Option<Zone>
    ensures { result ≡ short_code before.now text.now }
{
    let before = (*before)?;
    let number = parse_three_digits(text[0], text[1], text[2])?;
    if 1 <= number && number <= 999 {
        Some(before.with_number(number))
    } else {
        None
    }
}

/// Returns the zone that a text spells, either in six characters, as `MDZ003`, or in three digits
/// with the state and kind of `before`, the first zone of the group before; the number is 001 to
/// 999. It is `None` if the text has neither form, or has three digits and `before` is `None`.
fn code_of(before: &Option<Zone>, text: &[u8]) -> Option<Zone>
    ensures { result ≡ code_of before.now text.now }
{
    match text {
        [a, b, c, x, y, z] => full_code(&[*a, *b, *c, *x, *y, *z]),
        [x, y, z] => short_code(before, &[*x, *y, *z]),
        _ => None,
    }
}

/// Returns the group of the zones from `first` to the number `last`, with the state and kind of
/// `first`, or errs with `NoRange` if `last` is not above the number of `first`.
fn rising_run(first: Zone, last: u16) -> Result<Group, Refused>
    requires { last ≤ 999 }
    ensures value { result ≡ rising_run first last }
    ensures range { IfOk result EndsInRange }
{
    if first.number() < last {
        Ok(Group::Zones(first, last))
    } else {
        Err(Refused::NoRange)
    }
}

/// Returns the group of a run, as `MDZ003>006`, or `003>006` with the state and kind of `before`,
/// the first zone of the group before. It errs with `NoCode` if the text has neither form, or has
/// no state and kind and `before` is `None`, and with `NoRange` if its last number is not above its
/// first. The text must have at least four bytes, and a `>` before its last three.
#[tactic(auto, unfolding(crate::specs::Codes::parse_run))]
fn parse_run(before: &Option<Zone>, text: &[u8]) -> Result<Group, Refused>
    requires { 4 ≤ length text.now }
    ensures value { result ≡ parse_run before.now text.now }
    ensures range { IfOk result EndsInRange }
{
    let from = text.len() - 3;
    let Some(first) = code_of(before, &text[..from - 1]) else {
        return Err(Refused::NoCode);
    };
    let Some(last) = parse_three_digits(text[from], text[from + 1], text[from + 2]) else {
        return Err(Refused::NoCode);
    };
    rising_run(first, last)
}

/// Returns the group of one zone, as `MDZ003`, or `003` with the state and kind of `before`, the
/// first zone of the group before; the number is 001 to 999. It errs with `NoCode` if the text has
/// neither form, or has three digits and `before` is `None`.
#[tactic(auto, unfolding(crate::specs::Codes::parse_single))]
fn parse_single(before: &Option<Zone>, text: &[u8]) -> Result<Group, Refused>
    ensures value { result ≡ parse_single before.now text.now }
    ensures range { IfOk result EndsInRange }
{
    match code_of(before, text) {
        Some(zone) => Ok(Group::Zones(zone, zone.number())),
        None => Err(Refused::NoCode),
    }
}

/// Returns the group of an expiry, as `180600`: day of the month, hour and minute in UTC. It errs
/// with `NoCode` if the text has another form, or if `before`, the first zone of the group before,
/// is `None`.
#[tactic(auto, unfolding(crate::specs::Codes::parse_expiry))]
fn parse_expiry(before: &Option<Zone>, text: &[u8]) -> Result<Group, Refused>
    ensures value { result ≡ parse_expiry before.now text.now }
    ensures range { IfOk result EndsInRange }
{
    if before.is_none() {
        return Err(Refused::NoCode);
    }
    match parse_day_stamp(text) {
        Some(expiry) => Ok(Group::Expiry(expiry)),
        None => Err(Refused::NoCode),
    }
}

/// Returns the group, a zone, a run of zones or an expiry, that the bytes up to a hyphen spell;
/// three digits stand for a zone with the state and kind of `before`, the first zone of the group
/// before. It errs with `NoRange` for a run whose last number is not above its first, and with
/// `NoCode` for bytes of no such form. If `before` is `None`, as in the first group, an expiry and
/// a group without state and kind err with `NoCode` too.
#[tactic(auto, unfolding(crate::specs::Codes::parse_group))]
fn parse_group(before: &Option<Zone>, text: &[u8]) -> Result<Group, Refused>
    ensures value { result ≡ parse_group before.now text.now }
    ensures range { IfOk result EndsInRange }
{
    let code = code_of(before, text);
    if text.len() >= 4 && text[text.len() - 4] == b'>' {
        parse_run(before, text)
    } else if code.is_some() {
        parse_single(before, text)
    } else {
        parse_expiry(before, text)
    }
}

/// Whether a byte may stand between two groups: a blank, a tab, a CR or an LF.
fn is_gap(c: u8) -> bool
    ensures { result ≡ is_gap c }
{
    c == b' ' || c == b'\t' || c == b'\r' || c == b'\n'
}

/// The zones so far, and the first zone of the group before.
#[derive(Drop)]
struct Named {
    zones: ZoneSet,
    before: Option<Zone>,
}

/// Returns the fault for a group that was refused. `at` is the byte where the group starts, counted
/// from 0.
fn fault_at(at: usize, refused: Refused) -> UgcFault
    ensures { result ≡ fault_at at refused }
{
    match refused {
        Refused::NoCode => UgcFault::NotACode { at },
        Refused::NoRange => UgcFault::BadRange { at },
    }
}

/// Adds the zones of the group `text` to those named so far and returns `None`, or returns the
/// expiry if the group is one. It errs with the fault of the group, which starts at byte `start`,
/// or if memory runs out.
fn take_group(
    named: &mut Named,
    text: &[u8],
    start: usize,
) -> Result<Option<DayStamp>, Or<UgcFault>>
    ensures { Closes result start named.old.before named.old.zones named.new.before named.new.zones
        (parse_group named.old.before text.now) }
{
    let group = match parse_group(&named.before, text) {
        Ok(group) => group,
        Err(refused) => return Err(Or::No(fault_at(start, refused))),
    };
    match group {
        Group::Zones(first, last) => {
            named.zones.add_run(first, last)?;
            named.before = Some(first);
            Ok(None)
        }
        Group::Expiry(expiry) => Ok(Some(expiry)),
    }
}

/// Returns the values of the UGC text that `bytes` starts with, or errs with the first fault, or if
/// memory runs out.
fn read(alloc: Global, bytes: &[u8]) -> Result<UgcRead, Or<UgcFault>>
    ensures exact { Gives result (ugc_of bytes.now) }
    ensures sorted { IfOk result (λ u. IsStrictlySortedBy by_place u.zones) }
    ensures used { IfOk result (λ u. u.used ≤ length bytes.now) }
{
    let mut named = Named {
        zones: ZoneSet::new(alloc),
        before: None,
    };
    let mut start = 0;
    for (at, c) in bytes.iter().enumerate() {
        if *c == b'-' {
            match take_group(&mut named, &bytes[start..at], start)? {
                None => start = at + 1,
                Some(expiry) => {
                    let zones = named.zones.into_list(alloc)?;
                    return Ok(UgcRead {
                        zones,
                        expiry,
                        used: at + 1,
                    });
                }
            }
        } else if is_gap(*c) && start == at && named.before.is_some() {
            start = at + 1;
        }
    }
    Err(Or::No(UgcFault::CutShort))
}

/// Returns the values of the UGC text that `bytes` starts with, whatever follows it. Groups end
/// with a hyphen, after which blanks and line ends are skipped; a group without state and kind
/// takes those of the group before.
///
/// # Errors
///
/// The first fault of the bytes, with its byte; or out of memory.
///
/// Source: NWS Instruction 10-1702, UGC; docs/DECISIONS.md, "Reading of texts" (UGC).
pub fn read_ugc(alloc: Global, bytes: &[u8]) -> Result<UgcRead, Or<UgcFault>>
    // Every text that is read is in the grammar, and every text of the grammar is read, unless
    // memory runs out.
    ensures found { IfOk result (λ u. IsUgc bytes.now u.zones u.expiry u.used) }
    ensures only { (zones : Seq Place) (d : Expiry) (n : ℕ) →
        IsUgc bytes.now zones d n →
        Gives result (Ok (record { zones = zones; expiry = d; used = n })) }

    // A fault that is returned is the first of the bytes, and the first fault is returned, unless
    // memory runs out.
    ensures fault { (f : UgcFault) → result ≡ Err (Or.No f) → FirstFault bytes.now f }
    ensures fault_only { (f : UgcFault) → FirstFault bytes.now f → Gives result (Err f) }

    // What is read may be written: at least one zone, in order, each once, and an expiry in its
    // range.
    ensures some { IfOk result (λ u. 0 < length u.zones) }
    ensures sorted { IfOk result (λ u. IsStrictlySortedBy by_place u.zones) }
    ensures expiry { IfOk result (λ u. IsTrue (is_day_stamp u.expiry)) }
    ensures used { IfOk result (λ u. u.used ≤ length bytes.now) }

    // The same as one function of the bytes.
    ensures exact { Gives result (ugc_of bytes.now) }
{
    read(alloc, bytes)
}

/// Bytes start with at most one UGC text, whatever follows it, and no UGC text is a proper prefix
/// of another.
pub fn one_text()
    ensures same { (bytes more : Seq ℕ) (zones zones' : Seq Place) (d d' : Expiry) (n n' : ℕ) →
        IsUgc bytes zones d n → IsUgc (bytes ++ more) zones' d' n' →
        (zones ≡ zones') × (d ≡ d') × (n ≡ n') }
    ensures no_prefix { (text more : Seq ℕ) (zones zones' : Seq Place) (d d' : Expiry) →
        IsUgc text zones d (length text) → IsUgc (text ++ more) zones' d' (length (text ++ more)) →
        more ≡ [] }
{}

/// Bytes start with a UGC text or have a first fault, never both, and they have at most one.
pub fn text_or_fault()
    ensures either { (bytes : Seq ℕ) →
        ((zones : Seq Place) × (d : Expiry) × (n : ℕ) × IsUgc bytes zones d n)
        ⊎ ((f : UgcFault) × FirstFault bytes f) }
    ensures not_both { (bytes : Seq ℕ) (zones : Seq Place) (d : Expiry) (n : ℕ) (f : UgcFault) →
        IsUgc bytes zones d n → FirstFault bytes f → ⊥ }
    ensures one_fault { (bytes : Seq ℕ) (f g : UgcFault) →
        FirstFault bytes f → FirstFault bytes g → f ≡ g }
{}
