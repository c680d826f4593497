//! Writes UGC texts.
ghost use Rattle.std.specs.Prelude.{◌≡◌, ◌+◌, ◌≤◌, ◌<◌, ◌++◌, ◌∷◌, [], List as Seq, ℕ, Some, IfOk, OnOk, IsTrue, length};
ghost use Rattle.std.specs.List.{All};
ghost use Rattle.std.specs.List.Sorted.{IsStrictlySortedBy};
ghost use Rattle.hazard_types.specs.Places.{Place, by_place, IsPlace};
ghost use Rattle.hazard_types.specs.declared.calendar.DayStamp.{DayStamp as Expiry};
ghost use Rattle.ugc_codes.specs.Grammar.{run_end, IsUgc};
ghost use Rattle.hazard_types.specs.Digits.{is_day_stamp, three_digits, day_text};
ghost use Rattle.hazard_types.specs.Names.{zone_text};
ghost use Rattle.ugc_codes.specs.Written.{EndsBelow, are_alike, continues_span, pieces, groups, code_part, own_text, put_text, put_column, ugc_text};

use crate::span::Span;
use hazard_types::{DayStamp, List, Oom, Text, Zone, day_text, three_digits, zone_text};
use std::alloc::Global;

/// Whether two zones have the same state and kind.
fn are_alike(a: &Zone, b: &Zone) -> bool
    ensures { result ≡ are_alike a.now b.now }
{
    let x = a.state();
    let y = b.state();
    x[0] == y[0] && x[1] == y[1] && a.kind().letter() == b.kind().letter()
}

/// Whether a zone has the state and kind of a span, and the number one above the last number of the
/// span.
fn continues_span(span: &Span, zone: &Zone) -> bool
    ensures value { result ≡ continues_span span.now zone.now }
    ensures place { IsPlace zone.now }
{
    let number = zone.number();
    are_alike(&span.first, zone) && u32::from(number) == u32::from(span.last) + 1
}

/// Appends the groups in which a span is written: two for a span of two zones, else one, which is a
/// single zone or a run.
fn push_pieces(groups: &mut List<Span>, span: &Span) -> Result<(), Oom>
    requires { span.now.last ≤ 999 }
    ensures value { OnOk result (groups.new ≡ groups.old ++ pieces span.now) }
    ensures range { OnOk result (All EndsBelow groups.old → All EndsBelow groups.new) }
{
    let first = span.first;
    let number = first.number();
    if span.last == number + 1 {
        groups.push(Span {
            first,
            last: number,
        })?;
        let second = first.with_number(number + 1);
        groups.push(Span {
            first: second,
            last: number + 1,
        })
    } else {
        groups.push(Span {
            first,
            last: span.last,
        })
    }
}

/// Returns the groups in which zones are written, in order. Zones of one state and kind with
/// consecutive numbers are one group, a run, if they are three or more, and every other zone is a
/// group of its own. The zones must be in order by state, kind and number, each once, and at least
/// one.
fn groups_of(alloc: Global, zones: &[Zone]) -> Result<List<Span>, Oom>
    requires { 0 < length zones.now }
    ensures value { IfOk result (λ list. list ≡ groups zones.now) }
    ensures range { IfOk result (λ list. All EndsBelow list) }
    ensures places { OnOk result (All IsPlace zones.now) }
{
    let mut list = List::new(alloc);
    let first = zones[0];
    let mut span = Span {
        first,
        last: first.number(),
    };
    for zone in &zones[1..] {
        if continues_span(&span, zone) {
            span.last = zone.number();
        } else {
            push_pieces(&mut list, &span)?;
            span = Span {
                first: *zone,
                last: zone.number(),
            };
        }
    }
    push_pieces(&mut list, &span)?;
    Ok(list)
}

/// Appends a zone to `own` as `MDZ003`, or its number alone, as `003`, if it has the state and kind
/// of `before`, the first zone of the group before. `before` is `None` in the first group.
fn push_code(own: &mut Text, before: &Option<Zone>, zone: &Zone) -> Result<(), Oom>
    ensures value { OnOk result (own.new ≡ own.old ++ code_part before.now zone.now) }
    ensures short { OnOk result (length own.new ≤ length own.old + 6) }
{
    match before {
        Some(before) => {
            if are_alike(before, zone) {
                own.extend(&three_digits(zone.number()))
            } else {
                own.extend(&zone_text(zone))
            }
        }
        None => own.extend(&zone_text(zone)),
    }
}

/// Appends `>` and the last number of a span to `own`, as `>006`, or nothing if the span is one
/// zone.
#[tactic(auto, unfolding(crate::specs::Grammar::run_end))]
fn push_end(own: &mut Text, span: &Span) -> Result<(), Oom>
    requires { span.now.last ≤ 999 }
    ensures value { OnOk result (own.new ≡ own.old ++ run_end span.now) }
    ensures short { OnOk result (length own.new ≤ length own.old + 4) }
{
    if span.first.number() == span.last {
        return Ok(());
    }
    let digits = three_digits(span.last);
    own.extend(&[b'>', digits[0], digits[1], digits[2]])
}

/// Returns the text of a group with its hyphen, as `MDZ003>006-` or `028-`. State and kind are left
/// out if the group has those of `before`, the first zone of the group before it, which is `None`
/// for the first group.
fn group_text(alloc: Global, before: &Option<Zone>, span: &Span) -> Result<Text, Oom>
    requires { span.now.last ≤ 999 }
    ensures value { IfOk result (λ own. own ≡ own_text before.now span.now) }
    ensures short { IfOk result (λ own. length own ≤ 11) }
{
    let mut own = List::new(alloc);
    push_code(&mut own, before, &span.first)?;
    push_end(&mut own, span)?;
    own.push(b'-')?;
    Ok(own)
}

/// The greatest length of a line, in characters.
///
/// Source: docs/DECISIONS.md, "Reading of texts" (UGC width).
const WIDTH: usize = 66;

/// Appends the text of a group, `own`, and returns the length in characters of the line that it
/// then ends. `column`, at most 66, is the length of the last line of `out` so far. If the group
/// would make this line longer than 66 characters, an LF comes before the group.
fn append_group(out: &mut Text, column: usize, own: &[u8]) -> Result<usize, Oom>
    requires column { column ≤ 66 }
    requires short { length own.now ≤ 11 }
    ensures text { OnOk result (out.new ≡ put_text out.old column own.now) }
    ensures column { IfOk result (λ next. next ≡ put_column column own.now) }
    ensures within { IfOk result (λ next. next ≤ 66) }
{
    let passes = column + own.len() > WIDTH;
    if passes {
        out.push(b'\n')?;
        out.extend(own)?;
        Ok(own.len())
    } else {
        out.extend(own)?;
        Ok(column + own.len())
    }
}

/// Returns the group of an expiry: day, hour and minute, in UTC, and a hyphen, as `180600-`.
fn day_group(d: DayStamp) -> [u8; 7]
    requires { IsTrue (is_day_stamp d) }
    ensures { result ≡ day_text d ++ 45 ∷ [] }
{
    let mut group = *b"ddhhmm-";
    group[..6].copy_from_slice(&day_text(d));
    group
}

/// Returns the UGC text of zones and an expiry. The zones must be in order by state, kind and
/// number, each once, and at least one.
#[tactic(auto, unfolding(crate::specs::Written::ugc_text))]
fn write(alloc: Global, zones: &[Zone], expiry: DayStamp) -> Result<Text, Oom>
    requires some { 0 < length zones.now }
    requires expiry { IsTrue (is_day_stamp expiry) }
    ensures value { IfOk result (λ text. text ≡ ugc_text zones.now expiry) }
    ensures places { OnOk result (All IsPlace zones.now) }
{
    let groups = groups_of(alloc, zones)?;
    let mut text = List::new(alloc);
    let mut column = 0;
    let mut before = None;
    for span in groups.as_slice() {
        let own = group_text(alloc, &before, span)?;
        column = append_group(&mut text, column, own.as_slice())?;
        before = Some(span.first);
    }
    append_group(&mut text, column, &day_group(expiry))?;
    Ok(text)
}

/// Returns the UGC text that the desk writes for `zones`, at least one, in order by state, kind and
/// number, each once, and for `expiry`. Three and more zones in a row are written as a run, and
/// state and kind only where they change. Lines have at most 66 characters, with LF between them
/// and none at the end.
///
/// # Errors
///
/// Out of memory.
///
/// Source: NWS Instruction 10-1702, UGC: zone ranges; docs/DECISIONS.md, "Reading of texts" (UGC
/// width).
pub fn write_ugc(alloc: Global, zones: &List<Zone>, expiry: DayStamp) -> Result<Text, Oom>
    requires some { 0 < length zones.now }
    requires sorted { IsStrictlySortedBy by_place zones.now }
    requires expiry { IsTrue (is_day_stamp expiry) }
    ensures value { IfOk result (λ text. text ≡ ugc_text zones.now expiry) }
    // It reads back, whatever bytes follow.
    ensures back { IfOk result
        (λ text. (rest : Seq ℕ) → IsUgc (text ++ rest) zones.now expiry (length text)) }
    // No longer UGC text starts with it.
    ensures alone { IfOk result (λ text. (more : Seq ℕ) (named : Seq Place) (d : Expiry) (n : ℕ) →
        IsUgc (text ++ more) named d n → (named ≡ zones.now) × (d ≡ expiry) × (n ≡ length text)) }
{
    write(alloc, zones.as_slice(), expiry)
}
