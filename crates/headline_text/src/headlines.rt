//! The headline of a line of a segment, and its WHEN bullet.
ghost use Rattle.std.specs.Prelude.{◌≡◌, ◌++◌, IsSome, IsTrue, IfOk, OnOk};
ghost use Rattle.hazard_types.specs.Hazards.{name_of};
ghost use Rattle.headline_text.specs.Wrapping.{wrapped};
ghost use Rattle.headline_text.specs.Headlines.{name_text, standing_headline, told, expiry_of, headline_of, is_minute, capital, has_when_bullet, when_of, line_period_text, when_bullet_text};

use crate::periods::{PERIOD_ROOM, empty_text, period_text};
use crate::wrapping::wrapped;
use desk_clock::local_short;
use hazard_types::desk_hazards::name_of;
use hazard_types::{Action, End, Hazard, LocalZone, Minute, Oom, SegLine, Text};
use std::alloc::Global;

/// The bytes that most headlines have at most, for which memory is taken at once.
const HEADLINE_ROOM: usize = 128;

/// Returns the name of a hazard, as it is written in headlines. The desk must issue the hazard.
fn name_text(hazard: Hazard) -> &'static [u8]
    requires { IsSome (name_of hazard) }
    ensures { result.now ≡ name_text hazard }
{
    match name_of(hazard) {
        Some(name) => name.as_bytes(),
        None => unreachable!(),
    }
}

/// Returns a headline such as `...N in effect until E...`: dots, `name`, `effect`, `period` and
/// dots. `effect` are words such as ` in effect `, with a blank before and after them.
fn standing_headline(alloc: Global, name: &[u8], effect: &[u8], period: &Text) -> Result<Text, Oom>
    ensures { IfOk result (λ text. text ≡ standing_headline name.now effect.now period.now) }
{
    let mut text = empty_text(alloc, HEADLINE_ROOM)?;
    text.extend(b"...")?;
    text.extend(name)?;
    text.extend(effect)?;
    text.extend(period.as_slice())?;
    text.extend(b"...")?;
    Ok(text)
}

/// Returns a headline such as `...The N is cancelled...`: dots, `The`, `name`, `what` and dots.
/// `what` are words such as ` is cancelled`, with a blank before them.
fn past_headline(alloc: Global, name: &[u8], what: &[u8]) -> Result<Text, Oom>
    ensures { IfOk result (λ text. text ≡ told name.now what.now) }
{
    let mut text = empty_text(alloc, HEADLINE_ROOM)?;
    text.extend(b"...The ")?;
    text.extend(name)?;
    text.extend(what)?;
    text.extend(b"...")?;
    Ok(text)
}

/// Returns ` will expire at E` if `t`, the product's issue minute, is before the end, and otherwise
/// ` has expired`, also for an end until further notice. E is the local time of the end in `zone`,
/// as `600 PM EST Wed Jan 3`.
fn expiry_text(alloc: Global, end: &End, zone: LocalZone, t: Minute) -> Result<Text, Oom>
    ensures { IfOk result (λ text. text ≡ expiry_of end.now zone t) }
{
    match end {
        End::At(end) => {
            if t.get() < end.get() {
                let mut text = empty_text(alloc, PERIOD_ROOM)?;
                text.extend(b" will expire at ")?;
                text.extend(local_short(alloc, zone, *end)?.as_slice())?;
                Ok(text)
            } else {
                Text::from_slice(alloc, b" has expired")
            }
        }
        End::Ufn => Text::from_slice(alloc, b" has expired"),
    }
}

/// Whether lines of this action have a WHEN bullet: all actions but CAN, EXP, UPG and ROU.
fn has_when_bullet(action: Action) -> bool
    ensures { result ≡ has_when_bullet action }
{
    !matches!(
        action,
        Action::Can | Action::Exp | Action::Upg | Action::Rou
    )
}

/// Returns the words of a line's period, as `until E`, which its headline and its WHEN bullet
/// share. Empty for CAN, EXP, UPG and ROU. `t` is the product's issue minute, and times are local
/// times of `zone`.
fn line_period_text(alloc: Global, l: &SegLine, zone: LocalZone, t: Minute) -> Result<Text, Oom>
    ensures { IfOk result (λ text. text ≡ line_period_text l.now zone t) }
{
    if has_when_bullet(l.action) {
        period_text(alloc, zone, t, &l.begin, &l.end)
    } else {
        Ok(Text::new(alloc))
    }
}

/// Returns the headline of a line in a product of issue minute `t` before it is wrapped; empty for
/// ROU. `period` must be the words of the line's period, as `until E`, or empty for CAN, EXP, UPG
/// and ROU; the end in the headline of an EXP line is a local time of `zone`. The desk must issue
/// the line's hazard.
#[tactic(auto, unfolding(crate::specs::Headlines::headline_of))]
fn headline_with(
    alloc: Global,
    l: &SegLine,
    zone: LocalZone,
    t: Minute,
    period: &Text,
) -> Result<Text, Oom>
    requires named { IsSome (name_of l.now.event.hazard) }
    requires period { period.now ≡ line_period_text l.now zone t }
    ensures { IfOk result (λ text. text ≡ headline_of l.now zone t) }
{
    let name = name_text(l.event.hazard);
    match l.action {
        Action::New | Action::Exa | Action::Exb => standing_headline(
            alloc,
            name,
            b" in effect ",
            period,
        ),
        Action::Ext => standing_headline(alloc, name, b" now in effect ", period),
        Action::Con | Action::Cor => standing_headline(alloc, name, b" remains in effect ", period),
        Action::Can => past_headline(alloc, name, b" is cancelled"),
        Action::Upg => past_headline(alloc, name, b" is upgraded"),
        Action::Exp => {
            let what = expiry_text(alloc, &l.end, zone, t)?;
            past_headline(alloc, name, what.as_slice())
        }
        Action::Rou => Ok(Text::new(alloc)),
    }
}

/// Returns the headline of a line in a product of issue minute `t`, on lines of at most 66
/// characters with LF between them and none at the end; empty for ROU. Times are local times of
/// `zone`. The desk must issue the line's hazard, and an EXP line must not end until further
/// notice.
///
/// # Errors
///
/// Out of memory.
///
/// Source: NWS Instruction 10-1701, segmented products: headlines; docs/PRODUCTS.md, "Headlines".
pub fn headline(alloc: Global, l: &SegLine, zone: LocalZone, t: Minute) -> Result<Text, Oom>
    requires named { IsSome (name_of l.now.event.hazard) }
    requires expiry { l.now.action ≡ Action.Exp → IsTrue (is_minute l.now.end) }
    ensures { IfOk result (λ text. text ≡ wrapped (headline_of l.now zone t)) }
{
    let period = line_period_text(alloc, l, zone, t)?;
    let text = headline_with(alloc, l, zone, t, &period)?;
    wrapped(alloc, text.as_slice())
}

/// Appends a text whose first byte, if it is a letter a to z, is made upper case; nothing if the
/// text is empty.
fn push_capital(out: &mut Text, text: &[u8]) -> Result<(), Oom>
    ensures { OnOk result (out.new ≡ out.old ++ capital text.now) }
{
    match text {
        [first, rest @ ..] => {
            out.push(first.to_ascii_uppercase())?;
            out.extend(rest)
        }
        [] => Ok(()),
    }
}

/// Returns the WHEN bullet of a line before it is wrapped, as `* WHEN...Until E.`; empty for CAN,
/// EXP, UPG and ROU. `period` are the words of the line's period, as `until E`.
fn when_bullet_text(alloc: Global, l: &SegLine, period: &Text) -> Result<Text, Oom>
    ensures { IfOk result (λ text. text ≡ when_bullet_text l.now.action period.now) }
{
    if !has_when_bullet(l.action) {
        return Ok(Text::new(alloc));
    }
    let mut text = empty_text(alloc, PERIOD_ROOM)?;
    text.extend(b"* WHEN...")?;
    push_capital(&mut text, period.as_slice())?;
    text.extend(b".")?;
    Ok(text)
}

/// Returns the WHEN bullet of a line in a product of issue minute `t`, as `* WHEN...Until 600 PM
/// EST Wed Jan 3.`, on lines of at most 66 characters with LF between them and none at the end.
/// Times are local times of `zone`. Empty for CAN, EXP, UPG and ROU.
///
/// # Errors
///
/// Out of memory.
///
/// Source: docs/PRODUCTS.md, "Headlines".
#[tactic(auto, using(crate::proofs::Saying::when_is))]
pub fn when_bullet(alloc: Global, l: &SegLine, zone: LocalZone, t: Minute) -> Result<Text, Oom>
    ensures { IfOk result (λ text. text ≡ wrapped (when_of l.now zone t)) }
{
    let period = line_period_text(alloc, l, zone, t)?;
    let text = when_bullet_text(alloc, l, &period)?;
    wrapped(alloc, text.as_slice())
}

/// The headline and the WHEN bullet of a line, wrapped; each may be empty.
#[derive(Debug, Drop)]
pub struct LineTexts {
    pub headline: Text,
    pub when: Text,
}

/// Returns the headline (empty for ROU) and the WHEN bullet (empty for CAN, EXP, UPG and ROU) of a
/// line in a product of issue minute `t`, both on lines of at most 66 characters with LF between
/// them and none at the end. Times are local times of `zone`. The desk must issue the line's
/// hazard.
///
/// # Errors
///
/// Out of memory.
#[tactic(auto, using(crate::proofs::Saying::when_is))]
pub fn line_texts(alloc: Global, l: &SegLine, zone: LocalZone, t: Minute) -> Result<LineTexts, Oom>
    requires named { IsSome (name_of l.now.event.hazard) }
    ensures headline { IfOk result (λ texts. texts.headline ≡ wrapped (headline_of l.now zone t)) }
    ensures when { IfOk result (λ texts. texts.when ≡ wrapped (when_of l.now zone t)) }
{
    let period = line_period_text(alloc, l, zone, t)?;
    let bare_headline = headline_with(alloc, l, zone, t, &period)?;
    let bare_when = when_bullet_text(alloc, l, &period)?;
    let headline = wrapped(alloc, bare_headline.as_slice())?;
    let when = wrapped(alloc, bare_when.as_slice())?;
    Ok(LineTexts { headline, when })
}
