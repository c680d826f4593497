//! The body of a segment: what comes after its codes.
ghost use Rattle.std.specs.Prelude.{◌≡◌, ◌++◌, map, IfOk, IsSome, false};
ghost use Rattle.std.specs.List.{All};
ghost use Rattle.std.specs.List.Sorted.{IsStrictlySortedBy};
ghost use Rattle.std.specs.Map.{keys_of};
ghost use Rattle.hazard_types.specs.Places.{by_place};
ghost use Rattle.desk_settings.specs.Looking.{name_for_zone};
ghost use Rattle.product_template.specs.Bodies.{is_training, closed, paragraph, when_text, lines_text, body_of};
ghost use Rattle.headline_text.specs.Headlines.{headline_of};
ghost use Rattle.headline_text.specs.Wrapping.{wrapped};
ghost use Rattle.product_template.specs.Conditions.{CanBeWritten, CanBeSegment, AreNamed};

use crate::bullets::{texts_on, write_bullets, write_closed};
use crate::names::names_of;
use desk_settings::Settings;
use hazard_types::{Class, List, LocalZone, Minute, Oom, SegLine, Segment, Text};
use headline_text::{LineTexts, headline, line_texts};
use office_types::{Edition, EventTexts};
use product_frame::Body;
use std::alloc::Global;

/// The room in bytes that is reserved for the headline of a line, and as much for its WHEN bullet.
const LINE_ROOM: usize = 128;

/// Returns the headline of a line and its WHEN bullet, both wrapped. In edition One the WHEN bullet
/// is empty. `t` is the product's issue minute, and times are local times of `zone`.
#[tactic(auto, using(crate::proofs::Hazards::named))]
fn said_of(
    alloc: Global,
    edition: Edition,
    zone: LocalZone,
    t: Minute,
    line: &SegLine,
) -> Result<LineTexts, Oom>
    requires { CanBeWritten line.now }
    ensures headline { IfOk result (λ said. said.headline ≡ wrapped (headline_of line.now zone t)) }
    ensures when { IfOk result (λ said. paragraph said.when ≡ when_text edition zone t line.now) }
{
    match edition {
        Edition::One => {
            let headline = headline(alloc, line, zone, t)?;
            let when = Text::new(alloc);
            Ok(LineTexts { headline, when })
        }
        Edition::Two => line_texts(alloc, line, zone, t),
    }
}

/// Returns the headlines, then an empty line if there are any, then the bullets.
fn joined(alloc: Global, headlines: &Text, bullets: &Text) -> Result<Text, Oom>
    ensures { IfOk result (λ text. text ≡ closed headlines.now ++ bullets.now) }
{
    let room = headlines.len().saturating_add(bullets.len());
    let mut text = Text::from_vec(Vec::with_capacity(alloc, room.saturating_add(1))?);
    write_closed(&mut text, headlines.as_slice())?;
    text.extend(bullets.as_slice())?;
    Ok(text)
}

/// Returns the headlines of the lines, an empty line, and then their bullets, both in the order of
/// the lines. `texts` are the forecasters' texts by event, and `t` is the product's issue minute.
/// Times are local times of `zone`, and in edition One there is no WHEN bullet.
fn lines_text(
    alloc: Global,
    edition: Edition,
    zone: LocalZone,
    t: Minute,
    texts: &[EventTexts],
    lines: &[SegLine],
) -> Result<Text, Oom>
    requires { All CanBeWritten lines.now }
    ensures { IfOk result (λ text. text ≡ lines_text edition zone t texts.now lines.now) }
{
    let room = lines.len().saturating_mul(LINE_ROOM);
    let mut headlines = Text::from_vec(Vec::with_capacity(alloc, room)?);
    let mut bullets = Text::from_vec(Vec::with_capacity(alloc, room)?);
    for line in lines {
        let said = said_of(alloc, edition, zone, t, line)?;
        write_closed(&mut headlines, said.headline.as_slice())?;
        write_bullets(
            alloc,
            &mut bullets,
            &said.when,
            texts_on(texts, &line.event),
        )?;
    }
    joined(alloc, &headlines, &bullets)
}

/// Returns the body of a segment: the names of its zones, none in class `T`, the headlines and the
/// bullets. `texts` are the forecasters' texts by event, and `t` is the product's issue minute. In
/// edition One there is no WHEN bullet.
fn body_of(
    alloc: Global,
    settings: &Settings,
    class: Class,
    texts: &[EventTexts],
    t: Minute,
    edition: Edition,
    segment: &Segment,
) -> Result<Body, Oom>
    requires order { IsStrictlySortedBy by_place (keys_of settings.now.zones) }
    requires segment { CanBeSegment segment.now }
    requires named { is_training class ≡ false
        → All (λ z. IsSome (name_for_zone settings.now.zones z)) segment.now.zones }
    ensures { IfOk result
        (λ body. body ≡ body_of settings.now class texts.now t edition segment.now) }
{
    let names = names_of(alloc, settings, class, segment.zones.as_slice())?;
    let text = lines_text(
        alloc,
        edition,
        settings.zone,
        t,
        texts,
        segment.lines.as_slice(),
    )?;
    Ok(Body { names, text })
}

/// Returns the body of each segment, in order: the names of its zones, none in class `T`, the
/// headlines and the bullets. `texts` are the forecasters' texts by event, and `t` is the product's
/// issue minute. In edition One there is no WHEN bullet.
///
/// # Errors
///
/// Out of memory.
///
/// Source: docs/PRODUCTS.md, "Headlines" and "Editions"; docs/DECISIONS.md, "Product texts".
pub fn bodies_of(
    alloc: Global,
    settings: &Settings,
    class: Class,
    texts: &[EventTexts],
    t: Minute,
    edition: Edition,
    segments: &[Segment],
) -> Result<List<Body>, Oom>
    requires order { IsStrictlySortedBy by_place (keys_of settings.now.zones) }
    requires segments { All CanBeSegment segments.now }
    requires named { is_training class ≡ false → AreNamed settings.now.zones segments.now }
    ensures { IfOk result
        (λ bodies. bodies ≡ map (body_of settings.now class texts.now t edition) segments.now) }
{
    let mut bodies = List::new(alloc);
    for segment in segments {
        bodies.push(body_of(alloc, settings, class, texts, t, edition, segment)?)?;
    }
    Ok(bodies)
}
