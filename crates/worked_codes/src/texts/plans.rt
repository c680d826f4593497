//! Plans of one segment with one line, and the test that a product text can be written of them.
ghost use Rattle.std.specs.Prelude.{◌≡◌, IsTrue, IsSome, IfOk, false, is_some};
ghost use Rattle.std.specs.List.{All, list_all};
ghost use Rattle.std.specs.List.Sorted.{IsStrictlySortedBy};
ghost use Rattle.std.specs.Map.{keys_of};
ghost use Rattle.hazard_types.specs.Characters.{is_printable};
ghost use Rattle.hazard_types.specs.Places.{by_place};
ghost use Rattle.hazard_types.specs.declared.codes.Action.TheVariants as action;
ghost use Rattle.desk_settings.specs.Looking.{name_for_zone};
ghost use Rattle.headline_text.specs.Headlines.{is_minute};
ghost use Rattle.product_frame.specs.LineRules.{HasLocation};
ghost use Rattle.product_template.specs.Bodies.{is_training};
ghost use Rattle.product_template.specs.Conditions.{CanBeWritten, IsLetter};
ghost use Rattle.worked_codes.specs.Plans.{plan_of, Fits};

use desk_settings::Settings;
use hazard_types::desk_hazards::facts;
use hazard_types::{
    Action, Category, Class, End, Flood, List, Minute, Oom, SegLine, Segment, Zone, is_location,
    is_printable,
};
use office_types::{EventTexts, Plan, Texts};
use std::alloc::Global;

/// Whether the site of the H-VTEC values is a location's code; true if there are no such values.
fn has_location(flood: &Option<Flood>) -> bool
    ensures { IsTrue result → HasLocation flood.now }
{
    match flood {
        Some(flood) => is_location(&flood.site),
        None => true,
    }
}

/// Whether an EXP line has a minute as its end; true for any other action.
fn has_expiry(line: &SegLine) -> bool
    ensures { IsTrue result → line.now.action ≡ action.Exp → IsTrue (is_minute line.now.end) }
{
    match line.end {
        End::At(_end) => true,
        End::Ufn => !matches!(line.action, Action::Exp),
    }
}

/// Whether a product text can have the line: the desk issues the hazard, the site of H-VTEC values
/// is a location's code, an EXP line has a minute as its end, and the event tracking number has at
/// most four digits.
fn is_writable_line(line: &SegLine) -> bool
    ensures { IsTrue result → CanBeWritten line.now }
{
    let known = facts(line.event.hazard).is_some();
    let placed = has_location(&line.flood);
    let ending = has_expiry(line);
    known && placed && ending && line.event.etn <= 9999
}

/// Whether the settings have a name for a zone.
fn has_name(settings: &Settings, zone: &Zone) -> bool
    requires { IsStrictlySortedBy by_place (keys_of settings.now.zones) }
    ensures { result ≡ is_some (name_for_zone settings.now.zones zone.now) }
{
    settings.zone_name(zone).is_some()
}

/// Whether the settings have a name for each zone.
fn have_names(settings: &Settings, zones: &[Zone]) -> bool
    requires { IsStrictlySortedBy by_place (keys_of settings.now.zones) }
    ensures { result ≡ list_all (λ z. is_some (name_for_zone settings.now.zones z)) zones.now }
{
    for zone in zones {
        if !has_name(settings, zone) {
            return false;
        }
    }
    true
}

/// Whether the settings have a name for each zone; true in class T, whose texts have no names of
/// zones.
#[tactic(auto, using(crate::proofs::Fitting::all_some))]
fn are_named(settings: &Settings, class: Class, zones: &[Zone]) -> bool
    requires { IsStrictlySortedBy by_place (keys_of settings.now.zones) }
    ensures { IsTrue result → is_training class ≡ false →
        All (λ z. IsSome (name_for_zone settings.now.zones z)) zones.now }
{
    match class {
        Class::T => true,
        Class::O | Class::E | Class::X => have_names(settings, zones),
    }
}

/// Whether each byte is a printable ASCII character, from the space to `~`.
fn are_printable(text: &[u8]) -> bool
    ensures { result ≡ list_all is_printable text.now }
{
    text.iter().all(|byte| is_printable(*byte))
}

/// Whether each byte of the four texts is a printable ASCII character, from the space to `~`.
fn print(texts: &Texts) -> bool
    ensures what { IsTrue result → IsTrue (list_all is_printable texts.now.what) }
    ensures area { IsTrue result → IsTrue (list_all is_printable texts.now.area) }
    ensures impacts { IsTrue result → IsTrue (list_all is_printable texts.now.impacts) }
    ensures details { IsTrue result → IsTrue (list_all is_printable texts.now.details) }
{
    let what = are_printable(texts.what.as_slice());
    let area = are_printable(texts.area.as_slice());
    let impacts = are_printable(texts.impacts.as_slice());
    let details = are_printable(texts.details.as_slice());
    what && area && impacts && details
}

/// Whether the letter of a correction is A-Z; true for `None`.
fn is_letter(letter: &Option<u8>) -> bool
    ensures { IsTrue result → IsLetter letter.now }
{
    match letter {
        Some(letter) => letter.is_ascii_uppercase(),
        None => true,
    }
}

/// Whether a product text in this class can be written of these values. The desk must issue the
/// hazard of the line, the settings must name each zone, unless the class is T, the texts must be
/// printable ASCII, the letter of a correction A to Z, if there is one, and the product's minute
/// `t` at most 52,000,000. Of the line, H-VTEC values need a location's code, EXP needs a minute as
/// its end, and the event tracking number has at most four digits.
pub fn fits(
    settings: &Settings,
    class: Class,
    letter: &Option<u8>,
    zones: &[Zone],
    line: &SegLine,
    texts: &Texts,
    t: Minute,
) -> bool
    requires { IsStrictlySortedBy by_place (keys_of settings.now.zones) }
    ensures { IsTrue result → Fits settings.now class letter.now zones.now line.now texts.now t }
{
    let said = is_writable_line(line);
    let named = are_named(settings, class, zones);
    let printable = print(texts);
    let capital = is_letter(letter);
    said && named && printable && capital && t.get() <= 52_000_000
}

/// Returns the plan of a product of one segment, which has these zones and this line, and of the
/// texts on the event of the line. It opens no event, and its own `lines` are empty. `bbb` is the
/// letter of a correction, `None` for no correction.
///
/// # Errors
///
/// Out of memory.
pub fn plan_of(
    alloc: Global,
    category: Category,
    bbb: Option<u8>,
    zones: List<Zone>,
    line: &SegLine,
    texts: Texts,
) -> Result<Plan, Oom>
    ensures { IfOk result (λ plan. plan ≡ plan_of category bbb zones line.now texts) }
{
    let mut lines = List::new(alloc);
    lines.extend(&[*line])?;
    let mut segments = List::new(alloc);
    segments.push(Segment { zones, lines })?;
    let mut all_texts = List::new(alloc);
    all_texts.push(EventTexts {
        event: line.event,
        texts,
    })?;
    Ok(Plan {
        category,
        bbb,
        lines: List::new(alloc),
        segments,
        opened: List::new(alloc),
        texts: all_texts,
    })
}
