//! Product texts of a script.
ghost use Rattle.std.specs.Prelude.{◌<◌, length, IfOk, IfSome};
ghost use Rattle.std.specs.List.Sorted.{IsStrictlySortedBy};
ghost use Rattle.hazard_types.specs.Places.{by_place};
ghost use Rattle.desk_settings.specs.AreSettings.{HasForms};
ghost use Rattle.product_template.specs.Conditions.{CanBeText};

use crate::codes::answers::bytes_of;
use crate::texts::answers::parted;
use crate::texts::lines::{Said, read_line};
use crate::texts::plans::{fits, plan_of};
use desk_settings::{Settings, read_settings, training_settings};
use hazard_types::{
    Category, Class, List, Minute, Oom, Or, Text, Zone, categories, classes, find, is_office,
};
use hvtec_string::read_hvtec;
use office_types::{Edition, Plan, Refusal, Texts};
use product_template::product_text;
use std::alloc::Global;
use ugc_codes::read_ugc;
use worked_lines::text_of;

/// What a line asks for.
#[derive(Clone, Copy, Debug)]
struct Asked {
    /// Whether the text is printed, and not its length.
    whole: bool,
    /// How often the text is made before it is printed.
    before: usize,
    edition: Edition,
    class: Class,
    category: Category,
    /// The letter of a correction.
    letter: Option<u8>,
    /// The segment's line.
    said: Said,
}

/// Returns the edition of product texts that `One` or `Two` names, or `None` for another word.
fn edition_of(word: &str) -> Option<Edition> {
    match word {
        "One" => Some(Edition::One),
        "Two" => Some(Edition::Two),
        _ => None,
    }
}

/// Returns what the words `FORM EDITION CLASS CATEGORY LETTER H-VTEC ACTION EVENT BEGIN END ZONE
/// STAMP` ask for, or `None` if they are not such words. FORM is `text`, or anything else for the
/// text's length; a number is how often the text is made before. LETTER is the letter of a
/// correction, or `-` for no correction, and an H-VTEC that is no H-VTEC string, as `-`, stands for
/// none.
fn read_asked(words: &str) -> Option<Asked> {
    let (form, rest) = parted(words);
    let (edition, rest) = parted(rest);
    let (class, rest) = parted(rest);
    let (category, rest) = parted(rest);
    let (letter, rest) = parted(rest);
    let (flood, rest) = parted(rest);
    let edition = edition_of(edition)?;
    let class = find(&classes(), class.as_bytes())?;
    let category = find(&categories(), category.as_bytes())?;
    let mut said = read_line(rest)?;
    said.line.flood = read_hvtec(flood.as_bytes());
    Some(Asked {
        whole: form == "text",
        before: form.parse::<usize>().unwrap_or(0),
        edition,
        class,
        category,
        letter: letter.bytes().find(|byte| *byte != b'-'),
        said,
    })
}

/// Returns N and WORDS for a text `N*WORDS`, or 1 and the whole text if it has no `*`. If what
/// stands before the `*` is no number, N is 0.
fn times_of(written: &str) -> (usize, &str) {
    match written.split_once('*') {
        Some((count, words)) => (count.parse::<usize>().unwrap_or(0), words),
        None => (1, written),
    }
}

/// Returns the text that a script writes as `N*WORDS`, WORDS N times, or the whole of `written` if
/// it has no `*`. If what stands before the `*` is no number, the text is empty.
fn repeated(alloc: Global, written: &str) -> Result<Text, Oom> {
    let mut text = Text::new(alloc);
    let (count, words) = times_of(written);
    for _ in 0..count {
        text.extend(words.as_bytes())?;
    }
    Ok(text)
}

/// Appends `TooLong` and the number of bytes for a refusal of a product text that is too long, or
/// `refused` for any other refusal.
fn write_refusal(out: &mut String, alloc: Global, refusal: &Refusal) -> Result<(), Oom> {
    match refusal {
        Refusal::TooLong { bytes } => {
            let said = format!(in alloc; "TooLong {bytes}")?;
            out.push_str(said.as_str())?;
        }
        _ => out.push_str("refused")?,
    }
    Ok(())
}

/// Makes the text of a plan `asked.before` times and drops each, and then appends the text or its
/// length in bytes, as `asked.whole` says, or the refusal. `t` is the product's minute.
fn write_product(
    out: &mut String,
    alloc: Global,
    settings: &Settings,
    asked: &Asked,
    plan: &Plan,
    t: Minute,
) -> Result<(), Oom>
    requires { CanBeText settings.now asked.now.class plan.now t }
{
    for _ in 0..asked.before {
        match product_text(alloc, settings, asked.class, plan, t, asked.edition) {
            Ok(_text) => {}
            Err(Or::No(_refusal)) => {}
            Err(Or::OutOfMemory) => return Err(Oom),
        }
    }
    match product_text(alloc, settings, asked.class, plan, t, asked.edition) {
        Ok(text) => {
            if asked.whole {
                out.push_str(text_of(text.as_slice()))?;
            } else {
                let said = format!(in alloc; "{} bytes", text.len())?;
                out.push_str(said.as_str())?;
            }
        }
        Err(Or::No(refusal)) => write_refusal(out, alloc, &refusal)?,
        Err(Or::OutOfMemory) => return Err(Oom),
    }
    Ok(())
}

/// Appends the product of `asked` with these zones and texts: its text, its length in bytes, or its
/// refusal. It appends `unfit` if no product text can be written of the values. There is at least
/// one zone, and the zones are sorted by state, kind and number, each once.
fn write_fitting(
    out: &mut String,
    alloc: Global,
    settings: &Settings,
    asked: &Asked,
    zones: List<Zone>,
    texts: Texts,
) -> Result<(), Oom>
    requires forms { HasForms settings.now }
    requires some { 0 < length zones }
    requires order { IsStrictlySortedBy by_place zones }
{
    let line = asked.said.line;
    let t = asked.said.t;
    if !fits(
        settings,
        asked.class,
        &asked.letter,
        zones.as_slice(),
        &line,
        &texts,
        t,
    ) {
        out.push_str("unfit")?;
        return Ok(());
    }
    let plan = plan_of(alloc, asked.category, asked.letter, zones, &line, texts)?;
    write_product(out, alloc, settings, asked, &plan, t)
}

/// Appends the product of `asked` with these texts in the zones of the UGC string that `zones`
/// starts with: its text, its length in bytes, its refusal, or `unfit` if no product text can be
/// written of the values. It appends `unread` if `zones` starts with none.
fn write_in_zones(
    out: &mut String,
    alloc: Global,
    settings: &Settings,
    asked: &Asked,
    zones: &str,
    texts: Texts,
) -> Result<(), Oom>
    requires { HasForms settings.now }
{
    match read_ugc(alloc, zones.as_bytes()) {
        Ok(ugc) => write_fitting(out, alloc, settings, asked, ugc.zones, texts),
        Err(Or::No(_fault)) => {
            out.push_str("unread")?;
            Ok(())
        }
        Err(Or::OutOfMemory) => Err(Oom),
    }
}

/// Returns the training settings of an office, or `None` if the text is not an office's code, as
/// `KLWX`.
fn training_of(alloc: Global, office: &str) -> Result<Option<Settings>, Oom>
    ensures { IfOk result (λ found. IfSome found HasForms) }
{
    let [a, b, c, d] = office.as_bytes() else {
        return Ok(None);
    };
    let office = [*a, *b, *c, *d];
    if !is_office(&office) {
        return Ok(None);
    }
    let settings = training_settings(alloc, office)?;
    Ok(Some(settings))
}

/// Returns the settings that a settings' file with these bytes gives, or `None` if it has a fault.
fn settings_of(alloc: Global, text: &[u8]) -> Result<Option<Settings>, Oom>
    ensures { IfOk result (λ found. IfSome found HasForms) }
{
    match read_settings(alloc, text) {
        Ok(settings) => Ok(Some(settings)),
        Err(Or::No(_fault)) => Ok(None),
        Err(Or::OutOfMemory) => Err(Oom),
    }
}

/// Returns the settings that a script's text gives, or `None` if it gives none. For class T
/// `written` is an office's code, whose training settings they are; for the other classes it is a
/// settings' file. In this a backslash before `n` or `r` writes LF or CR, and before any other byte
/// that byte.
fn settings_for(alloc: Global, class: Class, written: &str) -> Result<Option<Settings>, Oom>
    ensures { IfOk result (λ found. IfSome found HasForms) }
{
    match class {
        Class::T => training_of(alloc, written),
        Class::O | Class::E | Class::X => {
            let text = bytes_of(alloc, written)?;
            settings_of(alloc, text.as_slice())
        }
    }
}

/// Appends the product of a line `ASKED|UGC|WHAT|AREA|IMPACTS|DETAILS|SETTINGS`: its text, its
/// length in bytes or its refusal, as the words ASKED say. It appends `unfit` if no product text
/// can be written of the values, and `unread` if ASKED, UGC or SETTINGS can't be read. A text may
/// be written `N*WORDS`, for WORDS N times.
///
/// # Errors
///
/// Out of memory.
pub fn product_answer(out: &mut String, alloc: Global, rest: &str) -> Result<(), Oom> {
    let mut parts = rest.split('|');
    let words = parts.next().unwrap_or("");
    let zones = parts.next().unwrap_or("");
    let texts = Texts {
        what: repeated(alloc, parts.next().unwrap_or(""))?,
        area: repeated(alloc, parts.next().unwrap_or(""))?,
        impacts: repeated(alloc, parts.next().unwrap_or(""))?,
        details: repeated(alloc, parts.next().unwrap_or(""))?,
    };
    let written = parts.next().unwrap_or("");
    let Some(asked) = read_asked(words) else {
        out.push_str("unread")?;
        return Ok(());
    };
    match settings_for(alloc, asked.class, written)? {
        Some(settings) => write_in_zones(out, alloc, &settings, &asked, zones, texts),
        None => {
            out.push_str("unread")?;
            Ok(())
        }
    }
}
