//! The lines of texts and settings, by their first words.
use crate::codes::answers::bytes_of;
use crate::texts::lines::{Said, read_line};
use crate::texts::products::product_answer;
use crate::texts::settings::{
    desk_answer, filled, heading_answer, settings_answer, training_answer, with_zones, zone_answer,
};
use hazard_types::desk_hazards::name_of;
use hazard_types::{Action, End, Oom, Text};
use headline_text::{headline, name_lines, when_bullet, wrapped};
use std::alloc::Global;
use worked_lines::{Work, text_of};

/// What is printed for a line that the script cannot read.
const UNREAD: &str = "unread";

/// Returns what comes before the first blank of a line, and what comes after it. Without a blank it
/// is the whole line and an empty text.
pub fn parted(line: &str) -> (&str, &str) {
    match line.split_once(' ') {
        Some((front, rest)) => (front, rest),
        None => (line, ""),
    }
}

/// Returns the headline of the segment's line in `said`, in a product of its minute, with local
/// times of its zone. It is `None` if the desk does not issue the line's hazard, or if the line is
/// an EXP line until further notice.
fn headline_answer(alloc: Global, said: &Said) -> Result<Option<Text>, Oom> {
    let hazard = said.line.event.hazard;
    if name_of(hazard).is_none() {
        return Ok(None);
    }
    if said.line.action == Action::Exp && said.line.end == End::Ufn {
        return Ok(None);
    }
    let text = headline(alloc, &said.line, said.zone, said.t)?;
    Ok(Some(text))
}

/// Returns the names of zones in `rest`, which has commas between them, as a product prints them:
/// each with a hyphen after it, on lines of at most 66 characters, unless one name is longer.
fn names_answer(alloc: Global, rest: &str) -> Result<Text, Oom> {
    let mut names = Vec::new(alloc);
    for name in rest.split(',') {
        names.push(name.as_bytes())?;
    }
    name_lines(alloc, names.as_slice())
}

/// Appends what to print for a command with the words `rest`: the text wrapped for `wrap`, the
/// lines of zone names for `names`, the headline of a segment's line for `headline`, its WHEN
/// bullet for `when`. It appends `unread` for any other command, or if the words can't be read or
/// have no headline.
fn push_text(out: &mut String, alloc: Global, command: &str, rest: &str) -> Result<(), Oom> {
    let text = match command {
        "wrap" => Some(wrapped(alloc, rest.as_bytes())?),
        "names" => Some(names_answer(alloc, rest)?),
        "headline" => match read_line(rest) {
            Some(said) => headline_answer(alloc, &said)?,
            None => None,
        },
        "when" => match read_line(rest) {
            Some(said) => Some(when_bullet(alloc, &said.line, said.zone, said.t)?),
            None => None,
        },
        _ => None,
    };
    match text {
        Some(text) => out.push_str(text_of(text.as_slice()))?,
        None => out.push_str(UNREAD)?,
    }
    Ok(())
}

/// Appends what to print for the command `settings`, `filled`, `zones`, `zone`, `desk`, `heading`,
/// `training` or `product` with the words `rest`, and returns `true`. For any other command it
/// appends nothing and returns `false`.
fn push_settings(out: &mut String, alloc: Global, command: &str, rest: &str) -> Result<bool, Oom> {
    let (word, more) = parted(rest);
    match command {
        "settings" => settings_answer(out, alloc, bytes_of(alloc, rest)?.as_slice())?,
        "filled" => settings_answer(out, alloc, filled(alloc, word, more)?.as_slice())?,
        "zones" => settings_answer(out, alloc, with_zones(alloc, word, more)?.as_slice())?,
        "zone" => zone_answer(out, alloc, word, bytes_of(alloc, more)?.as_slice())?,
        "desk" => desk_answer(out, alloc, word, bytes_of(alloc, more)?.as_slice())?,
        "heading" => heading_answer(out, alloc, word, bytes_of(alloc, more)?.as_slice())?,
        "training" => training_answer(out, alloc, word)?,
        "product" => product_answer(out, alloc, rest)?,
        _ => return Ok(false),
    }
    Ok(true)
}

/// The script of texts, which keeps nothing from line to line.
#[derive(Drop)]
pub struct Texts;

impl Work for Texts {
    /// Returns what to print for a line, whose first word is its command, with an LF; `unread` for
    /// a line that can't be read.
    fn work(&mut self, alloc: Global, line: &str) -> Result<String, Oom> {
        let mut out = String::new(alloc);
        let (command, rest) = parted(line);
        if !push_settings(&mut out, alloc, command, rest)? {
            push_text(&mut out, alloc, command, rest)?;
        }
        out.push('\n')?;
        Ok(out)
    }
}
