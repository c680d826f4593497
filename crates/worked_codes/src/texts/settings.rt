//! Settings as a script writes them, and what is printed of them.
use crate::codes::answers::bytes_of;
use desk_settings::{Settings, SettingsFault, read_settings, training_settings};
use hazard_types::{
    Category, Kind, Oom, Or, Text, Zone, categories, find, is_office, parse_zone, zone_text,
};
use office_types::Desk;
use std::alloc::{AllocError, Global};
use worked_lines::text_of;

/// Returns the bytes that `written` stands for, then a comment of `#` and as many `x` as bring them
/// all to `count` bytes; if they are as many or more with the `#`, the comment is `#` alone. In
/// `written` a backslash before `n` or `r` writes LF or CR, and before any other byte that byte.
/// `count` is a decimal number, 0 if it is none.
///
/// # Errors
///
/// Out of memory.
pub fn filled(alloc: Global, count: &str, written: &str) -> Result<Text, Oom> {
    let mut text = bytes_of(alloc, written)?;
    text.push(b'#')?;
    let count = count.parse::<usize>().unwrap_or(0);
    for _ in text.len()..count {
        text.push(b'x')?;
    }
    Ok(text)
}

/// Returns the bytes that `written` stands for, then a table `[zones]` of `count` zones, each with
/// the name `Plain`: AAZ001 to AAZ999, ABZ001 and so on. In `written` a backslash before `n` or `r`
/// writes LF or CR, and before any other byte that byte. `count` is a decimal number, 0 if it is
/// none or above 65,535.
///
/// # Errors
///
/// Out of memory.
pub fn with_zones(alloc: Global, count: &str, written: &str) -> Result<Text, Oom> {
    let mut text = bytes_of(alloc, written)?;
    text.extend(b"[zones]\n")?;
    let count = count.parse::<u16>().unwrap_or(0);
    for i in 0..count {
        let letter = b'A' + (i / 999) as u8;
        if let Some(zone) = Zone::new([b'A', letter], Kind::Z, i % 999 + 1) {
            text.extend(&zone_text(&zone))?;
            text.extend(b" = \"Plain\"\n")?;
        }
    }
    Ok(text)
}

/// Appends the name of a fault, followed by a blank and its key if it has one, as `Missing office`.
fn push_fault(out: &mut String, fault: &SettingsFault) -> Result<(), AllocError> {
    match fault {
        SettingsFault::NotToml => out.push_str("NotToml"),
        SettingsFault::Missing { key } => {
            out.push_str("Missing ")?;
            out.push_str(text_of(key.as_slice()))
        }
        SettingsFault::BadValue { key } => {
            out.push_str("BadValue ")?;
            out.push_str(text_of(key.as_slice()))
        }
        SettingsFault::Twice { key } => {
            out.push_str("Twice ")?;
            out.push_str(text_of(key.as_slice()))
        }
        SettingsFault::TooLong => out.push_str("TooLong"),
    }
}

/// Appends `accepted`, or the first fault of the settings' file with these bytes.
///
/// # Errors
///
/// Out of memory.
pub fn settings_answer(out: &mut String, alloc: Global, text: &[u8]) -> Result<(), Oom> {
    match read_settings(alloc, text) {
        Ok(_settings) => out.push_str("accepted")?,
        Err(Or::No(fault)) => push_fault(out, &fault)?,
        Err(Or::OutOfMemory) => return Err(Oom),
    }
    Ok(())
}

/// Appends the name of the zone `code`, as `MDZ003`, in the settings whose file is `text`, or
/// `none` if they don't name it. It appends `unread` if the code or the settings can't be read.
///
/// # Errors
///
/// Out of memory.
pub fn zone_answer(out: &mut String, alloc: Global, code: &str, text: &[u8]) -> Result<(), Oom> {
    match (parse_zone(code.as_bytes()), read_settings(alloc, text)) {
        (Some(zone), Ok(settings)) => match settings.zone_name(&zone) {
            Some(name) => out.push_str(text_of(name.as_slice()))?,
            None => out.push_str("none")?,
        },
        _ => out.push_str("unread")?,
    }
    Ok(())
}

/// Appends `yes` if the settings whose file is `text` have the desk `name`, else `no`. It appends
/// `unread` if the name is not a desk's or the settings can't be read.
///
/// # Errors
///
/// Out of memory.
pub fn desk_answer(out: &mut String, alloc: Global, name: &str, text: &[u8]) -> Result<(), Oom> {
    match (Desk::new(name.as_bytes()), read_settings(alloc, text)) {
        (Some(desk), Ok(settings)) => {
            if settings.has_desk(&desk) {
                out.push_str("yes")?;
            } else {
                out.push_str("no")?;
            }
        }
        _ => out.push_str("unread")?,
    }
    Ok(())
}

/// Appends the `TTAAii` of the headings of a category's products, as `WWUS41`, in the settings
/// whose file is `text`. It appends `unread` if `code` is no category's, as `WSW`, or the settings
/// can't be read.
///
/// # Errors
///
/// Out of memory.
pub fn heading_answer(out: &mut String, alloc: Global, code: &str, text: &[u8]) -> Result<(), Oom> {
    match (
        find(&categories(), code.as_bytes()),
        read_settings(alloc, text),
    ) {
        (Some(category), Ok(settings)) => out.push_str(text_of(&settings.heading_for(category)))?,
        _ => out.push_str("unread")?,
    }
    Ok(())
}

/// Appends an office's code.
fn push_office(out: &mut String, office: [u8; 4]) -> Result<(), AllocError> {
    out.push_str(text_of(&office))
}

/// Appends a blank and a site's code.
fn push_site(out: &mut String, site: [u8; 3]) -> Result<(), AllocError> {
    out.push(' ')?;
    out.push_str(text_of(&site))
}

/// Appends the values of training settings, with blanks between them: office, site, desks, the
/// heading of WSW, the number of zones with a name, and the office line.
fn push_training(out: &mut String, alloc: Global, settings: &Settings) -> Result<(), Oom> {
    push_office(out, settings.office)?;
    push_site(out, settings.site)?;
    for desk in settings.desks.as_slice() {
        out.push(' ')?;
        out.push_str(text_of(desk.bytes()))?;
    }
    out.push(' ')?;
    out.push_str(text_of(&settings.heading_for(Category::Wsw)))?;
    let zones = format!(in alloc; " {}", settings.zones.len())?;
    out.push_str(zones.as_str())?;
    out.push(' ')?;
    out.push_str(text_of(settings.office_line.as_slice()))?;
    Ok(())
}

/// Appends the values of the training settings of `office`, with blanks between them: office, site,
/// desks, the heading of WSW, the number of zones with a name, and the office line. It appends
/// `unread` if `office` is not an office's code, as `KLWX`.
///
/// # Errors
///
/// Out of memory.
pub fn training_answer(out: &mut String, alloc: Global, office: &str) -> Result<(), Oom> {
    let [a, b, c, d] = office.as_bytes() else {
        out.push_str("unread")?;
        return Ok(());
    };
    let office = [*a, *b, *c, *d];
    if !is_office(&office) {
        out.push_str("unread")?;
        return Ok(());
    }
    let settings = training_settings(alloc, office)?;
    push_training(out, alloc, &settings)
}
