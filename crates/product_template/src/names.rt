//! The names of a segment's zones, and of products.
ghost use Rattle.std.specs.Prelude.{◌≡◌, ◌++◌, [], unwrap_or, IfOk, IsSome, false};
ghost use Rattle.std.specs.List.{All};
ghost use Rattle.std.specs.List.Sorted.{IsStrictlySortedBy};
ghost use Rattle.std.specs.Map.{keys_of};
ghost use Rattle.hazard_types.specs.Places.{by_place};
ghost use Rattle.desk_settings.specs.Looking.{name_for_zone};
ghost use Rattle.headline_text.specs.NameLines.{name_lines};
ghost use Rattle.product_template.specs.Bodies.{is_training, zone_names, names_text};
ghost use Rattle.product_template.specs.Text.{product_name, corrected};

use desk_settings::Settings;
use hazard_types::{Category, Class, Oom, Text, Zone};
use headline_text::name_lines;
use std::alloc::Global;

/// Returns the name of a zone in the settings, which must have one.
fn zone_name<'a>(settings: &'a Settings, zone: &Zone) -> &'a [u8]
    requires order { IsStrictlySortedBy by_place (keys_of settings.now.zones) }
    requires named { IsSome (name_for_zone settings.now.zones zone.now) }
    ensures { result.now ≡ unwrap_or (name_for_zone settings.now.zones zone.now) [] }
{
    match settings.zone_name(zone) {
        Some(name) => name.as_slice(),
        None => unreachable!(),
    }
}

/// Returns the names of zones, in order, each with a hyphen after it, on lines with LF between them
/// and none at the end. A line has at most 66 characters, unless one name with its hyphen is
/// longer. The settings must have a name for each zone.
fn zone_lines(alloc: Global, settings: &Settings, zones: &[Zone]) -> Result<Text, Oom>
    requires order { IsStrictlySortedBy by_place (keys_of settings.now.zones) }
    requires named { All (λ z. IsSome (name_for_zone settings.now.zones z)) zones.now }
    ensures { IfOk result (λ text. text ≡ name_lines (zone_names settings.now.zones zones.now)) }
{
    let mut names = Vec::new(alloc);
    for zone in zones {
        names.push(zone_name(settings, zone))?;
    }
    name_lines(alloc, names.as_slice())
}

/// Returns the names of a segment's zones, in order, each with a hyphen after it, on lines with LF
/// between them and none at the end. Empty for class `T`; for other classes the settings must have
/// a name for each zone.
///
/// # Errors
///
/// Out of memory.
///
/// Source: docs/DEFINITIONS.md, "Product texts"; docs/TRAINING.md.
pub fn names_of(
    alloc: Global,
    settings: &Settings,
    class: Class,
    zones: &[Zone],
) -> Result<Text, Oom>
    requires order { IsStrictlySortedBy by_place (keys_of settings.now.zones) }
    requires named { is_training class ≡ false
        → All (λ z. IsSome (name_for_zone settings.now.zones z)) zones.now }
    ensures { IfOk result (λ text. text ≡ names_text settings.now class zones.now) }
{
    match class {
        Class::T => Ok(Text::new(alloc)),
        Class::O | Class::E | Class::X => zone_lines(alloc, settings, zones),
    }
}

/// Returns the name of the products of a category, as `URGENT - WINTER WEATHER MESSAGE`.
///
/// Source: docs/HAZARDS.md, "Categories".
fn product_name(category: Category) -> &'static [u8]
    ensures { result.now ≡ product_name category }
{
    match category {
        Category::Wsw => b"URGENT - WINTER WEATHER MESSAGE",
        Category::Npw => b"URGENT - WEATHER MESSAGE",
        Category::Rfw => b"URGENT - FIRE WEATHER MESSAGE",
        Category::Cfw => b"COASTAL HAZARD MESSAGE",
        Category::Mww => b"URGENT - MARINE WEATHER MESSAGE",
        Category::Ffa => b"FLOOD WATCH",
        Category::Flw => b"FLOOD WARNING",
        Category::Fls => b"FLOOD STATEMENT",
    }
}

/// Returns the name of the products of a category, as `FLOOD WATCH`, followed by `...CORRECTED` if
/// there is a `letter`. A letter stands for a correction: it is the last of the BBB group in its
/// heading.
///
/// # Errors
///
/// Out of memory.
pub fn title_of(alloc: Global, category: Category, letter: &Option<u8>) -> Result<Text, Oom>
    ensures { IfOk result (λ text. text ≡ product_name category ++ corrected letter.now) }
{
    let mut title = Text::from_slice(alloc, product_name(category))?;
    if letter.is_some() {
        title.extend(b"...CORRECTED")?;
    }
    Ok(title)
}
