//! The hazards that the desk issues: their codes, names and facts.
ghost use Rattle.std.specs.Prelude.{◌≡◌, ◌≢◌, map, option_copied, IfSome, IfNone, Contains};
ghost use Rattle.hazard_types.specs.Codes.{IsTable};
ghost use Rattle.hazard_types.specs.Tables.{row};
ghost use Rattle.hazard_types.specs.Hazards.{DeskHazard, desk_hazards, name_rows, hazard_rows, hazard_code, facts_of, name_of};
ghost use Rattle.hazard_types.specs.Known.{parse_hazard, known_for};

use crate::codes::{Category, Coded, Family};
use crate::facts::Facts;
use crate::hazard::{Hazard, Phen, Sig};
use crate::names::hazard_text;
use crate::zone::Kind;

/// An array of what `$part` makes of each hazard: its phenomenon, its significance and its name. A
/// zonal or areal hazard also has its category, its family and its rank there; a river flood the
/// category that opens it and the one that follows it.
macro_rules! each_hazard {
    ($part:ident) => {
        [
            $part!(b"WS", W, "Winter Storm Warning", zonal Wsw, Winter, 3),
            $part!(b"BZ", W, "Blizzard Warning", zonal Wsw, Winter, 3),
            $part!(b"IS", W, "Ice Storm Warning", zonal Wsw, Winter, 3),
            $part!(b"LE", W, "Lake Effect Snow Warning", zonal Wsw, Winter, 3),
            $part!(b"WW", Y, "Winter Weather Advisory", zonal Wsw, Winter, 2),
            $part!(b"WS", A, "Winter Storm Watch", zonal Wsw, Winter, 1),
            $part!(b"HW", W, "High Wind Warning", zonal Npw, Wind, 3),
            $part!(b"WI", Y, "Wind Advisory", zonal Npw, Wind, 2),
            $part!(b"HW", A, "High Wind Watch", zonal Npw, Wind, 1),
            $part!(b"FZ", W, "Freeze Warning", zonal Npw, Frost, 3),
            $part!(b"FR", Y, "Frost Advisory", zonal Npw, Frost, 2),
            $part!(b"FZ", A, "Freeze Watch", zonal Npw, Frost, 1),
            $part!(b"FG", Y, "Dense Fog Advisory", zonal Npw, Fog, 1),
            $part!(b"FW", W, "Red Flag Warning", zonal Rfw, Fire, 3),
            $part!(b"FW", A, "Fire Weather Watch", zonal Rfw, Fire, 1),
            $part!(b"CF", W, "Coastal Flood Warning", zonal Cfw, Coast, 3),
            $part!(b"CF", Y, "Coastal Flood Advisory", zonal Cfw, Coast, 2),
            $part!(b"CF", A, "Coastal Flood Watch", zonal Cfw, Coast, 1),
            $part!(b"SU", W, "High Surf Warning", zonal Cfw, Surf, 3),
            $part!(b"SU", Y, "High Surf Advisory", zonal Cfw, Surf, 2),
            $part!(b"SR", W, "Storm Warning", zonal Mww, Marine, 4),
            $part!(b"GL", W, "Gale Warning", zonal Mww, Marine, 3),
            $part!(b"SC", Y, "Small Craft Advisory", zonal Mww, Marine, 2),
            $part!(b"SR", A, "Storm Watch", zonal Mww, Marine, 1),
            $part!(b"GL", A, "Gale Watch", zonal Mww, Marine, 1),
            $part!(b"FA", A, "Flood Watch", areal Ffa, Areal, 1),
            $part!(b"FL", W, "Flood Warning", river Flw, Fls),
            $part!(b"FL", Y, "Flood Advisory", river Fls, Fls),
        ]
    };
}

/// The hazard with two capital letters and a significance.
macro_rules! hazard {
    ($letters:literal, $sig:ident) => {
        Hazard {
            phen: Phen::of(*$letters),
            sig: Sig::$sig,
        }
    };
}

/// Returns a hazard's row in the table of the desk's hazards: its code, as `WS.W`, and the hazard.
fn code(hazard: Hazard) -> Coded<Hazard>
    ensures { result ≡ row (hazard_code hazard) hazard }
{
    Coded {
        code: hazard_text(&hazard),
        value: hazard,
    }
}

/// Returns the table of the 28 hazards that the desk issues: the code of each, as `WS.W`, and the
/// hazard.
#[tactic(auto, unfolding(crate::specs::Hazards::hazard_rows, crate::specs::Hazards::desk_hazards))]
fn all_codes() -> [Coded<Hazard>; 28]
    ensures { result ≡ hazard_rows }
{
    macro_rules! coded {
        ($letters:literal, $sig:ident, $($rest:tt)*) => {
            code(hazard!($letters, $sig))
        };
    }
    each_hazard!(coded)
}

/// Returns the table of the 28 hazards that the desk issues: each hazard with its code, as `WS.W`.
///
/// Source: docs/HAZARDS.md.
#[tactic(auto, using(crate::proofs::Tables::hazard_table))]
pub fn hazard_codes() -> [Coded<Hazard>; 28]
    ensures rows { result ≡ hazard_rows }
    ensures table { IsTable result }
{
    all_codes()
}

/// A value for the hazard with two letters and a significance.
struct Known<V> {
    letters: [u8; 2],
    sig: Sig,
    value: V,
}

macro_rules! facts_of_row {
    ($opens:ident, $follows:ident, $kind:ident, $family:expr, $ufn:literal, $flood:literal) => {
        Facts {
            opens: Category::$opens,
            follows: Category::$follows,
            kind: Kind::$kind,
            family: $family,
            ufn: $ufn,
            flood: $flood,
        }
    };
}

macro_rules! known_facts {
    (
        $letters:literal, $sig:ident, $name:literal,
        zonal $category:ident, $family:ident, $rank:literal
    ) => {
        Known {
            letters: *$letters,
            sig: Sig::$sig,
            value: facts_of_row!(
                $category, $category, Z, Some((Family::$family, $rank)), false, false
            ),
        }
    };
    (
        $letters:literal, $sig:ident, $name:literal,
        areal $category:ident, $family:ident, $rank:literal
    ) => {
        Known {
            letters: *$letters,
            sig: Sig::$sig,
            value: facts_of_row!(
                $category, $category, Z, Some((Family::$family, $rank)), false, true
            ),
        }
    };
    ($letters:literal, $sig:ident, $name:literal, river $opens:ident, $follows:ident) => {
        Known {
            letters: *$letters,
            sig: Sig::$sig,
            value: facts_of_row!($opens, $follows, C, None, true, true),
        }
    };
}

/// The facts of each hazard.
static FACTS: [Known<Facts>; 28] = each_hazard!(known_facts);

macro_rules! known_name {
    ($letters:literal, $sig:ident, $name:literal, $($rest:tt)*) => {
        Known {
            letters: *$letters,
            sig: Sig::$sig,
            value: $name,
        }
    };
}

/// The name of each hazard.
static NAMES: [Known<&'static str>; 28] = each_hazard!(known_name);

/// Returns the table of the 28 hazards that the desk issues, each with its name in headlines, as
/// `Winter Storm Warning`.
#[tactic(auto, unfolding(crate::specs::Hazards::name_rows, crate::specs::Hazards::desk_hazards))]
fn all_names() -> &'static [Known<&'static str>; 28]
    ensures { map (λ k. (parse_hazard k, k.value.now)) result.now ≡ name_rows }
{
    &NAMES
}

/// Returns the value of the first row with the hazard, or `None` if no row has it.
fn value_of<V: Copy>(rows: &[Known<V>], h: Hazard) -> Option<V>
    ensures { result ≡ known_for rows.now h }
{
    let letters = h.phen.letters();
    for row in rows {
        if row.letters == letters && row.sig == h.sig {
            return Some(row.value);
        }
    }
    None
}

/// Returns what the desk knows of a hazard, or `None` if the desk does not issue it. These facts
/// are the categories of its products, the kind of its zones, its family and its rank in that, and
/// whether its events may last until further notice and need H-VTEC values.
///
/// Source: docs/HAZARDS.md.
pub fn facts(h: Hazard) -> Option<Facts>
    ensures value { result ≡ facts_of h }
    ensures stands { IfSome result (λ f. (d : DeskHazard) ×
        Contains desk_hazards d × (d.hazard ≡ h) × (d.facts ≡ f)) }
    ensures none { IfNone result ((d : DeskHazard) → Contains desk_hazards d → d.hazard ≢ h) }
{
    value_of(&FACTS, h)
}

/// Returns a hazard's name in headlines, as `Winter Storm Warning`, or `None` if the desk does not
/// issue it.
///
/// Source: docs/HAZARDS.md.
pub fn name_of(h: Hazard) -> Option<&'static str>
    ensures value { option_copied result ≡ name_of h }
    ensures stands { IfSome result (λ name. (d : DeskHazard) ×
        Contains desk_hazards d × (d.hazard ≡ h) × (d.name ≡ name.now)) }
    ensures none { IfNone result ((d : DeskHazard) → Contains desk_hazards d → d.hazard ≢ h) }
{
    value_of(all_names(), h)
}
