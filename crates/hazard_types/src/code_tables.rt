//! The tables of codes: each row has a code and the value that it is for.
ghost use Rattle.std.specs.Prelude.{◌≡◌};
ghost use Rattle.hazard_types.specs.Codes.{IsTable};
ghost use Rattle.hazard_types.specs.Tables.{class_rows, action_rows, sig_rows, severity_rows, cause_rows, status_rows, category_rows};

use crate::codes::{Action, Category, Cause, Class, Coded, Severity, Status};
use crate::hazard::Sig;

/// An array of rows. Each code is written with blanks up to four bytes.
macro_rules! rows {
    ($($code:literal => $value:expr),+ $(,)?) => {
        [$(Coded { code: *$code, value: $value }),+]
    };
}

/// Returns the table of product classes: each class with its letter, which is padded with blanks to
/// four bytes.
///
/// Source: NWS Instruction 10-1703, P-VTEC product class.
#[tactic(auto, using(crate::proofs::Tables::class_table), unfolding(crate::specs::Tables::class_rows))]
pub fn classes() -> [Coded<Class>; 4]
    ensures rows { result ≡ class_rows }
    ensures table { IsTable result }
{
    rows![b"O   " => Class::O, b"T   " => Class::T, b"E   " => Class::E, b"X   " => Class::X]
}

/// Returns the table of actions: each action with its three letters, as `NEW`, which are padded
/// with a blank to four bytes.
///
/// Source: NWS Instruction 10-1703, P-VTEC action codes.
#[tactic(auto, using(crate::proofs::Tables::action_table), unfolding(crate::specs::Tables::action_rows))]
pub fn actions() -> [Coded<Action>; 10]
    ensures rows { result ≡ action_rows }
    ensures table { IsTable result }
{
    rows![
        b"NEW " => Action::New,
        b"CON " => Action::Con,
        b"EXA " => Action::Exa,
        b"EXT " => Action::Ext,
        b"EXB " => Action::Exb,
        b"UPG " => Action::Upg,
        b"CAN " => Action::Can,
        b"EXP " => Action::Exp,
        b"COR " => Action::Cor,
        b"ROU " => Action::Rou,
    ]
}

/// Returns the table of significances: each significance with its letter, which is padded with
/// blanks to four bytes.
///
/// Source: NWS Instruction 10-1703, P-VTEC significance codes.
#[tactic(auto, using(crate::proofs::Tables::sig_table), unfolding(crate::specs::Tables::sig_rows))]
pub fn significances() -> [Coded<Sig>; 7]
    ensures rows { result ≡ sig_rows }
    ensures table { IsTable result }
{
    rows![
        b"W   " => Sig::W,
        b"A   " => Sig::A,
        b"Y   " => Sig::Y,
        b"S   " => Sig::S,
        b"F   " => Sig::F,
        b"O   " => Sig::O,
        b"N   " => Sig::N,
    ]
}

/// Returns the table of flood severities: each severity with its character, as `N` or `0`, which is
/// padded with blanks to four bytes.
///
/// Source: NWS Instruction 10-1703, H-VTEC flood severity.
#[tactic(auto, using(crate::proofs::Tables::severity_table), unfolding(crate::specs::Tables::severity_rows))]
pub fn severities() -> [Coded<Severity>; 6]
    ensures rows { result ≡ severity_rows }
    ensures table { IsTable result }
{
    rows![
        b"N   " => Severity::N,
        b"0   " => Severity::Zero,
        b"1   " => Severity::One,
        b"2   " => Severity::Two,
        b"3   " => Severity::Three,
        b"U   " => Severity::U,
    ]
}

/// Returns the table of the flood causes that a request may name: each cause with its two letters,
/// as `ER`, which are padded with blanks to four bytes.
///
/// Source: NWS Instruction 10-1703, H-VTEC immediate cause; docs/HAZARDS.md, "Flood values".
#[tactic(auto, using(crate::proofs::Tables::cause_table), unfolding(crate::specs::Tables::cause_rows))]
pub fn written_causes() -> [Coded<Cause>; 7]
    ensures rows { result ≡ cause_rows }
    ensures table { IsTable result }
{
    rows![
        b"ER  " => Cause::of(*b"ER"),
        b"SM  " => Cause::of(*b"SM"),
        b"RS  " => Cause::of(*b"RS"),
        b"DM  " => Cause::of(*b"DM"),
        b"IJ  " => Cause::of(*b"IJ"),
        b"MC  " => Cause::of(*b"MC"),
        b"UU  " => Cause::of(*b"UU"),
    ]
}

/// Returns the table of flood record statuses: each status with its two letters, as `NO`, which are
/// padded with blanks to four bytes.
///
/// Source: NWS Instruction 10-1703, H-VTEC flood record status.
#[tactic(auto, using(crate::proofs::Tables::status_table), unfolding(crate::specs::Tables::status_rows))]
pub fn statuses() -> [Coded<Status>; 4]
    ensures rows { result ≡ status_rows }
    ensures table { IsTable result }
{
    rows![
        b"NO  " => Status::No,
        b"NR  " => Status::Nr,
        b"UU  " => Status::Uu,
        b"OO  " => Status::Oo
    ]
}

/// Returns the table of product categories: each category with its three letters, as `WSW`, which
/// are padded with a blank to four bytes.
///
/// Source: docs/HAZARDS.md, "Categories".
#[tactic(auto, using(crate::proofs::Tables::category_table), unfolding(crate::specs::Tables::category_rows))]
pub fn categories() -> [Coded<Category>; 8]
    ensures rows { result ≡ category_rows }
    ensures table { IsTable result }
{
    rows![
        b"WSW " => Category::Wsw,
        b"NPW " => Category::Npw,
        b"RFW " => Category::Rfw,
        b"CFW " => Category::Cfw,
        b"MWW " => Category::Mww,
        b"FFA " => Category::Ffa,
        b"FLW " => Category::Flw,
        b"FLS " => Category::Fls,
    ]
}
