//! The settings of the training office.
ghost use Rattle.std.specs.Prelude.{◌≡◌, [], ◌∷◌, codes, IsTrue, IfOk};
ghost use Rattle.hazard_types.specs.Characters.{is_office};
ghost use Rattle.desk_settings.specs.AreSettings.{HasForms, training_of, training_headings};

use crate::settings::Settings;
use hazard_types::{List, LocalZone, Oom, Text};
use office_types::Desk;
use std::alloc::Global;

/// Returns the start of a heading line, `XXXX00`, eight times: once for each category.
#[tactic(auto, unfolding(crate::specs::AreSettings::training_headings))]
fn training_headings() -> [[u8; 6]; 8]
    ensures { result ≡ training_headings }
{
    [*b"XXXX00"; 8]
}

/// Returns the list of the training office's one desk, `DRY`, or errs if memory runs out.
fn training_desks(alloc: Global) -> Result<List<Desk>, Oom>
    ensures { IfOk result (λ desks. desks ≡ codes "DRY" ∷ []) }
{
    match Desk::new(b"DRY") {
        Some(desk) => List::from_slice(alloc, &[desk]),
        None => unreachable!(),
    }
}

/// Returns the settings of the training office with the code `office`. Its site is the code's last
/// three characters, local time is UTC, the one desk is `DRY`, each heading is `XXXX00`, and any
/// zone is accepted.
fn made(alloc: Global, office: [u8; 4]) -> Result<Settings, Oom>
    ensures { IfOk result (λ s. s ≡ training_of office) }
{
    let [_, second, third, fourth] = office;
    let desks = training_desks(alloc)?;
    Ok(Settings {
        office,
        site: [second, third, fourth],
        office_line: Text::from_slice(alloc, b"Training office")?,
        zone: LocalZone::Utc,
        desks,
        headings: training_headings(),
        zones: List::new(alloc),
        any_zone: true,
    })
}

/// Returns the settings of the training office of `office`, a code of four characters of A-Z and
/// 0-9. The site is its last three characters, local time is UTC, the one desk is `DRY`, and any
/// zone is accepted.
///
/// # Errors
///
/// Out of memory.
///
/// Source: docs/SETTINGS.md, "Training".
pub fn training_settings(alloc: Global, office: [u8; 4]) -> Result<Settings, Oom>
    requires { IsTrue (is_office office) }
    ensures value { IfOk result (λ s. s ≡ training_of office) }
    ensures forms { IfOk result HasForms }
{
    made(alloc, office)
}
