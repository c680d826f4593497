//! The words of the command line.
ghost use Rattle.std.specs.Prelude.{◌≡◌, IfSome, IsTrue};
ghost use Rattle.hazard_types.specs.Characters.{is_office};
ghost use Rattle.desk_settings.specs.Forms.{local_zone_in};
ghost use Rattle.county_notices.specs.Words.{parse_issuer};

use crate::issuer::Issuer;
use hazard_types::{List, LocalZone, Text};
use program_ends::office_of;

/// Returns the zone of local times with this name, `Atlantic`, `Eastern`, `Central`, `Mountain`,
/// `Arizona`, `Pacific`, `Alaska`, `Hawaii` or `UTC`, or `None` for another word.
fn local_zone_in(word: &[u8]) -> Option<LocalZone>
    ensures { result ≡ local_zone_in word.now }
{
    if word == b"Atlantic".as_slice() {
        Some(LocalZone::Atlantic)
    } else if word == b"Eastern".as_slice() {
        Some(LocalZone::Eastern)
    } else if word == b"Central".as_slice() {
        Some(LocalZone::Central)
    } else if word == b"Mountain".as_slice() {
        Some(LocalZone::Mountain)
    } else if word == b"Arizona".as_slice() {
        Some(LocalZone::Arizona)
    } else if word == b"Pacific".as_slice() {
        Some(LocalZone::Pacific)
    } else if word == b"Alaska".as_slice() {
        Some(LocalZone::Alaska)
    } else if word == b"Hawaii".as_slice() {
        Some(LocalZone::Hawaii)
    } else if word == b"UTC".as_slice() {
        Some(LocalZone::Utc)
    } else {
        None
    }
}

/// Returns the issuer that the words `OFFICE ZONE` of a command line name, or `None` if they are
/// not exactly an office, as `KLWX`, and a zone of local times, as `Eastern`.
#[tactic(auto, unfolding(crate::specs::Words::parse_issuer))]
pub fn parse_issuer(words: &List<Text>) -> Option<Issuer>
    ensures value { result ≡ parse_issuer words.now }
    ensures office { IfSome result (λ by. IsTrue (is_office by.office)) }
{
    let [office, zone] = words.as_slice() else {
        return None;
    };
    let office = office_of(office.as_slice())?;
    let zone = local_zone_in(zone.as_slice())?;
    Some(Issuer { office, zone })
}
