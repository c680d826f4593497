//! The office that issues the notices.
use hazard_types::LocalZone;

/// An office, four characters A to Z and 0 to 9, and its zone of local times.
#[derive(Clone, Copy, Debug, PartialEq, Eq)]
pub struct Issuer {
    pub office: [u8; 4],
    pub zone: LocalZone,
}
