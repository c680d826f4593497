//! The facts of a hazard that the desk issues.
use crate::codes::{Category, Family};
use crate::zone::Kind;

/// The facts of a hazard that the desk issues.
///
/// Source: docs/HAZARDS.md.
#[derive(Clone, Copy, Debug, PartialEq, Eq)]
pub struct Facts {
    /// The category of the product that opens an event of the hazard.
    pub opens: Category,
    /// The category of the products that follow up its events.
    pub follows: Category,
    /// The kind of its zones.
    pub kind: Kind,
    /// Its family and its rank in it, if it has a family.
    pub family: Option<(Family, u8)>,
    /// Whether its events may last until further notice.
    pub ufn: bool,
    /// Whether its events need H-VTEC values; they are barred otherwise.
    pub flood: bool,
}
