//! The codes of classes, actions, severities and statuses, both ways; the significance of a letter;
//! and the order of pairs of letters.
ghost use Rattle.std.specs.Prelude.{◌≡◌, ◌∷◌, []};
ghost use Rattle.std.specs.Cmp.Lexicographic.{slice_cmp};
ghost use Rattle.std.specs.Ordering.{nat_cmp};
ghost use Rattle.hazard_types.specs.Codes.{value_for_code};
ghost use Rattle.hazard_types.specs.Letters.{class_code, action_code, severity_code, status_code};
ghost use Rattle.hazard_types.specs.Tables.{class_rows, action_rows, sig_rows, severity_rows, status_rows};

use crate::code_tables::{actions, classes, severities, significances, statuses};
use crate::codes::{Action, Class, Severity, Status};
use crate::hazard::Sig;
use crate::table::find;
use std::cmp::Ordering;

/// Returns how `a` compares with `b`: by the first letter, and by the second if the first is the
/// same in both.
pub(crate) fn letters_in_order(a: [u8; 2], b: [u8; 2]) -> Ordering
    ensures { result ≡ slice_cmp nat_cmp a b }
{
    if a[0] == b[0] {
        a[1].cmp(&b[1])
    } else {
        a[0].cmp(&b[0])
    }
}

impl Class {
    /// Returns the letter of the class.
    pub fn letter(self) -> u8
        ensures { result ∷ [] ≡ class_code self }
    {
        match self {
            Class::O => b'O',
            Class::T => b'T',
            Class::E => b'E',
            Class::X => b'X',
        }
    }

    /// Returns the class with this letter, or `None` if no class has it.
    pub fn from_code(text: &[u8]) -> Option<Self>
        ensures { result ≡ value_for_code class_rows text.now }
    {
        find(&classes(), text)
    }
}

impl Action {
    /// Returns the three letters of the action.
    pub fn code(self) -> [u8; 3]
        ensures { result ≡ action_code self }
    {
        match self {
            Action::New => *b"NEW",
            Action::Con => *b"CON",
            Action::Exa => *b"EXA",
            Action::Ext => *b"EXT",
            Action::Exb => *b"EXB",
            Action::Upg => *b"UPG",
            Action::Can => *b"CAN",
            Action::Exp => *b"EXP",
            Action::Cor => *b"COR",
            Action::Rou => *b"ROU",
        }
    }

    /// Returns the action with these three letters, or `None` if no action has them.
    pub fn from_code(text: &[u8]) -> Option<Self>
        ensures { result ≡ value_for_code action_rows text.now }
    {
        find(&actions(), text)
    }
}

impl Severity {
    /// Returns the character of the severity.
    pub fn letter(self) -> u8
        ensures { result ∷ [] ≡ severity_code self }
    {
        match self {
            Severity::N => b'N',
            Severity::Zero => b'0',
            Severity::One => b'1',
            Severity::Two => b'2',
            Severity::Three => b'3',
            Severity::U => b'U',
        }
    }

    /// Returns the severity with this character, or `None` if no severity has it.
    pub fn from_code(text: &[u8]) -> Option<Self>
        ensures { result ≡ value_for_code severity_rows text.now }
    {
        find(&severities(), text)
    }
}

impl Status {
    /// Returns the two letters of the status.
    pub fn code(self) -> [u8; 2]
        ensures { result ≡ status_code self }
    {
        match self {
            Status::No => *b"NO",
            Status::Nr => *b"NR",
            Status::Uu => *b"UU",
            Status::Oo => *b"OO",
        }
    }

    /// Returns the status with these two letters, or `None` if no status has them.
    pub fn from_code(text: &[u8]) -> Option<Self>
        ensures { result ≡ value_for_code status_rows text.now }
    {
        find(&statuses(), text)
    }
}

/// Returns the significance with this letter, or `None` if no significance has it.
pub fn parse_significance(text: &[u8]) -> Option<Sig>
    ensures { result ≡ value_for_code sig_rows text.now }
{
    find(&significances(), text)
}
