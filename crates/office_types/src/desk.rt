//! The names of desks.
ghost use Rattle.std.specs.Prelude.{◌≡◌, ◌≤◌, ◌&&◌, if◌then◌else◌, length, List, ℕ, IsTrue};
ghost use Rattle.office_types.specs.Desks.{is_desk_name, padded};

use hazard_types::are_name_bytes;
use std::marker::Model;

/// The most characters of a desk's name.
const MOST: usize = 16;

/// A desk's name: 1 to 16 characters of A-Z and 0-9.
///
/// Source: docs/REQUESTS.md, "The requests" (field `desk`).
#[derive(Clone, Copy, Debug, PartialEq, Eq)]
pub struct Desk {
    // The name, and zeros up to 16 bytes.
    name: [u8; 16],
    count: u8,
}

impl Model for Desk {
    ghost use Rattle.std.specs.Prelude.{List, ℕ, take, length};
    ghost use Rattle.office_types.specs.Desks.{IsName, padded, padded_back};

    ghost Value = { List ℕ };

    ghost view = { λ d. take d.count d.name };

    ghost invariant = { λ d. IsName d.name d.count };

    ghost inverse = { λ xs. record { name = padded xs; count = length xs } };

    ghost inverse_ok = { λ d h. λ i. record { name = (padded_back d.name d.count h).0 i; count = (padded_back d.name d.count h).1 i } };
}

/// Whether the bytes are a desk's name: 1 to 16 characters of A-Z and 0-9.
fn is_desk_name(bytes: &[u8]) -> bool
    ensures { result ≡ is_desk_name bytes.now }
{
    !bytes.is_empty() && bytes.len() <= MOST && are_name_bytes(bytes)
}

/// Returns the bytes, at most 16, filled up with zeros to 16.
fn padded(bytes: &[u8]) -> [u8; 16]
    requires { length bytes.now ≤ 16 }
    ensures { result ≡ padded bytes.now }
{
    let mut name = [0; 16];
    name[..bytes.len()].copy_from_slice(bytes);
    name
}

impl Desk {
    /// Returns the desk with this name, or `None` if the bytes are not 1 to 16 characters of A-Z
    /// and 0-9.
    #[tactic(auto, using(crate::proofs::DeskNames::padded_name, crate::proofs::DeskNames::padded_take))]
    pub fn new(bytes: &[u8]) -> Option<Self>
        ensures { result ≡ (if is_desk_name bytes.now then Some bytes.now else None) }
    {
        if !is_desk_name(bytes) {
            return None;
        }
        Some(Desk {
            name: padded(bytes),
            count: bytes.len() as u8,
        })
    }

    /// Returns the desk's name, 1 to 16 ASCII characters of A-Z and 0-9, without padding.
    pub fn bytes(&self) -> &[u8]
        ensures value { result.now ≡ self.now }
        ensures name { IsTrue (is_desk_name result.now) }
    {
        &self.name[..usize::from(self.count)]
    }
}
