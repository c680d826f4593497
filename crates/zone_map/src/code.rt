//! A zone as one number, by which zones compare fast.
ghost use Rattle.std.specs.Prelude.{◌≡◌};
ghost use Rattle.std.specs.Cmp.{partial_equiv_from_equiv, partial_order_from_total};
ghost use Rattle.std.specs.Ordering.{as_partial_cmp, eq_by_cmp};
ghost use Rattle.std.proofs.lemmas.Cmp.{eq_by_cmp_equiv};
ghost use Rattle.hazard_types.specs.Places.{by_place, kind_rank, IsPlace};
ghost use Rattle.hazard_types.proofs.OrderLaws.{by_place_total};
ghost use Rattle.zone_map.specs.Codes.{code_of, find_index};

use hazard_types::{Kind, Zone};
use std::cmp::Ordering;
use std::marker::Model;

/// A zone as one number. The numbers are in the order of their zones.
#[derive(Clone, Copy)]
pub struct ZoneCode {
    code: u32,
}

impl Model for ZoneCode {
    ghost use Rattle.hazard_types.specs.Places.{Place, IsPlace};
    ghost use Rattle.zone_map.specs.Codes.{code_of, find_index, code_back};

    ghost Value = { Place };

    ghost view = { λ z. find_index z.code };

    ghost invariant = { λ z. IsPlace (find_index z.code) };

    ghost inverse = { λ p. record { code = code_of p } };

    ghost inverse_ok = { λ z h. λ i. record { code = code_back z.code i } };
}

/// Returns the place of a kind of zone in the order of kinds: 0 for counties, 1 for public zones.
fn kind_rank(kind: Kind) -> u32
    ensures { result ≡ kind_rank kind }
{
    match kind {
        Kind::C => 0,
        Kind::Z => 1,
    }
}

/// Returns the number that stands for a zone. It has 27 bits, from the highest on: 16 for the
/// state's two letters, one for the kind (0 for a county, 1 for a public zone), ten for the zone's
/// number. The numbers are in the order of the zones.
fn code_of(zone: &Zone) -> u32
    ensures value { result ≡ code_of zone.now }
    ensures place { IsPlace zone.now }
{
    let state = zone.state();
    let letters = u32::from(state[0]) * 256 + u32::from(state[1]);
    (letters * 2 + kind_rank(zone.kind())) * 1024 + u32::from(zone.number())
}

impl ZoneCode {
    /// Returns the code that stands for a zone. Codes compare as their zones do.
    pub fn new(zone: &Zone) -> Self
        ensures { result ≡ zone.now }
    {
        ZoneCode {
            code: code_of(zone),
        }
    }

    /// Returns the zone that has this code.
    pub fn zone(&self) -> Zone
        ensures { result ≡ self.now }
    {
        let letters = self.code / 1024 / 2;
        let kind = if self.code / 1024 % 2 == 0 {
            Kind::C
        } else {
            Kind::Z
        };
        let state = [(letters / 256) as u8, (letters % 256) as u8];
        match Zone::new(state, kind, (self.code % 1024) as u16) {
            Some(zone) => zone,
            None => unreachable!(),
        }
    }
}

impl PartialEq for ZoneCode {
    ghost eq = { eq_by_cmp by_place };

    ghost laws = { partial_equiv_from_equiv (eq_by_cmp_equiv by_place_total) };

    fn eq(&self, other: &ZoneCode) -> bool {
        self.code == other.code
    }
}

impl Eq for ZoneCode {
    ghost laws = { eq_by_cmp_equiv by_place_total };
}

impl PartialOrd for ZoneCode {
    ghost partial_cmp = { as_partial_cmp by_place };

    ghost laws = { partial_order_from_total by_place_total };

    fn partial_cmp(&self, other: &ZoneCode) -> Option<Ordering> {
        Some(self.cmp(other))
    }
}

impl Ord for ZoneCode {
    ghost cmp = { by_place };

    ghost total = { by_place_total };

    ghost matches_partial_cmp = { Prim.search };

    ghost matches_eq = { Prim.search };

    fn cmp(&self, other: &ZoneCode) -> Ordering {
        self.code.cmp(&other.code)
    }
}
