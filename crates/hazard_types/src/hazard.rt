//! Phenomena, significances, hazards and events.
ghost use Rattle.std.specs.Prelude.{◌≡◌, if◌then◌else◌, IsTrue};
ghost use Rattle.hazard_types.specs.Places.{are_letters};
ghost use Rattle.hazard_types.specs.Orders.{sig_letter, by_letter, by_hazard, by_event};
ghost use Rattle.std.proofs.Common.{rules};
ghost use Rattle.std.specs.Cmp.{partial_order_from_own_ties};
ghost use Rattle.std.specs.Cmp.Rules.{comparing};
ghost use Rattle.std.specs.Ordering.{as_partial_cmp};

use crate::letters::letters_in_order;
use std::cmp::Ordering;
use std::marker::Model;

/// A phenomenon: two capital letters, as `WS`.
///
/// Source: NWS Instruction 10-1703, P-VTEC phenomena.
#[derive(Clone, Copy, Debug, PartialEq, Eq, Hash)]
pub struct Phen {
    letters: [u8; 2],
}

impl Model for Phen {
    ghost use Rattle.std.specs.Prelude.{List, ℕ, IsTrue, ◌≡◌, length};
    ghost use Rattle.hazard_types.specs.Places.{are_letters};

    ghost Value = { List ℕ };

    ghost view = { λ p. p.letters };

    ghost invariant = { λ p. IsTrue (are_letters p.letters) × (length p.letters ≡ 2) };

    ghost inverse = { λ xs. record { letters = xs } };
}

impl Phen {
    /// Returns the phenomenon with these letters, or `None` if one is not A-Z.
    pub fn new(letters: [u8; 2]) -> Option<Self>
        ensures { result ≡ (if are_letters letters then Some letters else None) }
    {
        if letters[0].is_ascii_uppercase() && letters[1].is_ascii_uppercase() {
            Some(Phen { letters })
        } else {
            None
        }
    }

    /// Returns the phenomenon with these two letters, each of which must be A-Z.
    pub(crate) fn of(letters: [u8; 2]) -> Self
        requires { IsTrue (are_letters letters) }
        ensures { result ≡ letters }
    {
        Phen { letters }
    }

    /// Returns the two capital letters of the phenomenon.
    pub fn letters(self) -> [u8; 2]
        ensures value { result ≡ self }
    {
        self.letters
    }
}

/// A significance, in order by its letter.
///
/// Source: NWS Instruction 10-1703, P-VTEC significance codes; docs/DECISIONS.md, "Forms".
#[derive(Clone, Copy, Debug, PartialEq, Eq, Hash)]
pub enum Sig {
    /// Warning.
    W,
    /// Watch.
    A,
    /// Advisory.
    Y,
    /// Statement.
    S,
    /// Forecast.
    F,
    /// Outlook.
    O,
    /// Synopsis.
    N,
}

impl Sig {
    /// Returns the letter of the significance.
    pub fn letter(self) -> u8
        ensures { result ≡ sig_letter self }
    {
        match self {
            Sig::W => b'W',
            Sig::A => b'A',
            Sig::Y => b'Y',
            Sig::S => b'S',
            Sig::F => b'F',
            Sig::O => b'O',
            Sig::N => b'N',
        }
    }
}

impl Ord for Sig {
    ghost cmp = { by_letter };

    ghost total = { Prim.search (comparing, rules) };

    ghost matches_partial_cmp = { Prim.search (comparing, rules) };

    ghost matches_eq = { Prim.search (comparing, rules) };

    fn cmp(&self, other: &Sig) -> Ordering {
        self.letter().cmp(&other.letter())
    }
}

impl PartialOrd for Sig {
    ghost partial_cmp = { as_partial_cmp by_letter };

    ghost laws = { partial_order_from_own_ties
        (Prim.search (comparing, rules)) (Prim.search (comparing, rules)) };

    fn partial_cmp(&self, other: &Sig) -> Option<Ordering> {
        Some(self.cmp(other))
    }
}

/// A hazard: a phenomenon and a significance, as `WS.W`. Hazards are in order by phenomenon, then
/// by letter of the significance.
#[derive(Clone, Copy, Debug, PartialEq, Eq, Hash)]
pub struct Hazard {
    /// The phenomenon.
    pub phen: Phen,
    /// The significance.
    pub sig: Sig,
}

impl Ord for Hazard {
    ghost cmp = { by_hazard };

    ghost total = { Prim.search (comparing, rules) };

    ghost matches_partial_cmp = { Prim.search (comparing, rules) };

    ghost matches_eq = { Prim.search (comparing, rules) };

    fn cmp(&self, other: &Hazard) -> Ordering {
        match letters_in_order(self.phen.letters, other.phen.letters) {
            Ordering::Equal => self.sig.cmp(&other.sig),
            order => order,
        }
    }
}

impl PartialOrd for Hazard {
    ghost partial_cmp = { as_partial_cmp by_hazard };

    ghost laws = { partial_order_from_own_ties
        (Prim.search (comparing, rules)) (Prim.search (comparing, rules)) };

    fn partial_cmp(&self, other: &Hazard) -> Option<Ordering> {
        Some(self.cmp(other))
    }
}

/// An event: a hazard, its event tracking number and the year in which it was opened, as
/// `WS.W.0001.2018`. Events are in order by hazard, number and year.
///
/// Source: NWS Instruction 10-1703, P-VTEC event tracking numbers.
#[derive(Clone, Copy, Debug, PartialEq, Eq, PartialOrd, Ord, Hash)]
pub struct Event {
    /// The hazard.
    pub hazard: Hazard,
    /// The event tracking number. Events have 1 to 9,999, routine lines 0.
    pub etn: u16,
    /// The year in which the event was opened.
    pub year: u16,
}

impl Event {
    /// Returns how `self` compares with `other`: by phenomenon, letter of the significance, number
    /// and year.
    pub fn order(&self, other: &Event) -> Ordering
        ensures { result ≡ by_event self.now other.now }
    {
        self.cmp(other)
    }
}
