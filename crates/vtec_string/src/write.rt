//! Writes P-VTEC strings.
ghost use Rattle.std.specs.Prelude.{◌≡◌, ◌≤◌, IsTrue, List as Seq, ℕ, length};
ghost use Rattle.hazard_types.specs.Places.{are_letters};
ghost use Rattle.hazard_types.specs.Characters.{is_office};
ghost use Rattle.hazard_types.specs.Times.{IsTime, time_text};
ghost use Rattle.vtec_string.specs.Columns.{vtec_text, IsVtec};

use crate::columns::{ACTION, BEGIN, CLASS, END, LENGTH, NUMBER, OFFICE, PHENOMENON, SIGNIFICANCE};
use hazard_types::{Phen, Vtec, four_digits, time_text};

/// Returns the two capital letters of a phenomenon.
fn phenomenon_letters(phen: Phen) -> [u8; 2]
    ensures value { result ≡ phen }
    ensures letters { IsTrue (are_letters result) }
    ensures two { length result ≡ 2 }
{
    phen.letters()
}

/// Returns the P-VTEC string of `v`, 48 bytes from slash to slash: a template with each value in
/// its columns, and zeros for a time of `None`. The event tracking number must be at most 9999. The
/// office is written as it is.
#[tactic(auto, unfolding(crate::specs::Columns::vtec_text))]
fn filled_template(v: &Vtec) -> [u8; LENGTH]
    requires { v.now.etn ≤ 9999 }
    ensures value { result ≡ vtec_text v.now }
    ensures begin { IsTime (time_text v.now.begin) v.now.begin }
    ensures end { IsTime (time_text v.now.end) v.now.end }
    ensures phenomenon { IsTrue (are_letters v.now.hazard.phen) × (length v.now.hazard.phen ≡ 2) }
{
    let mut text = *b"/k.aaa.cccc.pp.s.####.yymmddThhnnZ-yymmddThhnnZ/";
    text[END].copy_from_slice(&time_text(v.end));
    text[BEGIN].copy_from_slice(&time_text(v.begin));
    text[NUMBER].copy_from_slice(&four_digits(v.etn));
    text[SIGNIFICANCE] = v.hazard.sig.letter();
    text[PHENOMENON].copy_from_slice(&phenomenon_letters(v.hazard.phen));
    text[OFFICE].copy_from_slice(&v.office);
    text[ACTION].copy_from_slice(&v.action.code());
    text[CLASS] = v.class.letter();
    text
}

/// Returns the P-VTEC string of `v`, 48 bytes from slash to slash, without a line end. A time of
/// `None` is written as zeros, `000000T0000Z`. The office must be four characters of A-Z and 0-9,
/// and the event tracking number at most 9999.
///
/// Source: NWS Instruction 10-1703, P-VTEC.
pub fn vtec_text(v: &Vtec) -> [u8; LENGTH]
    requires office { IsTrue (is_office v.now.office) }
    requires number { v.now.etn ≤ 9999 }
    ensures value { result ≡ vtec_text v.now }
    // Each column has what the values say.
    ensures columns { IsVtec result v.now }
    // No other bytes have these values.
    ensures only { (bytes : Seq ℕ) → IsVtec bytes v.now → bytes ≡ result }
{
    filled_template(v)
}
