//! Writes H-VTEC strings.
ghost use Rattle.std.specs.Prelude.{◌≡◌, IsTrue, List as Seq, ℕ, length};
ghost use Rattle.hazard_types.specs.Places.{are_letters};
ghost use Rattle.hazard_types.specs.Characters.{is_location};
ghost use Rattle.hazard_types.specs.Times.{IsTime, time_text};
ghost use Rattle.hvtec_string.specs.Columns.{hvtec_text, IsHvtec};

use crate::columns::{BEGIN, CAUSE, CREST, END, LENGTH, LOCATION, SEVERITY, STATUS};
use hazard_types::{Flood, time_text};

/// Returns the H-VTEC string of `h`, 54 bytes from slash to slash: a template with each value in
/// its columns, and zeros for a time of `None`. The site is written as it is, whatever bytes it
/// has.
#[tactic(auto, unfolding(crate::specs::Columns::hvtec_text))]
fn filled_template(h: &Flood) -> [u8; LENGTH]
    ensures value { result ≡ hvtec_text h.now }
    ensures begin { IsTime (time_text h.now.begin) h.now.begin }
    ensures crest { IsTime (time_text h.now.crest) h.now.crest }
    ensures end { IsTime (time_text h.now.end) h.now.end }
    ensures cause { IsTrue (are_letters h.now.cause) × (length h.now.cause ≡ 2) }
{
    let mut text = *b"/nwsli.s.ic.yymmddThhnnZ.yymmddThhnnZ.yymmddThhnnZ.fr/";
    text[STATUS].copy_from_slice(&h.status.code());
    text[END].copy_from_slice(&time_text(h.end));
    text[CREST].copy_from_slice(&time_text(h.crest));
    text[BEGIN].copy_from_slice(&time_text(h.begin));
    text[CAUSE].copy_from_slice(&h.cause.letters());
    text[SEVERITY] = h.severity.letter();
    text[LOCATION].copy_from_slice(&h.site);
    text
}

/// Returns the H-VTEC string of `h`, 54 bytes from slash to slash, without a line end. A time of
/// `None` is written as zeros, `000000T0000Z`. The site is written as it is, also if it is not a
/// code of a location.
pub fn hvtec_columns(h: &Flood) -> [u8; LENGTH]
    ensures { result ≡ hvtec_text h.now }
{
    filled_template(h)
}

/// Returns the H-VTEC string of `h`, 54 bytes from slash to slash, without a line end. A time of
/// `None` is written as zeros, `000000T0000Z`. The site must be a code of a location: five
/// characters of A-Z and 0-9.
///
/// Source: NWS Instruction 10-1703, H-VTEC.
pub fn hvtec_text(h: &Flood) -> [u8; LENGTH]
    requires { IsTrue (is_location h.now.site) }
    ensures value { result ≡ hvtec_text h.now }
    // Each column has what the values say.
    ensures columns { IsHvtec result h.now }
    // No other bytes have these values.
    ensures only { (bytes : Seq ℕ) → IsHvtec bytes h.now → bytes ≡ result }
{
    filled_template(h)
}
