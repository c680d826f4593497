//! The times of P-VTEC and H-VTEC strings, both ways.
ghost use Rattle.std.specs.Prelude.{◌≡◌, ℕ, MatchOption, Option as Maybe};
ghost use Rattle.hazard_types.specs.Times.{IsTime, time_text, time_at, end_text};

use crate::calendar::{parse_stamp, stamp};
use crate::minute::Minute;
use crate::period::End;

/// Returns the stamp of a minute in UTC, as `180103T1530Z`, or `000000T0000Z` for `None`.
///
/// Source: NWS Instruction 10-1703, P-VTEC and H-VTEC times.
pub fn time_text(time: Option<Minute>) -> [u8; 12]
    ensures value { result ≡ time_text time }
    ensures time { IsTime result time }
{
    match time {
        Some(minute) => stamp(minute),
        None => *b"000000T0000Z",
    }
}

/// Returns the minute whose stamp, as `180103T1530Z`, the text is, `Some(None)` for `000000T0000Z`,
/// or `None` if the text is neither.
#[tactic(auto, using(crate::proofs::TimesRead::no_time, crate::proofs::TimesRead::stamp_found))]
fn read_time(text: &[u8]) -> Option<Option<Minute>>
    ensures { MatchOption result ((t : Maybe ℕ) → IsTime text.now t → ⊥) (IsTime text.now) }
{
    if text == b"000000T0000Z".as_slice() {
        Some(None)
    } else {
        Some(Some(parse_stamp(text)?))
    }
}

/// Returns the minute whose stamp, as `180103T1530Z`, the text is, `Some(None)` for `000000T0000Z`,
/// or `None` if the text is neither.
///
/// Source: NWS Instruction 10-1703, P-VTEC and H-VTEC times.
#[tactic(auto, using(crate::proofs::TimeLemmas::time_is_at))]
pub fn parse_time(text: &[u8]) -> Option<Option<Minute>>
    ensures value { result ≡ time_at text.now }
    ensures time { MatchOption result ((t : Maybe ℕ) → IsTime text.now t → ⊥) (IsTime text.now) }
{
    read_time(text)
}

/// Returns the stamp of the minute of an end in UTC, as `180103T1530Z`, or `000000T0000Z` for until
/// further notice.
///
/// Source: NWS Instruction 10-1703, P-VTEC event beginning and ending times.
pub fn end_text(end: &End) -> [u8; 12]
    ensures { result ≡ end_text end.now }
{
    match end {
        End::At(minute) => stamp(*minute),
        End::Ufn => *b"000000T0000Z",
    }
}
