//! The rules on a desk, its number and the clock (docs/REQUESTS.md, "Desks, numbers and the
//! clock").
ghost use Rattle.std.specs.Prelude.{◌≡◌, IfNone, false, max, nat_abs, option_map};
ghost use Rattle.office_core.specs.Rules.{unknown_desk, reused, stale, gap, is_out, clock_out, broken_number};
ghost use Rattle.office_core.specs.State.{said_in, said_by, last_number};

use crate::heard::{DeskRecord, LastRequest};
use crate::office::Office;
use hazard_types::Minute;
use office_types::{Desk, Refusal};

/// The last minute that a reading may be.
const LAST_READING: i64 = 52_000_000;

/// Returns the last accepted request of a desk, or `None` if it has none or no record is of this
/// desk.
fn said_in<'a>(heard: &'a [DeskRecord], desk: &Desk) -> Option<&'a LastRequest>
    ensures { option_map (λ said. said.now) result ≡ said_in heard.now desk.now }
{
    for h in heard {
        if h.desk.bytes() == desk.bytes() {
            return h.said.as_ref();
        }
    }
    None
}

/// Returns `Reused` if `seq` is `last`, the number of the desk's last accepted request, or `None`
/// otherwise. A repetition of that request has been ruled out before.
fn reused(last: u32, seq: u32) -> Option<Refusal>
    ensures { result ≡ reused last seq }
{
    if seq == last {
        Some(Refusal::Reused { last })
    } else {
        None
    }
}

/// Returns `Stale` if `seq` is below `last`, the number of the desk's last accepted request, or
/// `None` otherwise.
fn stale(last: u32, seq: u32) -> Option<Refusal>
    ensures { result ≡ stale last seq }
{
    if seq < last {
        Some(Refusal::Stale { last })
    } else {
        None
    }
}

/// Returns `Gap` if `seq` is more than one above `last`, the number of the desk's last accepted
/// request, or `None` otherwise.
fn gap(last: u32, seq: u32) -> Option<Refusal>
    ensures { result ≡ gap last seq }
{
    if u64::from(last) + 1 < u64::from(seq) {
        Some(Refusal::Gap { last })
    } else {
        None
    }
}

/// Whether a reading of the clock, in minutes since 2000-01-01T00:00Z UTC, is below 0 or above
/// 52,000,000.
pub(crate) fn is_out(reading: i64) -> bool
    ensures { result ≡ is_out reading }
{
    reading < 0 || LAST_READING < reading
}

/// Returns `ClockOut` if a reading of the clock, in minutes since 2000-01-01T00:00Z UTC, is below 0
/// or above 52,000,000, or `None` otherwise.
pub(crate) fn clock_out(reading: i64) -> Option<Refusal>
    ensures { result ≡ clock_out reading }
{
    if is_out(reading) {
        Some(Refusal::ClockOut { minute: reading })
    } else {
        None
    }
}

/// Returns a reading of the clock as a minute. `reading` is in minutes since 2000-01-01T00:00Z UTC,
/// and from 0 to 52,000,000.
pub(crate) fn minute_at(reading: i64) -> Minute
    requires { is_out reading ≡ false }
    ensures { result ≡ nat_abs reading }
{
    match Minute::new(reading as u32) {
        Some(minute) => minute,
        None => unreachable!(),
    }
}

/// Returns the later of two minutes.
pub(crate) fn later(first: Minute, second: Minute) -> Minute
    ensures { result ≡ max first second }
{
    if first.get() < second.get() {
        second
    } else {
        first
    }
}

impl Office {
    /// Returns the last accepted request of a desk, or `None` if it has none or the office has no
    /// such desk.
    pub(crate) fn said_by(&self, desk: &Desk) -> Option<&LastRequest>
        ensures { option_map (λ said. said.now) result ≡ said_by self.now.state desk.now }
    {
        said_in(&self.heard, desk)
    }

    /// Returns the number of a desk's last accepted request, or 0 if it has none.
    fn last_number(&self, desk: &Desk) -> u32
        ensures { result ≡ last_number self.now.state desk.now }
    {
        match self.said_by(desk) {
            Some(said) => said.seq,
            None => 0,
        }
    }

    /// Returns `UnknownDesk` if the settings have no such desk, or `None` otherwise.
    pub(crate) fn unknown_desk(&self, desk: &Desk) -> Option<Refusal>
        ensures { result ≡ unknown_desk self.now.state desk.now }
    {
        if self.settings.has_desk(desk) {
            None
        } else {
            Some(Refusal::UnknownDesk)
        }
    }

    /// Returns the refusal for the first rule that a request breaks on its desk, its number `seq`
    /// or the clock, or `None` if it breaks none of them. The rules come in the order UnknownDesk,
    /// Reused, Stale, Gap, ClockOut. `reading` is the clock's, in minutes since 2000-01-01T00:00Z
    /// UTC.
    #[tactic(auto, unfolding(crate::specs::Rules::broken_number))]
    pub(crate) fn broken_number(&self, desk: &Desk, seq: u32, reading: i64) -> Option<Refusal>
        ensures value { result ≡ broken_number self.now.state desk.now seq reading }
        ensures within { IfNone result (is_out reading ≡ false) }
    {
        let unknown = self.unknown_desk(desk);
        if unknown.is_some() {
            return unknown;
        }
        let last = self.last_number(desk);
        let reused = reused(last, seq);
        if reused.is_some() {
            return reused;
        }
        let stale = stale(last, seq);
        if stale.is_some() {
            return stale;
        }
        let gap = gap(last, seq);
        if gap.is_some() {
            return gap;
        }
        clock_out(reading)
    }
}
