//! Counts of an event's unended rows by period, in an order in which each question about them is
//! one range.
ghost use Rattle.std.specs.Prelude.{◌≡◌, ◌≤◌, ◌&&◌, ◌-◌, OnOk};
ghost use Rattle.std.specs.List.{list_any};
ghost use Rattle.std.specs.Map.{keys_of};
ghost use Rattle.event_life.specs.Periods.{ends_after};
ghost use Rattle.row_index.specs.Standings.{period_at, standing_of, lies, lies_from, open_from, same_from, same_to, count_at, with_count, some_less, all_less, some_more, all_stay, restood, life_standing};

use crate::keys::any_between;
use crate::look::has_same_period;
use event_life::{Life, ends_after};
use hazard_types::{End, Minute, Oom, Period};
use std::collections::BTreeMap;

/// A period of rows. Ordered by end, then begin.
#[derive(Clone, Copy, PartialEq, Eq, PartialOrd, Ord)]
pub struct Standing {
    pub end: End,
    pub begin: Minute,
}

/// How many unended rows of an event have each period. No count is 0.
pub type Standings = BTreeMap<Standing, usize>;

/// A life that zones had before, or `None` if they had none, and the count of these zones.
#[derive(Clone, Copy)]
pub struct Before {
    pub life: Option<Life>,
    pub zones: usize,
}

/// Returns the period of a life, as a key that is ordered by end, then begin.
fn standing_of(life: &Life) -> Standing
    ensures { result ≡ life_standing life.now }
{
    let end = life.period.end;
    Standing {
        end,
        begin: life.period.begin,
    }
}

/// Returns the minute `count` minutes before `t`, or minute 0 if that would be earlier.
pub fn minutes_before(t: Minute, count: u32) -> Minute
    ensures { result ≡ t - count }
{
    match Minute::new(t.get().saturating_sub(count)) {
        Some(minute) => minute,
        None => unreachable!(),
    }
}

/// Whether an unended row has the period `from`, or one that comes after it by end, then begin.
fn any_from(standings: &Standings, from: Standing) -> bool
    ensures { result ≡ list_any (lies_from from) (keys_of standings.now.entries) }
{
    standings.range(from..).next().is_some()
}

/// Whether an unended row has an end that is at most half an hour before `t`, or later, or until
/// further notice.
pub fn is_open_among(standings: &Standings, t: Minute) -> bool
    ensures { result ≡ list_any (lies_from (open_from t)) (keys_of standings.now.entries) }
{
    let end = End::At(minutes_before(t, 30));
    let begin = minutes_before(t, u32::MAX);
    let from = Standing { end, begin };
    any_from(standings, from)
}

/// Whether an unended row has the end of `period`, and a begin from `first` to `last`, both
/// included. `first` must not be after `last`, and the begin of `period` is not read.
fn any_with(standings: &Standings, period: &Period, first: Minute, last: Minute) -> bool
    requires { first ≤ last }
    ensures { result
        ≡ list_any (lies (period_at period.now.end first) (period_at period.now.end last))
        (keys_of standings.now.entries) }
{
    let from = Standing {
        end: period.end,
        begin: first,
    };
    let to = Standing {
        end: period.end,
        begin: last,
    };
    any_between(standings, from, to)
}

/// Whether a row that is live at `t` (unended, with an end after `t` or until further notice) has
/// this period. Two begins at `t` or before count as equal.
pub fn has_same_among(standings: &Standings, t: Minute, period: &Period) -> bool
    ensures { result ≡ (ends_after period.now.end t
        && list_any (lies (same_from t period.now) (same_to t period.now))
        (keys_of standings.now.entries)) }
{
    if !ends_after(&period.end, t) {
        return false;
    }
    if period.begin.get() <= t.get() {
        any_with(standings, period, minutes_before(t, u32::MAX), t)
    } else {
        any_with(standings, period, period.begin, period.begin)
    }
}

/// Returns how many unended rows have a period; 0 if none has.
fn count_at(standings: &Standings, period: &Standing) -> usize
    ensures { result ≡ count_at standings.now.entries period.now }
{
    match standings.get(period) {
        Some(count) => *count,
        None => 0,
    }
}

/// Sets the count at a key. A count of 0 removes the key.
fn set_count<K: Ord + Drop>(
    counts: &mut BTreeMap<K, usize>,
    key: K,
    count: usize,
) -> Result<(), Oom>
    ensures { OnOk result (counts.new.entries ≡ with_count K.cmp key count counts.old.entries) }
{
    if count == 0 {
        counts.remove(&key);
    } else {
        counts.insert(key, count)?;
    }
    Ok(())
}

/// Subtracts `before.zones` rows from the count of the period of `before.life`, down to 0 at least.
/// Does nothing if that life is `None` or ended.
fn uncount_rows(standings: &mut Standings, before: &Before) -> Result<(), Oom>
    ensures { OnOk result (standings.new.entries ≡ some_less before.now standings.old.entries) }
{
    let Some(old) = &before.life else {
        return Ok(());
    };
    if old.ended {
        return Ok(());
    }
    let count = count_at(standings, &standing_of(old)).saturating_sub(before.zones);
    let end = old.period.end;
    let period = Standing {
        end,
        begin: old.period.begin,
    };
    set_count(standings, period, count)
}

/// Subtracts, for each of `befores`, its number of zones from the count of its life's period, down
/// to 0 at least. One whose life is `None` or ended changes nothing.
fn uncount_all(standings: &mut Standings, befores: &[Before]) -> Result<(), Oom>
    ensures { OnOk result (standings.new.entries ≡ all_less befores.now standings.old.entries) }
{
    for before in befores {
        uncount_rows(standings, before)?;
    }
    Ok(())
}

/// Adds `zones` rows to the count of the period of `life`, unless the life is ended. `Oom` also if
/// the count overflows.
fn count_more_rows(standings: &mut Standings, zones: usize, life: &Life) -> Result<(), Oom>
    ensures { OnOk result (standings.new.entries ≡ some_more zones life.now standings.old.entries) }
{
    if life.ended {
        return Ok(());
    }
    let Some(count) = count_at(standings, &standing_of(life)).checked_add(zones) else {
        return Err(Oom);
    };
    let end = life.period.end;
    let period = Standing {
        end,
        begin: life.period.begin,
    };
    set_count(standings, period, count)
}

/// Whether `befores` is one entry, for all of the `zones` zones, whose life has the period of
/// `life`, and neither of these lives is ended. Then no count changes if the zones get `life`.
fn all_stay(befores: &[Before], zones: usize, life: &Life) -> bool
    ensures { result ≡ all_stay befores.now zones life.now }
{
    match befores {
        [before] => before.zones == zones && has_same_period(&before.life, life),
        _ => false,
    }
}

/// Corrects the counts of unended rows by period for zones that had the lives of `befores` and now
/// have `life`. `zones` is how many zones these are. An ended row, or a life of `None`, is not
/// counted.
///
/// # Errors
///
/// Out of memory.
pub fn replace_counted(
    standings: &mut Standings,
    befores: &[Before],
    zones: usize,
    life: &Life,
) -> Result<(), Oom>
    ensures { OnOk result
        (standings.new.entries ≡ restood befores.now zones life.now standings.old.entries) }
{
    if all_stay(befores, zones, life) {
        return Ok(());
    }
    count_more_rows(standings, zones, life)?;
    uncount_all(standings, befores)
}
