//! The periods of unended rows by event, each with the count of these rows.
ghost use Rattle.std.specs.Prelude.{◌≡◌, ◌≤◌, ◌<◌, ◌+◌, Bool, length, IfOk, IfErr};
ghost use Rattle.std.specs.List.{prefix_len};
ghost use Rattle.std.specs.List.Sorted.{IsStrictlySortedBy};
ghost use Rattle.std.specs.Ordering.{is_lt, ordering_then, nat_cmp};
ghost use Rattle.std.specs.Vec.{vec_capacity};
ghost use Rattle.hazard_types.specs.declared.hazard.Event.{Event as AnyEvent};
ghost use Rattle.hazard_types.specs.declared.period.Period.{Period as AnyPeriod};
ghost use Rattle.hazard_board.specs.Periods.{later_first, by_period, by_event_end, only_if, counted, one_of, one_if, any_period, latest_in, same_in, begun_in, count_alike, AreInOrder, AreCountedWith, IsCountAt, IsCountGap};
ghost use Rattle.hazard_board.specs.Spots.{by_year};

use crate::spots::order_by_year;
use event_life::ends_after;
use hazard_types::{End, Event, Minute, Period, Row};
use std::cmp::Ordering;

/// A period of an event, and how many of the event's unended rows have it.
#[derive(Clone, Copy, Debug, PartialEq, Eq)]
pub struct PeriodCount {
    pub event: Event,
    pub period: Period,
    pub rows: usize,
}

/// Returns how two ends compare, where a later one is `Less`. Until further notice is the latest.
fn later_first(a: &End, b: &End) -> Ordering
    ensures { result ≡ later_first a.now b.now }
{
    match a {
        End::Ufn => match b {
            End::Ufn => Ordering::Equal,
            End::At(_) => Ordering::Less,
        },
        End::At(m) => match b {
            End::Ufn => Ordering::Greater,
            End::At(n) => n.get().cmp(&m.get()),
        },
    }
}

/// Returns how two counts compare by event (year, number, hazard), then by end, a later one first.
fn order_of_ends(a: &PeriodCount, b: &PeriodCount) -> Ordering
    ensures { result ≡ by_event_end a.now b.now }
{
    match order_by_year(&a.event, &b.event) {
        Ordering::Less => Ordering::Less,
        Ordering::Equal => later_first(&a.period.end, &b.period.end),
        Ordering::Greater => Ordering::Greater,
    }
}

/// Returns how two periods compare by end, a later one first, then by begin, an earlier one first.
fn order_in_event(a: &Period, b: &Period) -> Ordering
    ensures { result
        ≡ ordering_then (later_first a.now.end b.now.end) (nat_cmp a.now.begin b.now.begin) }
{
    match later_first(&a.end, &b.end) {
        Ordering::Less => Ordering::Less,
        Ordering::Equal => a.begin.get().cmp(&b.begin.get()),
        Ordering::Greater => Ordering::Greater,
    }
}

/// Returns how two counts compare by event (year, number, hazard), then end, a later one first,
/// then begin.
fn order(a: &PeriodCount, b: &PeriodCount) -> Ordering
    ensures { result ≡ by_period a.now b.now }
{
    match order_by_year(&a.event, &b.event) {
        Ordering::Less => Ordering::Less,
        Ordering::Equal => order_in_event(&a.period, &b.period),
        Ordering::Greater => Ordering::Greater,
    }
}

/// Returns how many of the counts come before the event and period of `key`, whose `rows` is not
/// read. `periods` is in order by event (year, number, hazard), then end, a later one first, then
/// begin.
fn counts_below(periods: &[PeriodCount], key: &PeriodCount) -> usize
    requires { IsStrictlySortedBy by_period periods.now }
    ensures value { result ≡ prefix_len (λ x. is_lt (by_period x key.now)) periods.now }
    ensures bound { result ≤ length periods.now }
{
    periods.partition_point(
        |x: &PeriodCount| -> bool
            ensures { result ≡ is_lt (by_period x.now key.entry.now) }
        { order(x, key).is_lt() },
    )
}

/// Returns the index of the count with the event and period of `key`, or as `Err` the index at
/// which to insert one. `periods` is in order by event (year, number, hazard), then end, a later
/// one first, then begin; the `rows` of `key` is not read.
fn place_of(periods: &[PeriodCount], key: &PeriodCount) -> Result<usize, usize>
    requires { IsStrictlySortedBy by_period periods.now }
    ensures found { IfOk result (IsCountAt key.now periods.now) }
    ensures absent { IfErr result (IsCountGap key.now periods.now) }
{
    let place = counts_below(periods, key);
    if place >= periods.len() {
        return Err(place);
    }
    let found = &periods[place];
    if order(found, key).is_eq() {
        Ok(place)
    } else {
        Err(place)
    }
}

/// Adds one to the count of rows with this event and period, or inserts a count of one. `periods`
/// is in order by event (year, number, hazard), then end, a later one first, then begin, and its
/// capacity must exceed the number of rows that are counted in all.
fn add(periods: &mut Vec<PeriodCount>, event: &Event, period: &Period)
    requires stand { AreInOrder periods.old.items }
    requires room { counted any_period periods.old.items < vec_capacity periods.old }
    ensures stand { AreInOrder periods.new.items }
    ensures told { (q : AnyEvent → AnyPeriod → Bool) →
        counted q periods.new.items
        ≡ counted q periods.old.items + only_if (q event.now period.now) 1 }
    ensures capacity { vec_capacity periods.old ≤ vec_capacity periods.new }
{
    let key = PeriodCount {
        event: *event,
        period: *period,
        rows: 1,
    };
    let _limit = periods.capacity();
    match place_of(periods, &key) {
        Ok(place) => {
            let rows = periods[place].rows;
            periods[place] = PeriodCount {
                event: *event,
                period: *period,
                rows: rows + 1,
            };
        }
        Err(place) => match periods.insert(place, key) {
            Ok(()) => {}
            Err(_) => unreachable!(),
        },
    }
}

/// Subtracts one from the count of rows with this event and period, and removes the entry if none
/// are left. The entry must be there, and `periods` in order by event (year, number, hazard), then
/// end, a later one first, then begin.
fn take_off(periods: &mut Vec<PeriodCount>, event: &Event, period: &Period)
    requires stand { AreInOrder periods.old.items }
    requires some { (q : AnyEvent → AnyPeriod → Bool) →
        only_if (q event.now period.now) 1 ≤ counted q periods.old.items }
    ensures stand { AreInOrder periods.new.items }
    ensures told { (q : AnyEvent → AnyPeriod → Bool) →
        counted q periods.new.items + only_if (q event.now period.now) 1
        ≡ counted q periods.old.items }
    ensures capacity { vec_capacity periods.old ≤ vec_capacity periods.new }
{
    let key = PeriodCount {
        event: *event,
        period: *period,
        rows: 1,
    };
    match place_of(periods, &key) {
        Ok(place) => {
            let rows = periods[place].rows;
            if rows <= 1 {
                periods.remove(place);
            } else {
                periods[place] = PeriodCount {
                    event: *event,
                    period: *period,
                    rows: rows - 1,
                };
            }
        }
        Err(_) => unreachable!(),
    }
}

/// Subtracts one from the count of rows with the event and period of `row`, which must be counted;
/// does nothing if `row` is `None` or ended.
fn take_off_if(periods: &mut Vec<PeriodCount>, row: &Option<Row>)
    requires stand { AreInOrder periods.old.items }
    requires some { (q : AnyEvent → AnyPeriod → Bool) →
        one_if q row.now ≤ counted q periods.old.items }
    ensures stand { AreInOrder periods.new.items }
    ensures told { (q : AnyEvent → AnyPeriod → Bool) →
        counted q periods.new.items + one_if q row.now ≡ counted q periods.old.items }
    ensures capacity { vec_capacity periods.old ≤ vec_capacity periods.new }
{
    match row {
        Some(row) => {
            if !row.ended {
                take_off(periods, &row.event, &row.period);
            }
        }
        None => {}
    }
}

/// Adds one to the count of rows with the event and period of `row`; does nothing if the row is
/// ended. The capacity of `periods` must be at least the number of rows that are then counted in
/// all.
fn add_if(periods: &mut Vec<PeriodCount>, row: &Row)
    requires stand { AreInOrder periods.old.items }
    requires room { counted any_period periods.old.items + one_of any_period row.now
        ≤ vec_capacity periods.old }
    ensures stand { AreInOrder periods.new.items }
    ensures told { (q : AnyEvent → AnyPeriod → Bool) →
        counted q periods.new.items ≡ counted q periods.old.items + one_of q row.now }
    ensures capacity { vec_capacity periods.old ≤ vec_capacity periods.new }
{
    if !row.ended {
        add(periods, &row.event, &row.period);
    }
}

/// Whether `old` is a row and both rows are unended and of one event and period, so that no count
/// changes as `row` replaces `old`.
fn count_alike(old: &Option<Row>, row: &Row) -> bool
    ensures { result ≡ count_alike old.now row.now }
{
    match old {
        Some(old) => {
            !old.ended && !row.ended && old.event == row.event && old.period == row.period
        }
        None => false,
    }
}

/// Updates the counts of unended rows as `row` replaces `old`, or is added if `old` is `None`.
/// `old` must be counted if it is unended, and the capacity must be at least the number of rows
/// that are then counted in all.
fn update_counts_for_put(periods: &mut Vec<PeriodCount>, old: &Option<Row>, row: &Row)
    requires stand { AreInOrder periods.old.items }
    requires some { (q : AnyEvent → AnyPeriod → Bool) →
        one_if q old.now ≤ counted q periods.old.items }
    requires room { counted any_period periods.old.items + one_of any_period row.now
        ≤ vec_capacity periods.old + one_if any_period old.now }
    ensures stand { AreInOrder periods.new.items }
    ensures told { (q : AnyEvent → AnyPeriod → Bool) →
        counted q periods.new.items + one_if q old.now
        ≡ counted q periods.old.items + one_of q row.now }
    ensures capacity { vec_capacity periods.old ≤ vec_capacity periods.new }
{
    if count_alike(old, row) {
        return;
    }
    take_off_if(periods, old);
    add_if(periods, row);
}

/// Updates the counts of unended rows as `row` replaces `old`, or is added if `old` is `None`; does
/// nothing if `row` is `None`. `old` must be counted if it is unended, and the capacity must be at
/// least the number of rows that are then counted in all.
pub fn update_counts_if_put(periods: &mut Vec<PeriodCount>, old: &Option<Row>, row: &Option<Row>)
    requires stand { AreInOrder periods.old.items }
    requires some { (q : AnyEvent → AnyPeriod → Bool) →
        one_if q old.now ≤ counted q periods.old.items }
    requires room { counted any_period periods.old.items + one_if any_period row.now
        ≤ vec_capacity periods.old + one_if any_period old.now }
    ensures stand { AreInOrder periods.new.items }
    ensures told { AreCountedWith old.now row.now periods.old.items periods.new.items }
    ensures capacity { vec_capacity periods.old ≤ vec_capacity periods.new }
{
    match row {
        Some(row) => update_counts_for_put(periods, old, row),
        None => {}
    }
}

/// Returns how many of the counts are of events that come before `e` by year, number and hazard.
/// `periods` is in order by event (year, number, hazard), then end, a later one first, then begin.
fn events_before(periods: &[PeriodCount], e: &Event) -> usize
    requires { IsStrictlySortedBy by_period periods.now }
    ensures value { result ≡ prefix_len (λ x. is_lt (by_year x.event e.now)) periods.now }
    ensures bound { result ≤ length periods.now }
{
    periods.partition_point(
        |x: &PeriodCount| -> bool
            ensures { result ≡ is_lt (by_year x.now.event e.entry.now) }
        { order_by_year(&x.event, e).is_lt() },
    )
}

/// Returns the latest end of an event's unended rows, or `None` if it has no unended row. `periods`
/// is in order by event (year, number, hazard), then end, a later one first, so this is the end of
/// the event's first count.
pub fn latest_in(periods: &[PeriodCount], e: &Event) -> Option<End>
    requires { IsStrictlySortedBy by_period periods.now }
    ensures { result ≡ latest_in periods.now e.now }
{
    let place = events_before(periods, e);
    if place >= periods.len() {
        return None;
    }
    let found = &periods[place];
    if found.event == *e {
        Some(found.period.end)
    } else {
        None
    }
}

/// Returns how many of the counts come before those with the event and end of `key`: those of
/// earlier events, and those of the same event with later ends. `periods` is in order by event
/// (year, number, hazard), then end, a later one first, then begin; the begin and `rows` of `key`
/// are not read.
fn ends_before(periods: &[PeriodCount], key: &PeriodCount) -> usize
    requires { IsStrictlySortedBy by_period periods.now }
    ensures value { result ≡ prefix_len (λ x. is_lt (by_event_end x key.now)) periods.now }
    ensures bound { result ≤ length periods.now }
{
    periods.partition_point(
        |x: &PeriodCount| -> bool
            ensures { result ≡ is_lt (by_event_end x.now key.entry.now) }
        { order_of_ends(x, key).is_lt() },
    )
}

/// Whether one of the counts has the event and end of `key` and a begin at `t` or before. `periods`
/// is in order by event (year, number, hazard), then end, a later one first, then begin, an earlier
/// one first, so only the first count with that event and end is read.
fn has_begun(periods: &[PeriodCount], key: &PeriodCount, t: Minute) -> bool
    requires { IsStrictlySortedBy by_period periods.now }
    ensures { result ≡ begun_in periods.now key.now t }
{
    let place = ends_before(periods, key);
    if place >= periods.len() {
        return false;
    }
    let found = &periods[place];
    order_of_ends(found, key).is_eq() && found.period.begin.get() <= t.get()
}

/// Whether event `e` has an unended row that ends after `t` and has the period `p`. Two begins that
/// are both at `t` or before count as equal. `periods` is in order by event (year, number, hazard),
/// then end, a later one first, then begin.
pub fn has_period(periods: &[PeriodCount], t: Minute, e: &Event, p: &Period) -> bool
    requires { AreInOrder periods.now }
    ensures { result ≡ same_in periods.now e.now p.now t }
{
    let key = PeriodCount {
        event: *e,
        period: *p,
        rows: 0,
    };
    if !ends_after(&p.end, t) {
        return false;
    }
    if p.begin.get() <= t.get() {
        has_begun(periods, &key, t)
    } else {
        place_of(periods, &key).is_ok()
    }
}
