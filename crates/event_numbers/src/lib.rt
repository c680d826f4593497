//! The event tracking numbers (ETN) of events, which count from 1 for each hazard and year.
//!
//! For crates that open events. One begins with `Numbers::next`, `Numbers::reserve` and
//! `Numbers::commit`.
#![tactic(auto)]

ghost use Rattle.std.specs.Prelude.{◌≡◌, ◌+◌, ◌<◌, ◌≤◌, [], length, true, false, IfOk, IfErr, OnOk, OnErr};
ghost use Rattle.std.specs.List.Sorted.{IsStrictlySortedBy, IsPartitionPoint};
ghost use Rattle.std.specs.Ordering.{is_lt};
ghost use Rattle.event_numbers.specs.Counts.{count_of, by_count, cmp_key, IsPlaceOf, IsGapFor, DrawsOne, DrawsAll, AreDrawnInOrder, AreNumbers};

use hazard_types::{Event, Hazard, Oom};
use std::alloc::Global;
use std::cmp::Ordering;
use std::marker::Model;

/// How many numbers of a hazard were drawn in a year.
#[derive(Clone, Copy)]
struct Count {
    hazard: Hazard,
    year: u16,
    count: u16,
}

/// The numbers drawn so far: a count for each hazard and year.
///
/// Source: NWS Instruction 10-1703, P-VTEC event tracking number; docs/PRODUCTS.md, "Which action a
/// line gets".
#[derive(Drop)]
pub struct Numbers {
    counted: Vec<Count>,
}

impl Model for Numbers {
    ghost use Rattle.std.specs.Prelude.{◌-◌};
    ghost use Rattle.std.specs.List.Sorted.{IsStrictlySortedBy};
    ghost use Rattle.std.specs.Vec.{vec_len, vec_capacity};
    ghost use Rattle.event_numbers.specs.Counts.{Drawn, AreNumbers, by_count};

    ghost Value = { Drawn };

    ghost view = { λ n.
        record { counts = n.counted.items; spare = vec_capacity n.counted - vec_len n.counted } };

    ghost invariant = { λ n.
        IsStrictlySortedBy by_count n.counted.items × AreNumbers n.counted.items };
}

/// Returns whether the hazard and year of a count come before `h` and `year` (`Less`), after them
/// or are the same. The order is by hazard, then by year.
fn cmp_key(count: &Count, h: &Hazard, year: u16) -> Ordering
    ensures { result ≡ cmp_key h.now year count.now }
{
    count.hazard.cmp(h).then(count.year.cmp(&year))
}

/// Returns how many of the counts come before that of hazard `h` and `year`. They must be in order
/// by hazard, then year.
fn counts_before(counted: &[Count], h: &Hazard, year: u16) -> usize
    requires { IsStrictlySortedBy by_count counted.now }
    ensures bound { result ≤ length counted.now }
    ensures point { IsPartitionPoint (λ c. is_lt (cmp_key h.now year c) ≡ true)
        (λ c. is_lt (cmp_key h.now year c) ≡ false) counted.now result }
{
    counted.partition_point(
        |count: &Count| -> bool
            ensures { result ≡ is_lt (cmp_key h.entry.now year count.now) }
        { cmp_key(count, h, year).is_lt() },
    )
}

/// Returns the index of the count of hazard `h` and `year` in `counted`, or as `Err` the index at
/// which it belongs. The counts must be in order by hazard, then year.
fn find_count(counted: &[Count], h: &Hazard, year: u16) -> Result<usize, usize>
    requires { IsStrictlySortedBy by_count counted.now }
    ensures found { IfOk result (IsPlaceOf h.now year counted.now) }
    ensures absent { IfErr result (IsGapFor h.now year counted.now) }
{
    let place = counts_before(counted, h, year);
    if place >= counted.len() {
        return Err(place);
    }
    let found = &counted[place];
    if cmp_key(found, h, year).is_eq() {
        Ok(place)
    } else {
        Err(place)
    }
}

/// Returns how many numbers of hazard `h` were drawn in `year`, or 0 if it has no count. The counts
/// must be in order by hazard, then year.
fn count_of(counted: &[Count], h: &Hazard, year: u16) -> u16
    requires { IsStrictlySortedBy by_count counted.now }
    ensures { result ≡ count_of counted.now h.now year }
{
    match find_count(counted, h, year) {
        Ok(place) => counted[place].count,
        Err(_) => 0,
    }
}

impl Numbers {
    /// Returns numbers of which none is drawn yet, without capacity.
    pub fn new(alloc: Global) -> Self
        ensures { result.counts ≡ [] }
    {
        Numbers {
            counted: Vec::new(alloc),
        }
    }

    /// Reserves memory for `n` draws, of whatever hazards and years. If it fails, nothing changes.
    ///
    /// # Errors
    ///
    /// Out of memory.
    pub fn reserve(&mut self, n: usize) -> Result<(), Oom>
        ensures counts { self.new.counts ≡ self.old.counts }
        ensures spare { self.old.spare ≤ self.new.spare }
        ensures ok { OnOk result (n ≤ self.new.spare) }
        ensures err { OnErr result (self.old.spare < n) }
    {
        self.counted.reserve(n)?;
        Ok(())
    }

    /// Returns the event tracking number that the next event of hazard `h` gets in `year`: one more
    /// than how many numbers of it were drawn in that year. 10,000 means that all numbers of four
    /// digits are drawn.
    pub fn next(&self, h: Hazard, year: u16) -> u16
        ensures value { result ≡ count_of self.now.counts h year + 1 }
        ensures range { result ≤ 10000 }
    {
        count_of(&self.counted, &h, year) + 1
    }

    /// Draws the number of hazard `h` and `year` that `next` returns: adds one to the count of
    /// those drawn. The number must be at most 9,999, and `reserve` must have taken memory for a
    /// draw.
    pub fn commit(&mut self, h: Hazard, year: u16)
        requires number { count_of self.old.counts h year + 1 ≤ 9999 }
        requires spare { 0 < self.old.spare }
        ensures drawn { DrawsOne self.old.counts self.new.counts h year }
        ensures spare { self.old.spare ≤ self.new.spare + 1 }
    {
        match find_count(&self.counted, &h, year) {
            Ok(place) => {
                let count = &mut self.counted[place];
                count.count += 1;
            }
            Err(place) => {
                let first = Count {
                    hazard: h,
                    year,
                    count: 1,
                };
                match self.counted.insert(place, first) {
                    Ok(()) => {}
                    Err(_) => unreachable!(),
                }
            }
        }
    }

    /// Draws one number of the hazard and year of each event, in the order of `events`, as `commit`
    /// does. Each number drawn must be at most 9,999, and `reserve` must have taken memory for as
    /// many draws. The numbers that the events have are not looked at.
    pub fn draw(&mut self, events: &[Event])
        requires numbers { AreDrawnInOrder self.old.counts events.now }
        requires spare { length events.now ≤ self.old.spare }
        ensures drawn { DrawsAll self.old.counts self.new.counts events.now }
        ensures spare { self.old.spare ≤ self.new.spare + length events.now }
    {
        for event in events {
            self.commit(event.hazard, event.year);
        }
    }
}
