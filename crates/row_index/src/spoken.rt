//! A set of the keys of a product's lines, which mostly come in ascending order.
ghost use Rattle.std.specs.Prelude.{◌≡◌, true, [], IfOk, OnOk};
ghost use Rattle.row_index.specs.Seating.{key_of_line, has_seat};
ghost use Rattle.row_index.specs.Risen.{is_after_last_key, last_said, rising_with, seats_of, IsFree, Joins, Says};

use crate::keys::add_key;
use crate::parts::EventKey;
use crate::seats::{Seat, Seats, Spot, add_seat, has_seat};
use hazard_types::{Line, Oom};
use std::alloc::Global;
use std::collections::BTreeSet;

/// The keys (zone and event) of lines. Those that ascend are in a list, until one comes that is not
/// after the last of them; then they are moved to the set.
#[derive(Drop)]
pub struct SeenKeys {
    pub last: Option<Seat>,
    pub rising: Vec<Seat>,
    pub others: Seats,
}

/// Returns the key of a line: its zone and event.
fn key_of_line(line: &Line) -> Seat
    ensures { result ≡ key_of_line line.now }
{
    let spot = Spot::At(EventKey { event: line.event });
    Seat {
        zone: line.zone,
        spot,
    }
}

/// Whether `seat` comes after `last` by zone, then event, or `last` is `None`.
fn is_after_last_key(last: &Option<Seat>, seat: &Seat) -> bool
    ensures { result ≡ is_after_last_key last.now seat.now }
{
    match last {
        Some(last) => last.cmp(seat).is_lt(),
        None => true,
    }
}

/// Moves the keys of `rising` to the set `others`, and leaves `rising` empty.
fn move_to_set(rising: &mut Vec<Seat>, others: &mut Seats) -> Result<(), Oom>
    ensures none { OnOk result (rising.new.items ≡ []) }
    ensures all { OnOk result (Joins rising.old.items others.old.keys others.new.keys) }
{
    join(rising, others)?;
    rising.clear();
    Ok(())
}

/// Adds the keys `seats` to the set `others`; some may be there already.
fn join(seats: &[Seat], others: &mut Seats) -> Result<(), Oom>
    ensures { OnOk result (Joins seats.now others.old.keys others.new.keys) }
{
    for seat in seats {
        add_key(others, *seat)?;
    }
    Ok(())
}

/// Appends the key (zone and event) of a line to `rising` and makes it `last`, if `counts` is true;
/// otherwise changes nothing.
fn push_ascending(
    last: &mut Option<Seat>,
    rising: &mut Vec<Seat>,
    counts: bool,
    line: &Line,
) -> Result<(), Oom>
    ensures rising { OnOk result (rising.new.items ≡ rising_with counts line.now rising.old.items) }
    ensures last { OnOk result (last.new ≡ last_said counts line.now last.old) }
{
    if counts {
        rising.push(key_of_line(line))?;
        *last = Some(key_of_line(line));
    }
    Ok(())
}

impl SeenKeys {
    /// Returns an empty set of keys.
    pub fn new(alloc: Global) -> Self
        ensures none { seats_of result.rising.items result.others.keys ≡ [] }
        ensures free { IsFree result.last result.rising.items }
    {
        SeenKeys {
            last: None,
            rising: Vec::new(alloc),
            others: BTreeSet::new(alloc),
        }
    }

    /// Returns whether the key (zone and event) of a line is there already, and appends it to the
    /// ascending keys if `counts` is true. The key must come after `last` by zone, then event,
    /// unless `last` is `None`.
    fn mark_seen_ascending(&mut self, counts: bool, line: &Line) -> Result<bool, Oom>
        requires free { IsFree self.old.last self.old.rising.items }
        requires behind { is_after_last_key self.old.last (key_of_line line.now) ≡ true }
        ensures second { IfOk result (λ second. second
            ≡ has_seat (seats_of self.old.rising.items self.old.others.keys) (key_of_line line.now)) }
        ensures said { OnOk result (Says (seats_of self.old.rising.items self.old.others.keys)
            (seats_of self.new.rising.items self.new.others.keys) counts line.now) }
        ensures free { OnOk result (IsFree self.new.last self.new.rising.items) }
    {
        let second = has_seat(&self.others, &line.event, &line.zone);
        push_ascending(&mut self.last, &mut self.rising, counts, line)?;
        Ok(second)
    }

    /// Returns whether the key (zone and event) of a line is there already, and adds it to the set
    /// if `counts` is true. The ascending keys are moved to the set first.
    fn mark_seen_in_set(&mut self, counts: bool, line: &Line) -> Result<bool, Oom>
        ensures second { IfOk result (λ second. second
            ≡ has_seat (seats_of self.old.rising.items self.old.others.keys) (key_of_line line.now)) }
        ensures said { OnOk result (Says (seats_of self.old.rising.items self.old.others.keys)
            (seats_of self.new.rising.items self.new.others.keys) counts line.now) }
        ensures free { OnOk result (IsFree self.new.last self.new.rising.items) }
    {
        move_to_set(&mut self.rising, &mut self.others)?;
        let second = has_seat(&self.others, &line.event, &line.zone);
        add_seat(&mut self.others, counts, line)?;
        Ok(second)
    }

    /// Returns whether the key (zone and event) of a line is there already, and adds it if `counts`
    /// is true.
    ///
    /// # Errors
    ///
    /// Out of memory.
    pub fn mark_seen(&mut self, counts: bool, line: &Line) -> Result<bool, Oom>
        requires { IsFree self.old.last self.old.rising.items }
        ensures second { IfOk result (λ second. second
            ≡ has_seat (seats_of self.old.rising.items self.old.others.keys) (key_of_line line.now)) }
        ensures said { OnOk result (Says (seats_of self.old.rising.items self.old.others.keys)
            (seats_of self.new.rising.items self.new.others.keys) counts line.now) }
        ensures free { OnOk result (IsFree self.new.last self.new.rising.items) }
    {
        if is_after_last_key(&self.last, &key_of_line(line)) {
            self.mark_seen_ascending(counts, line)
        } else {
            self.mark_seen_in_set(counts, line)
        }
    }
}
