//! Rows on shelves: a row that is put moves those of its own shelf alone.
ghost use Rattle.std.specs.Prelude.{◌≡◌, ◌≤◌, ◌<◌, ◌+◌, ◌-◌, ◌++◌, ℕ, [], length, drop, get_or, IfOk, IfSome, OnOk, OnErr, if◌then◌else◌};
ghost use Rattle.std.specs.List.Sorted.{IsStrictlySortedBy};
ghost use Rattle.std.specs.Ordering.{is_le};
ghost use Rattle.std.specs.Vec.{vec_len, vec_capacity};
ghost use Rattle.hazard_types.specs.Places.{by_place};
ghost use Rattle.event_life.specs.Products.{by_key, put, row_at};
ghost use Rattle.event_life.specs.Shown.{shown_at};
ghost use Rattle.hazard_board.specs.Board.{by_row_event, slice_of};
ghost use Rattle.hazard_board.specs.Shelves.{on_shelves, HoldSame, by_from, through, least_room, HaveRoom, AreShelved, AreKept, IsCut, IsZoneAt};
ghost use Rattle.hazard_board.specs.declared.shelves.Shelf.{Shelf as AnyShelf};

use crate::searches::{put, row_at, rows_before, rows_through, slice_of};
use event_life::is_live;
use hazard_types::{Event, Minute, Oom, Row, Zone};
use std::alloc::{AllocError, Global};
use std::marker::Model;

/// A shelf with more rows than this is long.
const LIMIT: usize = 64;

/// The rows of zones from a first one on, up to the first zone of the next shelf.
#[derive(Drop)]
struct Shelf {
    from: Zone,
    rows: Vec<Row>,
}

/// Rows by zone, then event, on shelves in the order of zones. All rows of a zone are on one shelf,
/// and a long shelf is split where a zone starts.
///
/// Source: docs/DECISIONS.md, "Plans".
#[derive(Drop)]
pub struct Shelves {
    // The rows of zones before those of the later shelves.
    first: Vec<Row>,
    later: Vec<Shelf>,
}

impl Model for Shelves {
    ghost use Rattle.std.specs.Prelude.{◌-◌, ◌++◌};
    ghost use Rattle.std.specs.Vec.{vec_len, vec_capacity};
    ghost use Rattle.hazard_board.specs.Board.{Posted};

    ghost Value = { Posted };

    ghost use Rattle.hazard_board.specs.Shelves.{on_shelves, least_room, AreShelved};

    ghost view = { λ s. record { rows = s.first.items ++ on_shelves s.later.items; spare = least_room (vec_capacity s.first - vec_len s.first) s.later.items } };

    ghost invariant = { λ s. AreShelved s.first.items s.later.items };
}

/// Returns how many of the shelves, which are in the order of zones, start with `z` or with a zone
/// before it.
fn shelves_through(later: &[Shelf], z: &Zone) -> usize
    requires { IsStrictlySortedBy by_from later.now }
    ensures value { result ≡ through z.now later.now }
    ensures bound { result ≤ length later.now }
{
    later.partition_point(
        |shelf: &Shelf| -> bool
            ensures { result ≡ is_le (by_place shelf.now.from z.entry.now) }
        { shelf.from.cmp(z).is_le() },
    )
}

/// Inserts a row into `rows`, which are in order by zone, then event, or replaces the one with its
/// zone and event. The capacity of `rows` must be enough for it, so no memory is taken.
fn add_within(rows: &mut Vec<Row>, row: &Row)
    requires order { IsStrictlySortedBy by_key rows.old.items }
    requires room { length (put row.now rows.old.items) ≤ vec_capacity rows.old }
    ensures rows { rows.new.items ≡ put row.now rows.old.items }
    ensures capacity { vec_capacity rows.old ≤ vec_capacity rows.new }
{
    match put(rows, row) {
        Ok(()) => {}
        Err(_) => unreachable!(),
    }
}

/// Inserts a row into `rows`, which are in order by zone, then event, or replaces the one with its
/// zone and event, if that takes no memory, and returns whether it did. If not, nothing changes.
fn add_if_fits(rows: &mut Vec<Row>, row: &Row) -> bool
    requires { IsStrictlySortedBy by_key rows.old.items }
    ensures rows { rows.new.items
        ≡ (if result then put row.now rows.old.items else rows.old.items) }
    ensures capacity { vec_capacity rows.old ≤ vec_capacity rows.new }
{
    if rows.len() < rows.capacity() || row_at(rows, &row.event, &row.zone).is_some() {
        add_within(rows, row);
        true
    } else {
        false
    }
}

/// Returns the index at which to split rows, or `None` if they are at most 64 or all of one zone.
/// At this index a zone starts: the zone of the middle row, or the next one if that zone starts at
/// index 0. The rows are in order by zone, then event.
fn cut_of(rows: &[Row]) -> Option<usize>
    requires { IsStrictlySortedBy by_key rows.now }
    ensures { IfSome result (IsCut rows.now) }
{
    if rows.len() <= LIMIT {
        return None;
    }
    let z = &rows[rows.len() / 2].zone;
    let start = rows_before(rows, z);
    if 0 < start && start < rows.len() {
        return Some(start);
    }
    let end = rows_through(rows, z);
    if 0 < end && end < rows.len() {
        return Some(end);
    }
    None
}

/// Returns the rows from index `at` on as a shelf of their own, with capacity for `n` more rows.
fn shelf_from(alloc: Global, rows: &[Row], at: usize, n: usize) -> Result<Shelf, Oom>
    requires { at < length rows.now }
    ensures rows { IfOk result (λ shelf. shelf.rows.items ≡ drop at rows.now) }
    ensures from { IfOk result (λ shelf. IsZoneAt rows.now at shelf.from) }
    ensures room { IfOk result (λ shelf. vec_len shelf.rows + n ≤ vec_capacity shelf.rows) }
{
    let from = rows[at].zone;
    let mut back = Vec::from_slice(alloc, &rows[at..])?;
    back.reserve(n)?;
    Ok(Shelf { from, rows: back })
}

/// Splits the shelf at index `place` of `later` in two at index `at` of its rows, where a zone
/// starts. The second part is inserted behind it, with capacity for `n` more rows. `Err` is out of
/// memory; no row is lost.
fn split_shelf_at(later: &mut Vec<Shelf>, place: usize, at: usize, n: usize) -> Result<(), Oom>
    requires place { place < vec_len later.old }
    requires order { IsStrictlySortedBy by_key (on_shelves later.old.items) }
    requires cut { (shelf : AnyShelf) →
        shelf ≡ get_or later.old.items place shelf → IsCut shelf.rows.items at }
    ensures kept { AreKept n later.old.items later.new.items }
    ensures length { vec_len later.old ≤ vec_len later.new }
    ensures behind { HaveRoom n (drop (place + 1) later.old.items)
        → HaveRoom n (drop (place + 1) later.new.items) }
{
    let shelf = &later[place];
    let back = shelf_from(*shelf.rows.allocator(), &shelf.rows, at, n)?;
    later.insert(place + 1, back)?;
    let shelf = &mut later[place];
    shelf.rows.truncate(at);
    Ok(())
}

/// Splits the shelf at index `place` in two if it has more than 64 rows and not all are of one
/// zone. The second part has capacity for `n` more rows.
fn split_shelf(later: &mut Vec<Shelf>, place: usize, n: usize) -> Result<(), Oom>
    requires place { place < vec_len later.old }
    requires order { IsStrictlySortedBy by_key (on_shelves later.old.items) }
    ensures kept { AreKept n later.old.items later.new.items }
    ensures length { vec_len later.old ≤ vec_len later.new }
    ensures behind { HaveRoom n (drop (place + 1) later.old.items)
        → HaveRoom n (drop (place + 1) later.new.items) }
{
    let shelf = &later[place];
    match cut_of(&shelf.rows) {
        Some(at) => split_shelf_at(later, place, at, n),
        None => Ok(()),
    }
}

/// Reserves capacity for `n` more rows on each of the shelves, and splits in two each that has more
/// than 64 rows, not all of one zone. It goes from the last shelf to the first. `Err` is out of
/// memory; no row is lost.
fn reserve_shelves(later: &mut Vec<Shelf>, n: usize) -> Result<(), Oom>
    requires { IsStrictlySortedBy by_key (on_shelves later.old.items) }
    ensures kept { AreKept n later.old.items later.new.items }
    ensures ok { OnOk result (HaveRoom n later.new.items) }
{
    for place in (0..later.len()).rev() {
        split_shelf(later, place, n)?;
        let shelf = &mut later[place];
        shelf.rows.reserve(n)?;
    }
    Ok(())
}

/// Splits the rows of the first shelf in two if they are more than 64 and not all of one zone. The
/// second part becomes the first of `later`, with capacity for `n` more rows.
fn split_first_shelf(first: &mut Vec<Row>, later: &mut Vec<Shelf>, n: usize) -> Result<(), Oom>
    requires { AreShelved first.old.items later.old.items }
    ensures rows { HoldSame first.old.items later.old.items first.new.items later.new.items }
    ensures shelved { AreShelved first.new.items later.new.items }
    ensures spare { vec_capacity first.old - vec_len first.old
        ≤ vec_capacity first.new - vec_len first.new }
    ensures room { (m : ℕ) → m ≤ n → HaveRoom m later.old.items → HaveRoom m later.new.items }
{
    let Some(at) = cut_of(first) else {
        return Ok(());
    };
    let back = shelf_from(*first.allocator(), first, at, n)?;
    later.insert(0, back)?;
    first.truncate(at);
    Ok(())
}

/// Reserves capacity for `n` more rows on each shelf, `first` among them, and splits in two each
/// that has more than 64 rows, not all of one zone. `Err` is out of memory; no row is lost.
fn reserve_each(first: &mut Vec<Row>, later: &mut Vec<Shelf>, n: usize) -> Result<(), Oom>
    requires { AreShelved first.old.items later.old.items }
    ensures rows { HoldSame first.old.items later.old.items first.new.items later.new.items }
    ensures shelved { AreShelved first.new.items later.new.items }
    ensures spare { least_room (vec_capacity first.old - vec_len first.old) later.old.items ≤ n
        → least_room (vec_capacity first.old - vec_len first.old) later.old.items
        ≤ least_room (vec_capacity first.new - vec_len first.new) later.new.items }
    ensures ok { OnOk result
        (n ≤ least_room (vec_capacity first.new - vec_len first.new) later.new.items) }
{
    reserve_shelves(later, n)?;
    split_first_shelf(first, later, n)?;
    first.reserve(n)?;
    Ok(())
}

/// Returns those of the rows that are live at `t` (unended, with an end after `t`), in their order.
///
/// # Errors
///
/// Out of memory.
pub fn live(alloc: Global, rows: &[Row], t: Minute) -> Result<Vec<Row>, AllocError>
    ensures { IfOk result (λ live. live.items ≡ shown_at t rows.now) }
{
    rows.iter()
        .filter(|row| is_live(row, t))
        .copied()
        .collect(alloc)
}

impl Shelves {
    /// Returns shelves without a row, without capacity.
    pub fn new(alloc: Global) -> Self
        ensures { result.rows ≡ [] }
    {
        Shelves {
            first: Vec::new(alloc),
            later: Vec::new(alloc),
        }
    }

    /// Returns shelves with these rows, which are in order by zone, then event; all are on the
    /// first shelf.
    pub fn from_rows(rows: Vec<Row>) -> Self
        requires { IsStrictlySortedBy by_key rows.items }
        ensures { result.rows ≡ rows.items }
    {
        let alloc = *rows.allocator();
        Shelves {
            first: rows,
            later: Vec::new(alloc),
        }
    }

    /// Returns the allocator of the rows.
    pub fn allocator(&self) -> Global {
        *self.first.allocator()
    }

    /// Returns for how many more rows there is memory whatever their zones are: the least spare
    /// capacity of a shelf.
    fn spare(&self) -> usize
        ensures { result ≡ self.now.spare }
    {
        let mut least = self.first.capacity() - self.first.len();
        for shelf in &self.later {
            least = least.min(shelf.rows.capacity() - shelf.rows.len());
        }
        least
    }

    /// Takes memory for `n` more rows, in whatever zones. If there is not enough already, each
    /// shelf with more than 64 rows, not all of one zone, is split in two. No row changes.
    ///
    /// # Errors
    ///
    /// Out of memory.
    pub fn reserve(&mut self, n: usize) -> Result<(), Oom>
        ensures rows { self.new.rows ≡ self.old.rows }
        ensures spare { self.old.spare ≤ self.new.spare }
        ensures ok { OnOk result (n ≤ self.new.spare) }
        ensures err { OnErr result (self.old.spare < n) }
    {
        if n <= self.spare() {
            return Ok(());
        }
        reserve_each(&mut self.first, &mut self.later, n)
    }

    /// Returns the rows of the shelf on which the rows of zone `z` are, or would be if it had some,
    /// by zone, then event. Rows of other zones may be among them.
    fn shelf(&self, z: &Zone) -> &[Row]
        ensures rows { slice_of z.now result.now ≡ slice_of z.now self.now.rows }
        ensures order { IsStrictlySortedBy by_key result.now }
    {
        let place = shelves_through(&self.later, z);
        if place == 0 {
            &self.first
        } else {
            &self.later[place - 1].rows
        }
    }

    /// Returns the rows of a zone, by event.
    pub fn slice_of(&self, z: &Zone) -> &[Row]
        ensures rows { result.now ≡ slice_of z.now self.now.rows }
        ensures order { IsStrictlySortedBy by_row_event result.now }
    {
        slice_of(self.shelf(z), z)
    }

    /// Returns the row of an event in a zone, or `None` if there is none.
    pub fn row_at(&self, e: &Event, z: &Zone) -> Option<Row>
        ensures { result ≡ row_at self.now.rows e.now z.now }
    {
        row_at(self.shelf(z), e, z)
    }

    /// Inserts a row in the order by zone, then event, or replaces the one with its zone and event.
    /// `reserve` must have taken memory for it; only rows of the same shelf move.
    pub fn put(&mut self, row: &Row)
        requires { length (put row.now self.old.rows) ≤ self.old.spare + length self.old.rows }
        ensures rows { self.new.rows ≡ put row.now self.old.rows }
        ensures spare { self.old.spare + length self.old.rows
            ≤ self.new.spare + length self.new.rows }
    {
        let place = shelves_through(&self.later, &row.zone);
        if place == 0 {
            add_within(&mut self.first, row);
        } else {
            let shelf = &mut self.later[place - 1];
            add_within(&mut shelf.rows, row);
        }
    }

    /// Inserts a row in the order by zone, then event, if its shelf has spare capacity, or replaces
    /// the one with its zone and event, which takes no room. Returns whether it did either; if not,
    /// nothing changes.
    pub fn add_if_room(&mut self, row: &Row) -> bool
        ensures { self.new.rows ≡ (if result then put row.now self.old.rows else self.old.rows) }
    {
        let place = shelves_through(&self.later, &row.zone);
        if place == 0 {
            add_if_fits(&mut self.first, row)
        } else {
            let shelf = &mut self.later[place - 1];
            add_if_fits(&mut shelf.rows, row)
        }
    }

    /// Returns the rows that are live at `t` (unended, with an end after `t`), by zone, then event.
    ///
    /// # Errors
    ///
    /// Out of memory.
    pub fn shown(&self, alloc: Global, t: Minute) -> Result<Vec<Row>, Oom>
        ensures { IfOk result (λ shown. shown.items ≡ shown_at t self.now.rows) }
    {
        let mut shown = live(alloc, &self.first, t)?;
        for shelf in &self.later {
            let more = live(alloc, &shelf.rows, t)?;
            shown.extend_from_slice(&more)?;
        }
        Ok(shown)
    }
}
