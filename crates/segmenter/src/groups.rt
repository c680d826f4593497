//! The groups of lines, and the lines of each in order.
ghost use Rattle.std.specs.Prelude.{◌≡◌, ◌≤◌, not, [], length, insert, IfOk, OnOk};
ghost use Rattle.std.specs.Ordering.{is_lt};
ghost use Rattle.segmenter.specs.Groups.{flood_event, group_of, without_zone, same_group, action_rank, by_line, placed};
ghost use Rattle.segmenter.specs.Laws.{AreInOrder};
ghost use Rattle.segmenter.specs.Steps.{put, groups_of, groups_view};

use hazard_types::{Action, Event, Line, Oom, SegLine, Zone, is_fl_phenomenon};
use indexmap::IndexMap;
use std::alloc::Global;
use std::cmp::Ordering;
use std::marker::Model;

/// The key of a group: the zone, and the event if its phenomenon is FL.
#[derive(Clone, Copy, PartialEq, Eq, Hash)]
pub struct Group {
    pub zone: Zone,
    pub flood: Option<Event>,
}

/// The key by which segments are ordered: the first zone, then the event of the first line.
#[derive(Clone, Copy, PartialEq, Eq, PartialOrd, Ord)]
pub struct Head {
    pub zone: Zone,
    pub first: Event,
}

/// The lines of a segment, by action, then event.
#[derive(Drop)]
pub struct Ordered {
    lines: Vec<SegLine>,
}

impl Model for Ordered {
    ghost use Rattle.std.specs.Prelude.{List};
    ghost use Rattle.hazard_types.specs.declared.line.SegLine.{SegLine as AnyLine};
    ghost use Rattle.segmenter.specs.Laws.{AreInOrder};

    ghost Value = { List AnyLine };

    ghost view = { λ o. o.lines.items };

    ghost invariant = { λ o. AreInOrder o.lines.items };
}

/// The lines of each group.
pub type Groups = IndexMap<Group, Ordered>;

/// Returns the event if its phenomenon is FL, since its lines then have a group of their own;
/// otherwise `None`.
///
/// Source: docs/DECISIONS.md, "Segments" (flood hazards).
fn flood_event(event: &Event) -> Option<Event>
    ensures { result ≡ flood_event event.now }
{
    if is_fl_phenomenon(&event.hazard) {
        Some(*event)
    } else {
        None
    }
}

/// Returns the key of a line's group: its zone, and its event if the phenomenon is FL.
pub fn group_of(line: &Line) -> Group
    ensures { result ≡ group_of line.now }
{
    Group {
        zone: line.zone,
        flood: flood_event(&line.event),
    }
}

/// Returns a line without its zone, as a segment has it.
pub fn without_zone(line: &Line) -> SegLine
    ensures { result ≡ without_zone line.now }
{
    SegLine {
        action: line.action,
        event: line.event,
        begin: line.begin,
        end: line.end,
        flood: line.flood,
    }
}

/// Returns the rank of an action in the order of a segment's lines, from 0 for UPG to 9 for ROU.
///
/// Source: docs/PRODUCTS.md, "Segments".
fn action_rank(action: &Action) -> u8
    ensures { result ≡ action_rank action.now }
{
    match action {
        Action::Upg => 0,
        Action::Can => 1,
        Action::Exp => 2,
        Action::New => 3,
        Action::Exb => 4,
        Action::Exa => 5,
        Action::Ext => 6,
        Action::Con => 7,
        Action::Cor => 8,
        Action::Rou => 9,
    }
}

/// Returns how the line `a` compares with `b` in the order of a segment's lines: by action, from
/// UPG to ROU, then by event.
fn by_line(a: &SegLine, b: &SegLine) -> Ordering
    ensures { result ≡ by_line a.now b.now }
{
    action_rank(&a.action)
        .cmp(&action_rank(&b.action))
        .then(a.event.order(&b.event))
}

/// Returns the index of the first of `lines` that comes after `line` by action (from UPG to ROU),
/// then event, or their count if there is none. `lines` must be in this order. Lines mostly come in
/// order, so the last is compared first.
fn insertion_index(lines: &[SegLine], line: &SegLine) -> usize
    requires { AreInOrder lines.now }
    ensures range { result ≤ length lines.now }
    ensures placed { insert lines.now result line.now ≡ placed line.now lines.now }
{
    if lines.is_empty() {
        return 0;
    }
    let last = lines.len() - 1;
    if !by_line(line, &lines[last]).is_lt() {
        return lines.len();
    }
    lines.partition_point(
        |other: &SegLine| -> bool
            ensures { result ≡ not (is_lt (by_line line.entry.now other.now)) }
        { !by_line(line, other).is_lt() },
    )
}

impl Ordered {
    /// Returns an empty list of lines, which takes no memory.
    fn new(alloc: Global) -> Self
        ensures { result ≡ [] }
    {
        Ordered {
            lines: Vec::new(alloc),
        }
    }

    /// Returns an empty list of lines with room for `n` of them.
    ///
    /// # Errors
    ///
    /// Out of memory.
    pub fn with_room(alloc: Global, n: usize) -> Result<Self, Oom>
        ensures { IfOk result (λ ordered. ordered ≡ []) }
    {
        Ok(Ordered {
            lines: Vec::with_capacity(alloc, n)?,
        })
    }

    /// Inserts a line before the first one that comes after it by action (from UPG to ROU), then
    /// event, or at the end if there is none.
    ///
    /// # Errors
    ///
    /// Out of memory.
    pub fn place(&mut self, line: &SegLine) -> Result<(), Oom>
        ensures { OnOk result (self.new ≡ placed line.now self.old) }
    {
        let place = insertion_index(&self.lines, line);
        self.lines.insert(place, *line)?;
        Ok(())
    }

    /// Returns the lines by action (from UPG to ROU), then event.
    pub fn into_vec(self) -> Vec<SegLine>
        ensures { result.items ≡ self }
    {
        self.lines
    }
}

/// Inserts a line into its group, in order by action, then event. If there is no such group yet, it
/// is appended.
fn add_line(alloc: Global, groups: &mut Groups, line: &Line) -> Result<(), Oom>
    ensures { OnOk result (groups_view groups.new.entries ≡ put same_group placed
        (groups_view groups.old.entries) (group_of line.now) (without_zone line.now)) }
{
    let lines = groups.entry(group_of(line))?.or_insert(Ordered::new(alloc));
    lines.place(&without_zone(line))?;
    Ok(())
}

/// Returns the groups of the lines, in the order of their first lines in `lines`; a group is a zone
/// with its lines of one FL event, or with all its other lines. The lines of each are by action,
/// then event, ties as in `lines`.
///
/// # Errors
///
/// Out of memory.
pub fn groups_of(alloc: Global, lines: &[Line]) -> Result<Groups, Oom>
    ensures { IfOk result (λ groups. groups_view groups.entries ≡ groups_of lines.now) }
{
    let mut groups = IndexMap::new(alloc);
    for line in lines {
        add_line(alloc, &mut groups, line)?;
    }
    Ok(groups)
}
