//! The groups in the order of segments, and the zones that share a list of lines.
ghost use Rattle.std.specs.Prelude.{◌≡◌, IfOk, OnOk};
ghost use Rattle.segmenter.specs.Steps.{put, same_lines, pushed, add_head, heads_of, classes_of, segments_of, groups_view, heads_view, classes_view};

use crate::groups::{Group, Groups, Head};
use hazard_types::{List, Oom, SegLine, Segment, Zone};
use indexmap::IndexMap;
use std::alloc::Global;
use std::collections::BTreeMap;

/// The lists of lines of the groups, by zone and first event.
pub type Heads = BTreeMap<Head, Vec<SegLine>>;

/// The zones of each list of lines.
pub type Classes<'a> = IndexMap<&'a [SegLine], Vec<Zone>>;

/// Adds to `heads` the lines of a group, in the order of its segment, under the group's zone and
/// the event of their first line. Adds nothing if there is no line.
fn add_head(heads: &mut Heads, group: &Group, lines: Vec<SegLine>) -> Result<(), Oom>
    ensures { OnOk result (heads_view heads.new.entries
        ≡ add_head (heads_view heads.old.entries) group.now lines.items) }
{
    if let Some(line) = lines.first() {
        let head = Head {
            zone: group.zone,
            first: line.event,
        };
        heads.insert(head, lines)?;
    }
    Ok(())
}

/// Returns the lines of each group in the order of segments: by zone, then by the event of the
/// group's first line.
///
/// # Errors
///
/// Out of memory.
pub fn heads_of(alloc: Global, groups: Groups) -> Result<Heads, Oom>
    ensures { IfOk result
        (λ heads. heads_view heads.entries ≡ heads_of (groups_view groups.entries)) }
{
    let mut heads = BTreeMap::new(alloc);
    for (group, lines) in groups {
        add_head(&mut heads, &group, lines.into_vec())?;
    }
    Ok(heads)
}

/// Appends a zone to the zones of the list of lines `lines` in `classes`. A list that is not there
/// yet is added after the others.
fn add_zone<'a>(
    alloc: Global,
    classes: &mut Classes<'a>,
    lines: &'a [SegLine],
    zone: &Zone,
) -> Result<(), Oom>
    ensures { OnOk result (classes_view classes.new.entries
        ≡ put same_lines pushed (classes_view classes.old.entries) lines.now zone.now) }
{
    classes
        .entry(lines)?
        .or_insert(Vec::new(alloc))
        .push(*zone)?;
    Ok(())
}

/// Returns each distinct list of lines with the zones that have it: the lists in the order of their
/// first zones in `heads`, and the zones of each in that order.
///
/// # Errors
///
/// Out of memory.
pub fn classes_of<'a>(alloc: Global, heads: &'a Heads) -> Result<Classes<'a>, Oom>
    ensures { IfOk result
        (λ classes. classes_view classes.entries ≡ classes_of (heads_view heads.now.entries)) }
{
    let mut classes = IndexMap::new(alloc);
    for (head, lines) in heads {
        add_zone(alloc, &mut classes, lines.as_slice(), &head.zone)?;
    }
    Ok(classes)
}

/// Returns the segments: for each list of lines in `classes`, in order, one with this list and its
/// zones.
///
/// # Errors
///
/// Out of memory.
pub fn segments_of(alloc: Global, classes: &Classes<'_>) -> Result<List<Segment>, Oom>
    ensures { IfOk result (λ segments. segments ≡ segments_of (classes_view classes.now.entries)) }
{
    let mut segments = List::new(alloc);
    for (lines, zones) in classes {
        let zones = List::from_slice(alloc, zones.as_slice())?;
        let lines = List::from_slice(alloc, *lines)?;
        segments.push(Segment { zones, lines })?;
    }
    Ok(segments)
}
