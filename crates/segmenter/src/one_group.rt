//! The segment of lines that are all of one group, made without maps.
ghost use Rattle.std.specs.Prelude.{◌≡◌, ◌∷◌, [], true, IfOk};
ghost use Rattle.std.specs.List.{list_all};
ghost use Rattle.hazard_types.specs.declared.line.Line.{Line as AnyLine};
ghost use Rattle.segmenter.specs.Groups.{group_of, same_group};
ghost use Rattle.segmenter.specs.OneGroup.{are_of_one_group, lines_without_zones};
ghost use Rattle.segmenter.specs.Steps.{groups_of, heads_of, classes_of, segments_of};

use crate::groups::{Group, Ordered, group_of, without_zone};
use hazard_types::{Line, List, Oom, Segment, Zone};
use std::alloc::Global;

/// Whether the line's group is `group`: it has the group's zone, and is of its FL event, or of no
/// FL event if the group has none.
fn is_of_group(line: &Line, group: &Group) -> bool
    ensures { result ≡ same_group (group_of line.now) group.now }
{
    group_of(line) == *group
}

/// Whether all lines are of the group.
fn are_of_group(lines: &[Line], group: &Group) -> bool
    ensures { result
        ≡ list_all (λ (line : AnyLine). same_group (group_of line) group.now) lines.now }
{
    lines.iter().all(|line| is_of_group(line, group))
}

/// Whether all lines are of one zone and either all of one FL event or none of any; true for no
/// lines.
pub fn are_of_one_group(lines: &[Line]) -> bool
    ensures { result ≡ are_of_one_group lines.now }
{
    match lines {
        [] => true,
        [first, ..] => {
            let group = group_of(first);
            are_of_group(lines, &group)
        }
    }
}

/// Returns the lines without their zones, by action (from UPG to ROU), then event, ties as in
/// `lines`.
fn lines_without_zones(alloc: Global, lines: &[Line]) -> Result<Ordered, Oom>
    ensures { IfOk result (λ ordered. ordered ≡ lines_without_zones lines.now) }
{
    let mut ordered = Ordered::with_room(alloc, lines.len())?;
    for line in lines {
        ordered.place(&without_zone(line))?;
    }
    Ok(ordered)
}

/// Returns the segment whose only zone is `zone`, with these lines.
fn segment_of(alloc: Global, zone: Zone, lines: Ordered) -> Result<Segment, Oom>
    ensures { IfOk result (λ segment. segment ≡ record { zones = zone ∷ []; lines = lines }) }
{
    let zones = List::from_slice(alloc, &[zone])?;
    Ok(Segment {
        zones,
        lines: List::from_vec(lines.into_vec()),
    })
}

/// Returns a list of one segment.
fn list_of(alloc: Global, segment: Segment) -> Result<List<Segment>, Oom>
    ensures { IfOk result (λ segments. segments ≡ segment ∷ []) }
{
    let mut segments = List::new(alloc);
    segments.push(segment)?;
    Ok(segments)
}

/// Returns a list of the one segment of lines that are all of one group (of one zone, and all of
/// one FL event or none of any), or an empty list if there is no line.
///
/// # Errors
///
/// Out of memory.
pub fn segments_of_one(alloc: Global, lines: &[Line]) -> Result<List<Segment>, Oom>
    requires { are_of_one_group lines.now ≡ true }
    ensures { IfOk result
        (λ segments. segments ≡ segments_of (classes_of (heads_of (groups_of lines.now)))) }
{
    match lines {
        [] => Ok(List::new(alloc)),
        [first, ..] => {
            let ordered = lines_without_zones(alloc, lines)?;
            let segment = segment_of(alloc, first.zone, ordered)?;
            list_of(alloc, segment)
        }
    }
}
