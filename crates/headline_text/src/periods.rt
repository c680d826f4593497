//! The period of an event, in words.
ghost use Rattle.std.specs.Prelude.{◌≡◌, [], IfOk};
ghost use Rattle.headline_text.specs.Periods.{until_of, from_of, period_of};

use desk_clock::local_short;
use hazard_types::{End, LocalZone, Minute, Oom, Text};
use std::alloc::Global;

/// The bytes that most periods have at most, for which memory is taken at once.
pub(crate) const PERIOD_ROOM: usize = 64;

/// Returns an empty text with a capacity of `room` bytes.
pub(crate) fn empty_text(alloc: Global, room: usize) -> Result<Text, Oom>
    ensures { IfOk result (λ text. text ≡ []) }
{
    Ok(Text::from_vec(Vec::with_capacity(alloc, room)?))
}

/// Returns `until E`, where E is the end as a local time of `zone`, as `600 PM EST Wed Jan 3`, or
/// `until further notice` if it is that.
fn until_text(alloc: Global, zone: LocalZone, end: &End) -> Result<Text, Oom>
    ensures { IfOk result (λ text. text ≡ until_of zone end.now) }
{
    match end {
        End::At(end) => {
            let mut text = empty_text(alloc, PERIOD_ROOM)?;
            text.extend(b"until ")?;
            text.extend(local_short(alloc, zone, *end)?.as_slice())?;
            Ok(text)
        }
        End::Ufn => Text::from_slice(alloc, b"until further notice"),
    }
}

/// Returns `from B to E`, where B and E are begin and end as local times of `zone`, as `600 PM EST
/// Wed Jan 3`, or `from B until further notice`.
fn from_text(alloc: Global, zone: LocalZone, begin: Minute, end: &End) -> Result<Text, Oom>
    ensures { IfOk result (λ text. text ≡ from_of zone begin end.now) }
{
    let mut text = empty_text(alloc, PERIOD_ROOM)?;
    text.extend(b"from ")?;
    text.extend(local_short(alloc, zone, begin)?.as_slice())?;
    match end {
        End::At(end) => {
            text.extend(b" to ")?;
            text.extend(local_short(alloc, zone, *end)?.as_slice())?;
        }
        End::Ufn => text.extend(b" until further notice")?,
    }
    Ok(text)
}

/// Returns the words of a period in a product of issue minute `t`: `until E` if its begin is `t`,
/// earlier or `None`, else `from B to E`. With an end until further notice they are `until further
/// notice` or `from B until further notice`. Times are local times of `zone`, as `600 PM EST Wed
/// Jan 3`.
///
/// # Errors
///
/// Out of memory.
///
/// Source: docs/PRODUCTS.md, "Headlines"; docs/DECISIONS.md, "Headlines and wrapped text".
#[tactic(auto, unfolding(crate::specs::Periods::period_of))]
pub fn period_text(
    alloc: Global,
    zone: LocalZone,
    t: Minute,
    begin: &Option<Minute>,
    end: &End,
) -> Result<Text, Oom>
    ensures { IfOk result (λ text. text ≡ period_of zone t begin.now end.now) }
{
    match begin {
        Some(begin) => {
            if begin.get() <= t.get() {
                until_text(alloc, zone, end)
            } else {
                from_text(alloc, zone, *begin, end)
            }
        }
        None => until_text(alloc, zone, end),
    }
}
