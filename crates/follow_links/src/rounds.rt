//! Rounds of questions, over one link after another.
ghost use Rattle.std.specs.Prelude.{◌≡◌, ◌<◌, ◌+◌, ◌^◌};
ghost use Rattle.follow_links.specs.Rounds.{Courses, stop_with};

use crate::answers::ROOM;
use crate::talk::{LinkEnd, talk};
use desk_links::Dialer;
use desk_traits::Failed;
use follow_core::Follower;
use httparse::spans::EMPTY_HEADER_SPAN;
use std::alloc::Global;

/// Why a run asks no more.
#[derive(Clone, Copy, Debug, PartialEq, Eq)]
pub enum Stop {
    /// All rounds were made.
    Spent,
    /// The office has no further product.
    Ended,
    /// An answer is bad.
    Bad,
    OutOfMemory,
}

/// Returns why a run asks no more after it has left a link in the way `end`. `None` if it goes on
/// with another link, which it does if the link failed or an answer closed it.
fn stop_with(end: LinkEnd) -> Option<Stop>
    ensures { result ≡ stop_with end }
{
    match end {
        LinkEnd::Closed | LinkEnd::Failed => None,
        LinkEnd::Spent => Some(Stop::Spent),
        LinkEnd::Ended => Some(Stop::Ended),
        LinkEnd::Bad => Some(Stop::Bad),
        LinkEnd::OutOfMemory => Some(Stop::OutOfMemory),
    }
}

/// Asks for the products after those that the follower has, adds them to it, and returns why it
/// stopped, which is after at most `rounds` rounds. A round is a dial that failed, or a question on
/// a link. All links are returned to the dialer.
///
/// Source: docs/FOLLOWING.md, "A round".
pub fn follow_rounds<D: Dialer>(
    alloc: Global,
    dialer: &mut D,
    follower: &mut Follower,
    rounds: u32,
) -> Stop
    requires none_out { (D.state dialer.old).given ≡ (D.state dialer.old).returned }
    requires few { (D.state dialer.old).returned + rounds < 2 ^ 32 }
    ensures back { (D.state dialer.new).given ≡ (D.state dialer.new).returned }
    ensures course { Courses (D.state dialer.old) (D.state dialer.new)
        follower.old follower.new rounds result }
{
    let Ok(mut fields) = Vec::from_elem(alloc, EMPTY_HEADER_SPAN, ROOM) else {
        return Stop::OutOfMemory;
    };
    let mut left = rounds;
    while left > 0 {
        match dialer.dial() {
            Err(Failed) => left -= 1,
            Ok(mut link) => {
                let end = talk(alloc, &mut link, follower, fields.as_mut_slice(), &mut left);
                dialer.return_link(link);
                match stop_with(end) {
                    None => {}
                    Some(stop) => return stop,
                }
            }
        }
    }
    Stop::Spent
}
