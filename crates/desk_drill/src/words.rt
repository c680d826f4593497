//! The arguments of a drill.
ghost use Rattle.std.specs.Prelude.{◌≡◌, ◌≤◌, IfSome};
ghost use Rattle.desk_drill.specs.Words.{parse_drill};

use crate::drill::Drill;
use program_ends::number_in;

/// The most requests of a drill.
const MOST: u64 = 8192;

/// Returns the drill of the arguments `drill NUMBER COUNT`, or `None` exactly if they are something
/// else. NUMBER, below 2^64, is the first state of the random numbers, and COUNT, at most 8,192,
/// the number of requests; both are decimal digits, with leading zeros allowed.
#[tactic(auto, unfolding(crate::specs::Words::parse_drill))]
pub fn parse_drill(command: &[u8], number: &[u8], count: &[u8]) -> Option<Drill>
    ensures value { result ≡ parse_drill command.now number.now count.now }
    ensures form { IfSome result (λ drill. drill.count ≤ 8192) }
{
    if command != b"drill".as_slice() {
        return None;
    }
    let number = number_in(number, u64::MAX)?;
    let count = number_in(count, MOST)?;
    Some(Drill {
        number,
        count: count as u32,
    })
}
