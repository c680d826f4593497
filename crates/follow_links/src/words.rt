//! The arguments of the command line.
ghost use Rattle.std.specs.Prelude.{◌≡◌, ◌≤◌, IfSome};
ghost use Rattle.follow_links.specs.Words.{asked_of};

use hazard_types::{Class, List, Minute, Text, classes, find, parse_stamp};
use program_ends::{count_in, office_of};

/// What the arguments ask for.
#[derive(Clone, Copy, Debug)]
pub struct Asked {
    pub office: [u8; 4],
    pub class: Class,
    /// The minute at which the rows are shown.
    pub minute: Minute,
    /// The server's port, from 1 on.
    pub port: u16,
    /// The most rounds, 1 to 100,000.
    pub rounds: u32,
}

/// Returns what the arguments `OFFICE CLASS STAMP PORT ROUNDS` ask for, or `None` if they are not
/// five words of these forms: an office as `KLWX`, a class, the stamp of a minute, a port from 1 to
/// 65,535, and a number of rounds from 1 to 100,000.
#[tactic(auto, unfolding(crate::specs::Words::asked_of))]
pub fn asked_of(words: &List<Text>) -> Option<Asked>
    ensures value { result ≡ asked_of words.now }
    ensures rounds { IfSome result (λ asked. asked.rounds ≤ 100000) }
{
    let [office, class, stamp, port, rounds] = words.as_slice() else {
        return None;
    };
    let office = office_of(office.as_slice())?;
    let class = find(&classes(), class.as_slice())?;
    let minute = parse_stamp(stamp.as_slice())?;
    let port = count_in(port.as_slice(), 65_535)?;
    let rounds = count_in(rounds.as_slice(), 100_000)?;
    Some(Asked {
        office,
        class,
        minute,
        port: port as u16,
        rounds: rounds as u32,
    })
}
