//! The words of the command line.
ghost use Rattle.std.specs.Prelude.{◌≡◌};
ghost use Rattle.archive_report.specs.Words.{asked_of};

use hazard_types::{Class, List, Minute, Text, classes, find, parse_stamp};
use program_ends::office_of;

/// What a report is asked for: the office and class whose lines count, and the minute whose rows
/// are shown. `office` is four characters A to Z and 0 to 9.
#[derive(Clone, Copy, Debug)]
pub struct Asked {
    pub office: [u8; 4],
    pub class: Class,
    pub minute: Minute,
}

/// Returns the office, class and minute that the words `OFFICE CLASS STAMP` name, as `KLWX O
/// 180103T1530Z`, or `None` if they are not exactly three words of this form. OFFICE is four
/// characters of A-Z and 0-9, CLASS is O, T, E or X, and STAMP is a minute of 2000 to 2099 in UTC.
///
/// Source: docs/DECISIONS.md, "The archive's report".
#[tactic(auto, unfolding(crate::specs::Words::asked_of))]
pub fn asked_of(words: &List<Text>) -> Option<Asked>
    ensures { result ≡ asked_of words.now }
{
    let [office, class, stamp] = words.as_slice() else {
        return None;
    };
    let office = office_of(office.as_slice())?;
    let class = find(&classes(), class.as_slice())?;
    let minute = parse_stamp(stamp.as_slice())?;
    Some(Asked {
        office,
        class,
        minute,
    })
}
