//! What a line asks for: to open a watch in counties, to add counties to it, or to end it in some.
ghost use Rattle.std.specs.Prelude.{◌≡◌};
ghost use Rattle.notice_json.specs.Commands.{watch_at, hazard_of};

use hazard_types::{Hazard, List, Minute, Phen, Sig, Zone};

/// A kind of watch that the national centre issues.
///
/// Source: docs/NOTICES.md, "A line".
#[derive(Clone, Copy, Debug, PartialEq, Eq)]
pub enum Watch {
    Tornado,
    Thunderstorm,
}

/// What a command does in its counties. `Open` and `Join` have the minute at which the watch ends
/// there.
#[derive(Clone, Copy, Debug, PartialEq, Eq)]
pub enum Deed {
    Open(Minute),
    Join(Minute),
    End,
}

/// A line that was read. The number is 1 to 9,999. The zones are in the order written: there may be
/// none, and one may occur twice.
#[derive(Clone, Debug, Drop, PartialEq, Eq)]
pub struct Command {
    pub at: Minute,
    pub deed: Deed,
    pub watch: Watch,
    pub number: u16,
    pub zones: List<Zone>,
}

impl Watch {
    /// Returns the watch with this code, `TO.A` or `SV.A`, or `None` if there is none.
    pub(crate) fn from_code(code: &str) -> Option<Watch>
        ensures { result ≡ watch_at code.now }
    {
        match code {
            "TO.A" => Some(Watch::Tornado),
            "SV.A" => Some(Watch::Thunderstorm),
            _ => None,
        }
    }

    /// Returns the hazard of the watch: TO.A for tornadoes, SV.A for severe thunderstorms.
    ///
    /// Source: NWS Instruction 10-1703, P-VTEC phenomenon and significance codes.
    pub fn hazard(self) -> Hazard
        ensures { result ≡ hazard_of self }
    {
        let letters = match self {
            Watch::Tornado => *b"TO",
            Watch::Thunderstorm => *b"SV",
        };
        match Phen::new(letters) {
            Some(phen) => Hazard { phen, sig: Sig::A },
            None => unreachable!(),
        }
    }
}
