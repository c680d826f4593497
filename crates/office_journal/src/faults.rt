//! The faults of making and opening a `KeptOffice`.
ghost use Rattle.std.specs.Prelude.{◌≡◌};
ghost use Rattle.office_journal.specs.Faults.{told_as};

use desk_settings::SettingsFault;
use journal_core::AdoptFault;

/// Why a `KeptOffice` was not made or not opened.
#[derive(Debug, Drop, PartialEq, Eq)]
pub enum KeepFault {
    /// The settings have this fault first.
    Settings(SettingsFault),
    /// The file is not fresh, so no journal is made in it.
    NotFresh,
    /// The file is fresh, so there is no office to open.
    Fresh,
    /// The file is no journal of an office from the gate at this place on, in bytes from 0.
    Damaged { at: u64 },
    DiskFault,
    OutOfMemory,
}

impl From<AdoptFault> for KeepFault {
    ghost from_gives = { λ fault e. e ≡ told_as fault };

    fn from(fault: AdoptFault) -> Self {
        match fault {
            AdoptFault::Fresh => KeepFault::Fresh,
            AdoptFault::Damaged { at } => KeepFault::Damaged { at },
            AdoptFault::DiskFault => KeepFault::DiskFault,
            AdoptFault::OutOfMemory => KeepFault::OutOfMemory,
        }
    }
}
