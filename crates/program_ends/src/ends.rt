//! The faults with which a program may end, each with its exit status and its line.
ghost use Rattle.std.specs.Prelude.{◌≡◌};
ghost use Rattle.program_ends.specs.Ends.{status_of, is_write_fault, fault_prefix};

use hazard_types::Text;

/// Why a program did not do all that its arguments ask for.
#[derive(Debug, Drop, PartialEq, Eq)]
pub enum End {
    /// The command line is not one of the program's commands.
    Usage,
    /// The settings are refused, with the text of their first fault, as docs/SETTINGS.md lists
    /// them.
    SettingsRefused(Text),
    /// The file is not fresh, so no journal is made in it.
    AlreadyKept,
    /// The file is fresh, so it holds no journal.
    NoJournal,
    /// The journal is damaged at this byte, counted from 0.
    Damaged(u64),
    /// A read of the input failed.
    ReadFault,
    /// A write of the output failed.
    WriteFault,
    /// A call of the disk failed, or the file could not be opened.
    DiskFault,
    /// The port can't be had, or an accept failed.
    PortFault,
    /// The minute is outside 2000-01-01T00:00Z to 2098-11-13T02:40Z.
    ClockOut,
    OutOfMemory,
    /// The input has more bytes than the limit.
    InputTooLong,
    /// The journal has no room for the mark of an upgrade.
    JournalFull,
}

impl End {
    /// Returns the exit status of a program that ends with this fault: 2 for `Usage`, and one more
    /// for each of the variants after it, in their order, so 8 for `WriteFault` and 14 for
    /// `JournalFull` (docs/COMMANDS.md, "How a run ends").
    pub fn status(&self) -> u8
        ensures { result ≡ status_of self.now }
    {
        match self {
            End::Usage => 2,
            End::SettingsRefused(_) => 3,
            End::AlreadyKept => 4,
            End::NoJournal => 5,
            End::Damaged(_) => 6,
            End::ReadFault => 7,
            End::WriteFault => 8,
            End::DiskFault => 9,
            End::PortFault => 10,
            End::ClockOut => 11,
            End::OutOfMemory => 12,
            End::InputTooLong => 13,
            End::JournalFull => 14,
        }
    }

    /// Whether this is a failed write of the output.
    pub fn is_write_fault(&self) -> bool
        ensures { result ≡ is_write_fault self.now }
    {
        matches!(self, End::WriteFault)
    }

    /// Returns the line that reports this fault, such as `fault Usage`, without its LF. For
    /// `SettingsRefused` and `Damaged` it returns only the part before the value, such as `fault
    /// Damaged ` with the blank at its end; the value is the text of the settings' fault or the
    /// number of the damaged byte.
    pub(crate) fn front(&self) -> &'static str
        ensures { result.now ≡ fault_prefix self.now }
    {
        match self {
            End::Usage => "fault Usage",
            End::SettingsRefused(_) => "fault SettingsRefused ",
            End::AlreadyKept => "fault AlreadyKept",
            End::NoJournal => "fault NoJournal",
            End::Damaged(_) => "fault Damaged ",
            End::ReadFault => "fault ReadFault",
            End::WriteFault => "fault WriteFault",
            End::DiskFault => "fault DiskFault",
            End::PortFault => "fault PortFault",
            End::ClockOut => "fault ClockOut",
            End::OutOfMemory => "fault OutOfMemory",
            End::InputTooLong => "fault InputTooLong",
            End::JournalFull => "fault JournalFull",
        }
    }
}
