//! The command `init`.
ghost use Rattle.std.specs.Prelude.{◌≡◌, ◌≤◌, ◌⊎◌, ◌++◌, ℕ, List, Some, IfOk, IfErr, MatchResult, false, codes};
ghost use Rattle.byte_streams.specs.Flows.{streams};
ghost use Rattle.desk_traits.specs.Crash.{LeavesOnly};
ghost use Rattle.office_journal.specs.Kept.{disk_of};
ghost use Rattle.office_journal.specs.Making.{IsMakingOf};
ghost use Rattle.program_ends.specs.Ends.{TellsText, is_write_fault};
ghost use Rattle.desk_commands.specs.Commands.{IsInitRun, IsMade, IsWhyUnmade, SettingsRead, fault_text};
ghost use Rattle.desk_commands.specs.Unmade.{EndsAs, MayUnmake};

use crate::ended::Ended;
use byte_streams::{Sink, Source};
use desk_settings::SettingsFault;
use desk_traits::{Disk, Failed};
use hazard_types::{Oom, Text};
use office_journal::{KeepFault, KeptOffice};
use program_ends::{End, Stop, end_at_once, read_some, tell};
use std::alloc::Global;

/// The most bytes of a settings' file, and one more.
const ENOUGH: usize = 1_048_577;

/// Returns the bytes of the input up to its end, or its first 1,048,577 bytes, one more than a
/// settings' file may have. Errs with `Stop::Read` if a read fails, and with `Stop::OutOfMemory` if
/// memory runs out.
fn read_settings<S: Source>(alloc: Global, input: &mut S) -> Result<Text, Stop>
    ensures { SettingsRead (S.inflow input.old) (S.inflow input.new) result }
{
    let mut text = Text::new(alloc);
    let mut buffer = [0u8; 4096];
    for _turn in 0..ENOUGH {
        let room = (ENOUGH - text.len()).min(buffer.len());
        let count = match read_some(input, &mut buffer, room) {
            Ok(count) => count,
            Err(Failed) => return Err(Stop::Read),
        };
        if count == 0 {
            return Ok(text);
        }
        text.extend(&buffer[..count])?;
        if text.len() == ENOUGH {
            return Ok(text);
        }
    }
    unreachable!()
}

/// Returns the name of a settings' fault, followed by a blank and its key if it has one, as
/// `Missing office` (docs/SETTINGS.md, "Faults").
fn fault_text(alloc: Global, fault: &SettingsFault) -> Result<Text, Oom>
    ensures { IfOk result (λ text. text ≡ fault_text fault.now) }
{
    match fault {
        SettingsFault::NotToml => Text::from_slice(alloc, b"NotToml"),
        SettingsFault::Missing { key } => with_key(alloc, b"Missing ", key),
        SettingsFault::BadValue { key } => with_key(alloc, b"BadValue ", key),
        SettingsFault::Twice { key } => with_key(alloc, b"Twice ", key),
        SettingsFault::TooLong => Text::from_slice(alloc, b"TooLong"),
    }
}

/// Returns `word`, which ends with a blank, followed by `key`.
fn with_key(alloc: Global, word: &[u8], key: &Text) -> Result<Text, Oom>
    ensures { IfOk result (λ text. text ≡ word.now ++ key.now) }
{
    let mut text = Text::from_slice(alloc, word)?;
    text.extend(key.as_slice())?;
    Ok(text)
}

/// Returns the fault with which a run ends if no journal was made because of `fault`:
/// `SettingsRefused` with the text of a settings' fault (`OutOfMemory` if memory runs out for it),
/// `AlreadyKept` for a file that is not fresh, `DiskFault` or `OutOfMemory`. `fault` is neither
/// `Fresh` nor `Damaged`.
fn end_of(alloc: Global, fault: &KeepFault) -> End
    requires { MayUnmake fault.now }
    ensures { EndsAs fault.now result }
{
    match fault {
        KeepFault::Settings(fault) => match fault_text(alloc, fault) {
            Ok(what) => End::SettingsRefused(what),
            Err(_) => End::OutOfMemory,
        },
        KeepFault::NotFresh => End::AlreadyKept,
        KeepFault::DiskFault => End::DiskFault,
        KeepFault::OutOfMemory => End::OutOfMemory,
        KeepFault::Fresh | KeepFault::Damaged { .. } => unreachable!(),
    }
}

/// Makes the journal of an office on `disk` and returns the office; `settings` is the settings'
/// file, byte for byte. On an error it returns the disk and the fault with which the run ends:
/// `SettingsRefused`, `AlreadyKept` if the disk's file is not fresh (at most one byte, or `.`
/// first), `DiskFault` or `OutOfMemory`.
fn make<D: Disk>(alloc: Global, disk: D, settings: &[u8]) -> Result<KeptOffice<D>, (D, End)>
    ensures made { MatchResult result (λ kept. IsMade D.Disk disk (disk_of kept) settings.now)
        (λ e. IsWhyUnmade D.Disk disk e.0 settings.now e.1) }
    ensures end { IfErr result (λ e. is_write_fault e.1 ≡ false) }
    ensures later { MatchResult result (λ kept. D.faults disk ≤ D.faults (disk_of kept))
        (λ e. D.faults disk ≤ D.faults e.0) }
    ensures crashes { (bytes : List ℕ) → D.seen disk ≡ Some bytes → MatchResult result
        (λ kept. LeavesOnly (D.crash disk) (D.crash (disk_of kept))
        (λ c. (D.crash disk).may_leave c ⊎ IsMakingOf settings.now c))
        (λ e. LeavesOnly (D.crash disk) (D.crash e.0)
        (λ c. (D.crash disk).may_leave c ⊎ IsMakingOf settings.now c)) }
{
    match KeptOffice::create(alloc, disk, settings) {
        Ok(kept) => {
            kept.a_crash_leaves_the_history();
            Ok(kept)
        }
        Err((disk, fault)) => {
            let end = end_of(alloc, &fault);
            Err((disk, end))
        }
    }
}

/// Writes `ready` and an LF, ends the run and returns the exit status. `_kept` is not used: a
/// caller has one only if the journal was made.
fn write_made<K: Sink, D: Disk>(output: &mut K, _kept: &KeptOffice<D>) -> u8
    ensures { TellsText (codes "ready\n") (K.outflow output.old) (K.outflow output.new) result }
{
    tell(output, b"ready\n")
}

/// Reads the settings' file of an office from `input`, makes its journal on `disk`, writes `ready`,
/// and returns the exit status and the disk. If that fails, as for a file of the disk that is not
/// fresh (at most one byte, or `.` first), the line of the fault is written instead, and its status
/// is returned.
pub fn run_init<S: Source, K: Sink, D: Disk>(
    alloc: Global,
    input: &mut S,
    output: &mut K,
    disk: D,
) -> Ended<D>
    ensures { IsInitRun D.Disk disk result.disk
        (streams (S.inflow input.old) (K.outflow output.old))
        (streams (S.inflow input.new) (K.outflow output.new)) result.status }
{
    let settings = match read_settings(alloc, input) {
        Ok(settings) => settings,
        Err(stop) => {
            return Ended {
                status: end_at_once(output, End::from(stop)),
                disk,
            };
        }
    };
    match make(alloc, disk, settings.as_slice()) {
        Ok(kept) => Ended {
            status: write_made(output, &kept),
            disk: kept.into_disk(),
        },
        Err((disk, end)) => Ended {
            status: end_at_once(output, end),
            disk,
        },
    }
}
