//! The script of an office.
use crate::desk::answers::{run_answer, sweep_answer};
use crate::desk::cuts::cuts;
use crate::desk::files::{older_journal, record_text, with_byte, with_record};
use crate::desk::runs::{Faults, Given, NO_FAULTS, Run, run_command};
use crate::desk::steps::{Cutting, Ending, Step, Tried, reading_of, step_of};
use crate::desk::sweeps::sweep;
use desk_traits::MemDisk;
use hazard_types::{List, Minute, Oom, Text, stamp};
use std::alloc::Global;
use worked_lines::{Work, add_line, text_of, unread};

/// The settings, the file, the input and the readings of the clock for the next run, and its
/// faults.
#[derive(Drop)]
pub struct Script {
    settings: Text,
    file: Text,
    given: Given,
    faults: Faults,
}

/// Returns the readings of the clock, in minutes since 2000-01-01 00:00 UTC, that words with one
/// blank between them give, in order. Each word is a stamp or a number of minutes; `None` if one is
/// neither.
fn readings_of(alloc: Global, words: &str) -> Result<Option<List<i64>>, Oom> {
    let mut readings = List::new(alloc);
    for word in words.split(' ') {
        match reading_of(word) {
            Some(reading) => readings.push(reading)?,
            None => return Ok(None),
        }
    }
    Ok(Some(readings))
}

/// Returns the bytes of a line end: LF, CR and LF, or none.
fn ending_of(ending: Ending) -> &'static str {
    match ending {
        Ending::Feed => "\n",
        Ending::ReturnAndFeed => "\r\n",
        Ending::Nothing => "",
    }
}

/// Appends a line of `length` letters `x`, and LF.
fn add_long(text: &mut Text, length: u64) -> Result<(), Oom> {
    for _place in 0..length {
        text.push(b'x')?;
    }
    text.push(b'\n')
}

/// Returns the file after a run: what a crash leaves of it if `crashes`, else the file as the disk
/// has it.
fn file_behind(disk: MemDisk, crashes: bool) -> Result<Text, Oom> {
    if crashes {
        return disk.crashed();
    }
    Ok(disk.file().clone()?)
}

impl Script {
    /// Returns a script with empty settings, an empty file and input, no readings of the clock, and
    /// no faults.
    pub fn new(alloc: Global) -> Self {
        Script {
            settings: List::new(alloc),
            file: List::new(alloc),
            given: Given {
                input: List::new(alloc),
                readings: List::new(alloc),
            },
            faults: NO_FAULTS,
        }
    }

    /// Appends a line, with LF, to the settings.
    fn add_setting(&mut self, line: &str) -> Result<(), Oom> {
        add_line(&mut self.settings, line, "\n")
    }

    /// Appends a line, with this line end, to the input.
    fn ask(&mut self, line: &str, ending: Ending) -> Result<(), Oom> {
        add_line(&mut self.given.input, line, ending_of(ending))
    }

    /// Sets the readings of the clock to those that the words give, and returns `true`. If a word
    /// is no reading, nothing changes and it returns `false`.
    fn set_readings(&mut self, alloc: Global, words: &str) -> Result<bool, Oom> {
        match readings_of(alloc, words)? {
            Some(readings) => {
                self.given.readings = readings;
                Ok(true)
            }
            None => Ok(false),
        }
    }

    /// Runs a command over the file, with the faults that are set, and returns its exit status,
    /// what it wrote, and its disk. Its input is that of the script, or for `init` the settings.
    fn run_over(&self, alloc: Global, command: &str) -> Result<Run, Oom> {
        let file = self.file.as_slice();
        if command == "init" {
            let given = Given {
                input: self.settings.clone()?,
                readings: self.given.readings.clone()?,
            };
            return run_command(alloc, command, &given, file, &self.faults);
        }
        run_command(alloc, command, &self.given, file, &self.faults)
    }

    /// Runs a command, keeps the file that it leaves, and returns what it wrote and a line with its
    /// exit status, the file's size, and whether the file is unchanged. If the faults set the last
    /// call that may succeed, or what a crash leaves, the file is what a crash leaves after the
    /// run. The faults are then removed; `init` and `script` empty the input too.
    fn run_step(&mut self, alloc: Global, command: &str) -> Result<String, Oom> {
        let Run { status, text, disk } = self.run_over(alloc, command)?;
        let crashes = self.faults.stop.is_some() || self.faults.pick.is_some();
        self.faults = NO_FAULTS;
        if matches!(command, "init" | "script") {
            self.given.input = List::new(alloc);
        }
        let new = file_behind(disk, crashes)?;
        let answer = run_answer(alloc, &text, status, self.file.as_slice(), new.as_slice())?;
        self.file = new;
        Ok(answer)
    }

    /// Runs the command `board --at STAMP` with the stamp of a minute, and returns what it wrote
    /// and a line with its exit status and the file's size.
    fn board_step(&mut self, alloc: Global, minute: Minute) -> Result<String, Oom> {
        let stamp = stamp(minute);
        let at = text_of(&stamp);
        let command = format!(in alloc; "board --at {at}")?;
        self.run_step(alloc, command.as_str())
    }

    /// Returns the line `sweep: RUNS runs, DIFFER differ` of a sweep over the input and the file:
    /// runs of what `tried` names, in each of which one of the first `calls` calls of the disk
    /// fails or is the last that succeeds. DIFFER counts the runs that ended by an error other than
    /// a fault of the disk, or by which an answer or a product was lost or changed. The file stays
    /// as it is.
    fn sweep_step(&self, alloc: Global, tried: Tried, calls: u8) -> Result<String, Oom> {
        let tally = sweep(alloc, tried, &self.given, self.file.as_slice(), calls)?;
        sweep_answer(alloc, &tally)
    }

    /// Returns a line for each number of first bytes of the file, or of the settings, with which a
    /// run writes or ends otherwise than with one byte less. `cutting` says which of the two is
    /// cut.
    fn cuts_step(&self, alloc: Global, cutting: Cutting) -> Result<String, Oom> {
        let bytes = match cutting {
            Cutting::File => self.file.as_slice(),
            Cutting::Settings => self.settings.as_slice(),
        };
        cuts(alloc, cutting, bytes)
    }

    /// Sets the file to the journal of an office of edition One, with the settings as its first
    /// record and the bytes of `entry` as its second.
    fn set_older(&mut self, alloc: Global, entry: &str) -> Result<(), Oom> {
        self.file = older_journal(alloc, self.settings.as_slice(), entry.as_bytes())?;
        Ok(())
    }

    /// Appends a comment of `length` bytes, at least one, and LF to the settings.
    fn add_comment(&mut self, length: u64) -> Result<(), Oom> {
        self.settings.push(b'#')?;
        add_long(&mut self.settings, length.saturating_sub(1))
    }

    /// Does a step that sets or changes the bytes of the file without a command, and returns
    /// `true`. For any other step it changes nothing and returns `false`.
    fn edit_file_by_hand(&mut self, alloc: Global, step: &Step<'_>) -> Result<bool, Oom> {
        match step {
            Step::File(text) => self.file = List::from_slice(alloc, text.as_bytes())?,
            Step::Older(entry) => self.set_older(alloc, entry)?,
            Step::Add(body) => {
                self.file = with_record(alloc, self.file.as_slice(), body.as_bytes())?;
            }
            Step::Back(back, byte) => {
                self.file = with_byte(alloc, self.file.as_slice(), *back, *byte)?;
            }
            _ => return Ok(false),
        }
        Ok(true)
    }

    /// Does a step that sets a fault of the next run, and returns `true`: the call of the disk that
    /// fails, the last one that may succeed, what a crash leaves of its writes, or the write of the
    /// output that fails. For any other step it changes nothing and returns `false`.
    fn set_fault(&mut self, step: &Step<'_>) -> bool {
        match step {
            Step::Failing(call) => self.faults.failing = Some(*call),
            Step::Stop(call) => self.faults.stop = Some(*call),
            Step::Pick(pick) => self.faults.pick = Some(*pick),
            Step::Unwritten(call) => self.faults.unwritten = Some(*call),
            _ => return false,
        }
        true
    }

    /// Does a step that changes the settings, the input or the readings of the clock, or is a
    /// remark, and returns `true`. It changes nothing and returns `false` for any other step, and
    /// if a word of `at` is no reading.
    fn prepare(&mut self, alloc: Global, step: &Step<'_>) -> Result<bool, Oom> {
        match step {
            Step::Remark => {}
            Step::Setting(line) => self.add_setting(line)?,
            Step::NoSettings => self.settings = List::new(alloc),
            Step::Comment(length) => self.add_comment(*length)?,
            Step::Ask(line, ending) => self.ask(line, *ending)?,
            Step::Long(length) => add_long(&mut self.given.input, *length)?,
            Step::At(words) => return self.set_readings(alloc, words),
            _ => return Ok(false),
        }
        Ok(true)
    }
}

impl Work for Script {
    /// Does the step of a line, and returns what is printed for it: `unread: LINE` if it is no
    /// step.
    fn work(&mut self, alloc: Global, line: &str) -> Result<String, Oom> {
        let step = step_of(line);
        if self.prepare(alloc, &step)?
            || self.edit_file_by_hand(alloc, &step)?
            || self.set_fault(&step)
        {
            return Ok(String::new(alloc));
        }
        match &step {
            Step::Run(command) => self.run_step(alloc, command),
            Step::Board(minute) => self.board_step(alloc, *minute),
            Step::Sweep(tried, calls) => self.sweep_step(alloc, *tried, *calls),
            Step::Cuts(cutting) => self.cuts_step(alloc, *cutting),
            Step::Record => record_text(alloc, self.file.as_slice()),
            _ => unread(alloc, line),
        }
    }
}
