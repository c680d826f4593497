//! The script of an office.
ghost use Rattle.std.specs.Prelude.{IfOk, IfSome};
ghost use Rattle.desk_settings.specs.AreSettings.{AreSettings};

use crate::office::answers::{look_answer, request_answer, turn_answer};
use crate::office::steps::{Step, step_of};
use desk_settings::{Settings, read_settings};
use hazard_types::{Class, List, Minute, Oom, Or, Text, stamp};
use office_core::Office;
use office_types::{Edition, Query};
use std::alloc::Global;
use worked_lines::{Work, shown, text_of};

/// The minutes from one issue of a fill to the next.
const APART: i64 = 11;

/// The minutes for which an issue of a fill is in effect.
const LASTING: i64 = 10;

/// What is printed if no office is open.
const NO_OFFICE: &[u8] = b"no office\n";

/// The script: its settings, and the office that is open.
#[derive(Drop)]
pub struct Script {
    settings: String,
    /// Whether an office was opened with the settings.
    used: bool,
    office: Option<Office>,
    /// The reading of the clock, in minutes since 2000-01-01 00:00 UTC.
    reading: i64,
}

/// Returns a copy of `text`, as what is printed for a line.
fn note(alloc: Global, text: &[u8]) -> Result<Text, Oom> {
    List::from_slice(alloc, text)
}

/// Returns the minute of a reading of the clock, in minutes since 2000-01-01T00:00Z UTC, or `None`
/// if it is out of the range of `Minute`.
fn minute_of(reading: i64) -> Option<Minute> {
    let count = u32::try_from(reading).ok()?;
    Minute::new(count)
}

/// Returns request `seq` of desk A as JSON: an issue of FR.Y (frost advisory) in zone MDZ003 from
/// now to `end`.
fn issue_until(alloc: Global, seq: u32, end: Minute) -> Result<String, Oom> {
    let end = stamp(end);
    let end = text_of(&end);
    Ok(format!(in alloc;
        "{{\"desk\":\"A\",\"seq\":{seq},\"do\":\"issue\",\"hazard\":\"FR.Y\",\"zones\":[\"MDZ003\"],\"begin\":\"now\",\"end\":\"{end}\"}}"
    )?)
}

/// Returns the settings that the text of a settings file gives, or `None` if the text has a fault.
fn settings_of(alloc: Global, text: &[u8]) -> Result<Option<Settings>, Oom>
    ensures { IfOk result (λ found. IfSome found AreSettings) }
{
    match read_settings(alloc, text) {
        Ok(settings) => Ok(Some(settings)),
        Err(Or::No(_fault)) => Ok(None),
        Err(Or::OutOfMemory) => Err(Oom),
    }
}

/// Returns a new office of P-VTEC product class O with the settings that a settings text gives, or
/// `None` if the text has a fault. `edition` is that of its product texts.
fn office_of(alloc: Global, text: &[u8], edition: Edition) -> Result<Option<Office>, Oom> {
    let Some(settings) = settings_of(alloc, text)? else {
        return Ok(None);
    };
    let office = Office::new(alloc, settings, Class::O, edition)?;
    Ok(Some(office))
}

impl Script {
    /// Returns a script without settings and without an office, whose clock reads minute 0.
    pub fn new(alloc: Global) -> Self {
        Script {
            settings: String::new(alloc),
            used: false,
            office: None,
            reading: 0,
        }
    }

    /// Appends a line with LF to the settings, and returns an empty text. If `open` was called
    /// since the last line was appended, the settings are emptied before.
    fn add_setting(&mut self, alloc: Global, line: &str) -> Result<Text, Oom> {
        if self.used {
            self.settings = String::new(alloc);
            self.used = false;
        }
        self.settings.push_str(line)?;
        self.settings.push('\n')?;
        note(alloc, b"")
    }

    /// Opens an office with the settings, in place of the one before, and returns `open` on a line.
    /// `edition` is that of its product texts. If the settings have a fault nothing is opened, and
    /// it returns `no settings` on a line.
    fn open(&mut self, alloc: Global, edition: Edition) -> Result<Text, Oom> {
        self.used = true;
        let Some(office) = office_of(alloc, self.settings.as_bytes(), edition)? else {
            return note(alloc, b"no settings\n");
        };
        self.office = Some(office);
        note(alloc, b"open\n")
    }

    /// Sets the edition in which the office writes product texts from now on, and returns an empty
    /// text. From `Two` to `One` it changes nothing and returns `no way back`, and if no office is
    /// open `no office`, each on a line.
    fn turn(&mut self, alloc: Global, edition: Edition) -> Result<Text, Oom> {
        match &mut self.office {
            Some(office) => turn_answer(alloc, office, edition),
            None => note(alloc, NO_OFFICE),
        }
    }

    /// Sends a request to the office and returns the reply or the refusal as a line of JSON, or `no
    /// office` on a line if none is open. `text` is the request as JSON.
    fn request(&mut self, alloc: Global, text: &str) -> Result<Text, Oom> {
        match &mut self.office {
            Some(office) => request_answer(alloc, office, text, self.reading),
            None => note(alloc, NO_OFFICE),
        }
    }

    /// Returns the text that a query asks for, or the refusal as a line of JSON, or `no office` on
    /// a line if none is open.
    fn look(&self, alloc: Global, q: &Query) -> Result<Text, Oom> {
        match &self.office {
            Some(office) => look_answer(alloc, office, q, self.reading),
            None => note(alloc, NO_OFFICE),
        }
    }

    /// Sets the clock 11 minutes forward, sends, as request `seq` of desk A, that FR.Y (frost
    /// advisory) be issued in zone MDZ003 for ten minutes from then, and returns the reply or the
    /// refusal as a line of JSON. It returns `no such minute` if the end is outside 2000 to 2099,
    /// and `no office` if none is open, each on a line.
    fn issue_later(&mut self, alloc: Global, seq: u32) -> Result<Text, Oom> {
        self.reading = self.reading.saturating_add(APART);
        match minute_of(self.reading.saturating_add(LASTING)) {
            Some(end) => {
                let text = issue_until(alloc, seq, end)?;
                self.request(alloc, text.as_str())
            }
            None => note(alloc, b"no such minute\n"),
        }
    }

    /// Sends `count` requests that FR.Y (frost advisory) be issued in zone MDZ003 for ten minutes,
    /// as requests 1 to `count` of desk A, with the clock set 11 minutes forward before each.
    /// Returns what the last was answered: its reply or refusal as a line of JSON, or `no such
    /// minute` or `no office` on a line. It is empty if `count` is 0.
    fn fill(&mut self, alloc: Global, count: u32) -> Result<Text, Oom> {
        let mut answer = note(alloc, b"")?;
        for seq in 1..=count {
            answer = self.issue_later(alloc, seq)?;
        }
        Ok(answer)
    }

    /// Runs a step, and returns what is printed for it. `line` is the line of the step.
    fn step(&mut self, alloc: Global, step: &Step<'_>, line: &str) -> Result<Text, Oom> {
        match step {
            Step::Remark => {
                let mut text = note(alloc, line.as_bytes())?;
                text.push(b'\n')?;
                Ok(text)
            }
            Step::Setting(setting) => self.add_setting(alloc, setting),
            Step::Open(edition) => self.open(alloc, *edition),
            Step::Turn(edition) => self.turn(alloc, *edition),
            Step::At(reading) => {
                self.reading = *reading;
                note(alloc, b"")
            }
            Step::Look(q) => self.look(alloc, q),
            Step::Fill(count) => self.fill(alloc, *count),
            Step::Request => self.request(alloc, line),
        }
    }
}

impl Work for Script {
    /// Does the step of a line, and returns what is printed for it; a line that is no other step is
    /// sent to the office as a request.
    fn work(&mut self, alloc: Global, line: &str) -> Result<String, Oom> {
        let text = self.step(alloc, &step_of(line), line)?;
        shown(alloc, text.as_slice())
    }
}
