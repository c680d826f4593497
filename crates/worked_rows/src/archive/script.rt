//! The script of archives.
use crate::archive::reader::read_by_reader;
use crate::archive::runs::{Run, Telling, run_telling, try_cuts};
use crate::archive::steps::{Step, step_of};
use archive_report::asked_of;
use hazard_types::{List, Oom, Text};
use program_ends::LIMIT;
use std::alloc::Global;
use worked_lines::{Given, Work, add_line, is_remark, unread, with_status, words_of};

/// The end of a line of an archive: CR, CR and LF.
const LINE_END: &str = "\r\r\n";

/// The archive, and what is set for the next run.
#[derive(Drop)]
pub struct Script {
    input: Text,
    given: Given,
}

impl Script {
    /// Returns a script with an empty archive, in which no fault is set for the next run.
    pub fn new(alloc: Global) -> Self {
        Script {
            input: List::new(alloc),
            given: Given::new(alloc, LIMIT),
        }
    }

    /// Appends a copy of the whole archive to the archive.
    fn double(&mut self) -> Result<(), Oom> {
        let again = self.input.clone()?;
        self.input.extend(again.as_slice())
    }

    /// Appends to the archive a line for each number from 1 to `most`: `text` with the number, in
    /// at least four digits, in place of its first `####`. A text without `####` is appended once.
    /// Each line ends with CR, CR and LF.
    fn add_numbered(&mut self, alloc: Global, most: u16, text: &str) -> Result<(), Oom> {
        let Some((front, rest)) = text.split_once("####") else {
            return add_line(&mut self.input, text, LINE_END);
        };
        for number in 0..most {
            let number = number + 1;
            let line = format!(in alloc; "{front}{number:04}{rest}")?;
            add_line(&mut self.input, line.as_str(), LINE_END)?;
        }
        Ok(())
    }

    /// Appends to the archive a line for each part of `texts` between `|`, each with CR, CR and LF
    /// at its end.
    fn add_lines(&mut self, texts: &str) -> Result<(), Oom> {
        for text in texts.split('|') {
            add_line(&mut self.input, text, LINE_END)?;
        }
        Ok(())
    }

    /// Runs the report or the statistics over the archive, with the words of `line` as arguments,
    /// and returns the exit status and what was written. The sizes and faults set for the run are
    /// then reset.
    fn run(&mut self, alloc: Global, telling: Telling, line: &str) -> Result<Run, Oom> {
        let words = words_of(alloc, line)?;
        let run = run_telling(alloc, telling, &words, self.input.as_slice(), &self.given)?;
        self.given = Given::new(alloc, LIMIT);
        Ok(run)
    }

    /// Runs the report or the statistics over the archive, with the words of `line` as arguments,
    /// and returns the text written and then a line with the exit status. The sizes and faults set
    /// for the run are then reset.
    fn telling_step(&mut self, alloc: Global, telling: Telling, line: &str) -> Result<String, Oom> {
        let run = self.run(alloc, telling, line)?;
        with_status(alloc, run.text.as_slice(), run.status)
    }

    /// Returns a line of counts of what a reader finds in the archive, split into pieces of `size`
    /// bytes. `line` has the words `OFFICE CLASS STAMP`: the office and P-VTEC class of the reader,
    /// and the minute at which live rows are counted. The result is `unread: reader LINE` if it has
    /// not.
    fn reader_step(&self, alloc: Global, size: usize, line: &str) -> Result<String, Oom> {
        let words = words_of(alloc, line)?;
        match asked_of(&words) {
            Some(asked) => read_by_reader(alloc, &asked, self.input.as_slice(), size),
            None => Ok(format!(in alloc; "unread: reader {line}\n")?),
        }
    }

    /// Returns the line `N cuts, M differ`: of the N beginnings of the archive, from 0 bytes to
    /// all, the report fails or depends on the size of the pieces for M. `line` has the arguments
    /// of the report, `OFFICE CLASS STAMP`.
    fn cuts_step(&self, alloc: Global, line: &str) -> Result<String, Oom> {
        let words = words_of(alloc, line)?;
        let tally = try_cuts(alloc, &words, self.input.as_slice())?;
        let cuts = tally.cuts;
        let differ = tally.differ;
        Ok(format!(in alloc; "{cuts} cuts, {differ} differ\n")?)
    }

    /// Does a step that changes the archive or sets something for the next run. Any other step,
    /// which would print something, does nothing here.
    fn prepare(&mut self, alloc: Global, step: &Step<'_>) -> Result<(), Oom> {
        match step {
            Step::Line(text) => add_line(&mut self.input, text, LINE_END)?,
            Step::Lines(texts) => self.add_lines(texts)?,
            Step::Numbered(most, text) => self.add_numbered(alloc, *most, text)?,
            Step::Unended(text) => self.input.extend(text.as_bytes())?,
            Step::NoText => self.input = List::new(alloc),
            Step::Again => self.double()?,
            Step::Set(setting) => self.given.set(*setting)?,
            Step::Report(_)
            | Step::Short(_)
            | Step::Reader(_, _)
            | Step::Stats(_)
            | Step::Cuts(_) => {}
        }
        Ok(())
    }
}

impl Work for Script {
    /// Does the step of a line, and returns what is printed for it: an empty text for a remark and
    /// a step that prints nothing, `unread: LINE` for a line that is no step.
    fn work(&mut self, alloc: Global, line: &str) -> Result<String, Oom> {
        if is_remark(line) {
            return Ok(String::new(alloc));
        }
        let Some(step) = step_of(line) else {
            return unread(alloc, line);
        };
        match &step {
            Step::Report(words) => self.telling_step(alloc, Telling::Report, words),
            Step::Short(words) => self.run(alloc, Telling::Report, words)?.in_short(alloc),
            Step::Reader(size, words) => self.reader_step(alloc, *size, words),
            Step::Stats(words) => self.telling_step(alloc, Telling::Stats, words),
            Step::Cuts(words) => self.cuts_step(alloc, words),
            _ => {
                self.prepare(alloc, &step)?;
                Ok(String::new(alloc))
            }
        }
    }
}
