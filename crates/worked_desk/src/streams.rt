//! Scripts of runs over an input in memory: what the rows of notices and of the program share.
use hazard_types::{List, Oom, Text};
use program_ends::LIMIT;
use std::alloc::Global;
use worked_lines::{
    Given, Setting, Work, add_line, is_remark, setting_of, shown, unread, with_status,
};

/// The input of the next run, and what is set for it.
#[derive(Drop)]
pub struct Stream {
    pub input: Text,
    pub given: Given,
}

/// How a run ended: its exit status, and what it wrote.
#[derive(Drop)]
pub struct Run {
    pub status: u8,
    pub text: Text,
}

/// Runs over streams, and the steps of their script beside those of every such script.
pub trait Runs {
    /// Runs with these words as arguments over the input of a stream, as its settings say, and
    /// returns the exit status and what was written.
    ///
    /// # Errors
    ///
    /// Out of memory.
    fn run(&mut self, alloc: Global, words: &str, stream: &Stream) -> Result<Run, Oom>;

    /// Returns a text that is printed before the last line of a run's output if only that line is
    /// printed. `bytes` is how many bytes the run wrote.
    ///
    /// # Errors
    ///
    /// Out of memory.
    fn before_last(&self, alloc: Global, bytes: usize) -> Result<String, Oom>;

    /// Does a step that only scripts of this kind have, on the stream `on`, and returns what is
    /// printed for it, or `None` if the line is no such step.
    ///
    /// # Errors
    ///
    /// Out of memory.
    fn step(&mut self, alloc: Global, on: &mut Stream, line: &str) -> Result<Option<String>, Oom>;
}

/// A script: the stream of the next run, and the runs.
#[derive(Drop)]
pub struct Script<R> {
    stream: Stream,
    runs: R,
}

/// A step that changes the stream of the next run.
#[derive(Clone, Copy, Debug)]
enum Step<'a> {
    /// Nothing is done.
    Remark,
    /// Appends a line to the input, with this line end.
    Line(&'a str, &'static str),
    /// Appends this many letters to the input, without a line end.
    Letters(u32),
    /// Sets what holds for the run.
    Set(Setting),
}

/// Returns the last line of a text, without its LF.
fn last_line(text: &str) -> &str {
    let whole = text.strip_suffix('\n').unwrap_or(text);
    match whole.rsplit_once('\n') {
        Some((_before, last)) => last,
        None => whole,
    }
}

/// Returns the step of a word with the number `rest`: so many letters more in the input
/// (`letters`), or, for the next run, the most bytes of a read (`piece`) or of the input (`limit`),
/// or the number of one more read or write that fails (`read`, `write`). It is `None` for another
/// word, or if `rest` is no decimal number below 2^32.
fn numbered_step<'a>(word: &str, rest: &str) -> Option<Step<'a>> {
    let number = rest.parse::<u32>().ok()?;
    if word == "letters" {
        return Some(Step::Letters(number));
    }
    let setting = setting_of(word, number)?;
    Some(Step::Set(setting))
}

/// Returns the step of a line: a remark, which is an empty line or one that begins with `#`; a line
/// for the input with LF (`ask LINE`), with CR and LF (`return LINE`) or with no line end (`unended
/// LINE`); or `letters`, `piece`, `limit`, `read` or `write` with a decimal number below 2^32. It
/// is `None` for another line.
fn step_of(line: &str) -> Option<Step<'_>> {
    if is_remark(line) {
        return Some(Step::Remark);
    }
    let (word, rest) = line.split_once(' ').unwrap_or((line, ""));
    match word {
        "ask" => Some(Step::Line(rest, "\n")),
        "return" => Some(Step::Line(rest, "\r\n")),
        "unended" => Some(Step::Line(rest, "")),
        _ => numbered_step(word, rest),
    }
}

/// Returns the arguments of the run that a line asks for, and whether all that the run writes is
/// printed. It is true for `run` and `run WORDS`, and false for `last WORDS`, of which only the
/// last line is printed. `None` is for another line.
fn run_asked(line: &str) -> Option<(&str, bool)> {
    if line == "run" {
        return Some(("", true));
    }
    match line.split_once(' ')? {
        ("run", words) => Some((words, true)),
        ("last", words) => Some((words, false)),
        _ => None,
    }
}

impl Stream {
    /// Returns a stream with an empty input, read in pieces of at most 4,096 bytes, in which no
    /// call fails.
    fn new(alloc: Global) -> Self {
        Stream {
            input: List::new(alloc),
            given: Given::new(alloc, LIMIT),
        }
    }

    /// Appends `count` letters `a`, without a line end, to the input.
    fn add_letters(&mut self, count: u32) -> Result<(), Oom> {
        for _ in 0..count {
            self.input.push(b'a')?;
        }
        Ok(())
    }

    /// Does the step of a line that is a remark or changes the input or the settings of the next
    /// run, and returns `true`. For another line it changes nothing and returns `false`.
    fn prepare(&mut self, line: &str) -> Result<bool, Oom> {
        match step_of(line) {
            Some(Step::Remark) => {}
            Some(Step::Line(line, end)) => add_line(&mut self.input, line, end)?,
            Some(Step::Letters(count)) => self.add_letters(count)?,
            Some(Step::Set(setting)) => self.given.set(setting)?,
            None => return Ok(false),
        }
        Ok(true)
    }
}

impl<R: Runs + Drop> Script<R> {
    /// Returns a script that runs by `runs`, with an empty input for the next run and nothing set
    /// for it.
    pub fn new(alloc: Global, runs: R) -> Self {
        Script {
            stream: Stream::new(alloc),
            runs,
        }
    }

    /// Runs with these words as arguments, and returns all that the run wrote if `shows_all`, or
    /// else only its last line after what `before_last` returns, and then the line `status N`. The
    /// stream is then empty, with nothing set.
    fn run_step(&mut self, alloc: Global, words: &str, shows_all: bool) -> Result<String, Oom> {
        let run = self.runs.run(alloc, words, &self.stream)?;
        self.stream = Stream::new(alloc);
        let status = run.status;
        if shows_all {
            return with_status(alloc, run.text.as_slice(), status);
        }
        let text = shown(alloc, run.text.as_slice())?;
        let last = last_line(text.as_str());
        let before = self.runs.before_last(alloc, run.text.len())?;
        Ok(format!(in alloc; "{before}{last}\nstatus {status}\n")?)
    }
}

impl<R: Runs + Drop> Work for Script<R> {
    /// Does the step of a line, and returns what is printed for it: `unread: LINE` if it is no
    /// step.
    fn work(&mut self, alloc: Global, line: &str) -> Result<String, Oom> {
        if self.stream.prepare(line)? {
            return Ok(String::new(alloc));
        }
        if let Some((words, shows_all)) = run_asked(line) {
            return self.run_step(alloc, words, shows_all);
        }
        match self.runs.step(alloc, &mut self.stream, line)? {
            Some(answer) => Ok(answer),
            None => unread(alloc, line),
        }
    }
}
