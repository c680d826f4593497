//! The script of following: a line sets something for the next run, or is a run, after which the
//! links and faults are removed.
use crate::follow::answers::add_bytes;
use crate::follow::given::{Given, LinkGiven};
use crate::follow::office::{Office, post_text, questions};
use crate::follow::runs::{Run, WHOLE, run_follow};
use crate::follow::schedule::schedule_answer;
use crate::follow::shown::{run_answer, tally_answer};
use crate::follow::sweeps::{sweep_cuts, sweep_pieces};
use crate::serve::given::one_reading;
use hazard_types::{List, Oom, Text, parse_stamp};
use std::alloc::Global;
use std::mem;
use std::sync::Wait;
use worked_lines::{Work, numbers_of, shown, unread, words_of};

/// Returns the line `answered STATUS`. STATUS is the characters 9 to 11, counted from 0, of
/// `written`, the answer that the office wrote: the three digits of its HTTP status. It is empty if
/// `written` has fewer than 12 characters.
fn posted_status_line(alloc: Global, written: &Text) -> Result<String, Oom> {
    let line = shown(alloc, written.as_slice())?;
    let status = line.as_str().get(9..12).unwrap_or("");
    Ok(format!(in alloc; "answered {status}\n")?)
}

/// Returns what the program wrote, a line with its exit status, the number of its links and the
/// bytes written on them, and then the line `asked as answered` or `asked otherwise`. It is `asked
/// as answered` if what the program wrote on its first link is a prefix of `asked`, the questions
/// that the office had answered, or if it had no link.
fn met(alloc: Global, run: &Run, asked: &Text) -> Result<String, Oom> {
    let mut answer = tally_answer(alloc, run)?;
    let same = match run.asked.as_slice() {
        [written, ..] => asked.as_slice().starts_with(written.as_slice()),
        [] => true,
    };
    answer.push_str(if same {
        "asked as answered\n"
    } else {
        "asked otherwise\n"
    })?;
    Ok(answer)
}

/// The text that is being written and those that are kept, the link that is being written, what is
/// set for the next run, and the office that is served.
#[derive(Drop)]
pub struct Script<'a, R> {
    rt: &'a R,
    text: Text,
    kept: List<Text>,
    link: LinkGiven,
    given: Given,
    office: Office,
}

impl<'a, R: Wait> Script<'a, R> {
    /// Returns a script that has set nothing: no text, no link, no fault and no office.
    pub fn new(rt: &'a R, alloc: Global) -> Self {
        Script {
            rt,
            text: List::new(alloc),
            kept: List::new(alloc),
            link: LinkGiven::new(alloc),
            given: Given::new(alloc),
            office: Office::new(alloc),
        }
    }

    /// Sets which calls fail, by their numbers from 1 in `rest`, and returns whether the words are
    /// such a line. `word` is `broken` (calls of the link), `dials` (dials), or `writes` (writes of
    /// the output).
    fn set_failing(&mut self, alloc: Global, word: &str, rest: &str) -> Result<bool, Oom> {
        let Some(numbers) = numbers_of(alloc, rest)? else {
            return Ok(false);
        };
        match word {
            "broken" => self.link.failing = numbers,
            "dials" => self.given.dials = numbers,
            "writes" => self.given.writes = numbers,
            _ => return Ok(false),
        }
        Ok(true)
    }

    /// Sets the one reading of the office's clock to the minute of a stamp, such as `180103T1530Z`,
    /// and returns whether the word is a stamp. Another word sets nothing.
    fn set_clock(&mut self, alloc: Global, stamp: &str) -> Result<bool, Oom> {
        let Some(minute) = parse_stamp(stamp.as_bytes()) else {
            return Ok(false);
        };
        let reading = i64::from(minute.get());
        self.office.given.readings = one_reading(alloc, reading)?;
        Ok(true)
    }

    /// Does a line that sets something for the next run, and returns true: a line of a text
    /// (`text`) or of the office's settings (`settings`), the end of the text (`keep`) or of the
    /// link (`next`), the office's clock (`at`), the calls that fail (`broken`, `dials`, `writes`),
    /// or bytes of the link (`answer`, `closing`, `none`, `head`, `bytes`, and `times N` before one
    /// of these). Returns false for another word, as that of a run, and if a number or stamp of the
    /// line cannot be read or no text has the number.
    fn prepare(&mut self, alloc: Global, line: &str) -> Result<bool, Oom> {
        let (word, rest) = line.split_once(' ').unwrap_or((line, ""));
        match word {
            "text" => {
                self.text.extend(rest.as_bytes())?;
                self.text.push(b'\n')?;
            }
            "keep" => {
                let text = mem::replace(&mut self.text, List::new(alloc));
                self.kept.push(text)?;
            }
            "next" => self.given.take_link(alloc, &mut self.link)?,
            "settings" => {
                self.office.settings.extend(rest.as_bytes())?;
                self.office.settings.push(b'\n')?;
            }
            "at" => return self.set_clock(alloc, rest),
            "broken" | "dials" | "writes" => return self.set_failing(alloc, word, rest),
            _ => {
                let kept = self.kept.as_slice();
                return add_bytes(alloc, &mut self.link.bytes, kept, line);
            }
        }
        Ok(true)
    }

    /// Makes the journal of the served office, and returns the line `ready`, or `refused` if it was
    /// not created.
    fn make_journal(&mut self, alloc: Global) -> Result<String, Oom> {
        let word = if self.office.make_journal(alloc)? {
            "ready\n"
        } else {
            "refused\n"
        };
        Ok(String::from_str(alloc, word)?)
    }

    /// Posts a request to the served office, keeps the journal that it leaves, and returns the line
    /// `answered STATUS`. Without an office it returns the line `unread: BODY`.
    fn post(&mut self, alloc: Global, body: &str) -> Result<String, Oom> {
        let call = post_text(alloc, body)?;
        match self.office.serve(self.rt, alloc, call.as_bytes())? {
            Some(served) => {
                self.office.given.file = served.file;
                posted_status_line(alloc, &served.written)
            }
            None => unread(alloc, body),
        }
    }

    /// Appends a link on which the served office's answers to the questions for the products after
    /// the places 0, 1, .. COUNT - 1 come, COUNT being at most 100,000, and runs the follower over
    /// the links that were set. Returns what is printed, or `None` if there is no office or `line`
    /// is not `COUNT WORDS`, where WORDS are the follower's arguments.
    fn meet(&mut self, alloc: Global, line: &str) -> Result<Option<String>, Oom> {
        let Some((count, words)) = line.split_once(' ') else {
            return Ok(None);
        };
        let Ok(count) = count.parse::<u32>() else {
            return Ok(None);
        };
        let asked = questions(alloc, count.min(100_000))?;
        if !self.add_office_link(alloc, &asked)? {
            return Ok(None);
        }
        let run = self.run_whole(alloc, words)?;
        Ok(Some(met(alloc, &run, &asked)?))
    }

    /// Appends a link on which the served office's answers to `asked`, the bytes of HTTP calls,
    /// come, and returns true. Returns false, and appends nothing, if there is no office.
    fn add_office_link(&mut self, alloc: Global, asked: &Text) -> Result<bool, Oom> {
        let Some(served) = self.office.serve(self.rt, alloc, asked.as_slice())? else {
            return Ok(false);
        };
        self.link.bytes = served.written;
        self.given.take_link(alloc, &mut self.link)?;
        Ok(true)
    }

    /// Runs the follower with these words as arguments over the links that were set, on which all
    /// bytes come, and returns how the run ended.
    fn run_whole(&self, alloc: Global, words: &str) -> Result<Run, Oom> {
        let words = words_of(alloc, words)?;
        run_follow(alloc, &self.given, &words, WHOLE)
    }

    /// Runs the follower over the links that were set, with the arguments `rest`, and returns what
    /// is printed. `word` is `follow` or `tally` for one run, printed in full or in numbers, `cuts`
    /// for one run for each cut of the first link, or `pieces` for one run for each size of a read.
    fn follow(&mut self, alloc: Global, word: &str, rest: &str) -> Result<String, Oom> {
        if !self.link.bytes.is_empty() || !self.link.failing.is_empty() {
            self.given.take_link(alloc, &mut self.link)?;
        }
        match word {
            "cuts" => sweep_cuts(alloc, &self.given, &words_of(alloc, rest)?),
            "pieces" => sweep_pieces(alloc, &self.given, &words_of(alloc, rest)?),
            "tally" => tally_answer(alloc, &self.run_whole(alloc, rest)?),
            _ => run_answer(alloc, &self.run_whole(alloc, rest)?),
        }
    }

    /// Does a line that is a run, and returns what is printed for it: `follow`, `tally`, `cuts` or
    /// `pieces` runs the follower, `schedule` does a schedule, `init` makes the office's journal,
    /// `post` posts a request to the office, and `meet` runs the follower on the office's answers.
    /// `None` for another word, and if a line `schedule` or `meet` has a wrong form or there is no
    /// office to meet.
    fn run(&mut self, alloc: Global, line: &str) -> Result<Option<String>, Oom> {
        let (word, rest) = line.split_once(' ').unwrap_or((line, ""));
        match word {
            "follow" | "tally" | "cuts" | "pieces" => Ok(Some(self.follow(alloc, word, rest)?)),
            "schedule" => schedule_answer(alloc, self.kept.as_slice(), rest),
            "init" => Ok(Some(self.make_journal(alloc)?)),
            "post" => Ok(Some(self.post(alloc, rest)?)),
            "meet" => self.meet(alloc, rest),
            _ => Ok(None),
        }
    }
}

impl<'a, R: Wait> Work for Script<'a, R> {
    /// Does a line and returns what is printed for it, nothing for a remark or a line that sets
    /// something. A line that is not understood is printed after `unread: `. After any line but a
    /// remark or setting the links and faults that were set are removed.
    fn work(&mut self, alloc: Global, line: &str) -> Result<String, Oom> {
        if line.is_empty() || line.starts_with('#') || self.prepare(alloc, line)? {
            return Ok(String::new(alloc));
        }
        let answer = match self.run(alloc, line)? {
            Some(answer) => answer,
            None => unread(alloc, line)?,
        };
        self.link = LinkGiven::new(alloc);
        self.given = Given::new(alloc);
        Ok(answer)
    }
}
