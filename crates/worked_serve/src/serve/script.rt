//! The script of serving: a line sets something for the next run, or is a run, after which the
//! links, the doors and the faults are removed.
ghost use Rattle.std.specs.Prelude.{◌≤◌};

use crate::serve::calls::add_calls;
use crate::serve::gate::HoldingGate;
use crate::serve::given::{Given, minutes_of};
use crate::serve::links::{LinkRun, link_answer, run_link, tally_answer};
use crate::serve::ports::{DoorGiven, Shown, port_answer, serve_doors};
use crate::serve::real::{clients_answer, port_in_use_answer};
use crate::serve::sweeps::{sweep_crashes, sweep_ends, sweep_pieces};
use crate::serve::words::{serving_in, words_answer};
use hazard_types::{List, Oom, Text};
use std::alloc::Global;
use std::mem;
use std::net::{Net, TcpListener, TcpStream};
use std::sync::Wait;
use std::thread::Threads;
use std::time::Clock;
use worked_lines::{numbers_of, unread};

/// Returns the number that a word is, as the most bytes that a read of a link returns. For 0 and
/// for a word that is no number it returns `usize::MAX`, so that all bytes come at once.
fn piece_of(word: &str) -> usize
    ensures { 1 ≤ result }
{
    match word.parse::<usize>() {
        Ok(piece) if piece > 0 => piece,
        _ => usize::MAX,
    }
}

/// The settings, the disk, clock and faults of the next run, the link, the door and the doors that
/// are being written, and whether the gate holds the first call.
#[derive(Drop)]
pub struct Script<'a, R> {
    rt: &'a R,
    settings: Text,
    given: Given,
    bytes: Text,
    door: DoorGiven,
    doors: List<DoorGiven>,
    holds: bool,
}

impl<'a, R: Clock + Threads + Wait + Sync + Net<Listener = TcpListener, Stream = TcpStream>> Script<
    'a,
    R,
> {
    /// Returns a script that has set nothing: no settings, an empty file, no link, no door and no
    /// fault.
    pub fn new(rt: &'a R, alloc: Global) -> Self {
        Script {
            rt,
            settings: List::new(alloc),
            given: Given::new(alloc),
            bytes: List::new(alloc),
            door: DoorGiven::new(alloc),
            doors: List::new(alloc),
            holds: false,
        }
    }

    /// Moves the bytes that were set so far to the door that is being written, as its next link,
    /// and begins another link without bytes.
    fn end_link(&mut self, alloc: Global) -> Result<(), Oom> {
        let bytes = mem::replace(&mut self.bytes, List::new(alloc));
        self.door.links.push(bytes)
    }

    /// Moves the bytes that were set so far to the door that is being written, as its last link,
    /// and that door to the list of doors, and begins another door without links.
    fn end_door(&mut self, alloc: Global) -> Result<(), Oom> {
        self.end_link(alloc)?;
        let door = mem::replace(&mut self.door, DoorGiven::new(alloc));
        self.doors.push(door)
    }

    /// Appends a line, with a line end, to the text of the office's settings.
    fn add_setting(&mut self, line: &str) -> Result<(), Oom> {
        self.settings.extend(line.as_bytes())?;
        self.settings.push(b'\n')
    }

    /// Sets the clock's readings or the calls that fail, and returns whether `word` and `rest` are
    /// such a line. `word` is `at`, with stamps in `rest`, or `failing` (calls of the disk),
    /// `broken` (calls of each link) or `accepts` (accepts of the door), with numbers in `rest`.
    fn set_numbers(&mut self, alloc: Global, word: &str, rest: &str) -> Result<bool, Oom> {
        if word == "at" {
            let Some(minutes) = minutes_of(alloc, rest)? else {
                return Ok(false);
            };
            self.given.readings = minutes;
            return Ok(true);
        }
        let Some(numbers) = numbers_of(alloc, rest)? else {
            return Ok(false);
        };
        match word {
            "failing" => self.given.failing = numbers,
            "broken" => self.given.broken = numbers,
            "accepts" => self.door.failing = numbers,
            _ => return Ok(false),
        }
        Ok(true)
    }

    /// Does a line that sets something for the next run, and returns true: a line of the settings
    /// (`settings`), the disk's file (`file`), the end of the link (`next`) or of the door
    /// (`door`), that the gate holds the first call (`hold`), the clock (`at`), the calls that fail
    /// (`failing`, `broken`, `accepts`), or bytes of the link (`get`, `post`, `head`, `bytes`, and
    /// `times N` before one of these). Returns false for another word, as that of a run, and if a
    /// number or stamp of the line cannot be read.
    fn prepare(&mut self, alloc: Global, line: &str) -> Result<bool, Oom> {
        let (word, rest) = line.split_once(' ').unwrap_or((line, ""));
        match word {
            "settings" => self.add_setting(rest)?,
            "file" => self.given.file = List::from_slice(alloc, rest.as_bytes())?,
            "next" => self.end_link(alloc)?,
            "door" => self.end_door(alloc)?,
            "hold" => self.holds = true,
            _ => {
                return Ok(
                    self.set_numbers(alloc, word, rest)?
                        || add_calls(alloc, &mut self.bytes, line)?,
                );
            }
        }
        Ok(true)
    }

    /// Removes what was set for one run: the link, the doors, the faults and the hold. The
    /// settings, the file and the clock stay.
    fn clear(&mut self, alloc: Global) {
        self.bytes = List::new(alloc);
        self.door = DoorGiven::new(alloc);
        self.doors = List::new(alloc);
        self.given.failing = List::new(alloc);
        self.given.broken = List::new(alloc);
        self.holds = false;
    }

    /// Makes the file the journal of a new office with the settings so far, and returns the line
    /// `ready`. Returns the line `refused`, and the file is empty, if the office was not created.
    fn make_journal(&mut self, alloc: Global) -> Result<String, Oom> {
        self.given.file = List::new(alloc);
        let made = self.given.make_journal(alloc, self.settings.as_slice())?;
        let word = if made { "ready\n" } else { "refused\n" };
        Ok(String::from_str(alloc, word)?)
    }

    /// Serves the link that was set, at most `piece` bytes a read, and keeps the file that this
    /// leaves for the next run. Returns how the link ended and what it left. `None` if no office
    /// can be opened: the file is no office's journal, or while it is opened a call of the disk
    /// fails or memory runs out.
    fn serve_link(&mut self, alloc: Global, piece: usize) -> Result<Option<LinkRun>, Oom>
        requires { 1 ≤ piece }
    {
        let bytes = self.bytes.as_slice();
        let run = run_link(self.rt, alloc, &self.given, bytes, piece)?;
        if let Some(run) = &run {
            self.given.file = run.file.clone()?;
        }
        Ok(run)
    }

    /// Serves the doors that were set as `line`, a command `serve`, says, and keeps the file that
    /// this leaves. Returns what is printed: the port numbers, of each link what `shown` selects,
    /// what the program wrote, its exit status, and `held in vain` if the gate gave up. For a line
    /// that is no such command it returns the line `unread: LINE`.
    fn serve_doors(&mut self, alloc: Global, line: &str, shown: Shown) -> Result<String, Oom> {
        self.end_door(alloc)?;
        let Some(serving) = serving_in(alloc, line)? else {
            return unread(alloc, line);
        };
        let gate = HoldingGate::new(self.holds);
        let doors = self.doors.as_slice();
        let run = serve_doors(self.rt, alloc, &self.given, doors, &serving, &gate)?;
        let mut answer = port_answer(alloc, &run, shown)?;
        self.given.file = run.ran.file.clone()?;
        if gate.is_spent() {
            answer.push_str("held in vain\n")?;
        }
        Ok(answer)
    }

    /// Serves the doors that were set over disks that stop after each of the first CALLS calls,
    /// once for each of six states that a crash may leave. Returns the line `crashes COUNT, differ
    /// COUNT`: the number of runs, and of those after which the file that the crash leaves has
    /// neither as many requests as were answered as accepted nor one more. `line` is `CALLS WORDS`,
    /// where WORDS are a command `serve`; for any other line it returns the line `unread: LINE`.
    fn sweep_crashes(&mut self, alloc: Global, line: &str) -> Result<String, Oom> {
        self.end_door(alloc)?;
        let (calls, words) = line.split_once(' ').unwrap_or((line, ""));
        let Ok(calls) = calls.parse::<u64>() else {
            return unread(alloc, line);
        };
        let Some(serving) = serving_in(alloc, words)? else {
            return unread(alloc, line);
        };
        let doors = self.doors.as_slice();
        sweep_crashes(self.rt, alloc, &self.given, doors, &serving, calls)
    }

    /// Does a line that is a run, and returns what is printed for it: `init` makes the journal,
    /// `link`, `tally`, `pieces` and `ends` serve the link that was set, `serve`, `count` and
    /// `crashes` the doors, `taken` and `clients` a port of this machine, and `words` shows what a
    /// command asks for. Returns the line `unread: LINE` for another word, and if the line has a
    /// wrong form or no office can be opened.
    fn run(&mut self, alloc: Global, line: &str) -> Result<String, Oom> {
        let (word, rest) = line.split_once(' ').unwrap_or((line, ""));
        match word {
            "init" => self.make_journal(alloc),
            "link" => match self.serve_link(alloc, usize::MAX)? {
                Some(run) => link_answer(alloc, &run),
                None => unread(alloc, line),
            },
            "tally" => match self.serve_link(alloc, piece_of(rest))? {
                Some(run) => tally_answer(alloc, &run),
                None => unread(alloc, line),
            },
            "pieces" => sweep_pieces(self.rt, alloc, &self.given, self.bytes.as_slice()),
            "ends" => sweep_ends(self.rt, alloc, &self.given, self.bytes.as_slice()),
            "serve" => self.serve_doors(alloc, line, Shown::Texts),
            "count" => self.serve_doors(alloc, rest, Shown::Counts),
            "crashes" => self.sweep_crashes(alloc, rest),
            "words" => words_answer(alloc, rest),
            "taken" => port_in_use_answer(self.rt, alloc, &self.given),
            "clients" => clients_answer(self.rt, alloc, &self.given, self.bytes.as_slice()),
            _ => unread(alloc, line),
        }
    }

    /// Does a line and returns what is printed for it, nothing for a remark or a line that sets
    /// something. After any other line the links, the doors and the faults that were set are
    /// removed.
    ///
    /// # Errors
    ///
    /// Out of memory.
    pub fn answer(&mut self, alloc: Global, line: &str) -> Result<String, Oom> {
        if line.is_empty() || line.starts_with('#') || self.prepare(alloc, line)? {
            return Ok(String::new(alloc));
        }
        let answer = self.run(alloc, line)?;
        self.clear(alloc);
        Ok(answer)
    }
}
