//! Sweeps: runs in which one call of a disk fails, or is the last that may succeed, for each call
//! in turn and for several states that a crash may leave.
use crate::desk::files::records_of;
use crate::desk::runs::{Faults, Given, NO_FAULTS, Run, exported, run_command};
use crate::desk::steps::Tried;
use hazard_types::{List, Oom, Text};
use std::alloc::Global;
use worked_lines::text_of;

/// The states that a crash leaves of the writes since the last sync.
const PICKS: [u64; 6] = [0, 1, 2, 3, 5, 15];

/// The exit status of a run without an error.
const DONE: u8 = 0;

/// The exit status of a run that a fault of its disk ended.
const DISK_FAULT: u8 = 9;

/// The answer to a request that met a fault of the disk.
const FAULT_LINE: &str = "{\"no\":\"D1\",\"rule\":\"DiskFault\"}";

/// How many runs met a fault, and how many of them differ from the run without any.
#[derive(Clone, Copy, Debug)]
pub struct Tally {
    pub runs: u64,
    pub differ: u64,
}

impl Tally {
    /// Adds a run to the counts, and to those that differ unless `same`, which says whether the run
    /// ended as it must.
    fn count(&mut self, same: bool) {
        self.runs = self.runs.saturating_add(1);
        if !same {
            self.differ = self.differ.saturating_add(1);
        }
    }
}

/// What an input leads to: the exit status, the answers to its lines, and the products of the
/// office.
#[derive(Drop)]
struct Outcome {
    status: u8,
    answers: Text,
    products: Text,
}

impl Outcome {
    /// Whether two outcomes have the same exit status, answers and products.
    fn is_same(&self, other: &Self) -> bool {
        self.status == other.status
            && self.answers.as_slice() == other.answers.as_slice()
            && self.products.as_slice() == other.products.as_slice()
    }
}

/// A file, an input, and their outcome over a disk without faults.
#[derive(Drop)]
struct Wanted<'a> {
    given: &'a Given,
    file: &'a [u8],
    outcome: Outcome,
}

/// Returns what the command `script` leads to with this input and the bytes `file` as its file,
/// over a disk without faults: its exit status, its answers, and the texts of the office's products
/// after it.
fn outcome_of(alloc: Global, given: &Given, file: &[u8]) -> Result<Outcome, Oom> {
    let done = run_command(alloc, "script", given, file, &NO_FAULTS)?;
    let products = exported(alloc, given, done.disk.file().as_slice())?;
    Ok(Outcome {
        status: done.status,
        answers: done.text,
        products,
    })
}

/// Whether an exit status is that of a run without an error, or of one that a fault of its disk
/// ended.
fn is_done_or_disk_fault(status: u8) -> bool {
    status == DONE || status == DISK_FAULT
}

/// Returns the answers, one a line, without those that report a fault of the disk; each line ends
/// with LF.
fn without_faults(alloc: Global, answers: &str) -> Result<Text, Oom> {
    let mut text = Text::new(alloc);
    for answer in answers.lines() {
        if answer != FAULT_LINE {
            text.extend(answer.as_bytes())?;
            text.push(b'\n')?;
        }
    }
    Ok(text)
}

/// Returns the input without the lines whose answers report a fault of the disk, each line with its
/// reading of the clock. `answers` has a line for each line of the input, in order, and the last
/// reading holds for all lines after it. No line of the input may be empty.
fn undisturbed(alloc: Global, given: &Given, answers: &str) -> Result<Given, Oom> {
    let mut input = Text::new(alloc);
    let mut readings = List::new(alloc);
    let mut lines = text_of(given.input.as_slice()).lines();
    let mut ahead = given.readings.as_slice();
    for answer in answers.lines() {
        let reading = ahead.first().copied();
        if let Some((_first, more)) = ahead.split_first() {
            if !more.is_empty() {
                ahead = more;
            }
        }
        let line = lines.next().unwrap_or("");
        if answer != FAULT_LINE {
            input.extend(line.as_bytes())?;
            input.push(b'\n')?;
            readings.push(reading.unwrap_or(0))?;
        }
    }
    Ok(Given { input, readings })
}

/// Whether the file `left` after a crash keeps what a run with faults answered, which is `answers`,
/// one a line of the input. The lines whose answers report no fault must get the same answers in a
/// run of only these lines without faults, and `left` must begin with the records of that run.
fn answers_are_kept(
    alloc: Global,
    wanted: &Wanted<'_>,
    answers: &str,
    left: &[u8],
) -> Result<bool, Oom> {
    let apart = undisturbed(alloc, wanted.given, answers)?;
    let run = run_command(alloc, "script", &apart, wanted.file, &NO_FAULTS)?;
    let told = without_faults(alloc, answers)?;
    let kept = left.starts_with(records_of(run.disk.file().as_slice()));
    Ok(told.as_slice() == run.text.as_slice() && kept)
}

/// Returns `text`, what a run wrote, as the answers to its lines, or an empty text if `status`, its
/// exit status, is not 0.
fn answers_of(status: u8, text: &Text) -> &str {
    if status != DONE {
        return "";
    }
    text_of(text.as_slice())
}

/// Whether a run of the input with these faults, and then a crash, keeps what it answered. It must
/// end without an error or by a fault of its disk, and the input, sent again over the file that is
/// left, must have the exit status, answers and products of a run without faults.
fn input_survives(alloc: Global, wanted: &Wanted<'_>, faults: &Faults) -> Result<bool, Oom> {
    let first = run_command(alloc, "script", wanted.given, wanted.file, faults)?;
    let Run { status, text, disk } = first;
    let fair = is_done_or_disk_fault(status);
    let left = disk.crashed()?;
    let answers = answers_of(status, &text);
    let kept = answers_are_kept(alloc, wanted, answers, left.as_slice())?;
    let again = outcome_of(alloc, wanted.given, left.as_slice())?;
    Ok(fair && kept && again.is_same(&wanted.outcome))
}

/// Runs the command `script` with the input of `given` over a disk with the bytes `file` as its
/// file, lets the disk crash, and sends the input again, without faults, over the file that is
/// left. For each of the first `calls` calls of the disk there are twelve such runs: that call
/// fails, or all calls after it fail, each with six states that a crash may leave. Returns how many
/// runs were made, and how many of them ended by an error other than a fault of the disk, did not
/// keep what they answered through the faults and the crash, or did not come to the exit status,
/// answers and products of a run without faults when the input was sent again.
fn sweep_input(alloc: Global, given: &Given, file: &[u8], calls: u8) -> Result<Tally, Oom> {
    let wanted = Wanted {
        given,
        file,
        outcome: outcome_of(alloc, given, file)?,
    };
    let mut tally = Tally { runs: 0, differ: 0 };
    for call in 1..=calls {
        for pick in PICKS {
            for stops in [false, true] {
                let faults = faults_at(u64::from(call), stops, pick);
                tally.count(input_survives(alloc, &wanted, &faults)?);
            }
        }
    }
    Ok(tally)
}

/// Returns the faults of a disk whose call number `call`, from 1, fails, or, if `stops`, all of
/// whose calls after it fail. `pick` is a number that chooses what a crash leaves of the writes
/// since the last sync.
fn faults_at(call: u64, stops: bool, pick: u64) -> Faults {
    let (failing, stop) = if stops {
        (None, Some(call))
    } else {
        (Some(call), None)
    };
    Faults {
        failing,
        stop,
        pick: Some(pick),
        unwritten: None,
    }
}

/// Whether an upgrade with these faults, and then a crash, leaves the products as they were before
/// it. It must also end without an error or by a fault of its disk.
fn upgrade_survives(alloc: Global, wanted: &Wanted<'_>, faults: &Faults) -> Result<bool, Oom> {
    let first = run_command(alloc, "upgrade", wanted.given, wanted.file, faults)?;
    let fair = is_done_or_disk_fault(first.status);
    let left = first.disk.crashed()?;
    let products = exported(alloc, wanted.given, left.as_slice())?;
    Ok(fair && products.as_slice() == wanted.outcome.products.as_slice())
}

/// Returns how many upgrades of the file were made, and how many of them changed the office's
/// products or ended by an error other than a fault of the disk. In each the disk fails at all
/// calls after one of the first `calls` calls and then crashes; six states that a crash may leave
/// are tried for each.
fn sweep_upgrade(alloc: Global, given: &Given, file: &[u8], calls: u8) -> Result<Tally, Oom> {
    let wanted = Wanted {
        given,
        file,
        outcome: Outcome {
            status: DONE,
            answers: Text::new(alloc),
            products: exported(alloc, given, file)?,
        },
    };
    let mut tally = Tally { runs: 0, differ: 0 };
    for call in 1..=calls {
        for pick in PICKS {
            let faults = faults_at(u64::from(call), true, pick);
            tally.count(upgrade_survives(alloc, &wanted, &faults)?);
        }
    }
    Ok(tally)
}

/// Returns the input with each line twice in a row, both with the line's reading of the clock. The
/// last reading holds for all lines after it. No line of the input may be empty.
fn with_lines_twice(alloc: Global, given: &Given) -> Result<Given, Oom> {
    let mut input = Text::new(alloc);
    let mut readings = List::new(alloc);
    let mut ahead = given.readings.as_slice();
    for line in text_of(given.input.as_slice()).lines() {
        let reading = ahead.first().copied().unwrap_or(0);
        if let Some((_first, more)) = ahead.split_first() {
            if !more.is_empty() {
                ahead = more;
            }
        }
        for _time in 0..2 {
            input.extend(line.as_bytes())?;
            input.push(b'\n')?;
            readings.push(reading)?;
        }
    }
    Ok(Given { input, readings })
}

/// Whether a run of an input with each line twice has good answers. `answers` has two lines for
/// each line of the input, in order, and `wanted` the one answer of a run without faults. The
/// second of the two must be that answer, and the first too, unless it reports a fault of the disk.
fn second_answers_are_good(answers: &str, wanted: &str) -> bool {
    let mut answers = answers.lines();
    for good in wanted.lines() {
        let first = answers.next().unwrap_or("");
        let second = answers.next().unwrap_or("");
        if second != good || (first != good && first != FAULT_LINE) {
            return false;
        }
    }
    answers.next().is_none()
}

/// Whether a run of the input with each line twice has the answers and products of a run without
/// faults, or was ended by a fault of its disk. In the first case the first answer to a line may
/// report a fault of the disk.
fn lines_survive(
    alloc: Global,
    wanted: &Wanted<'_>,
    twice: &Given,
    faults: &Faults,
) -> Result<bool, Oom> {
    let run = run_command(alloc, "script", twice, wanted.file, faults)?;
    if run.status != DONE {
        return Ok(run.status == DISK_FAULT);
    }
    let outcome = &wanted.outcome;
    let answers = text_of(run.text.as_slice());
    let good = second_answers_are_good(answers, text_of(outcome.answers.as_slice()));
    let products = exported(alloc, twice, run.disk.file().as_slice())?;
    Ok(good && products.as_slice() == outcome.products.as_slice())
}

/// Returns how many runs of the input with each line twice were made, and how many of them neither
/// had the answers and products of a run without faults, but for first answers that report a fault
/// of the disk, nor were ended by such a fault. In each the disk fails at one of the first `calls`
/// calls.
fn sweep_twice(alloc: Global, given: &Given, file: &[u8], calls: u8) -> Result<Tally, Oom> {
    let wanted = Wanted {
        given,
        file,
        outcome: outcome_of(alloc, given, file)?,
    };
    let twice = with_lines_twice(alloc, given)?;
    let mut tally = Tally { runs: 0, differ: 0 };
    for call in 1..=calls {
        let faults = faults_at(u64::from(call), false, 0);
        tally.count(lines_survive(alloc, &wanted, &twice, &faults)?);
    }
    Ok(tally)
}

/// Returns how many runs a sweep over the first `calls` calls of a disk made, and how many of them
/// did not keep the answers and products of a run without faults, or ended by an error other than a
/// fault of the disk. `tried` is what is run at each call: the input, the input with each line
/// twice, of which a run that the fault ended is not compared, or an upgrade of the file, of which
/// the products alone are compared.
///
/// # Errors
///
/// Out of memory.
pub fn sweep(
    alloc: Global,
    tried: Tried,
    given: &Given,
    file: &[u8],
    calls: u8,
) -> Result<Tally, Oom> {
    match tried {
        Tried::Input => sweep_input(alloc, given, file, calls),
        Tried::Upgrade => sweep_upgrade(alloc, given, file, calls),
        Tried::Twice => sweep_twice(alloc, given, file, calls),
    }
}
