//! The script of lives.
ghost use Rattle.std.specs.Prelude.{◌≡◌, Some, None, ◌||◌, not, if◌then◌else◌};
ghost use Rattle.event_life.specs.Higher.{may_yield};
ghost use Rattle.event_life.specs.Products.{is_routine, is_overlapped, row_at, life_at, around_but_higher};
ghost use Rattle.event_life.specs.Table.{step};

use crate::steps::answers::answer_text;
use crate::steps::words::{Step, step_of};
use event_life::{Breach, Life, around, has_higher, is_routine, life_at, life_step, put, row_of};
use hazard_types::{Line, Minute, Oom, Row};
use std::alloc::Global;
use worked_lines::Work;

/// The rows, by zone, then event, and the minute at which lines are judged.
#[derive(Drop)]
pub struct Script {
    rows: Vec<Row>,
    minute: Minute,
}

/// Returns the life that a line leaves, or the rule that it breaks, if it is alone in its product
/// at minute `t`; `None` for a routine line, which is not judged. `rows` are those before the
/// product, by zone, then event.
fn stepped(rows: &[Row], t: Minute, line: &Line) -> Option<Result<Life, Breach>>
    ensures { result ≡ (if is_routine line.now.action then None
        else Some (step (life_at rows.now line.now) line.now t
        (around_but_higher rows.now t line.now (not (may_yield line.now.event.hazard)
        || is_overlapped rows.now t (row_at rows.now line.now.event line.now.zone))))) }
{
    if is_routine(&line.action) {
        return None;
    }
    let higher = has_higher(rows, t, rows, line);
    Some(life_step(life_at(rows, line), line, t, around(rows, t, line, higher)))
}

impl Script {
    /// Returns a script without rows, at minute 0.
    pub fn new(alloc: Global) -> Self {
        Script {
            rows: Vec::new(alloc),
            minute: Minute::new(0).unwrap(),
        }
    }

    /// Returns what is printed for a line, alone in a product at the minute of the script: the life
    /// that it leaves, its breach, or `touches no life`. The rows stay as they are.
    fn judge(&self, alloc: Global, line: &Line) -> Result<String, Oom> {
        answer_text(alloc, &stepped(&self.rows, self.minute, line))
    }

    /// Judges a line, alone in a product at the minute of the script, and puts the row of the life
    /// that it leaves, if it breaks no rule. Returns what is printed: the life, the breach, or
    /// `touches no life`.
    fn take(&mut self, alloc: Global, line: &Line) -> Result<String, Oom> {
        let found = stepped(&self.rows, self.minute, line);
        if let Some(Ok(life)) = &found {
            put(&mut self.rows, &row_of(line, life))?;
        }
        answer_text(alloc, &found)
    }

    /// Does a step, and returns what is printed for it: an empty text unless the step judges or
    /// takes a line.
    fn step(&mut self, alloc: Global, step: &Step) -> Result<String, Oom> {
        match step {
            Step::Clear => self.rows.clear(),
            Step::At(minute) => self.minute = *minute,
            Step::Stand(row) => put(&mut self.rows, row)?,
            Step::Judge(line) => return self.judge(alloc, line),
            Step::Take(line) => return self.take(alloc, line),
        }
        Ok(String::new(alloc))
    }
}

impl Work for Script {
    /// Does the step of a line, and returns what is printed for it: `unread: LINE` if it is no
    /// step. A remark, which begins with `#`, and an empty line are returned as they are, with LF.
    fn work(&mut self, alloc: Global, line: &str) -> Result<String, Oom> {
        if line.is_empty() || line.starts_with('#') {
            return Ok(format!(in alloc; "{line}\n")?);
        }
        match step_of(line) {
            Ok(step) => self.step(alloc, &step),
            Err(_unread) => Ok(format!(in alloc; "unread: {line}\n")?),
        }
    }
}
