//! An office of county notices and its answers to lines.
ghost use Rattle.std.specs.Prelude.{◌≡◌, ◌≤◌, Err, Ok, IfOk, IsTrue, OnErr, OnOk};
ghost use Rattle.hazard_types.specs.Characters.{is_office};
ghost use Rattle.hazard_types.specs.declared.or.Or.TheVariants.{No};
ghost use Rattle.notice_json.specs.declared.refusal.NoticeRefusal.{NoticeRefusal as Reason};
ghost use Rattle.program_ends.specs.Replies.{bytes_of};
ghost use Rattle.county_notices.specs.Answers.{AnswersLine, AnswersCommand, LacksLine, refusal_line};
ghost use Rattle.county_notices.specs.Lines.{lines_of};
ghost use Rattle.county_notices.specs.NoticeHistory.{IsAccepted, IsRefused, after, first};

use crate::issuer::Issuer;
use crate::lines::lines_of;
use crate::notice::notice_text;
use crate::rules::broken;
use hazard_board::Board;
use hazard_types::{Line, List, Minute, Oom, Or, Text};
use notice_json::{Command, NoticeRefusal, read_command, refusal_text};
use program_ends::{Answers, Reply};
use std::alloc::Global;
use std::marker::Model;

/// The most bytes of a notice.
const MOST: usize = 65_536;

/// The state of an office of county notices: the rows after its notices so far, and the minute of
/// the last accepted command. As `Answers` it answers a line with its notice or with its refusal,
/// and an empty line with nothing.
#[derive(Drop)]
pub struct Notices {
    issuer: Issuer,
    board: Board,
    last: Minute,
}

impl Model for Notices {
    ghost use Rattle.county_notices.specs.Commands.{Noticed};
    ghost use Rattle.county_notices.specs.Standing.{IsStanding};

    ghost Value = { Noticed };

    ghost view = { λ n. record { by = n.issuer; rows = n.board.rows; last = n.last } };

    ghost invariant = { λ n. IsStanding
        (record { by = n.issuer; rows = n.board.rows; last = n.last }) };
}

/// The lines of a command and its notice.
#[derive(Drop)]
struct Judged {
    lines: List<Line>,
    text: Text,
}

/// Returns the reply that writes a refusal as a line of JSON.
fn refusal_reply(alloc: Global, refusal: &NoticeRefusal) -> Result<Reply, Oom>
    ensures { IfOk result (λ reply. bytes_of reply ≡ refusal_line refusal.now) }
{
    Ok(Reply::Line(refusal_text(alloc, refusal)?))
}

/// Returns minute 0, which stands for the minute of the last accepted command while there is none
/// yet.
fn first_minute() -> Minute
    ensures { result ≡ 0 }
{
    match Minute::new(0) {
        Some(minute) => minute,
        None => unreachable!(),
    }
}

impl Notices {
    /// Returns an office of county notices before its first notice, without rows.
    pub fn new(alloc: Global, issuer: Issuer) -> Self
        requires { IsTrue (is_office issuer.office) }
        ensures { result ≡ first issuer }
    {
        Notices {
            issuer,
            board: Board::new(alloc),
            last: first_minute(),
        }
    }

    /// Returns the lines of a command and the text of its notice. Nothing is changed.
    ///
    /// # Errors
    ///
    /// `Or::No` with the first rule that the command breaks, and otherwise out of memory.
    fn judge(&self, alloc: Global, command: &Command) -> Result<Judged, Or<NoticeRefusal>>
        requires { command.now.number ≤ 9999 }
        ensures lines { IfOk result (λ judged. judged.lines ≡ lines_of self.now.rows command.now) }
        ensures accepted { IfOk result (λ judged. IsAccepted self.now command.now judged.text) }
        ensures refused { (r : Reason) → result ≡ Err (No r) → IsRefused self.now command.now r }
    {
        // This borrow brings the invariant of `self` into the proof.
        let _ = &self.board;
        if let Some(refusal) = broken(&self.board, self.last, command) {
            return Err(Or::No(refusal));
        }
        let lines = lines_of(alloc, &self.board, command)?;
        let text = notice_text(alloc, &self.issuer, command.at, command.watch, &lines)?;
        if text.len() > MOST {
            return Err(Or::No(NoticeRefusal::TooLong { bytes: text.len() }));
        }
        Ok(Judged { lines, text })
    }

    /// Applies the lines of a command to the rows, and returns the text of its notice.
    ///
    /// # Errors
    ///
    /// `Or::No` with the first rule that the command breaks, and otherwise out of memory. Nothing
    /// changes in either case.
    fn accept(&mut self, alloc: Global, command: &Command) -> Result<Text, Or<NoticeRefusal>>
        requires { command.now.number ≤ 9999 }
        ensures accepted { IfOk result (λ text. IsAccepted self.old command.now text) }
        ensures left { OnOk result (self.new ≡ after self.old command.now) }
        ensures refused { (r : Reason) → result ≡ Err (No r) → IsRefused self.old command.now r }
        ensures kept { OnErr result (self.new ≡ self.old) }
    {
        let judged = self.judge(alloc, command)?;
        self.board.reserve(judged.lines.len())?;
        self.board.apply(&judged.lines, command.at);
        self.last = command.at;
        Ok(judged.text)
    }

    /// Returns the reply to a command: its notice, or its refusal as a line of JSON. An accepted
    /// command is applied to the rows; a refused one changes nothing.
    fn answer_command(&mut self, alloc: Global, command: &Command) -> Result<Reply, Oom>
        requires { command.now.number ≤ 9999 }
        ensures answered { IfOk result (λ reply.
            AnswersCommand self.old (Ok command.now) (bytes_of reply) self.new) }
        ensures lacked { OnErr result (self.new ≡ self.old) }
    {
        match self.accept(alloc, command) {
            Ok(text) => Ok(Reply::Whole(text)),
            Err(Or::No(refusal)) => refusal_reply(alloc, &refusal),
            Err(Or::OutOfMemory) => Err(Oom),
        }
    }
}

impl Answers for Notices {
    ghost answers = { AnswersLine };

    ghost out_of_memory = { LacksLine };

    fn answer(&mut self, alloc: Global, line: Option<&[u8]>) -> Result<Reply, Oom> {
        let Some(line) = line else {
            return refusal_reply(alloc, &NoticeRefusal::LineTooLong);
        };
        if line.is_empty() {
            return Ok(Reply::Nothing);
        }
        match read_command(alloc, line) {
            Ok(command) => self.answer_command(alloc, &command),
            Err(Or::No(refusal)) => refusal_reply(alloc, &refusal),
            Err(Or::OutOfMemory) => Err(Oom),
        }
    }
}
