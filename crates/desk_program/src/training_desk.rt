//! The training office: an office in memory that takes each line as an issue of its one desk, at
//! one minute.
ghost use Rattle.std.specs.Prelude.{◌≡◌, ◌<◌, IfOk, IsSome, IsTrue};
ghost use Rattle.std.specs.Prelude.{OnErr, OnOk, Ok, Some, option_map};
ghost use Rattle.hazard_types.specs.Characters.{is_office};
ghost use Rattle.request_json.specs.Formed.{IsIssuePart};
ghost use Rattle.office_core.specs.Agreement.{ReadsAsTheBoard};
ghost use Rattle.office_core.specs.Prepared.{MayCommit};
ghost use Rattle.office_core.specs.State.{last_number};
ghost use Rattle.office_core.specs.Step.{state_after};
ghost use Rattle.program_ends.specs.Replies.{bytes_of};
ghost use Rattle.desk_commands.specs.Lines.{refusal_line};
ghost use Rattle.desk_program.specs.Training.{AnswersIssue, IsTraining, Replies};
ghost use Rattle.desk_program.specs.Training.{Lacks, dry_desk, first_training};

use crate::words::Dry;
use desk_settings::training_settings;
use hazard_types::{Class, Minute, Oom, Or, Text};
use office_core::{Office, Prepared, Ready, offices_begin_in_agreement};
use office_types::{Desk, Edition, PutPart, Refusal, Request};
use program_ends::{Answers, Reply};
use request_json::{read_training_issue, refusal_text};
use std::alloc::Global;
use std::marker::Model;

/// An office of training, and the minute at which each line is answered.
#[derive(Drop)]
pub struct TrainingDesk {
    office: Office,
    at: Minute,
}

impl Model for TrainingDesk {
    ghost use Rattle.desk_program.specs.Training.{IsTraining, Trained};

    ghost Value = { Trained };

    ghost view = { λ d. record { state = d.office.state; at = d.at } };

    ghost invariant = { λ d. IsTraining d.office.state d.at };
}

/// Returns the desk `DRY`, the one desk of a training office, which issues all of its products.
fn dry_desk() -> Desk
    ensures { result ≡ dry_desk }
{
    match Desk::new(b"DRY") {
        Some(desk) => desk,
        None => unreachable!(),
    }
}

/// Returns a copy of the text of a prepared product. The prepared request must have made one.
fn product_text(prepared: &Prepared) -> Result<Text, Oom>
    requires { IsSome prepared.now.made }
    ensures { IfOk result
        (λ text. option_map (λ made. made.sent.text) prepared.now.made ≡ Some text) }
{
    match prepared.text() {
        Some(text) => Ok(text.clone()?),
        None => unreachable!(),
    }
}

/// Commits a prepared issue to the office and returns the text of its product as the reply. The
/// issue must have made one. The text is copied before the commit, so on `Oom` the office is
/// unchanged.
fn accept(office: &mut Office, prepared: Prepared) -> Result<Reply, Oom>
    requires may { MayCommit office.old prepared }
    requires made { IsSome prepared.made }
    ensures text { IfOk result
        (λ reply. option_map (λ made. made.sent.text) prepared.made ≡ Some (bytes_of reply)) }
    ensures state { OnOk result
        (office.new.state ≡ state_after office.old.state prepared.entry prepared.made) }
    ensures number { OnOk result
        (last_number office.new.state prepared.entry.desk ≡ prepared.entry.seq) }
    ensures reads { OnOk result (ReadsAsTheBoard office.new.state) }
    ensures lacked { OnErr result (office.new.state ≡ office.old.state) }
{
    let text = product_text(&prepared)?;
    office.commit(prepared);
    Ok(Reply::Whole(text))
}

/// Returns the reply to a line that is refused: the JSON text of the refusal, as a line.
fn refusal_reply(alloc: Global, refusal: &Refusal) -> Result<Reply, Oom>
    ensures { IfOk result (λ reply. bytes_of reply ≡ refusal_line refusal.now) }
{
    let text = refusal_text(alloc, refusal)?;
    Ok(Reply::Line(text))
}

/// Issues the product of `part` at minute `at` and returns its text as the reply, or the refusal as
/// a line of JSON. The office is unchanged if the issue is refused, and on `Oom`.
fn answer_issue(alloc: Global, office: &mut Office, at: Minute, part: PutPart) -> Result<Reply, Oom>
    requires form { IsIssuePart part }
    requires training { IsTraining office.old.state at }
    ensures answered { IfOk result (λ reply. AnswersIssue at office.old.state (Ok part)
        (bytes_of reply) office.new.state) }
    ensures training { IsTraining office.new.state at }
    ensures lacked { OnErr result (office.new.state ≡ office.old.state) }
{
    let number = office.products() + 1;
    let request = Request::Issue(part);
    let reading = i64::from(at.get());
    let ready = match office.prepare(alloc, dry_desk(), number, &request, reading) {
        Ok(ready) => ready,
        Err(Or::No(refusal)) => return refusal_reply(alloc, &refusal),
        Err(Or::OutOfMemory) => return Err(Oom),
    };
    match ready {
        Ready::New(prepared) => accept(office, prepared),
        Ready::Again => unreachable!(),
    }
}

impl TrainingDesk {
    /// Returns the training office of `dry`, without products, which answers each line at the
    /// minute of `dry`.
    ///
    /// # Errors
    ///
    /// Out of memory.
    pub fn new(alloc: Global, dry: &Dry) -> Result<Self, Oom>
        requires { IsTrue (is_office dry.now.office) }
        ensures { IfOk result (λ desk. desk ≡ record {
          state = first_training dry.now.office;
          at = dry.now.minute;
        }) }
    {
        offices_begin_in_agreement();
        let settings = training_settings(alloc, dry.office)?;
        let office = Office::new(alloc, settings, Class::T, Edition::One)?;
        Ok(TrainingDesk {
            office,
            at: dry.minute,
        })
    }
}

impl Answers for TrainingDesk {
    ghost answers = { Replies };

    ghost out_of_memory = { Lacks };

    fn answer(&mut self, alloc: Global, line: Option<&[u8]>) -> Result<Reply, Oom> {
        // What holds between lines comes to the proof by this read.
        let _ = &self.office;
        let Some(line) = line else {
            return refusal_reply(alloc, &Refusal::LineTooLong);
        };
        if line.is_empty() {
            return Ok(Reply::Nothing);
        }
        match read_training_issue(alloc, line) {
            Ok(part) => answer_issue(alloc, &mut self.office, self.at, part),
            Err(Or::No(refusal)) => refusal_reply(alloc, &refusal),
            Err(Or::OutOfMemory) => Err(Oom),
        }
    }
}
