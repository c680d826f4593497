//! The jobs of a turn at a shared office. Each reads the clock in its turn (docs/DECISIONS.md, "The
//! server").
use crate::shared::Story;
use crate::tied::WithStory;
use desk_traits::{Clock, Disk};
use hazard_types::{Or, Text};
use office_journal::{Answer, KeptOffice};
use office_types::{Query, Refusal};
use request_json::Asked;
use std::alloc::Global;
use turn_lock::Job;

/// A job that submits a request at the clock's minute.
#[derive(Drop)]
pub struct Submit<'a, C> {
    pub alloc: Global,
    pub asked: &'a Asked,
    pub clock: &'a C,
}

impl<'a, D: Disk, C: Clock> Job<WithStory<KeptOffice<D>, Story<D>>> for Submit<'a, C> {
    ghost use Rattle.request_json.specs.Formed.{HasForm};
    ghost use Rattle.office_turns.specs.Submitted.{SubmittedAt};

    type Out = Answer;

    ghost may_run = { λ job. HasForm job.asked.now };

    ghost meets = { λ job base before after answer. SubmittedAt base before after
        (C.gives job.clock.now) job.asked.now answer };

    fn run(self, value: &mut WithStory<KeptOffice<D>, Story<D>>) -> Answer {
        let reading = self.clock.minute();
        value.submit(self.alloc, self.asked, reading)
    }
}

/// A job that looks at the office at the clock's minute.
#[derive(Drop)]
pub struct Look<'a, C> {
    pub alloc: Global,
    pub query: &'a Query,
    pub clock: &'a C,
}

impl<'a, D: Disk, C: Clock> Job<WithStory<KeptOffice<D>, Story<D>>> for Look<'a, C> {
    ghost use Rattle.office_turns.specs.Submitted.{LookedAt};

    type Out = Result<Text, Or<Refusal>>;

    ghost may_run = { λ _. Unit {0} };

    ghost meets = { λ job base before after answer. LookedAt base before after
        (C.gives job.clock.now) job.query.now answer };

    fn run(self, value: &mut WithStory<KeptOffice<D>, Story<D>>) -> Result<Text, Or<Refusal>> {
        let reading = self.clock.minute();
        value.look(self.alloc, self.query, reading)
    }
}
