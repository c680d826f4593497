//! The jobs of the threads in their turns.
use crate::turns::entries::{Entries, Entry};
use hazard_types::Oom;
use std::thread;
use std::thread::Parker;
use std::time::{Clock, Duration};
use turn_lock::Job;

/// A job that lets others begin, sleeps, and adds an entry.
pub struct Hold<'a, R> {
    pub rt: &'a R,
    pub begun: &'a Parker,
    pub time: Duration,
}

impl<R: Clock> Job<Entries> for Hold<'_, R> {
    ghost use Rattle.std.specs.Prelude.{◌≡◌, ◌++◌, ◌∷◌, [], OnOk};
    ghost use Rattle.worked_serve.specs.declared.turns.entries.Entry.{Entry};

    type Out = Result<(), Oom>;

    ghost may_run = { λ _. Unit {0} };

    ghost meets = { λ job base before after answer.
        OnOk answer (after ≡ before ++ Entry.Held ∷ []) };

    fn run(self, value: &mut Entries) -> Result<(), Oom> {
        let Hold { rt, begun, time } = self;
        begun.unpark();
        thread::sleep(rt, time);
        value.add(Entry::Held)
    }
}

/// A job that adds an entry.
#[derive(Drop)]
pub struct Add;

impl Job<Entries> for Add {
    ghost use Rattle.std.specs.Prelude.{◌≡◌, ◌++◌, ◌∷◌, [], OnOk};
    ghost use Rattle.worked_serve.specs.declared.turns.entries.Entry.{Entry};

    type Out = Result<(), Oom>;

    ghost may_run = { λ _. Unit {0} };

    ghost meets = { λ job base before after answer.
        OnOk answer (after ≡ before ++ Entry.Waited ∷ []) };

    fn run(self, value: &mut Entries) -> Result<(), Oom> {
        value.add(Entry::Waited)
    }
}
