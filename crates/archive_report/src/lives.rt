//! The lines of lives. The texts of an event and of steps are reused from line to line, since they
//! often repeat.
ghost use Rattle.std.specs.Prelude.{◌≡◌, ◌++◌, [], OnOk};
ghost use Rattle.hazard_types.specs.Names.{event_text};
ghost use Rattle.archive_report.specs.Report.{life_line};
ghost use Rattle.archive_report.specs.Texts.{steps_text};

use crate::texts::write_steps;
use hazard_types::{Action, Event, List, Minute, Oom, Text, write_event_text, zone_text};
use product_decoder::Track;
use std::alloc::Global;
use std::marker::Model;

/// An event and its text.
#[derive(Drop)]
struct EventText {
    event: Option<Event>,
    text: Text,
}

impl Model for EventText {
    ghost use Rattle.std.specs.Prelude.{◌≡◌, [], List as Seq, ℕ, option_map, unwrap_or};
    ghost use Rattle.hazard_types.specs.Names.{event_text};

    ghost Value = { Seq ℕ };

    ghost view = { λ x. x.text };

    ghost invariant = { λ x. x.text ≡ unwrap_or (option_map event_text x.event) [] };
}

impl EventText {
    /// Returns the empty text, of no event.
    fn new(alloc: Global) -> Self
        ensures { result ≡ [] }
    {
        EventText {
            event: None,
            text: List::new(alloc),
        }
    }

    /// Makes this the text of `event`, as `WS.W.0001.2018`. If it is the text of this event
    /// already, or if memory runs out, nothing changes.
    fn set(&mut self, alloc: Global, event: &Event) -> Result<(), Oom>
        ensures { OnOk result (self.new ≡ event_text event.now) }
    {
        if let Some(known) = &self.event {
            if *known == *event {
                return Ok(());
            }
        }
        let mut text = List::new(alloc);
        write_event_text(alloc, &mut text, event)?;
        *self = EventText {
            event: Some(*event),
            text,
        };
        Ok(())
    }

    /// Returns the bytes of the text, which are none if it is of no event.
    fn as_slice(&self) -> &[u8]
        ensures { result.now ≡ self.now }
    {
        self.text.as_slice()
    }
}

/// Steps and their text.
#[derive(Drop)]
struct StepsText {
    steps: List<(Action, Minute)>,
    text: Text,
}

impl Model for StepsText {
    ghost use Rattle.std.specs.Prelude.{◌≡◌, List as Seq, ℕ};
    ghost use Rattle.archive_report.specs.Texts.{steps_text};

    ghost Value = { Seq ℕ };

    ghost view = { λ x. x.text };

    ghost invariant = { λ x. x.text ≡ steps_text x.steps };
}

impl StepsText {
    /// Returns the empty text, of no steps.
    fn new(alloc: Global) -> Self
        ensures { result ≡ [] }
    {
        StepsText {
            steps: List::new(alloc),
            text: List::new(alloc),
        }
    }

    /// Makes this the text of `steps`, in their order, each as a blank, the action, `@` and the
    /// minute in UTC: ` NEW@180103T1530Z`. If it is the text of these steps already, or if memory
    /// runs out, nothing changes.
    fn set(&mut self, alloc: Global, steps: &List<(Action, Minute)>) -> Result<(), Oom>
        ensures { OnOk result (self.new ≡ steps_text steps.now) }
    {
        if self.steps == *steps {
            return Ok(());
        }
        let mut text = List::new(alloc);
        write_steps(&mut text, steps.as_slice())?;
        let steps = List::from_slice(alloc, steps.as_slice())?;
        *self = StepsText { steps, text };
        Ok(())
    }

    /// Returns the bytes of the text, which are none if it is of no steps.
    fn as_slice(&self) -> &[u8]
        ensures { result.now ≡ self.now }
    {
        self.text.as_slice()
    }
}

/// The texts of the event and the steps of the last life that was added.
#[derive(Drop)]
pub struct LastLife {
    event: EventText,
    steps: StepsText,
}

impl LastLife {
    /// Returns the value for the time before the first life: both of its texts, of the event and of
    /// the steps, are empty.
    pub fn none(alloc: Global) -> Self {
        LastLife {
            event: EventText::new(alloc),
            steps: StepsText::new(alloc),
        }
    }

    /// Appends the line `life EVENT ZONE ACTION@STAMP ..` of a life to `out`, with the life's steps
    /// in their order and LF at the end. Keeps the texts of the event and of the steps, so that a
    /// next life with the same ones need not build them again.
    ///
    /// # Errors
    ///
    /// Out of memory.
    pub fn put(&mut self, alloc: Global, out: &mut Text, life: &Track) -> Result<(), Oom>
        ensures { OnOk result (out.new ≡ out.old ++ life_line life.now) }
    {
        self.event.set(alloc, &life.event)?;
        self.steps.set(alloc, &life.steps)?;
        out.extend(b"life ")?;
        out.extend(self.event.as_slice())?;
        out.push(b' ')?;
        out.extend(&zone_text(&life.zone))?;
        out.extend(self.steps.as_slice())?;
        out.push(b'\n')
    }
}
