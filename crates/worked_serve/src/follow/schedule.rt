//! Schedules of a follower: texts come to the office, and answers come, come again, come late or
//! are lost.
use crate::follow::answers::kept_text;
use follow_core::{Follower, Heard};
use hazard_types::{Class, List, Minute, Oom, Text, parse_stamp};
use std::alloc::Global;

/// The largest number of texts that a follower takes.
const MOST: u32 = 8192;

/// The texts of the office so far, the places after which the follower asked, and the follower.
#[derive(Drop)]
struct World {
    texts: List<Text>,
    asked: List<u32>,
    follower: Follower,
}

impl World {
    /// Returns an office without texts, and a follower of KLWX in class O that has asked and taken
    /// nothing.
    fn new(alloc: Global) -> Self {
        World {
            texts: List::new(alloc),
            asked: List::new(alloc),
            follower: Follower::new(alloc, *b"KLWX", Class::O),
        }
    }

    /// Adds a text to the end of the office's texts, and returns `texts COUNT` with the number of
    /// these.
    fn append(&mut self, alloc: Global, text: &[u8]) -> Result<String, Oom> {
        self.texts.push(List::from_slice(alloc, text)?)?;
        let count = self.texts.len();
        Ok(format!(in alloc; "texts {count}")?)
    }

    /// Records that the follower asks for the text after its place, which is the number of texts
    /// that it has taken, and returns `ask PLACE`.
    fn ask(&mut self, alloc: Global) -> Result<String, Oom> {
        let place = self.follower.place();
        self.asked.push(place)?;
        Ok(format!(in alloc; "ask {place}")?)
    }

    /// Has the follower hear the answer to its question for the text after the place `after`, and
    /// returns `New` if it takes the text, `Old` if it had it before, or `fault` if it refuses it
    /// or memory runs out. Returns `nothing`, and delivers nothing, if that was not asked, the
    /// office has no such text, or the follower has 8,192 texts.
    fn deliver(&mut self, alloc: Global, after: u32) -> Result<&'static str, Oom> {
        let place = self.follower.place();
        if !self.asked.as_slice().contains(&after) || place < after || MOST <= place {
            return Ok("nothing");
        }
        let Some(text) = self.texts.as_slice().get(after as usize) else {
            return Ok("nothing");
        };
        match self.follower.hear(alloc, after, text.as_slice()) {
            Ok(Heard::New) => Ok("New"),
            Ok(Heard::Old) => Ok("Old"),
            Err(_fault) => Ok("fault"),
        }
    }

    /// Does one event and returns what is printed of it, or `None` if the word is no event. `+K`
    /// adds text K, from 1, of `kept` to the office, `?` has the follower ask, `N` delivers the
    /// answer to the question for the text after place N, and `-` with anything after it is an
    /// answer that is lost.
    fn run_event(
        &mut self,
        alloc: Global,
        kept: &[Text],
        event: &str,
    ) -> Result<Option<String>, Oom> {
        if let Some(number) = event.strip_prefix('+') {
            return match kept_text(kept, number) {
                Some(text) => Ok(Some(self.append(alloc, text)?)),
                None => Ok(None),
            };
        }
        if event == "?" {
            return Ok(Some(self.ask(alloc)?));
        }
        if event.starts_with('-') {
            return Ok(Some(String::from_str(alloc, "lost")?));
        }
        match event.parse::<u32>() {
            Ok(after) => Ok(Some(String::from_str(alloc, self.deliver(alloc, after)?)?)),
            Err(_) => Ok(None),
        }
    }

    /// Does the events, which white space separates, in order, and returns what is printed of them,
    /// with `, ` after each. `None` if a word is no event; those before it are done. `kept` has the
    /// texts that an event may add to the office.
    fn run_events(
        &mut self,
        alloc: Global,
        kept: &[Text],
        events: &str,
    ) -> Result<Option<String>, Oom> {
        let mut answer = String::new(alloc);
        for event in events.split_whitespace() {
            let Some(said) = self.run_event(alloc, kept, event)? else {
                return Ok(None);
            };
            answer.push_str(said.as_str())?;
            answer.push_str(", ")?;
        }
        Ok(Some(answer))
    }

    /// Returns the line `place PLACE, shown COUNT`: how many texts the follower has taken, and how
    /// many rows they leave live at `minute`.
    fn end_line(&self, alloc: Global, minute: Minute) -> Result<String, Oom> {
        let place = self.follower.place();
        let shown = self.follower.shown(alloc, minute)?.len();
        Ok(format!(in alloc; "place {place}, shown {shown}\n")?)
    }
}

/// Returns what is printed of a line `STAMP EVENT ..`: each event, then the number of texts that
/// the follower has taken and of the rows that these leave live at the minute of the stamp. The
/// events are `+K` (text K, from 1, of `kept` comes to the office), `?` (the follower asks), `N`
/// (it hears the answer to its question for the text after place N) and `-` with anything after it
/// (an answer is lost). `None` if STAMP is no stamp, such as `180103T1530Z`, or a word after it is
/// no event.
///
/// # Errors
///
/// Out of memory.
pub fn schedule_answer(alloc: Global, kept: &[Text], line: &str) -> Result<Option<String>, Oom> {
    let (stamp, events) = line.split_once(' ').unwrap_or((line, ""));
    let Some(minute) = parse_stamp(stamp.as_bytes()) else {
        return Ok(None);
    };
    let mut world = World::new(alloc);
    let Some(said) = world.run_events(alloc, kept, events)? else {
        return Ok(None);
    };
    let end = world.end_line(alloc, minute)?;
    Ok(Some(format!(in alloc; "{said}{end}")?))
}
