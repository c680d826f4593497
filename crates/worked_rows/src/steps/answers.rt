//! What is printed for the line of a product.
use event_life::{Breach, Life};
use hazard_types::{Oom, end_text, stamp};
use std::alloc::{AllocError, Global};
use worked_lines::text_of;

/// Appends a line with what a life, the row of an event in a zone, says: its period `BEGIN-END`,
/// then after blanks the code of the location of its flood values, if any, and `ended` if a line
/// has ended it. BEGIN and END are stamps such as `180103T1530Z`; END is `000000T0000Z` for until
/// further notice.
fn push_life(out: &mut String, life: &Life) -> Result<(), AllocError> {
    out.push_str(text_of(&stamp(life.period.begin)))?;
    out.push('-')?;
    out.push_str(text_of(&end_text(&life.period.end)))?;
    if let Some(flood) = &life.flood {
        out.push(' ')?;
        out.push_str(text_of(&flood.site))?;
    }
    if life.ended {
        out.push_str(" ended")?;
    }
    out.push('\n')
}

/// Returns what is printed for the outcome of a line: the period of the life that it leaves, with
/// the flood location and `ended` where they apply, or the debug form of its breach. `None` is for
/// a line that has no outcome, as a routine line, and gives `touches no life`.
///
/// # Errors
///
/// Out of memory.
pub fn answer_text(alloc: Global, found: &Option<Result<Life, Breach>>) -> Result<String, Oom> {
    match found {
        Some(Ok(life)) => {
            let mut out = String::new(alloc);
            push_life(&mut out, life)?;
            Ok(out)
        }
        Some(Err(breach)) => Ok(format!(in alloc; "{breach:?}\n")?),
        None => Ok(String::from_str(alloc, "touches no life\n")?),
    }
}
