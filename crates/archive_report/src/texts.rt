//! The parts of a report's lines. Each function adds one to a text. When memory runs out, a prefix
//! of it may have been added.
ghost use Rattle.std.specs.Prelude.{◌≡◌, ◌++◌, IfOk, OnOk, string_bytes};
ghost use Rattle.hazard_types.specs.Calendar.{stamp_of};
ghost use Rattle.archive_report.specs.Texts.{where_text, steps_text, breach_name, fault_text};

use event_life::Breach;
use hazard_types::{Action, Event, Minute, Oom, Text, Zone, stamp, write_event_text, zone_text};
use product_frame::FrameFault;
use std::alloc::{AllocError, Global};

/// Appends an event, a blank and a zone, as `WS.W.0001.2018 MDZ003`.
///
/// # Errors
///
/// Out of memory.
pub fn write_where(alloc: Global, out: &mut Text, event: &Event, zone: &Zone) -> Result<(), Oom>
    ensures { OnOk result (out.new ≡ out.old ++ where_text event.now zone.now) }
{
    write_event_text(alloc, out, event)?;
    out.push(b' ')?;
    out.extend(&zone_text(zone))
}

/// Appends the stamp of a minute in UTC, as `180103T1530Z`.
///
/// # Errors
///
/// Out of memory.
pub fn write_stamp(out: &mut Text, minute: Minute) -> Result<(), Oom>
    ensures { OnOk result (out.new ≡ out.old ++ stamp_of minute) }
{
    out.extend(&stamp(minute))
}

/// Appends the steps of a life in their order, each as a blank, the action, `@` and the minute in
/// UTC: ` NEW@180103T1530Z`.
///
/// # Errors
///
/// Out of memory.
pub fn write_steps(out: &mut Text, steps: &[(Action, Minute)]) -> Result<(), Oom>
    ensures { OnOk result (out.new ≡ out.old ++ steps_text steps.now) }
{
    for step in steps {
        out.push(b' ')?;
        out.extend(&step.0.code())?;
        out.push(b'@')?;
        write_stamp(out, step.1)?;
    }
    Ok(())
}

/// Returns the name of a breach in a report, which is the name of its variant, as `NotLive`.
pub fn breach_name(breach: Breach) -> &'static [u8]
    ensures { result.now ≡ breach_name breach }
{
    match breach {
        Breach::Reopened => b"Reopened",
        Breach::NotOpening => b"NotOpening",
        Breach::NumberHeld => b"NumberHeld",
        Breach::ZeroBegin => b"ZeroBegin",
        Breach::TooEarly => b"TooEarly",
        Breach::NoLength => b"NoLength",
        Breach::PeriodMoved => b"PeriodMoved",
        Breach::PeriodSame => b"PeriodSame",
        Breach::NotLive => b"NotLive",
        Breach::BegunMoved => b"BegunMoved",
        Breach::TooLate => b"TooLate",
        Breach::NoHigher => b"NoHigher",
        Breach::Twice => b"Twice",
    }
}

/// Returns the name of a fault, as `NoIdentifier`, followed by a blank and the number of its line
/// if the fault has one, as `BadUgc 7`. Lines count from the heading, which is line 1. It fails
/// only if memory runs out.
#[tactic(auto, unfolding(crate::specs::Texts::fault_text))]
fn fault_text(alloc: Global, fault: FrameFault) -> Result<String, AllocError>
    ensures { IfOk result (λ s. string_bytes s ≡ fault_text fault) }
{
    match fault {
        FrameFault::NoHeading => format!(in alloc; "NoHeading"),
        FrameFault::NoIdentifier => format!(in alloc; "NoIdentifier"),
        FrameFault::NoIssueTime => format!(in alloc; "NoIssueTime"),
        FrameFault::IssueDisagrees => format!(in alloc; "IssueDisagrees"),
        FrameFault::NoSegmentEnd { line } => format!(in alloc; "NoSegmentEnd {line}"),
        FrameFault::BadUgc { line } => format!(in alloc; "BadUgc {line}"),
        FrameFault::BadVtec { line } => format!(in alloc; "BadVtec {line}"),
    }
}

/// Appends the name of a fault, as `NoIdentifier`, followed by a blank and the number of its line
/// if the fault has one, as `BadUgc 7`. Lines count from the heading, which is line 1.
///
/// # Errors
///
/// Out of memory.
pub fn write_frame_fault(alloc: Global, out: &mut Text, fault: FrameFault) -> Result<(), Oom>
    ensures { OnOk result (out.new ≡ out.old ++ fault_text fault) }
{
    let text = fault_text(alloc, fault)?;
    out.extend(text.as_bytes())
}
