//! Writes the names of zones on lines.
ghost use Rattle.std.specs.Prelude.{◌≡◌, ◌<◌, ◌++◌, map, OnOk, IfOk};
ghost use Rattle.headline_text.specs.NameLines.{name_part, name_column, name_lines};

use hazard_types::{Oom, Text};
use std::alloc::Global;

/// The greatest length of a line, in characters.
const WIDTH: usize = 66;

/// Appends a name and a hyphen; before them an LF, if the line has a name already and would become
/// longer than 66 characters. `column` is how many characters the line has so far; returns how many
/// the last line then has.
fn put(out: &mut Text, column: usize, name: &[u8]) -> Result<usize, Oom>
    ensures text { OnOk result (out.new ≡ out.old ++ name_part column name.now) }
    ensures column { IfOk result (λ next. next ≡ name_column column name.now) }
{
    let passes = column != 0 && (column >= WIDTH || name.len() >= WIDTH - column);
    if passes {
        out.push(b'\n')?;
    }
    out.extend(name)?;
    out.push(b'-')?;
    Ok(if passes {
        name.len() + 1
    } else {
        column + name.len() + 1
    })
}

/// Returns the names, each with a hyphen after it, on lines with LF between them and none at the
/// end. A line has at most 66 characters, unless one name with its hyphen is longer: no name is
/// broken.
///
/// # Errors
///
/// Out of memory.
///
/// Source: NWS Instruction 10-1701, segmented products; docs/DECISIONS.md, "Headlines and wrapped
/// text".
#[tactic(auto, unfolding(crate::specs::NameLines::name_lines))]
pub fn name_lines(alloc: Global, names: &[&[u8]]) -> Result<Text, Oom>
    ensures { IfOk result (λ lines. lines ≡ name_lines (map (λ name. name.now) names.now)) }
{
    let mut out = Text::new(alloc);
    let mut column = 0;
    for name in names {
        column = put(&mut out, column, name)?;
    }
    Ok(out)
}
