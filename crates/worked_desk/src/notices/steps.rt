//! The steps of a script of county notices that append lines of a pattern, one a line.

/// A step of the script.
#[derive(Clone, Copy, Debug)]
pub enum Step<'a> {
    /// Appends a line of the pattern for each number from 1 to this one.
    Each(u16, &'a str),
    /// Appends a line of the pattern with this many counties.
    Counties(u16, &'a str),
}

/// Returns the step of a line `each NUMBER PATTERN` or `counties NUMBER PATTERN`, or `None` for
/// another line. NUMBER is a decimal number below 65,536: the last number put into the pattern, or
/// how many counties are.
pub fn step_of(line: &str) -> Option<Step<'_>> {
    let (word, rest) = line.split_once(' ')?;
    let (number, pattern) = rest.split_once(' ')?;
    let last = number.parse::<u16>().ok()?;
    match word {
        "each" => Some(Step::Each(last, pattern)),
        "counties" => Some(Step::Counties(last, pattern)),
        _ => None,
    }
}
