//! Where the journal is.
ghost use Rattle.std.specs.Prelude.{Some, option_map, slice_get, string_bytes};
ghost use Rattle.warn_main.specs.Places.{IsPlace};

/// Where a command line says that the journal is.
#[derive(Clone, Copy, Debug)]
pub enum Place<'a> {
    /// The command line does not say.
    Unnamed,
    /// In memory.
    Memory,
    /// In the file at this path.
    File(&'a str),
}

/// Returns where the journal is by an argument: in memory for `-`, else in the file whose path is
/// `word`.
fn named_place(word: &str) -> Place<'_>
    ensures { IsPlace (Some word.now) result }
{
    if word == "-" {
        Place::Memory
    } else {
        Place::File(word)
    }
}

/// Returns where a command line says that the journal is, by the word after the program's name,
/// which is the first of `command_line`: in memory for `-`, else in the file of this path. It is
/// `Unnamed` if there is no such word.
pub fn place_of(command_line: &[String]) -> Place<'_>
    ensures { IsPlace (option_map string_bytes (slice_get command_line.now 1)) result }
{
    match command_line.get(1) {
        None => Place::Unnamed,
        Some(word) => named_place(word.as_str()),
    }
}
