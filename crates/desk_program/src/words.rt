//! The arguments of the command line.
ghost use Rattle.std.specs.Prelude.{◌≡◌, IfSome};
ghost use Rattle.desk_program.specs.Words.{IsCommand, parse_board_words, command_of, parse_drill_words};
ghost use Rattle.desk_program.specs.Words.{parse_dry_words, parse_one_word, parse_three_words};

use desk_drill::{Drill, parse_drill};
use hazard_types::{List, Minute, Text, parse_stamp};
use program_ends::office_of;

/// Training for an office at a minute.
#[derive(Clone, Copy, Debug)]
pub struct Dry {
    pub office: [u8; 4],
    pub minute: Minute,
}

/// A command of the desk's program, without `serve` (docs/COMMANDS.md, "The commands").
#[derive(Clone, Copy, Debug)]
pub enum Command {
    /// Makes the journal of an office.
    Init,
    /// Answers requests, one a line.
    Script,
    /// Writes the texts of all products.
    Export,
    /// Marks the journal, so that later texts are of edition Two.
    Upgrade,
    /// Writes the board at a minute, or at the clock's for `None`.
    Board(Option<Minute>),
    /// Answers training lines in memory.
    Dry(Dry),
    /// Answers generated requests in memory.
    Drill(Drill),
}

/// Returns the command `init`, `script`, `export`, `upgrade` or `board`, or `None` for another
/// word.
fn parse_one_word(word: &[u8]) -> Option<Command>
    ensures { result ≡ parse_one_word word.now }
{
    if word == b"init".as_slice() {
        Some(Command::Init)
    } else if word == b"script".as_slice() {
        Some(Command::Script)
    } else if word == b"export".as_slice() {
        Some(Command::Export)
    } else if word == b"upgrade".as_slice() {
        Some(Command::Upgrade)
    } else if word == b"board".as_slice() {
        Some(Command::Board(None))
    } else {
        None
    }
}

/// Returns the command `board --at STAMP`, or `None` if the words are not `board`, `--at` and a
/// stamp, such as `180103T1530Z`.
fn parse_board_words(command: &[u8], option: &[u8], stamp: &[u8]) -> Option<Command>
    ensures { result ≡ parse_board_words command.now option.now stamp.now }
{
    if command != b"board".as_slice() || option != b"--at".as_slice() {
        return None;
    }
    let minute = parse_stamp(stamp)?;
    Some(Command::Board(Some(minute)))
}

/// Returns the command `dry OFFICE STAMP`, or `None` if the words are not `dry`, an office's code,
/// such as `KLWX`, and a stamp, such as `180103T1530Z`.
fn parse_dry_words(command: &[u8], office: &[u8], stamp: &[u8]) -> Option<Command>
    ensures value { result ≡ parse_dry_words command.now office.now stamp.now }
    ensures forms { IfSome result IsCommand }
{
    if command != b"dry".as_slice() {
        return None;
    }
    let office = office_of(office)?;
    let minute = parse_stamp(stamp)?;
    Some(Command::Dry(Dry { office, minute }))
}

/// Returns the command `drill NUMBER COUNT`, or `None` if the words are not `drill`, a decimal
/// number below 2^64 and a decimal number of at most 8,192.
fn parse_drill_words(command: &[u8], number: &[u8], count: &[u8]) -> Option<Command>
    ensures value { result ≡ parse_drill_words command.now number.now count.now }
    ensures forms { IfSome result IsCommand }
{
    let drill = parse_drill(command, number, count)?;
    Some(Command::Drill(drill))
}

/// Returns the command `board --at STAMP`, `dry OFFICE STAMP` or `drill NUMBER COUNT`, or `None`
/// for other words.
fn parse_three_words(first: &[u8], second: &[u8], third: &[u8]) -> Option<Command>
    ensures value { result ≡ parse_three_words first.now second.now third.now }
    ensures forms { IfSome result IsCommand }
{
    let board = parse_board_words(first, second, third);
    if board.is_some() {
        return board;
    }
    let dry = parse_dry_words(first, second, third);
    if dry.is_some() {
        return dry;
    }
    parse_drill_words(first, second, third)
}

/// Returns the command that the arguments name: `init`, `script`, `export`, `upgrade`, `board`,
/// `board --at STAMP`, `dry OFFICE STAMP` or `drill NUMBER COUNT`. It is `None` if they are
/// anything else, `serve` too, which `parse_serve_args` parses.
#[tactic(auto, unfolding(crate::specs::Words::command_of))]
pub fn command_of(words: &List<Text>) -> Option<Command>
    ensures value { result ≡ command_of words.now }
    ensures forms { IfSome result IsCommand }
{
    match words.as_slice() {
        [word] => parse_one_word(word.as_slice()),
        [first, second, third] => parse_three_words(
            first.as_slice(),
            second.as_slice(),
            third.as_slice(),
        ),
        _ => None,
    }
}
