//! The arguments of the command.
ghost use Rattle.std.specs.Prelude.{◌≡◌, ◌≤◌, IfSome, length};
ghost use Rattle.serve_command.specs.declared.words.Given.TheVariants.{Port, Workers, Connections};
ghost use Rattle.serve_command.specs.Words.{IsGiven, IsServing, first_given, option_in_one_word, option_in_two_words};
ghost use Rattle.serve_command.specs.Words.{one_of, options_given, serving_given, parse_serve_args};
ghost use Rattle.serve_command.specs.Words.{connections_in, connections_of, port_in};
ghost use Rattle.serve_command.specs.Words.{port_of, workers_in, workers_of};

use hazard_types::{List, Text};
use program_ends::count_in;

/// What to serve: the port, 1 to 65,535; the number of workers, 1 to 16; and the number of
/// connections that they serve together, 1 to 1,000,000.
#[derive(Clone, Copy, Debug)]
pub struct Serving {
    pub port: u16,
    pub workers: u8,
    pub connections: u32,
}

/// The value of one option.
#[derive(Clone, Copy, Debug)]
pub enum Given {
    Port(u16),
    Workers(u8),
    Connections(u32),
}

/// The most workers.
const MOST_WORKERS: u64 = 16;

/// The most connections.
const MOST_CONNECTIONS: u64 = 1_000_000;

impl Given {
    /// Returns the port, or `None` if this is the value of another option.
    fn port(&self) -> Option<u16>
        ensures { result ≡ port_of self.now }
    {
        match self {
            Given::Port(port) => Some(*port),
            Given::Workers(_) | Given::Connections(_) => None,
        }
    }

    /// Returns the number of workers, or `None` if this is the value of another option.
    fn workers(&self) -> Option<u8>
        ensures { result ≡ workers_of self.now }
    {
        match self {
            Given::Workers(workers) => Some(*workers),
            Given::Port(_) | Given::Connections(_) => None,
        }
    }

    /// Returns the number of connections, or `None` if this is the value of another option.
    fn connections(&self) -> Option<u32>
        ensures { result ≡ connections_of self.now }
    {
        match self {
            Given::Connections(connections) => Some(*connections),
            Given::Port(_) | Given::Workers(_) => None,
        }
    }
}

/// Returns the port that `value` is, or `None` if it is no decimal number from 1 to 65,535.
fn port_in(value: &[u8]) -> Option<Given>
    ensures value { result ≡ port_in value.now }
    ensures form { IfSome result IsGiven }
{
    let port = count_in(value, 65_535)?;
    Some(Given::Port(port as u16))
}

/// Returns the number of workers that `value` is, or `None` if it is no decimal number from 1 to
/// 16.
fn workers_in(value: &[u8]) -> Option<Given>
    ensures value { result ≡ workers_in value.now }
    ensures form { IfSome result IsGiven }
{
    let workers = count_in(value, MOST_WORKERS)?;
    Some(Given::Workers(workers as u8))
}

/// Returns the number of connections that `value` is, or `None` if it is no decimal number from 1
/// to 1,000,000.
fn connections_in(value: &[u8]) -> Option<Given>
    ensures value { result ≡ connections_in value.now }
    ensures form { IfSome result IsGiven }
{
    let connections = count_in(value, MOST_CONNECTIONS)?;
    Some(Given::Connections(connections as u32))
}

/// Returns the value of an option in two words: `--port` with a number from 1 to 65,535,
/// `--workers` with one from 1 to 16, or `--connections` with one from 1 to 1,000,000. `None` if
/// `name` is none of these, or `value` is no decimal number within the limits.
fn option_in_two_words(name: &[u8], value: &[u8]) -> Option<Given>
    ensures value { result ≡ option_in_two_words name.now value.now }
    ensures form { IfSome result IsGiven }
{
    if name == b"--port".as_slice() {
        port_in(value)
    } else if name == b"--workers".as_slice() {
        workers_in(value)
    } else if name == b"--connections".as_slice() {
        connections_in(value)
    } else {
        None
    }
}

/// Returns the value of an option in one word: `--port=N` with a number from 1 to 65,535,
/// `--workers=N` with one from 1 to 16, or `--connections=N` with one from 1 to 1,000,000. `None`
/// if the word has none of these forms, or N is no decimal number within the limits.
fn option_in_one_word(word: &[u8]) -> Option<Given>
    ensures value { result ≡ option_in_one_word word.now }
    ensures form { IfSome result IsGiven }
{
    if let Some(value) = word.strip_prefix(b"--port=") {
        port_in(value)
    } else if let Some(value) = word.strip_prefix(b"--workers=") {
        workers_in(value)
    } else if let Some(value) = word.strip_prefix(b"--connections=") {
        connections_in(value)
    } else {
        None
    }
}

/// Returns the value of the option at the start of the words, and how many words it has: 1 as in
/// `--port=N`, or 2 as in `--port N`. `None` if they do not start with `--port`, `--workers` or
/// `--connections` and a number within its limits.
fn first_given(words: &[Text]) -> Option<(Given, usize)>
    ensures value { result ≡ first_given words.now }
    ensures form { IfSome result (λ first. IsGiven first.0) }
    ensures within { IfSome result (λ first. first.1 ≤ length words.now) }
{
    let [word, rest @ ..] = words else {
        return None;
    };
    if let Some(given) = option_in_one_word(word.as_slice()) {
        return Some((given, 1));
    }
    let [value, ..] = rest else {
        return None;
    };
    let given = option_in_two_words(word.as_slice(), value.as_slice())?;
    Some((given, 2))
}

/// Returns the port that the first `--port` of three options gives, or `None` if none is `--port`.
fn port_of(first: &Given, second: &Given, third: &Given) -> Option<u16>
    requires { IsGiven first.now × IsGiven second.now × IsGiven third.now }
    ensures value { result ≡ one_of port_of first.now second.now third.now }
    ensures form { IfSome result (λ port. IsGiven (Port port)) }
{
    first.port().or(second.port()).or(third.port())
}

/// Returns the number of workers that the first `--workers` of three options gives, or `None` if
/// none is `--workers`.
fn workers_of(first: &Given, second: &Given, third: &Given) -> Option<u8>
    requires { IsGiven first.now × IsGiven second.now × IsGiven third.now }
    ensures value { result ≡ one_of workers_of first.now second.now third.now }
    ensures form { IfSome result (λ workers. IsGiven (Workers workers)) }
{
    first.workers().or(second.workers()).or(third.workers())
}

/// Returns the number of connections that the first `--connections` of three options gives, or
/// `None` if none is `--connections`.
fn connections_of(first: &Given, second: &Given, third: &Given) -> Option<u32>
    requires { IsGiven first.now × IsGiven second.now × IsGiven third.now }
    ensures value { result ≡ one_of connections_of first.now second.now third.now }
    ensures form { IfSome result (λ connections. IsGiven (Connections connections)) }
{
    first
        .connections()
        .or(second.connections())
        .or(third.connections())
}

/// Returns the values of three options together, in whatever order, or `None` if one of the three
/// is missing.
fn serving_given(first: &Given, second: &Given, third: &Given) -> Option<Serving>
    requires { IsGiven first.now × IsGiven second.now × IsGiven third.now }
    ensures value { result ≡ serving_given first.now second.now third.now }
    ensures form { IfSome result IsServing }
{
    let port = port_of(first, second, third)?;
    let workers = workers_of(first, second, third)?;
    let connections = connections_of(first, second, third)?;
    Some(Serving {
        port,
        workers,
        connections,
    })
}

/// Returns the values of the three options `--port`, `--workers` and `--connections`, which the
/// words must be in whatever order, each once. `None` if one is missing, is there twice or is not
/// within its limits, or if there are other words.
fn options_given(words: &[Text]) -> Option<Serving>
    ensures value { result ≡ options_given words.now }
    ensures form { IfSome result IsServing }
{
    let (first, used) = first_given(words)?;
    let words = &words[used..];
    let (second, used) = first_given(words)?;
    let words = &words[used..];
    let (third, used) = first_given(words)?;
    if used < words.len() {
        return None;
    }
    serving_given(&first, &second, &third)
}

/// Returns the values of the arguments `serve --port N --workers W --connections M`, with each of
/// the three options given once, in any order, as `--port N` or `--port=N`. N is from 1 to 65,535,
/// W from 1 to 16 and M from 1 to 1,000,000, in decimal digits, leading zeros allowed. `None`
/// exactly if the words are anything else.
///
/// docs/SERVING.md, "Start it".
#[tactic(auto, unfolding(crate::specs::Words::parse_serve_args))]
pub fn parse_serve_args(words: &List<Text>) -> Option<Serving>
    ensures value { result ≡ parse_serve_args words.now }
    ensures form { IfSome result IsServing }
{
    match words.as_slice() {
        [command, options @ ..] if command.as_slice() == b"serve".as_slice() => {
            options_given(options)
        }
        _ => None,
    }
}
