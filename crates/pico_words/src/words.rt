//! The words behind the program's name.
ghost use Rattle.std.specs.Prelude.{◌≡◌, true, false, codes, map, string_bytes, option_map, IfOk, IfSome, IfNone};
ghost use Rattle.clap.specs.Words.{app_of, first_of, found_of, matches_of, rows_of};
ghost use Rattle.pico_words.specs.Words as spec;

use clap::error::ErrorKind;
use clap::{Arg, ArgAction, ArgMatches, Command};
use pico_base::Memory;
use std::alloc::Global;
use text_fields::number_front;

// The greatest number of a schedule and of a generated script.
const MAX_SEED: u32 = 2147483646;

/// How a run of a schedule, or of a generated script, is chosen and shown.
#[derive(Clone, Copy, Debug, PartialEq, Eq)]
pub struct Options {
    /// N of `--seed N`, from 0 to 2147483646: the number of the schedule, or of the generated script.
    pub seed: u32,
    /// Whether the events are written behind the rest.
    pub steps: bool,
}

/// What the words ask for.
#[derive(Clone, Copy, Debug, PartialEq, Eq)]
pub enum Request {
    /// `run`: the trace of a script's run by threads, and its events where `steps` says so.
    Run { steps: bool },
    /// `sim`: the trace of a script's run.
    Simulate(Options),
    /// `check`: whether a trace is legal.
    Check,
    /// `gen`: the totals of a generated script's run.
    Generate(Options),
    /// `boxes`: the traces of several sandboxes' runs by threads.
    Boxes,
    /// `freeze`: the image of a script after so many events of schedule 0.
    Freeze { count: u32 },
    /// `thaw`: the trace of the run that begins as an image says, and goes on by schedule 0.
    Thaw,
    /// `mq`: the trace of a run by threads of a script of POSIX message queues, and its events where `steps` says so.
    Queues { steps: bool },
}

// N, in its one spelling; 0 without the word.
#[tactic(auto, unfolding(crate::specs::Words::number_of))]
fn number_of(word: Option<&str>) -> Option<u32>
    ensures { result ≡ spec.number_of (option_map (λ s. s.now) word.entry) }
{
    match word {
        None => Some(0),
        Some(word) => {
            let (number, rest) = number_front(MAX_SEED, word.as_bytes())?;
            if rest.is_empty() { Some(number) } else { None }
        }
    }
}

fn options_of(seed: Option<&str>, steps: bool) -> Option<Options>
    ensures { result ≡ spec.options_of (option_map (λ s. s.now) seed.entry) steps }
{
    let seed = number_of(seed)?;
    Some(Options { seed, steps })
}

// The same of the modes that have to do with images.
#[tactic(auto, unfolding(crate::specs::Words::meant_of_image))]
fn image_request_meant(seed: Option<&str>, steps: bool, mode: &str) -> Option<Request>
    ensures { result ≡ spec.meant_of_image (option_map (λ s. s.now) seed.entry) steps mode.now }
{
    if mode == "freeze" && !steps {
        let count = number_of(seed)?;
        Some(Request::Freeze { count })
    } else if mode == "thaw" && !(seed.is_some() || steps) {
        Some(Request::Thaw)
    } else {
        None
    }
}

// What the words for MODE and N, and whether `--steps` is there, ask for.
#[tactic(auto, unfolding(crate::specs::Words::meant))]
fn request_meant(seed: Option<&str>, steps: bool, mode: &str) -> Option<Request>
    ensures { result ≡ spec.meant (option_map (λ s. s.now) seed.entry) steps mode.now }
{
    if mode == "run" && seed.is_none() {
        Some(Request::Run { steps })
    } else if mode == "sim" {
        let options = options_of(seed, steps)?;
        Some(Request::Simulate(options))
    } else if mode == "gen" {
        let options = options_of(seed, steps)?;
        Some(Request::Generate(options))
    } else if mode == "check" && !(seed.is_some() || steps) {
        Some(Request::Check)
    } else if mode == "boxes" && !(seed.is_some() || steps) {
        Some(Request::Boxes)
    } else if mode == "mq" && seed.is_none() {
        Some(Request::Queues { steps })
    } else {
        image_request_meant(seed, steps, mode)
    }
}

// The command: MODE, `--seed N` and `--steps`, with no option for help or the version.
fn command<'a>(alloc: Global) -> Result<Command<'a>, Memory>
    ensures { IfOk result (λ command. app_of command ≡ spec.command) }
{
    let mode = Arg::new(alloc, "mode").required(true);
    let seed = Arg::new(alloc, "seed").long("seed");
    let steps = Arg::new(alloc, "steps")
        .long("steps")
        .action(ArgAction::SetTrue);
    let bare = Command::new(alloc, "pico")
        .no_binary_name(true)
        .disable_help_flag(true)
        .disable_version_flag(true);
    Ok(bare.arg(mode)?.arg(seed)?.arg(steps)?)
}

// What the command finds in the words; none where it doesn't take them.
#[tactic(auto, unfolding(crate::specs::Words::is_taken))]
fn matches<'a>(alloc: Global, words: &'a [String]) -> Result<Option<ArgMatches<'a>>, Memory>
    ensures some { IfOk result (λ found. IfSome found (λ m. (spec.is_taken (map string_bytes words.now) ≡ true)
        × (rows_of (found_of m) ≡ matches_of spec.command (map string_bytes words.now)))) }
    ensures none { IfOk result (λ found. IfNone found (spec.is_taken (map string_bytes words.now) ≡ false)) }
{
    match command(alloc)?.try_get_matches_from(words) {
        Ok(matches) => Ok(Some(matches)),
        Err(error) => {
            if error.kind() == ErrorKind::OutOfMemory {
                Err(Memory)
            } else {
                Ok(None)
            }
        }
    }
}

// The first of the values that were found for an argument.
fn value<'a>(matches: &ArgMatches<'a>, id: &str) -> Option<&'a str>
    ensures { option_map (λ s. s.now) result ≡ first_of id.now (rows_of (found_of matches.now)) }
{
    matches.get_str(id)
}

// Whether `--steps` was found.
fn steps_of(matches: &ArgMatches) -> bool
    ensures { result ≡ spec.is_true (first_of (codes "steps") (rows_of (found_of matches.now))) }
{
    match value(matches, "steps") {
        Some(text) => text == "true",
        None => false,
    }
}

// What is meant by what the command found.
fn found(matches: &ArgMatches) -> Option<Request>
    ensures { result ≡ spec.found (rows_of (found_of matches.now)) }
{
    let mode = value(matches, "mode")?;
    request_meant(value(matches, "seed"), steps_of(matches), mode)
}

/// What the words ask for; none where they aren't in order. They are in order where `clap` takes them as those of the
/// command `pico MODE [--seed N] [--steps]`, N is a number from 0 to 2147483646 without leading zeros, and each option
/// goes with the mode: `--steps` with `run` and `mq`, both with `sim` and `gen`, `--seed` with `freeze`,
/// and none with `check`, `boxes` and `thaw`.
#[tactic(auto, unfolding(crate::specs::Words::request_in))]
pub fn request_of(alloc: Global, words: &[String]) -> Result<Option<Request>, Memory>
    ensures { IfOk result (λ request. request ≡ spec.request_in (map string_bytes words.now)) }
{
    match matches(alloc, words)? {
        Some(matches) => Ok(found(&matches)),
        None => Ok(None),
    }
}
