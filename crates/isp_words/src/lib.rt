//! The words of the command line: which command they ask for, with its options.
#![tactic(auto)]

ghost use Rattle.std.specs.Prelude.{◌≡◌, ℕ, map, string_bytes};
ghost use Rattle.std.specs.Char.{is_ascii_digit};
ghost use Rattle.std.specs.List.{list_all};
ghost use Rattle.isp_words.specs.Commands.{asked, command_of, framed_of, is_count, made_of, make_of, number_in, run_of};

use isp_format::{LEAST_FANOUT, LEAST_PAGES, MOST_FANOUT, MOST_PAGES};

/// A command of the program, on a database file.
#[derive(Clone, Copy, Debug, PartialEq, Eq)]
pub enum Command {
    /// Makes the file, with so many pages and so many entries a page of an R-tree.
    Make { pages: u32, fanout: u32 },
    /// Runs a script on the file, with so many pages of it in memory at a time.
    Run { frames: u32 },
}

/// How many pages a `run` holds in memory where the words don't say it.
pub const FRAMES: u32 = 256;

// The least number of them, and the greatest.
const LEAST_FRAMES: u32 = 64;

const MOST_FRAMES: u32 = 4_096;

// Whether all characters of a word are decimal digits.
fn all_digits(word: &str) -> bool
    ensures { result ≡ list_all is_ascii_digit word.now }
{
    word.as_bytes().iter().all(|d| d.is_ascii_digit())
}

// Whether a word is one to ten decimal digits.
fn is_count(word: &str) -> bool
    ensures { result ≡ is_count word.now }
{
    !word.is_empty() && word.len() <= 10 && all_digits(word)
}

// The number that a word writes, where it lies in a range.
#[tactic(auto, using(crate::proofs::Digits::counted))]
fn number(word: &str, least: u32, most: u32) -> Option<u32>
    ensures { result ≡ number_in least most word.now }
{
    if !is_count(word) {
        return None;
    }
    match word.parse::<u64>() {
        Ok(n) => {
            if u64::from(least) <= n && n <= u64::from(most) {
                Some(n as u32)
            } else {
                None
            }
        }
        Err(_) => None,
    }
}

// What `--pages N --fanout M` asks for.
#[tactic(auto, unfolding(crate::specs::Commands::pages_option, crate::specs::Commands::fanout_option))]
fn made_of(option: &str, pages: &str, other: &str, fanout: &str) -> Option<Command>
    ensures { result ≡ made_of option.now pages.now other.now fanout.now }
{
    if option != "--pages" || other != "--fanout" {
        return None;
    }
    let pages = number(pages, LEAST_PAGES, MOST_PAGES)?;
    let fanout = number(fanout, LEAST_FANOUT, MOST_FANOUT)?;
    Some(Command::Make { pages, fanout })
}

// What `--frames F` asks for.
#[tactic(auto, unfolding(crate::specs::Commands::frames_option))]
fn framed_of(option: &str, frames: &str) -> Option<Command>
    ensures { result ≡ framed_of option.now frames.now }
{
    if option != "--frames" {
        return None;
    }
    let frames = number(frames, LEAST_FRAMES, MOST_FRAMES)?;
    Some(Command::Run { frames })
}

// What `make` asks for with these options.
fn make_of(options: &[String]) -> Option<Command>
    ensures { result ≡ make_of (map string_bytes options.now) }
{
    match options {
        [option, pages, other, fanout] => made_of(
            option.as_str(),
            pages.as_str(),
            other.as_str(),
            fanout.as_str(),
        ),
        _ => None,
    }
}

// What `run` asks for with these options.
fn run_of(options: &[String]) -> Option<Command>
    ensures { result ≡ run_of (map string_bytes options.now) }
{
    match options {
        [] => Some(Command::Run { frames: FRAMES }),
        [option, frames] => framed_of(option.as_str(), frames.as_str()),
        _ => None,
    }
}

// What a command asks for with these options.
#[tactic(auto, unfolding(crate::specs::Commands::make_word, crate::specs::Commands::run_word))]
fn asked(command: &str, options: &[String]) -> Option<Command>
    ensures { result ≡ asked command.now (map string_bytes options.now) }
{
    match command {
        "make" => make_of(options),
        "run" => run_of(options),
        _ => None,
    }
}

/// The command that the words ask for: `FILE make --pages N --fanout M`, `FILE run` or `FILE run --frames F`, in this order,
/// with 64 to 65,536 pages, a fan-out of 4 to 120 and 64 to 4,096 frames, each one to ten decimal digits. None where they are
/// no such words.
pub fn command_of(words: &[String]) -> Option<Command>
    ensures { result ≡ command_of (map string_bytes words.now) }
{
    match words {
        [_, command, options @ ..] => asked(command.as_str(), options),
        _ => None,
    }
}
