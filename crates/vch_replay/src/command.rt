ghost use Rattle.std.specs.Prelude.{◌≡◌, ◌^◌, map, string_bytes};
ghost use Rattle.vch_report.specs.Numerals.{below};
ghost use Rattle.vch_replay.specs.Commands.{command_of, command_in, numbered};

use vch_text::parse_u64;

/// What the words ask for.
#[derive(Clone, Copy, Debug, PartialEq, Eq)]
pub enum Command {
    /// The canonical text of a scenario.
    Check,
    /// The report of a scenario's run in turn.
    Play,
    /// The report of a scenario's run by the schedule of a seed.
    PlaySeed { seed: u64 },
    /// One line for each record of a recipe array.
    Recipe,
    /// A text with a `send` in the place of each line that spells a message header.
    Header,
    /// The verdict on a report that stands behind its scenario.
    Certify,
    /// The summary of a run in turn of the scenario that is drawn from a number. It reads nothing.
    Load { n: u64 },
}

/// The command of one word.
#[tactic(auto, unfolding(crate::specs::Commands::command_in))]
fn command_in(word: &str) -> Option<Command>
    ensures { result ≡ command_in word.now }
{
    if word == "check" {
        return Some(Command::Check);
    }
    if word == "play" {
        return Some(Command::Play);
    }
    if word == "recipe" {
        return Some(Command::Recipe);
    }
    if word == "header" {
        return Some(Command::Header);
    }
    if word == "certify" {
        return Some(Command::Certify);
    }
    None
}

/// The number that a word spells: a decimal number below 2 to the 64 without leading zeros.
fn number_in(word: &str) -> Option<u64>
    ensures { result ≡ below (2 ^ 64) word.now }
{
    let n = parse_u64(word.as_bytes())?;
    Some(n)
}

/// The command of two words: a run by a seed, or a generated scenario.
#[tactic(auto, unfolding(crate::specs::Commands::numbered))]
fn numbered(word: &str, number: &str) -> Option<Command>
    ensures { result ≡ numbered word.now number.now }
{
    let plays = word == "play";
    if plays {
        return match number_in(number) {
            Some(seed) => Some(Command::PlaySeed { seed }),
            None => None,
        };
    }
    let loads = word == "load";
    if loads {
        return match number_in(number) {
            Some(n) => Some(Command::Load { n }),
            None => None,
        };
    }
    None
}

/// The command of all words, or none where they are no form.
pub fn command_of(words: &[String]) -> Option<Command>
    ensures { result ≡ command_of (map string_bytes words.now) }
{
    match words {
        [word] => command_in(word.as_str()),
        [word, number] => numbered(word.as_str(), number.as_str()),
        _ => None,
    }
}
