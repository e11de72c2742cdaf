ghost use Rattle.std.specs.Prelude.{◌≡◌, IfOk, OnErr, true, nat_le, length, map, string_bytes};
ghost use Rattle.std.specs.List.{list_all};
ghost use Rattle.as_words.specs.Words.{is_word, joined};
ghost use Rattle.astream_top.specs.Command.{are_text, text_of_words, run_with, soak_with, generate_with, command_of, IsExplanation};

use as_base::{Config, NoMemory, Text};
use as_words::is_word;
use options::{NumberOption, are_pairs, config_of, number};
use std::alloc::Global;

/// How many bytes a query text may have.
const TEXT_MAX: usize = 4089;

/// The options of `run`.
const RUN_OPTIONS: [NumberOption; 3] = [
    NumberOption::Streams,
    NumberOption::Slots,
    NumberOption::MaxBytes,
];

/// The options of `soak`.
const SOAK_OPTIONS: [NumberOption; 4] = [
    NumberOption::Number,
    NumberOption::Lines,
    NumberOption::Streams,
    NumberOption::Slots,
];

/// The options of `generate`.
const GENERATE_OPTIONS: [NumberOption; 3] = [
    NumberOption::Number,
    NumberOption::Lines,
    NumberOption::Streams,
];

/// What the words of a call ask for.
#[derive(Debug, Drop)]
pub enum Command {
    /// The service over the desk's input, of which it takes at most so many bytes.
    Run {
        config: Config,
        limit: u64,
    },
    /// What so many lines that come of the number bring about.
    Soak {
        config: Config,
        number: u64,
        lines: u64,
    },
    /// So many lines that come of the number, over so many streams.
    Generate {
        number: u64,
        lines: u64,
        streams: u8,
    },
    /// The canonical form of a query text.
    Explain(Text),
}

// Each of these is one word.
fn are_words(words: &[String]) -> bool
    ensures { result ≡ list_all is_word (map string_bytes words.now) }
{
    for word in words {
        if !is_word(word.as_bytes()) {
            return false;
        }
    }
    true
}

// With one space between two the words have at most 4,089 bytes.
fn are_short(words: &[String]) -> bool
    ensures { result ≡ nat_le (length (joined (map string_bytes words.now))) 4089 }
{
    // The room for words with a space after each: the last one's makes it a byte more.
    let mut room = TEXT_MAX + 1;
    for word in words {
        let size = word.as_bytes().len();
        if size >= room {
            return false;
        }
        room -= size + 1;
    }
    true
}

// The text that the words make, with one space between two, if they are those of a query text. `NoMemory` comes only
// where they are.
fn text_of_words(alloc: Global, words: &[String]) -> Result<Option<Text>, NoMemory>
    ensures ok { IfOk result (λ text. text ≡ text_of_words (map string_bytes words.now)) }
    ensures err { OnErr result (are_text (map string_bytes words.now) ≡ true) }
{
    if !are_words(words) || !are_short(words) {
        return Ok(None);
    }
    let joined = words.join(alloc, " ")?;
    Ok(Some(Text::from_vec(joined.into_bytes())))
}

// What `run` is asked for by its options, if they are well given.
fn run_with(words: &[String]) -> Option<Command>
    ensures { result ≡ run_with (map string_bytes words.now) }
{
    if !are_pairs(words, &RUN_OPTIONS) {
        return None;
    }
    let config = config_of(words)?;
    let limit = number(words, NumberOption::MaxBytes)?;
    Some(Command::Run { config, limit })
}

// What `soak` is asked for by its options, if they are well given.
fn soak_with(words: &[String]) -> Option<Command>
    ensures { result ≡ soak_with (map string_bytes words.now) }
{
    if !are_pairs(words, &SOAK_OPTIONS) {
        return None;
    }
    let config = config_of(words)?;
    let seed = number(words, NumberOption::Number)?;
    let lines = number(words, NumberOption::Lines)?;
    Some(Command::Soak {
        config,
        number: seed,
        lines,
    })
}

// What `generate` is asked for by its options, if they are well given.
fn generate_with(words: &[String]) -> Option<Command>
    ensures { result ≡ generate_with (map string_bytes words.now) }
{
    if !are_pairs(words, &GENERATE_OPTIONS) {
        return None;
    }
    let seed = number(words, NumberOption::Number)?;
    let lines = number(words, NumberOption::Lines)?;
    let streams = number(words, NumberOption::Streams)?;
    Some(Command::Generate {
        number: seed,
        lines,
        streams: streams as u8,
    })
}

/// What the words ask for: the service for `run` and its options, a soak for `soak` and its own, lines for `generate` and
/// its own; an explanation for `explain` and the words of a query text, which may be empty. `None` for any other words. The one fault is `NoMemory`, which comes only for an explanation.
pub fn command_of(alloc: Global, words: &[String]) -> Result<Option<Command>, NoMemory>
    ensures ok { IfOk result (λ command. command ≡ command_of (map string_bytes words.now)) }
    ensures err { OnErr result (IsExplanation (command_of (map string_bytes words.now))) }
{
    let Some((word, rest)) = words.split_first() else {
        return Ok(None);
    };
    match word.as_str() {
        "run" => Ok(run_with(rest)),
        "soak" => Ok(soak_with(rest)),
        "generate" => Ok(generate_with(rest)),
        "explain" => Ok(text_of_words(alloc, rest)?.map(Command::Explain)),
        _ => Ok(None),
    }
}
