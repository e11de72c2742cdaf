//! The options of a command: pairs of a name and a number.
#![tactic(auto)]

ghost use Rattle.std.specs.Prelude.{◌≡◌, map, string_bytes, IfSome};
ghost use Rattle.options.specs.Options.{span_of, is_known, are_pairs, within, number, IsWithin};

mod config;
mod option;

use as_words::parse_natural;
pub use config::config_of;
pub use option::NumberOption;
use option::{Span, name_of, span_of};

// The number that the word spells, if it is within the span.
fn within(span: &Span, word: &[u8]) -> Option<u64>
    ensures { result ≡ within span.now word.now }
{
    let number = parse_natural(word)?;
    (span.least <= number && number <= span.greatest).then_some(number)
}

// An option has this name.
fn is_known(known: &[NumberOption], name: &[u8]) -> bool
    ensures { result ≡ is_known known.now name.now }
{
    known.iter().any(|option| name_of(*option) == name)
}

/// The words are pairs of a known option's name and a value.
pub fn are_pairs(words: &[String], known: &[NumberOption]) -> bool
    ensures { result ≡ are_pairs known.now (map string_bytes words.now) }
{
    let mut rest = words;
    while let [name, _, others @ ..] = rest {
        if !is_known(known, name.as_bytes()) {
            return false;
        }
        rest = others;
    }
    rest.is_empty()
}

/// The option's number, among words that are pairs: the one that is given, or the default where none is. `None` where it is
/// given twice, where the value is no number in its one spelling or not in the option's range, and where the option has to
/// be given and is not.
pub fn number(words: &[String], option: NumberOption) -> Option<u64>
    ensures value { result ≡ number option (map string_bytes words.now) }
    ensures span { IfSome result (IsWithin (span_of option)) }
{
    let span = span_of(option);
    let wanted = name_of(option);
    let mut found = None;
    let mut rest = words;
    while let [name, value, others @ ..] = rest {
        if name.as_bytes() == wanted {
            if found.is_some() {
                return None;
            }
            found = Some(within(&span, value.as_bytes())?);
        }
        rest = others;
    }
    found.or(span.default)
}
