ghost use Rattle.as_words.specs.Number.{natural, integer};
ghost use Rattle.as_lineform.specs.Reading.{next_by, next_four, Reads};

use as_words::{Words, parse_below, parse_integer};

/// The next word as a number below the limit.
pub fn next_below(words: &mut Words<'_>, limit: u64) -> Option<u64>
    ensures { Reads result words.new (next_by (natural limit) words.old) }
{
    parse_below(words.next()?, limit)
}

/// The next word as a signed number.
pub fn next_integer(words: &mut Words<'_>) -> Option<i64>
    ensures { Reads result words.new (next_by integer words.old) }
{
    parse_integer(words.next()?)
}

/// The next four words as signed numbers.
pub fn next_four(words: &mut Words<'_>) -> Option<[i64; 4]>
    ensures { Reads result words.new (next_four words.old) }
{
    let first = next_integer(words)?;
    let second = next_integer(words)?;
    let third = next_integer(words)?;
    let fourth = next_integer(words)?;
    Some([first, second, third, fourth])
}
