ghost use Rattle.std.specs.Prelude.{◌≡◌, ◌^◌, IfOk, OnErr, None, Some, MatchOption};
ghost use Rattle.as_base.specs.Range.{IsSpelled};
ghost use Rattle.as_lineform.specs.Item.{given_of, alone_of, item_of_stream, item_of_words, creation_of, item_of, IsCreation};

use crate::reading::{next_below, next_four, next_integer};
use as_base::{Cause, FOREVER, Given, Item, NoMemory, StreamId, Text, stream_named};
use as_words::{LEAST, Words, is_words};
use std::alloc::Global;

/// How many bytes a line may have.
pub const LINE_MAX: usize = 4096;

// The record of the stream, if the words that are left are its six numbers.
fn given_of(stream: StreamId, mut words: Words<'_>) -> Option<Given>
    ensures { result ≡ given_of stream words.entry }
{
    let time = next_below(&mut words, FOREVER)?;
    let key = next_integer(&mut words)?;
    let v = next_four(&mut words)?;
    words.is_empty().then_some(Given {
        stream,
        time,
        key,
        v,
    })
}

// The number below the limit, if one word is left, which spells it.
fn alone_of(mut words: Words<'_>, limit: u64) -> Option<u64>
    ensures { result ≡ alone_of limit words.entry }
{
    let number = next_below(&mut words, limit)?;
    words.is_empty().then_some(number)
}

// What a line of this form says of the stream, if the words that are left are the form's.
fn item_of_stream(form: &[u8], stream: StreamId, words: Words<'_>) -> Option<Item>
    ensures { result ≡ item_of_stream form.now words.entry stream }
{
    if form == b"rec".as_slice() {
        given_of(stream, words).map(Item::Rec)
    } else if form == b"mark".as_slice() {
        alone_of(words, FOREVER).map(|time| Item::Mark(stream, time))
    } else if form == b"end".as_slice() {
        words.is_empty().then_some(Item::End(stream))
    } else {
        None
    }
}

// The item that the words say, if they are not a creation's.
fn item_of_words(mut words: Words<'_>) -> Option<Item>
    ensures { result ≡ item_of_words words.entry }
{
    let form = words.next()?;
    if form == b"delete".as_slice() {
        return alone_of(words, LEAST).map(Item::Delete);
    }
    let stream = stream_named(words.next()?)?;
    item_of_stream(form, stream, words)
}

// The query text of a creation.
fn creation_of(line: &[u8]) -> Option<&[u8]>
    ensures { MatchOption result (creation_of line.now ≡ None) (λ text. creation_of line.now ≡ Some text.now) }
{
    if line == b"create".as_slice() {
        return Some(&[]);
    }
    let text = line.strip_prefix(b"create ".as_slice())?;
    is_words(text).then_some(text)
}

/// The item that a line says, whose numbers and text are in the ranges of the line format. A line in no form is `Bad`, so
/// the one refusal is `NoMemory`, which comes only for a creation and changes nothing.
pub fn item_of(alloc: Global, line: &[u8]) -> Result<Item, NoMemory>
    ensures item { IfOk result (λ item. item ≡ item_of line.now) }
    ensures range { IfOk result IsSpelled }
    ensures cause { OnErr result (IsCreation (item_of line.now)) }
{
    if line.len() > LINE_MAX {
        return Ok(Item::Bad(Cause::Long));
    }
    match creation_of(line) {
        Some(text) => Ok(Item::Create(Text::from_vec(text.to_vec(alloc)?))),
        None => Ok(item_of_words(Words::new(line)).unwrap_or(Item::Bad(Cause::Form))),
    }
}
