ghost use Rattle.std.specs.Prelude.{◌≡◌};
ghost use Rattle.as_words.specs.Number.{integer};
ghost use Rattle.as_base.specs.Stream.{stream_named};
ghost use Rattle.query_text.specs.Names.{verb_named, shape_named, column_named, group_named, op_named, field_named, ticks_of, only};
ghost use Rattle.query_text.specs.Places.{side_named};
ghost use Rattle.query_text.specs.Reading.{text_words};
ghost use Rattle.query_text.specs.Parsing.{take_by, Parses};

use crate::ast::Op;
use crate::tree::{Head, Shape, Side, Verb};
use crate::words;
use as_base::{Col, Group, StreamId, stream_named};
use as_words::{LEAST, Words, parse_below, parse_integer};

/// The words of a text.
pub fn text_words(text: &[u8]) -> Words<'_>
    ensures { result ≡ text_words text.now }
{
    match text {
        [] => Words::empty(),
        _ => Words::new(text),
    }
}

// Each function from here on takes the next word where it is what is asked for, and otherwise leaves it.

/// Takes this word.
pub fn take_only(cursor: &mut Words<'_>, keyword: &[u8]) -> Option<()>
    ensures { Parses result cursor.new (take_by (only keyword.now) cursor.old) }
{
    if cursor.peek()? != keyword {
        return None;
    }
    cursor.advance();
    Some(())
}

/// Takes the first word of a query.
pub fn take_verb(cursor: &mut Words<'_>) -> Option<Verb>
    ensures { Parses result cursor.new (take_by verb_named cursor.old) }
{
    let verb = words::verb_named(cursor.peek()?)?;
    cursor.advance();
    Some(verb)
}

/// Takes the first word of windows.
pub fn take_shape(cursor: &mut Words<'_>) -> Option<Shape>
    ensures { Parses result cursor.new (take_by shape_named cursor.old) }
{
    let shape = words::shape_named(cursor.peek()?)?;
    cursor.advance();
    Some(shape)
}

/// Takes a stream.
pub fn take_stream(cursor: &mut Words<'_>) -> Option<StreamId>
    ensures { Parses result cursor.new (take_by stream_named cursor.old) }
{
    let stream = stream_named(cursor.peek()?)?;
    cursor.advance();
    Some(stream)
}

/// Takes a column.
pub fn take_column(cursor: &mut Words<'_>) -> Option<Col>
    ensures { Parses result cursor.new (take_by column_named cursor.old) }
{
    let column = words::column_named(cursor.peek()?)?;
    cursor.advance();
    Some(column)
}

/// Takes what records are grouped by.
pub fn take_group(cursor: &mut Words<'_>) -> Option<Group>
    ensures { Parses result cursor.new (take_by group_named cursor.old) }
{
    let group = words::group_named(cursor.peek()?)?;
    cursor.advance();
    Some(group)
}

/// Takes a comparison.
pub fn take_op(cursor: &mut Words<'_>) -> Option<Op>
    ensures { Parses result cursor.new (take_by op_named cursor.old) }
{
    let op = words::op_named(cursor.peek()?)?;
    cursor.advance();
    Some(op)
}

/// Takes a field.
pub fn take_field(cursor: &mut Words<'_>) -> Option<u8>
    ensures { Parses result cursor.new (take_by field_named cursor.old) }
{
    let field = words::field_named(cursor.peek()?)?;
    cursor.advance();
    Some(field)
}

/// Takes a number of ticks.
pub fn take_ticks(cursor: &mut Words<'_>) -> Option<u64>
    ensures { Parses result cursor.new (take_by ticks_of cursor.old) }
{
    let ticks = parse_below(cursor.peek()?, LEAST)?;
    cursor.advance();
    Some(ticks)
}

/// Takes a number.
pub fn take_integer(cursor: &mut Words<'_>) -> Option<i64>
    ensures { Parses result cursor.new (take_by integer cursor.old) }
{
    let integer = parse_integer(cursor.peek()?)?;
    cursor.advance();
    Some(integer)
}

/// Takes the word before a condition, where there are left conditions, and right ones, or not.
pub fn take_side(
    cursor: &mut Words<'_>,
    head: Head,
    has_left: bool,
    has_right: bool,
) -> Option<Side>
    ensures { Parses result cursor.new (take_by (side_named head has_left has_right) cursor.old) }
{
    let side = words::side_named(head, has_left, has_right, cursor.peek()?)?;
    cursor.advance();
    Some(side)
}
