ghost use Rattle.query_text.specs.Parsing.{take_grouped, take_windows, take_windowed, take_selected, take_summed, take_counted, take_joined, take_head_after, take_head, take_condition, Parses};

use crate::ast::Cond;
use crate::cursor::{
    take_column, take_field, take_group, take_integer, take_only, take_op, take_shape, take_stream,
    take_ticks, take_verb,
};
use crate::tree::{Head, Measure, Shape, Stem, Verb, Window};
use as_words::Words;

// `by GROUP from S`, after the measure.
fn take_grouped(cursor: &mut Words<'_>, measure: Measure) -> Option<Stem>
    ensures { Parses result cursor.new (take_grouped measure cursor.old) }
{
    take_only(cursor, b"by".as_slice())?;
    let group = take_group(cursor)?;
    take_only(cursor, b"from".as_slice())?;
    let stream = take_stream(cursor)?;
    Some(Stem::Grouped(measure, group, stream))
}

// The numbers of windows of this shape.
fn take_windows(cursor: &mut Words<'_>, stem: Stem, shape: Shape) -> Option<Head>
    ensures { Parses result cursor.new (take_windows stem shape cursor.old) }
{
    let size = take_ticks(cursor)?;
    match shape {
        Shape::Tumble => Some(Head::Windowed(stem, Window::Tumble(size))),
        Shape::Slide => {
            let slide = take_ticks(cursor)?;
            Some(Head::Windowed(stem, Window::Slide(size, slide)))
        }
    }
}

// `tumble NAT` or `slide NAT NAT`.
fn take_windowed(cursor: &mut Words<'_>, stem: Stem) -> Option<Head>
    ensures { Parses result cursor.new (take_windowed stem cursor.old) }
{
    let shape = take_shape(cursor)?;
    take_windows(cursor, stem, shape)
}

// `from S`, after `select`.
fn take_selected(cursor: &mut Words<'_>) -> Option<Head>
    ensures { Parses result cursor.new (take_selected cursor.old) }
{
    take_only(cursor, b"from".as_slice())?;
    let stream = take_stream(cursor)?;
    Some(Head::Select(stream))
}

// `COL by GROUP from S window`, after `sum`.
fn take_summed(cursor: &mut Words<'_>) -> Option<Head>
    ensures { Parses result cursor.new (take_summed cursor.old) }
{
    let column = take_column(cursor)?;
    let stem = take_grouped(cursor, Measure::Sum(column))?;
    take_windowed(cursor, stem)
}

// `by GROUP from S window`, after `count`.
fn take_counted(cursor: &mut Words<'_>) -> Option<Head>
    ensures { Parses result cursor.new (take_counted cursor.old) }
{
    let stem = take_grouped(cursor, Measure::Count)?;
    take_windowed(cursor, stem)
}

// `S S window`, after `join`.
fn take_joined(cursor: &mut Words<'_>) -> Option<Head>
    ensures { Parses result cursor.new (take_joined cursor.old) }
{
    let left = take_stream(cursor)?;
    let right = take_stream(cursor)?;
    take_windowed(cursor, Stem::Joined(left, right))
}

// What comes after the verb, up to the conditions.
fn take_head_after(cursor: &mut Words<'_>, verb: Verb) -> Option<Head>
    ensures { Parses result cursor.new (take_head_after verb cursor.old) }
{
    match verb {
        Verb::Select => take_selected(cursor),
        Verb::Sum => take_summed(cursor),
        Verb::Count => take_counted(cursor),
        Verb::Join => take_joined(cursor),
    }
}

/// A query up to its conditions.
pub fn take_head(cursor: &mut Words<'_>) -> Option<Head>
    ensures { Parses result cursor.new (take_head cursor.old) }
{
    let verb = take_verb(cursor)?;
    take_head_after(cursor, verb)
}

/// `FIELD OP INT`.
pub fn take_condition(cursor: &mut Words<'_>) -> Option<Cond>
    ensures { Parses result cursor.new (take_condition cursor.old) }
{
    let field = take_field(cursor)?;
    let op = take_op(cursor)?;
    let value = take_integer(cursor)?;
    Some(Cond { field, op, value })
}
