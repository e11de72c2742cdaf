ghost use Rattle.std.specs.Prelude.{◌≡◌, ◌++◌, ◌∷◌, [], decimal};
ghost use Rattle.std.specs.Fmt.{signed_decimal};
ghost use Rattle.as_base.specs.declared.row.Row.{Row};
ghost use Rattle.as_words.specs.Appends.{Appends, AppendsPrefix};
ghost use Rattle.as_words.specs.Words.{spaced, joined};
ghost use Rattle.row_text.specs.RowText.{row_text, row_words, group_words, side_words};

use as_base::{Given, NoMemory, Row};
use as_words::{
    append_decimal, append_spaced, append_spaced_decimal, append_spaced_numbers,
    append_spaced_signed, whole_or_none,
};
use itoa::Buffer;
use std::alloc::AllocError;

/// Appends the text of a row: its numbers in decimal, one space between two, and a line feed. After `NoMemory` `out` is
/// as it was.
pub fn append_row(row: &Row, out: &mut Vec<u8>) -> Result<(), NoMemory>
    ensures { Appends result out.old.items out.new.items (row_text row.now) }
{
    let start = out.len();
    let appended = append_line(row, out);
    whole_or_none(appended, start, out)?;
    Ok(())
}

// Appends the text of a row, or a prefix of it.
fn append_line(row: &Row, out: &mut Vec<u8>) -> Result<(), AllocError>
    ensures { AppendsPrefix result out.old.items out.new.items (row_text row.now) }
{
    append_words(row, out)?;
    out.extend_from_slice(b"\n")
}

// Appends the words of a row, or a prefix of them.
fn append_words(row: &Row, out: &mut Vec<u8>) -> Result<(), AllocError>
    ensures { AppendsPrefix result out.old.items out.new.items (joined (row_words row.now)) }
{
    match row {
        Row::Sel(given) => append_selected(given, out),
        Row::Agg {
            start,
            end,
            group,
            value,
        } => append_value(*start, *end, *group, *value, out),
        Row::Pair {
            start,
            end,
            left,
            right,
        } => append_pair(*start, *end, left, right, out),
    }
}

// Appends the words of a selected record, or a prefix of them.
fn append_selected(given: &Given, out: &mut Vec<u8>) -> Result<(), AllocError>
    ensures { AppendsPrefix result out.old.items out.new.items (joined (row_words (Row.Sel given.now))) }
{
    append_decimal(given.time, out)?;
    append_spaced_signed(given.key, out)?;
    append_spaced_numbers(&given.v, out)
}

// Appends the words of a sum or a count, or a prefix of them.
fn append_value(
    start: u64,
    end: u64,
    group: Option<i64>,
    value: i128,
    out: &mut Vec<u8>,
) -> Result<(), AllocError>
    ensures { AppendsPrefix result out.old.items out.new.items (joined (row_words (Row.Agg start end group value))) }
{
    append_window(start, end, out)?;
    append_group(group, out)?;
    append_spaced(Buffer::new().format(value).as_bytes(), out)
}

// Appends the words of a pair, or a prefix of them.
fn append_pair(
    start: u64,
    end: u64,
    left: &Given,
    right: &Given,
    out: &mut Vec<u8>,
) -> Result<(), AllocError>
    ensures { AppendsPrefix result out.old.items out.new.items (joined (row_words (Row.Pair start end left.now right.now))) }
{
    append_window(start, end, out)?;
    append_spaced_signed(left.key, out)?;
    append_sides(left, right, out)
}

// Appends where a window begins and ends, or a prefix of that.
fn append_window(start: u64, end: u64, out: &mut Vec<u8>) -> Result<(), AllocError>
    ensures { AppendsPrefix result out.old.items out.new.items (decimal start ++ 32 ∷ decimal end) }
{
    append_decimal(start, out)?;
    append_spaced_decimal(end, out)
}

// Appends the group, if there is one, after a space, or a prefix of that.
fn append_group(group: Option<i64>, out: &mut Vec<u8>) -> Result<(), AllocError>
    ensures { AppendsPrefix result out.old.items out.new.items (spaced (group_words group)) }
{
    match group {
        Some(group) => append_spaced_signed(group, out),
        None => Ok(()),
    }
}

// Appends the times and values of two records, each after a space, or a prefix of that.
fn append_sides(left: &Given, right: &Given, out: &mut Vec<u8>) -> Result<(), AllocError>
    ensures { AppendsPrefix result out.old.items out.new.items (spaced (side_words left.now ++ side_words right.now)) }
{
    append_side(left, out)?;
    append_side(right, out)
}

// Appends a record's time and values, each after a space, or a prefix of that.
fn append_side(given: &Given, out: &mut Vec<u8>) -> Result<(), AllocError>
    ensures { AppendsPrefix result out.old.items out.new.items (spaced (side_words given.now)) }
{
    append_spaced_decimal(given.time, out)?;
    append_spaced_numbers(&given.v, out)
}
