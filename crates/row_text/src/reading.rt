ghost use Rattle.std.specs.Prelude.{◌≡◌, ◌↔◌, ◌<◌, ◌+◌, ◌^◌, ℕ, Option, Some, ◌++◌, map, codes, IsTrue, MatchOption};
ghost use Rattle.std.specs.Fmt.{signed_decimal};
ghost use Rattle.as_base.specs.Range.{IsTime};
ghost use Rattle.as_base.specs.declared.item.Given.{Given};
ghost use Rattle.as_base.specs.declared.row.Row.{Row};
ghost use Rattle.as_words.specs.Number.{IsSigned, IsWide};
ghost use Rattle.row_text.specs.Fits.{FitsRecord, IsStart, FitsWindow, FitsGroup, IsCount, FitsValue, IsWithin, FitsSide, FitsRow};
ghost use Rattle.row_text.specs.RowText.{row_text, row_words, group_words, side_words};
ghost use Rattle.row_text.specs.Taking.{HasNoLine, Spells, Takes, HasValue, FitsValues, given_words, window_words, natural_words, integer_words};

use as_base::{FOREVER, Given, Group, Kind, Plan, Row, StreamId, WinSpec};
use as_words::{Words, parse_integer, parse_natural, parse_wide};

/// The row that fits the plan and has this text, with its line feed, if there is one. It takes no memory.
pub fn read_row(plan: &Plan, bytes: &[u8]) -> Option<Row>
    ensures { (row : Row) → (result ≡ Some row) ↔ (FitsRow plan.now row × (row_text row ≡ bytes.now)) }
{
    let line = line_of(bytes)?;
    let mut words = Words::new(line);
    let row = next_row(plan, &mut words)?;
    words.is_empty().then_some(row)
}

// The line before the line feed that the bytes end in.
#[tactic(auto, using(crate::proofs::ReadingLaws::line_told))]
fn line_of(bytes: &[u8]) -> Option<&[u8]>
    ensures { MatchOption result (HasNoLine bytes.now) (λ line. bytes.now ≡ line.now ++ codes "\n") }
{
    bytes.strip_suffix(b"\n".as_slice())
}

// Each function from here on takes the first words, where they are those of what is asked for.

// Takes a row that fits the plan.
fn next_row(plan: &Plan, words: &mut Words<'_>) -> Option<Row>
    ensures { Takes (FitsRow plan.now) row_words result words.old words.new }
{
    match plan.kind {
        Kind::Select => next_selected(plan, words),
        Kind::Sum(_) | Kind::Count => next_total(plan, words),
        Kind::Join => next_pair(plan, words),
    }
}

// Takes a row of a selection.
#[tactic(auto, using(crate::proofs::RowLaws::selected))]
fn next_selected(plan: &Plan, words: &mut Words<'_>) -> Option<Row>
    requires { plan.now.kind ≡ Kind.Select }
    ensures { Takes (FitsRow plan.now) row_words result words.old words.new }
{
    Some(Row::Sel(next_given(plan.left, words)?))
}

// Takes a row of a sum or a count.
fn next_total(plan: &Plan, words: &mut Words<'_>) -> Option<Row>
    requires { HasValue plan.now.kind }
    ensures { Takes (FitsRow plan.now) row_words result words.old words.new }
{
    let (start, end) = next_window(&plan.win, words)?;
    let group = next_group(plan.group, words)?;
    let value = next_value(plan.kind, words)?;
    Some(Row::Agg {
        start,
        end,
        group,
        value,
    })
}

// Takes a row of a join.
fn next_pair(plan: &Plan, words: &mut Words<'_>) -> Option<Row>
    requires { plan.now.kind ≡ Kind.Join }
    ensures { Takes (FitsRow plan.now) row_words result words.old words.new }
{
    let (start, end) = next_window(&plan.win, words)?;
    let key = next_integer(words)?;
    let left = next_side(plan.left, start, end, key, words)?;
    let right = next_side(plan.right, start, end, key, words)?;
    Some(Row::Pair {
        start,
        end,
        left,
        right,
    })
}

// Takes where a window begins and ends.
fn next_window(win: &WinSpec, words: &mut Words<'_>) -> Option<(u64, u64)>
    ensures { Takes (λ (w : ℕ × ℕ). FitsWindow win.now w.0 w.1) window_words result words.old words.new }
{
    let start = next_start(win, words)?;
    let end = next_end(win, start, words)?;
    Some((start, end))
}

// Takes where a window begins.
fn next_start(win: &WinSpec, words: &mut Words<'_>) -> Option<u64>
    ensures { Takes (λ start. IsTime start × IsStart win.now start) natural_words result words.old words.new }
{
    let start = next_time(words)?;
    is_start(win, start).then_some(start)
}

// A window of these begins at the time.
fn is_start(win: &WinSpec, start: u64) -> bool
    ensures { IsTrue result ↔ IsStart win.now start }
{
    start.is_multiple_of(win.slide)
}

// Takes where the window ends that begins at the time.
fn next_end(win: &WinSpec, start: u64, words: &mut Words<'_>) -> Option<u64>
    ensures { Takes (λ end. (end ≡ start + win.now.size) × (end < 2 ^ 64)) natural_words result words.old words.new }
{
    let end = next_natural(words)?;
    (start.checked_add(win.size) == Some(end)).then_some(end)
}

// Takes a group of such a grouping, which is told by no words where all records are one.
fn next_group(by: Group, words: &mut Words<'_>) -> Option<Option<i64>>
    ensures { Takes (FitsGroup by) group_words result words.old words.new }
{
    match by {
        Group::Key | Group::Col(_) => next_integer(words).map(Some),
        Group::All => Some(None),
    }
}

// Takes a value that a query of this kind has.
fn next_value(kind: Kind, words: &mut Words<'_>) -> Option<i128>
    ensures { Takes (FitsValue kind) integer_words result words.old words.new }
{
    parse_value(kind, words.next()?)
}

// The value that the word spells.
fn parse_value(kind: Kind, word: &[u8]) -> Option<i128>
    ensures { Spells (FitsValue kind) signed_decimal result word.now }
{
    match kind {
        Kind::Sum(_) => parse_sum(word),
        Kind::Count => parse_count(word),
        Kind::Select | Kind::Join => None,
    }
}

// The sum that the word spells.
#[tactic(auto, using(crate::proofs::TakingLaws::wide_spelled))]
fn parse_sum(word: &[u8]) -> Option<i128>
    ensures { Spells IsWide signed_decimal result word.now }
{
    parse_wide(word)
}

// The number of records that the word spells.
fn parse_count(word: &[u8]) -> Option<i128>
    ensures { Spells IsCount signed_decimal result word.now }
{
    let count = parse_natural(word)?;
    (count > 0).then_some(i128::from(count))
}

// Takes a record of the stream.
fn next_given(stream: StreamId, words: &mut Words<'_>) -> Option<Given>
    ensures { Takes (FitsRecord stream) given_words result words.old words.new }
{
    let time = next_time(words)?;
    let key = next_integer(words)?;
    let v = next_four(words)?;
    Some(Given {
        stream,
        time,
        key,
        v,
    })
}

// Takes the time and the values of a record of the stream in the window, with this key.
fn next_side(
    stream: StreamId,
    start: u64,
    end: u64,
    key: i64,
    words: &mut Words<'_>,
) -> Option<Given>
    ensures { Takes (λ (g : Given). FitsSide stream start end g × (g.key ≡ key)) side_words result words.old words.new }
{
    let time = next_time_within(start, end, words)?;
    let v = next_four(words)?;
    Some(Given {
        stream,
        time,
        key,
        v,
    })
}

// Takes a time in the window.
fn next_time_within(start: u64, end: u64, words: &mut Words<'_>) -> Option<u64>
    ensures { Takes (λ time. IsTime time × IsWithin start end time) natural_words result words.old words.new }
{
    let time = next_time(words)?;
    is_within(start, time, end).then_some(time)
}

// The time is in the window.
fn is_within(start: u64, time: u64, end: u64) -> bool
    ensures { IsTrue result ↔ IsWithin start end time }
{
    start <= time && time < end
}

// Takes a time.
fn next_time(words: &mut Words<'_>) -> Option<u64>
    ensures { Takes IsTime natural_words result words.old words.new }
{
    let time = next_natural(words)?;
    (time < FOREVER).then_some(time)
}

// Takes four signed numbers.
fn next_four(words: &mut Words<'_>) -> Option<[i64; 4]>
    ensures { Takes (FitsValues 4) (map signed_decimal) result words.old words.new }
{
    let first = next_integer(words)?;
    let second = next_integer(words)?;
    let third = next_integer(words)?;
    let fourth = next_integer(words)?;
    Some([first, second, third, fourth])
}

// Takes a signed number.
#[tactic(auto, using(crate::proofs::TakingLaws::integer_taken))]
fn next_integer(words: &mut Words<'_>) -> Option<i64>
    ensures { Takes IsSigned integer_words result words.old words.new }
{
    parse_integer(words.next()?)
}

// Takes a number.
#[tactic(auto, using(crate::proofs::TakingLaws::natural_taken))]
fn next_natural(words: &mut Words<'_>) -> Option<u64>
    ensures { Takes (λ n. n < 2 ^ 64) natural_words result words.old words.new }
{
    parse_natural(words.next()?)
}
