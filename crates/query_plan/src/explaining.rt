ghost use Rattle.std.specs.Prelude.{◌≡◌, ◌≤◌, ◌∷◌, [], codes, if◌then◌else◌};
ghost use Rattle.query_text.specs.Spelling.{window_words, cond_words, conds_words};
ghost use Rattle.query_plan.specs.Text.{words_at, names_as, windows_as, conds_of_interval, conds_of_high, is_limited, conds_of, written_window, right_words, canonical_text};
ghost use Rattle.as_words.specs.Appends.{Appends, AppendsPrefix};
ghost use Rattle.as_words.specs.Words.{spaced};

use crate::words;
use as_base::{Bounds, Col, Kind, NoMemory, Plan, StreamId, WinSpec, stream_name};
use as_words::{append_spaced, append_spaced_decimal, append_spaced_signed, whole_or_none};
use query_text::{Cond, Op, Window};
use std::alloc::AllocError;

// How many fields a record has: the key and four values.
const FIELDS: u8 = 5;

/// Appends the canonical text of a plan: the words of its query, with one space between two, and no line feed. The one
/// refusal is `NoMemory`, after which `out` is unchanged.
pub fn explain(plan: &Plan, out: &mut Vec<u8>) -> Result<(), NoMemory>
    ensures { Appends result out.old.items out.new.items (canonical_text plan.now) }
{
    let start = out.len();
    let appended = append_plan(plan, out);
    whole_or_none(appended, start, out)?;
    Ok(())
}

// Appends the text of a plan, or a prefix of it.
fn append_plan(plan: &Plan, out: &mut Vec<u8>) -> Result<(), AllocError>
    ensures { AppendsPrefix result out.old.items out.new.items (canonical_text plan.now) }
{
    out.extend_from_slice(words::verb_word(plan.kind))?;
    append_names(plan, out)?;
    append_windows(plan, out)?;
    append_conds(words::opening_word(plan.kind), &plan.left_bounds, out)?;
    append_right(plan, out)
}

// Appends the words, each after a space, or a prefix of them.
fn append_words(words: &[&[u8]], out: &mut Vec<u8>) -> Result<(), AllocError>
    ensures { AppendsPrefix result out.old.items out.new.items (spaced (words_at words.now)) }
{
    for word in words {
        append_spaced(word, out)?;
    }
    Ok(())
}

// Appends the words that name columns, groups and streams, each after a space, or a prefix of them.
fn append_names(plan: &Plan, out: &mut Vec<u8>) -> Result<(), AllocError>
    ensures { AppendsPrefix result out.old.items out.new.items (spaced (names_as plan.now.kind plan.now)) }
{
    let (by, from) = (b"by".as_slice(), b"from".as_slice());
    let (group, left) = (words::group_name(plan.group), stream_name(plan.left));
    match plan.kind {
        Kind::Select => append_words(&[from, left], out),
        Kind::Sum(column) => append_words(
            &[words::column_name(column), by, group, from, left],
            out,
        ),
        Kind::Count => append_words(&[by, group, from, left], out),
        Kind::Join => append_words(&[left, stream_name(plan.right)], out),
    }
}

// Appends the windows of a plan, each word after a space, or a prefix of them. A selection has none.
fn append_windows(plan: &Plan, out: &mut Vec<u8>) -> Result<(), AllocError>
    ensures { AppendsPrefix result out.old.items out.new.items (spaced (windows_as plan.now.kind plan.now)) }
{
    match plan.kind {
        Kind::Select => Ok(()),
        _ => append_window(written_window(&plan.win), out),
    }
}

// Windows as they are written: with their size alone where they do not overlap.
fn written_window(win: &WinSpec) -> Window
    ensures { result ≡ written_window win.now }
{
    if win.size == win.slide {
        Window::Tumble(win.size)
    } else {
        Window::Slide(win.size, win.slide)
    }
}

// Appends windows, each word after a space, or a prefix of them.
fn append_window(window: Window, out: &mut Vec<u8>) -> Result<(), AllocError>
    ensures { AppendsPrefix result out.old.items out.new.items (spaced (window_words window)) }
{
    match window {
        Window::Tumble(size) => {
            out.extend_from_slice(b" tumble")?;
            append_spaced_decimal(size, out)
        }
        Window::Slide(size, slide) => {
            out.extend_from_slice(b" slide")?;
            append_spaced_decimal(size, out)?;
            append_spaced_decimal(slide, out)
        }
    }
}

// Appends the conditions of a join's right side, each word after a space, or a prefix of them. Other kinds have none.
fn append_right(plan: &Plan, out: &mut Vec<u8>) -> Result<(), AllocError>
    ensures { AppendsPrefix result out.old.items out.new.items (spaced (right_words plan.now)) }
{
    match plan.kind {
        Kind::Join => append_conds(b"right".as_slice(), &plan.right_bounds, out),
        _ => Ok(()),
    }
}

// Appends the conditions that leave the intervals, `opening` before the first, each word after a space, or a prefix
// of them.
fn append_conds(opening: &[u8], bounds: &Bounds, out: &mut Vec<u8>) -> Result<(), AllocError>
    ensures { AppendsPrefix result out.old.items out.new.items (spaced (conds_words opening.now (conds_of bounds.now))) }
{
    let mut lead = opening;
    for field in 0..FIELDS {
        let place = usize::from(field);
        let (lo, hi) = (bounds.lo[place], bounds.hi[place]);
        append_interval(lead, field, lo, hi, out)?;
        lead = lead_after(lead, lo, hi);
    }
    Ok(())
}

// The word before the next condition, after those of an interval.
fn lead_after(lead: &[u8], lo: i64, hi: i64) -> &[u8]
    ensures { result.now ≡ (if is_limited lo hi then codes "and" else lead.now) }
{
    if lo == i64::MIN && hi == i64::MAX {
        return lead;
    }
    b"and".as_slice()
}

// Appends the conditions that leave the interval of a field, or a prefix of them.
fn append_interval(
    lead: &[u8],
    field: u8,
    lo: i64,
    hi: i64,
    out: &mut Vec<u8>,
) -> Result<(), AllocError>
    requires { field ≤ 4 }
    ensures { AppendsPrefix result out.old.items out.new.items (spaced (conds_words lead.now (conds_of_interval field lo hi))) }
{
    if lo == hi {
        let cond = Cond {
            field,
            op: Op::Eq,
            value: lo,
        };
        return append_cond(lead, cond, out);
    }
    if lo == i64::MIN {
        return append_high(lead, field, hi, out);
    }
    let cond = Cond {
        field,
        op: Op::Ge,
        value: lo,
    };
    append_cond(lead, cond, out)?;
    append_high(b"and".as_slice(), field, hi, out)
}

// Appends the condition on the high end of a field, where it is one, or a prefix of it.
fn append_high(lead: &[u8], field: u8, hi: i64, out: &mut Vec<u8>) -> Result<(), AllocError>
    requires { field ≤ 4 }
    ensures { AppendsPrefix result out.old.items out.new.items (spaced (conds_words lead.now (conds_of_high field hi))) }
{
    if hi == i64::MAX {
        return Ok(());
    }
    let cond = Cond {
        field,
        op: Op::Le,
        value: hi,
    };
    append_cond(lead, cond, out)
}

// Appends a condition after the word before it, each word after a space, or a prefix of them.
fn append_cond(lead: &[u8], cond: Cond, out: &mut Vec<u8>) -> Result<(), AllocError>
    requires { cond.field ≤ 4 }
    ensures { AppendsPrefix result out.old.items out.new.items (spaced (lead.now ∷ cond_words cond)) }
{
    append_spaced(lead, out)?;
    append_words(
        &[words::field_name(cond.field), words::op_name(cond.op)],
        out,
    )?;
    append_spaced_signed(cond.value, out)
}
