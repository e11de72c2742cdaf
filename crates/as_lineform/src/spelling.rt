ghost use Rattle.std.specs.Prelude.{◌≡◌, [], ◌∷◌, ◌++◌, ◌↔◌, List, ℕ, ◌<◌, length, decimal};
ghost use Rattle.as_base.specs.declared.item.Item.{Item};
ghost use Rattle.as_words.specs.Appends.{Appends, AppendsPrefix};
ghost use Rattle.as_lineform.specs.Item.{item_of};
ghost use Rattle.as_base.specs.Range.{IsSpelled};
ghost use Rattle.as_base.specs.Stream.{stream_name};
ghost use Rattle.as_words.specs.Words.{spaced};
ghost use Rattle.as_lineform.specs.Spelling.{item_text, IsRead};

use crate::item::LINE_MAX;
use as_base::{Cause, Given, Item, NoMemory, StreamId, stream_name};
use as_words::{
    append_spaced, append_spaced_decimal, append_spaced_numbers, append_spaced_signed,
    whole_or_none,
};
use std::alloc::AllocError;

/// Appends a line whose item is this one, without its line feed. The one refusal is `NoMemory`, after which `out` is
/// unchanged.
pub fn item_text(item: &Item, out: &mut Vec<u8>) -> Result<(), NoMemory>
    ensures { Appends result out.old.items out.new.items (item_text item.now) }
{
    let start = out.len();
    let appended = append_item(item, out);
    Ok(whole_or_none(appended, start, out)?)
}

/// What `item_text` writes of an item is read as this item.
pub fn written_lines_are_read()
    ensures { (i : Item) → IsSpelled i → item_of (item_text i) ≡ i }
{}

/// A line in one of the forms is the one spelling of its item; of the others, those with more than 4,096 bytes are
/// `Long`.
pub fn each_item_has_one_spelling()
    ensures one { (i : Item) (line : List ℕ) → IsRead i → (item_of line ≡ i) ↔ (IsSpelled i × (line ≡ item_text i)) }
    ensures long { (line : List ℕ) → (item_of line ≡ Item.Bad Cause.Long) ↔ (4096 < length line) }
{}

// Appends a line of the item, or a prefix of it.
fn append_item(item: &Item, out: &mut Vec<u8>) -> Result<(), AllocError>
    ensures { AppendsPrefix result out.old.items out.new.items (item_text item.now) }
{
    match item {
        Item::Rec(given) => append_record(given, out),
        Item::Mark(stream, time) => append_mark(*stream, *time, out),
        Item::End(stream) => append_end(*stream, out),
        Item::Create(text) => append_creation(text.as_slice(), out),
        Item::Delete(n) => append_deletion(*n, out),
        Item::Bad(Cause::Form) => out.extend_from_slice(b"?"),
        Item::Bad(Cause::Long) => append_long(out),
    }
}

// Appends a form's name, a space and the stream's name, or a prefix of them.
fn append_form(form: &[u8], stream: StreamId, out: &mut Vec<u8>) -> Result<(), AllocError>
    ensures { AppendsPrefix result out.old.items out.new.items (form.now ++ 32 ∷ stream_name stream) }
{
    out.extend_from_slice(form)?;
    append_spaced(stream_name(stream), out)
}

// Appends a form's name, the stream's and the time, each after a space but the first, or a prefix of them.
fn append_timed(
    form: &[u8],
    stream: StreamId,
    time: u64,
    out: &mut Vec<u8>,
) -> Result<(), AllocError>
    ensures { AppendsPrefix result out.old.items out.new.items
        (form.now ++ spaced (stream_name stream ∷ decimal time ∷ [])) }
{
    append_form(form, stream, out)?;
    append_spaced_decimal(time, out)
}

// Appends a record's line, or a prefix of it.
fn append_record(given: &Given, out: &mut Vec<u8>) -> Result<(), AllocError>
    ensures { AppendsPrefix result out.old.items out.new.items (item_text (Item.Rec given.now)) }
{
    append_timed(b"rec", given.stream, given.time, out)?;
    append_spaced_signed(given.key, out)?;
    append_spaced_numbers(&given.v, out)
}

// Appends a watermark's line, or a prefix of it.
fn append_mark(stream: StreamId, time: u64, out: &mut Vec<u8>) -> Result<(), AllocError>
    ensures { AppendsPrefix result out.old.items out.new.items (item_text (Item.Mark stream time)) }
{
    append_timed(b"mark", stream, time, out)
}

// Appends the line of a stream's end, or a prefix of it.
fn append_end(stream: StreamId, out: &mut Vec<u8>) -> Result<(), AllocError>
    ensures { AppendsPrefix result out.old.items out.new.items (item_text (Item.End stream)) }
{
    append_form(b"end", stream, out)
}

// Appends a creation's line, or a prefix of it.
fn append_creation(text: &[u8], out: &mut Vec<u8>) -> Result<(), AllocError>
    ensures { AppendsPrefix result out.old.items out.new.items (item_text (Item.Create text.now)) }
{
    out.extend_from_slice(b"create")?;
    if text.is_empty() {
        return Ok(());
    }
    append_spaced(text, out)
}

// Appends a deletion's line, or a prefix of it.
fn append_deletion(n: u64, out: &mut Vec<u8>) -> Result<(), AllocError>
    ensures { AppendsPrefix result out.old.items out.new.items (item_text (Item.Delete n)) }
{
    out.extend_from_slice(b"delete")?;
    append_spaced_decimal(n, out)
}

// Appends the shortest line that is too long.
fn append_long(out: &mut Vec<u8>) -> Result<(), AllocError>
    ensures { Appends result out.old.items out.new.items (item_text (Item.Bad Cause.Long)) }
{
    out.extend_from_slice(&[b'-'; LINE_MAX + 1])
}
