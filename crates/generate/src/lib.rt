//! A large input from a number: lines of creations, deletions, watermarks and records, the same ones each time.
#![tactic(auto)]

ghost use Rattle.std.specs.Prelude.{◌≡◌, ◌++◌, codes, ◌≤◌, ◌<◌, ◌%◌, ◌==◌, ℕ, pos, false, IfOk, OnErr};
ghost use Rattle.as_words.specs.Appends.{Appends, AppendsPrefix};
ghost use Rattle.as_base.specs.Range.{IsSpelled};
ghost use Rattle.as_base.specs.declared.item.Item.{Item};
ghost use Rattle.as_lineform.specs.Item.{item_of};
ghost use Rattle.as_lineform.specs.Spelling.{item_text};
ghost use Rattle.generate.specs.Generated.{mixed, drawn, stream_at, query_parts, text_of_parts, created_text, values_at, record_at, generated, line_of};
ghost use Rattle.generate.specs.Parts.{parts_at};

use as_base::{Given, Item, NoMemory, StreamId, Text, stream_name};
use as_lineform::item_text;
use as_words::whole_or_none;
use std::alloc::{AllocError, Global};

// What the number, line i and j mix to, below 65536.
fn mixed(number: u64, i: u64, j: u64) -> u64
    requires { j ≤ 4 }
    ensures value { result ≡ mixed number i j }
    ensures below { result < 65536 }
{
    (40503 * (number % 65536) + 30011 * (i % 65536) + 20011 * j) % 65536
}

// The j-th of the numbers that line i is made of, below 65536.
fn drawn(number: u64, i: u64, j: u64) -> u16
    requires { j ≤ 4 }
    ensures { result ≡ drawn number i j }
{
    let mixed = mixed(number, i, j);
    ((mixed * mixed / 64 + mixed) % 65536) as u16
}

// The stream at this place, from 0.
fn stream_at(place: u64) -> StreamId
    ensures { result ≡ stream_at place }
{
    match place {
        0 => StreamId::A,
        1 => StreamId::B,
        2 => StreamId::C,
        _ => StreamId::D,
    }
}

// The key of the record of line i.
fn key_at(number: u64, i: u64) -> i64
    ensures { result ≡ pos (drawn number i 1 % 32) }
{
    i64::from(drawn(number, i, 1) % 32)
}

// The values of the record of line i.
fn values_at(number: u64, i: u64) -> [i64; 4]
    ensures { result ≡ values_at number i }
{
    let (v1, v2, v3) = (
        drawn(number, i, 2),
        drawn(number, i, 3) % 4,
        drawn(number, i, 4),
    );
    [i64::from(v1), i64::from(v2), i64::from(v3) - 32768, 0]
}

// The record of line i.
fn record_at(number: u64, i: u64, streams: u8) -> Given
    requires line { i ≤ 10000000 }
    requires streams { (2 ≤ streams) × (streams ≤ 4) }
    ensures { result ≡ record_at number i streams }
{
    Given {
        stream: stream_at(i % u64::from(streams)),
        time: 10 * i,
        key: key_at(number, i),
        v: values_at(number, i),
    }
}

// Appends the parts, one after another, or a prefix of them.
fn append_parts(parts: &[&[u8]], out: &mut Vec<u8>) -> Result<(), AllocError>
    ensures { AppendsPrefix result out.old.items out.new.items (text_of_parts (parts_at parts.now)) }
{
    for part in parts {
        out.extend_from_slice(part)?;
    }
    Ok(())
}

// Appends a query text of one of four shapes, or a prefix of it.
fn append_query(shape: u64, x: StreamId, y: StreamId, out: &mut Vec<u8>) -> Result<(), AllocError>
    ensures { AppendsPrefix result out.old.items out.new.items (text_of_parts (query_parts shape x y)) }
{
    let (x, y) = (stream_name(x), stream_name(y));
    match shape {
        0 => append_parts(&[b"select from ", x, b" where v1 < 30000"], out),
        1 => append_parts(&[b"sum v1 by key from ", x, b" slide 1000 250"], out),
        2 => append_parts(
            &[b"count by v2 from ", x, b" tumble 500 where key >= 8"],
            out,
        ),
        _ => append_parts(&[b"join ", x, b" ", y, b" tumble 400"], out),
    }
}

// Appends the text of the m-th creation, from 0, or a prefix of it.
fn append_created(streams: u8, m: u64, out: &mut Vec<u8>) -> Result<(), AllocError>
    requires streams { (2 ≤ streams) × (streams ≤ 4) }
    ensures { AppendsPrefix result out.old.items out.new.items (created_text streams m) }
{
    let streams = u64::from(streams);
    let turn = m / 4;
    append_query(
        m % 4,
        stream_at(turn % streams),
        stream_at((turn + 1) % streams),
        out,
    )
}

// Appends the line of the m-th creation, from 0, or a prefix of it.
fn append_creation(streams: u8, m: u64, out: &mut Vec<u8>) -> Result<(), AllocError>
    requires streams { (2 ≤ streams) × (streams ≤ 4) }
    ensures { AppendsPrefix result out.old.items out.new.items (codes "create " ++ created_text streams m) }
{
    out.extend_from_slice(b"create ")?;
    append_created(streams, m, out)
}

// The same, or it is not appended at all.
fn creation_line(streams: u8, m: u64, out: &mut Vec<u8>) -> Result<(), NoMemory>
    requires streams { (2 ≤ streams) × (streams ≤ 4) }
    ensures { Appends result out.old.items out.new.items (codes "create " ++ created_text streams m) }
{
    let start = out.len();
    let appended = append_creation(streams, m, out);
    Ok(whole_or_none(appended, start, out)?)
}

// The m-th creation, from 0.
fn creation(alloc: Global, streams: u8, m: u64) -> Result<Item, NoMemory>
    requires streams { (2 ≤ streams) × (streams ≤ 4) }
    ensures { IfOk result (λ item. item ≡ Item.Create (created_text streams m)) }
{
    let mut text = Vec::new(alloc);
    append_created(streams, m, &mut text)?;
    Ok(Item::Create(Text::from_vec(text)))
}

// What a line says that creates no query.
fn uncreating(number: u64, i: u64, streams: u8) -> Item
    requires line { i ≤ 10000000 }
    requires streams { (2 ≤ streams) × (streams ≤ 4) }
    requires other { (i % 32 == 1) ≡ false }
    ensures { result ≡ generated number i streams }
{
    let round = i / 32;
    if i % 32 == 17 && round >= 8 {
        return Item::Delete(round - 7);
    }
    if i % 8 == 0 {
        return Item::Mark(stream_at(i / 8 % u64::from(streams)), 10 * i);
    }
    Item::Rec(record_at(number, i, streams))
}

/// What line `i` of the input says that comes of the number, over the first `streams` streams, 2 to 4. Lines are numbered
/// from 1 to 10,000,000. The one refusal is `NoMemory`, which comes for a creation alone.
pub fn item(alloc: Global, number: u64, i: u64, streams: u8) -> Result<Item, NoMemory>
    requires line { i ≤ 10000000 }
    requires streams { (2 ≤ streams) × (streams ≤ 4) }
    ensures ok { IfOk result (λ item. item ≡ generated number i streams) }
    ensures err { OnErr result (i % 32 ≡ 1) }
{
    if i % 32 == 1 {
        return creation(alloc, streams, i / 32);
    }
    Ok(uncreating(number, i, streams))
}

/// Appends line `i` of the input that comes of the number, over the first `streams` streams, 2 to 4, without its line
/// feed. Lines are numbered from 1 to 10,000,000. The one refusal is `NoMemory`, after which `out` is unchanged.
pub fn line(number: u64, i: u64, streams: u8, out: &mut Vec<u8>) -> Result<(), NoMemory>
    requires line { i ≤ 10000000 }
    requires streams { (2 ≤ streams) × (streams ≤ 4) }
    ensures { Appends result out.old.items out.new.items (line_of number i streams) }
{
    if i % 32 == 1 {
        return creation_line(streams, i / 32, out);
    }
    item_text(&uncreating(number, i, streams), out)
}

/// The lines are read as what they say, with all numbers in range.
pub fn generated_lines_are_read()
    ensures spelled { (number i streams : ℕ) → i ≤ 10000000 → IsSpelled (generated number i streams) }
    ensures read { (number i streams : ℕ) → i ≤ 10000000 → item_of (line_of number i streams) ≡ generated number i streams }
{}

#[cfg(test)]
mod tests;
