ghost use Rattle.std.specs.Prelude.{◌≡◌, ◌<◌, ◌≤◌, ◌∷◌, ◌++◌, [], pos, map, take, drop, length, decimal, codes, IsTrue, IfSome, IfNone};
ghost use Rattle.std.specs.Fmt.{signed_decimal};
ghost use Rattle.std.specs.List.{AllByRecursion};
ghost use Rattle.as_base.specs.declared.item.Item.{Item};
ghost use Rattle.as_base.specs.Range.{IsTime, IsSpelled};
ghost use Rattle.as_base.specs.Stream.{stream_name};
ghost use Rattle.as_words.specs.Number.{IsSigned};
ghost use Rattle.as_words.specs.Words.{spaced};
ghost use Rattle.as_lineform.specs.Spelling.{item_text};

use crate::digits::leading_number;
use as_base::{FOREVER, Given, StreamId};
use as_words::LEAST;
use std::marker::Model;

// The bytes `rec` and a space as a word, the first byte lowest.
const REC: u32 = 0x2063_6572;

// The bytes begin with `rec` and a space.
#[inline(always)]
fn starts_record(bytes: &[u8]) -> bool
    ensures long { IsTrue result → 4 ≤ length bytes.now }
    ensures starts { IsTrue result → bytes.now ≡ codes "rec " ++ drop 4 bytes.now }
{
    match bytes.first_chunk::<4>() {
        Some(head) => u32::from_le_bytes(*head) == REC,
        None => false,
    }
}

// Bytes that are read from the front, in place. Each reader may give up at whatever it doubts, and then stands anywhere,
// so a clause tells what was read where something was.
#[derive(Drop)]
struct Front<'a> {
    rest: &'a [u8],
}

impl<'a> Model for Front<'a> {
    ghost use Rattle.std.specs.Prelude.{List, ℕ};

    ghost Value = { List ℕ };

    ghost view = { λ f. f.rest.now };
}

// The number as a signed one, if it is in range.
#[inline(always)]
fn signed(number: u64) -> Option<i64>
    ensures range { IfSome result IsSigned }
    ensures same { IfSome result (λ z. z ≡ pos number) }
{
    if number >= LEAST {
        return None;
    }
    Some(number as i64)
}

impl<'a> Front<'a> {
    // Reads the byte, or changes nothing.
    #[inline(always)]
    fn byte(&mut self, byte: u8) -> Option<()>
        ensures some { IfSome result (λ _. self.old ≡ byte ∷ self.new) }
        ensures none { IfNone result (self.new ≡ self.old) }
    {
        let rest = self.rest;
        if !rest.is_empty() && rest[0] == byte {
            self.rest = &rest[1..];
            return Some(());
        }
        None
    }

    // Reads a number.
    #[inline(always)]
    fn number(&mut self) -> Option<u64>
        ensures { IfSome result (λ n. self.old ≡ decimal n ++ self.new) }
    {
        let rest = self.rest;
        let (number, count) = leading_number(rest)?;
        self.rest = &rest[count..];
        Some(number)
    }

    // Reads a time.
    #[inline(always)]
    fn time(&mut self) -> Option<u64>
        ensures range { IfSome result IsTime }
        ensures reads { IfSome result (λ t. self.old ≡ decimal t ++ self.new) }
    {
        let time = self.number()?;
        (time < FOREVER).then_some(time)
    }

    // Reads a signed number.
    #[inline(always)]
    fn integer(&mut self) -> Option<i64>
        ensures range { IfSome result IsSigned }
        ensures reads { IfSome result (λ z. self.old ≡ signed_decimal z ++ self.new) }
    {
        if self.byte(b'-').is_none() {
            let number = self.number()?;
            return signed(number);
        }
        let number = self.number()?;
        if number == 0 || number > LEAST {
            return None;
        }
        Some(-1 - (number - 1) as i64)
    }

    // Reads a signed number after a space.
    #[inline(always)]
    fn spaced_integer(&mut self) -> Option<i64>
        ensures range { IfSome result IsSigned }
        ensures reads { IfSome result (λ z. self.old ≡ 32 ∷ signed_decimal z ++ self.new) }
    {
        self.byte(b' ')?;
        self.integer()
    }

    // Reads the name of a stream.
    #[inline(always)]
    fn stream(&mut self) -> Option<StreamId>
        ensures { IfSome result (λ s. self.old ≡ stream_name s ++ self.new) }
    {
        if self.byte(b'a').is_some() {
            return Some(StreamId::A);
        }
        if self.byte(b'b').is_some() {
            return Some(StreamId::B);
        }
        if self.byte(b'c').is_some() {
            return Some(StreamId::C);
        }
        self.byte(b'd')?;
        Some(StreamId::D)
    }

    // Reads the four values of a record.
    #[inline(always)]
    fn values(&mut self) -> Option<[i64; 4]>
        ensures range { IfSome result (AllByRecursion IsSigned) }
        ensures four { IfSome result (λ v. length v ≡ 4) }
        ensures reads { IfSome result (λ v. self.old ≡ spaced (map signed_decimal v) ++ self.new) }
    {
        let first = self.spaced_integer()?;
        let second = self.spaced_integer()?;
        let third = self.spaced_integer()?;
        let fourth = self.spaced_integer()?;
        Some([first, second, third, fourth])
    }

    // Reads what stands in a record's line after the first word.
    #[inline(always)]
    fn given(&mut self) -> Option<Given>
        ensures range { IfSome result (λ g. IsSpelled (Item.Rec g)) }
        ensures reads { IfSome result (λ g. codes "rec " ++ self.old ≡ item_text (Item.Rec g) ++ self.new) }
    {
        let stream = self.stream()?;
        self.byte(b' ')?;
        let time = self.time()?;
        let key = self.spaced_integer()?;
        let v = self.values()?;
        Some(Given {
            stream,
            time,
            key,
            v,
        })
    }

    // Reads the first word of a record's line and the space after it, all at once.
    #[inline(always)]
    fn rec(&mut self) -> Option<()>
        ensures { IfSome result (λ _. self.old ≡ codes "rec " ++ self.new) }
    {
        let rest = self.rest;
        if !starts_record(rest) {
            return None;
        }
        self.rest = &rest[4..];
        Some(())
    }

    // Reads a record's line with its line feed.
    #[inline(always)]
    fn record(&mut self) -> Option<Given>
        ensures range { IfSome result (λ g. IsSpelled (Item.Rec g)) }
        ensures reads { IfSome result (λ g. self.old ≡ item_text (Item.Rec g) ++ 10 ∷ self.new) }
    {
        self.rec()?;
        let given = self.given()?;
        self.byte(b'\n')?;
        Some(given)
    }
}

/// The record whose line stands whole at the front, with its line feed, and how many bytes that is. It may give up.
#[inline(never)]
pub fn first_record(bytes: &[u8]) -> Option<(usize, Given)>
    ensures within { IfSome result (λ first. (0 < first.0) × (first.0 ≤ length bytes.now)) }
    ensures range { IfSome result (λ first. IsSpelled (Item.Rec first.1)) }
    ensures reads { IfSome result (λ first. take first.0 bytes.now ≡ item_text (Item.Rec first.1) ++ 10 ∷ []) }
{
    let mut front = Front { rest: bytes };
    let given = front.record()?;
    let used = bytes.len() - front.rest.len();
    Some((used, given))
}
