ghost use Rattle.std.specs.Prelude.{◌≡◌};
ghost use Rattle.query_text.specs.Spelling.{opening, is_join};
ghost use Rattle.query_text.specs.Names.{verb_named, shape_named, column_named, group_named, op_named, field_named};
ghost use Rattle.query_text.specs.Places.{side_named};

use crate::ast::Op;
use crate::tree::{Head, Shape, Side, Stem, Verb};
use as_base::{Col, Group};

/// The verb of this name, which begins a query.
pub fn verb_named(word: &[u8]) -> Option<Verb>
    ensures { result ≡ verb_named word.now }
{
    if word == b"select".as_slice() {
        Some(Verb::Select)
    } else if word == b"sum".as_slice() {
        Some(Verb::Sum)
    } else if word == b"count".as_slice() {
        Some(Verb::Count)
    } else if word == b"join".as_slice() {
        Some(Verb::Join)
    } else {
        None
    }
}

/// The shape of this name, which begins windows.
pub fn shape_named(word: &[u8]) -> Option<Shape>
    ensures { result ≡ shape_named word.now }
{
    if word == b"tumble".as_slice() {
        Some(Shape::Tumble)
    } else if word == b"slide".as_slice() {
        Some(Shape::Slide)
    } else {
        None
    }
}

/// The column of this name.
pub fn column_named(word: &[u8]) -> Option<Col>
    ensures { result ≡ column_named word.now }
{
    if word == b"v1".as_slice() {
        Some(Col::V1)
    } else if word == b"v2".as_slice() {
        Some(Col::V2)
    } else if word == b"v3".as_slice() {
        Some(Col::V3)
    } else if word == b"v4".as_slice() {
        Some(Col::V4)
    } else {
        None
    }
}

/// What records are grouped by under this name.
pub fn group_named(word: &[u8]) -> Option<Group>
    ensures { result ≡ group_named word.now }
{
    if word == b"key".as_slice() {
        Some(Group::Key)
    } else if word == b"all".as_slice() {
        Some(Group::All)
    } else {
        column_named(word).map(Group::Col)
    }
}

/// The comparison of this sign.
pub fn op_named(word: &[u8]) -> Option<Op>
    ensures { result ≡ op_named word.now }
{
    if word == b"<".as_slice() {
        Some(Op::Lt)
    } else if word == b"<=".as_slice() {
        Some(Op::Le)
    } else if word == b"=".as_slice() {
        Some(Op::Eq)
    } else if word == b">=".as_slice() {
        Some(Op::Ge)
    } else if word == b">".as_slice() {
        Some(Op::Gt)
    } else {
        None
    }
}

/// The field of this name: 0 for the key, 1 to 4 for v1 to v4.
pub fn field_named(word: &[u8]) -> Option<u8>
    ensures { result ≡ field_named word.now }
{
    if word == b"key".as_slice() {
        Some(0)
    } else if word == b"v1".as_slice() {
        Some(1)
    } else if word == b"v2".as_slice() {
        Some(2)
    } else if word == b"v3".as_slice() {
        Some(3)
    } else if word == b"v4".as_slice() {
        Some(4)
    } else {
        None
    }
}

// The word before the first left condition.
fn opening(head: Head) -> &'static [u8]
    ensures { result.now ≡ opening head }
{
    match head {
        Head::Windowed(Stem::Joined(..), _) => b"left".as_slice(),
        _ => b"where".as_slice(),
    }
}

// The query is a join.
fn is_join(head: Head) -> bool
    ensures { result ≡ is_join head }
{
    matches!(head, Head::Windowed(Stem::Joined(..), _))
}

/// The side of the condition that the word leads to, where there are left conditions, and right ones, or not.
pub fn side_named(head: Head, has_left: bool, has_right: bool, word: &[u8]) -> Option<Side>
    ensures { result ≡ side_named head has_left has_right word.now }
{
    if word == b"and".as_slice() {
        if has_right {
            Some(Side::Right)
        } else {
            has_left.then_some(Side::Left)
        }
    } else if is_join(head) && word == b"right".as_slice() {
        (!has_right).then_some(Side::Right)
    } else if word == opening(head) {
        (!has_left && !has_right).then_some(Side::Left)
    } else {
        None
    }
}
