ghost use Rattle.std.specs.Prelude.{◌≡◌, ◌≤◌, codes};
ghost use Rattle.query_text.specs.Names.{column_name, group_name, op_name, field_name};
ghost use Rattle.query_plan.specs.Text.{verb_word, opening_word};

use as_base::{Col, Group, Kind};
use query_text::Op;

/// The name of a column.
pub fn column_name(column: Col) -> &'static [u8]
    ensures { result.now ≡ column_name column }
{
    match column {
        Col::V1 => b"v1".as_slice(),
        Col::V2 => b"v2".as_slice(),
        Col::V3 => b"v3".as_slice(),
        Col::V4 => b"v4".as_slice(),
    }
}

/// The name of what records are grouped by.
pub fn group_name(group: Group) -> &'static [u8]
    ensures { result.now ≡ group_name group }
{
    match group {
        Group::Key => b"key".as_slice(),
        Group::Col(value) => column_name(value),
        Group::All => b"all".as_slice(),
    }
}

/// The sign of a comparison.
pub fn op_name(op: Op) -> &'static [u8]
    ensures { result.now ≡ op_name op }
{
    match op {
        Op::Lt => b"<".as_slice(),
        Op::Le => b"<=".as_slice(),
        Op::Eq => b"=".as_slice(),
        Op::Ge => b">=".as_slice(),
        Op::Gt => b">".as_slice(),
    }
}

/// The name of a field: 0 for the key, 1 to 4 for v1 to v4.
pub fn field_name(field: u8) -> &'static [u8]
    requires { field ≤ 4 }
    ensures { result.now ≡ field_name field }
{
    match field {
        0 => b"key".as_slice(),
        1 => b"v1".as_slice(),
        2 => b"v2".as_slice(),
        3 => b"v3".as_slice(),
        _ => b"v4".as_slice(),
    }
}

/// The first word of a query of this kind.
pub fn verb_word(kind: Kind) -> &'static [u8]
    ensures { result.now ≡ verb_word kind }
{
    match kind {
        Kind::Select => b"select".as_slice(),
        Kind::Sum(_) => b"sum".as_slice(),
        Kind::Count => b"count".as_slice(),
        Kind::Join => b"join".as_slice(),
    }
}

/// The word before the first condition of the left side.
pub fn opening_word(kind: Kind) -> &'static [u8]
    ensures { result.now ≡ opening_word kind }
{
    match kind {
        Kind::Join => b"left".as_slice(),
        _ => b"where".as_slice(),
    }
}
