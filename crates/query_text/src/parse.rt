ghost use Rattle.std.specs.Prelude.{◌≡◌, ◌++◌, ◌∷◌, [], ◌<◌, length, ⊤, IfOk};
ghost use Rattle.query_text.specs.Places.{has_any, Place, read_from};
ghost use Rattle.query_text.specs.Places.Place.{AtVerb, AtLead};
ghost use Rattle.query_text.specs.Spelling.{tree, size_and_slide, kind_of};
ghost use Rattle.query_text.specs.Parsing.{Parses, take_sided, query_with, left_with, right_with, ParsesRest, ParsesNext, ParsesText};

use crate::ast::{Ast, Cond, Conds};
use crate::cursor::take_side;
use crate::rules::{take_condition, take_head};
use crate::tree::{Head, Measure, Side, Stem, Window};
use as_base::{Group, Kind, NoMemory};
use as_words::Words;
use std::alloc::Global;

/// Why the reading stopped.
#[derive(Clone, Copy, Debug, PartialEq, Eq)]
pub enum Stop {
    /// No text goes on with the words that are left.
    Syntax,
    /// There was no memory for a condition.
    NoMemory,
}

impl From<NoMemory> for Stop {
    ghost use Rattle.query_text.specs.declared.parse.Stop.{Stop};

    ghost from_gives = { λ _ stop. stop ≡ Stop.NoMemory };

    fn from(_: NoMemory) -> Self {
        Stop::NoMemory
    }
}

// The next condition and its side, where there are left conditions, and right ones, or not.
fn take_sided(
    cursor: &mut Words<'_>,
    head: Head,
    has_left: bool,
    has_right: bool,
) -> Option<(Side, Cond)>
    ensures { Parses result cursor.new (take_sided head has_left has_right cursor.old) }
{
    let side = take_side(cursor, head, has_left, has_right)?;
    let cond = take_condition(cursor)?;
    Some((side, cond))
}

// The tree of these parts.
fn tree(head: Head, left_conds: Conds, right_conds: Conds) -> Ast
    ensures { result ≡ tree head left_conds right_conds }
{
    let (kind, group, left, right, win) = match head {
        Head::Select(stream) => (Kind::Select, Group::All, stream, None, None),
        Head::Windowed(Stem::Grouped(measure, group, stream), window) => {
            (
                kind_of(measure),
                group,
                stream,
                None,
                Some(size_and_slide(window)),
            )
        }
        Head::Windowed(Stem::Joined(left, right), window) => {
            (
                Kind::Join,
                Group::All,
                left,
                Some(right),
                Some(size_and_slide(window)),
            )
        }
    };
    Ast {
        kind,
        group,
        left,
        right,
        win,
        left_conds,
        right_conds,
    }
}

// The kind of a query with this measure.
fn kind_of(measure: Measure) -> Kind
    ensures { result ≡ kind_of measure }
{
    match measure {
        Measure::Sum(column) => Kind::Sum(column),
        Measure::Count => Kind::Count,
    }
}

// The size and the slide of windows.
fn size_and_slide(window: Window) -> (u64, u64)
    ensures { result ≡ size_and_slide window }
{
    match window {
        Window::Tumble(size) => (size, size),
        Window::Slide(size, slide) => (size, slide),
    }
}

// Puts a condition on its side. After want of memory both sides are as they were.
fn put(side: Side, cond: Cond, left: &mut Vec<Cond>, right: &mut Vec<Cond>) -> Result<(), NoMemory>
    ensures left { IfOk result (λ _. left.new.items ≡ left_with left.old.items side cond) }
    ensures right { IfOk result (λ _. right.new.items ≡ right_with right.old.items side cond) }
{
    match side {
        Side::Left => left.push(cond)?,
        Side::Right => right.push(cond)?,
    }
    Ok(())
}

// There is a condition.
fn has_any(conds: &[Cond]) -> bool
    ensures { result ≡ has_any conds.now }
{
    !conds.is_empty()
}

// Reads one more condition onto its side, where a word is left.
fn take_next(
    cursor: &mut Words<'_>,
    head: Head,
    left: &mut Vec<Cond>,
    right: &mut Vec<Cond>,
) -> Result<(), Stop>
    ensures goes { (cursor.old ≡ [] → ⊥) → ParsesNext result
        (query_with head left.new.items right.new.items) cursor.new
        (read_from (AtLead (query_with head left.old.items right.old.items)) cursor.old) }
    ensures shorter { IfOk result (λ _. length cursor.new < length cursor.old) }
{
    let has_left = has_any(left.as_slice());
    let has_right = has_any(right.as_slice());
    let Some((side, cond)) = take_sided(cursor, head, has_left, has_right) else {
        return Err(Stop::Syntax);
    };
    put(side, cond, left, right)?;
    Ok(())
}

// Reads the conditions up to the end of the text.
fn take_conditions(
    cursor: &mut Words<'_>,
    head: Head,
    left: &mut Vec<Cond>,
    right: &mut Vec<Cond>,
) -> Result<(), Stop>
    ensures { ParsesRest result (query_with head left.new.items right.new.items) cursor.new
        (read_from (AtLead (query_with head left.old.items right.old.items)) cursor.old) }
{
    while !cursor.is_empty() {
        take_next(cursor, head, left, right)?;
    }
    Ok(())
}

/// Reads a whole text. After a fault the words from the fault on are left.
#[tactic(auto, using(crate::proofs::ReadingLaws::head_on))]
pub fn parse(alloc: Global, cursor: &mut Words<'_>) -> Result<Ast, Stop>
    ensures { ParsesText result cursor.new (read_from AtVerb cursor.old) }
{
    let Some(head) = take_head(cursor) else {
        return Err(Stop::Syntax);
    };
    let mut left = Vec::new(alloc);
    let mut right = Vec::new(alloc);
    take_conditions(cursor, head, &mut left, &mut right)?;
    Ok(tree(head, Conds::from_vec(left), Conds::from_vec(right)))
}
