ghost use Rattle.std.specs.Prelude.{◌≡◌, [], IfOk};
ghost use Rattle.as_outside.specs.Makes.{Does};
ghost use Rattle.astream_top.specs.Explanation.{explanation, IsExplained};
ghost use Rattle.astream_top.specs.Causes.{IsCaused};

use crate::says::say_once;
use as_base::{NoMemory, Text};
use as_lineform::append_word;
use as_outside::{Desk, Status};
use query_plan::{explain as append_canonical, plan_of};
use std::alloc::Global;

/// How many streams there are: a text is explained over all of them.
const STREAMS: u8 = 4;

// What a query text is over the four streams: its canonical text, or the word that refuses it, and a line feed.
fn explanation(alloc: Global, text: &Text) -> Result<Vec<u8>, NoMemory>
    ensures { IfOk result (λ said. said.items ≡ explanation text.now) }
{
    let mut said = Vec::new(alloc);
    match plan_of(alloc, text, STREAMS)? {
        Ok(plan) => append_canonical(&plan, &mut said)?,
        Err(word) => append_word(word, &mut said)?,
    }
    said.push(b'\n')?;
    Ok(said)
}

/// Says what a query text is over the four streams. `Done`, or `AnswerFault` where the say failed, or `NoMemory`, after
/// which nothing was said.
#[tactic(auto, using(crate::proofs::CauseLaws::said_causes, crate::proofs::CauseLaws::unsaid_causes))]
pub fn explain<D: Desk>(alloc: Global, desk: &mut D, text: &Text) -> Status
    ensures causes { IsCaused result [] (D.seen desk.old).faults (D.seen desk.new).faults }
    ensures said { Does (D.seen desk.old) (D.seen desk.new) (IsExplained text.now result) }
{
    match explanation(alloc, text) {
        Ok(said) => say_once(desk, &said),
        Err(NoMemory) => Status::NoMemory,
    }
}
