ghost use Rattle.std.specs.Prelude.{true, ◌≡◌, ◌≤◌, [], IfOk, OnOk};
ghost use Rattle.as_base.specs.Config.{fits};
ghost use Rattle.as_base.specs.declared.config.Config.{Config};
ghost use Rattle.as_outside.specs.Makes.{Does};
ghost use Rattle.soak.specs.Soaked.{items_of, soak_text, HasSoaked};
ghost use Rattle.astream_top.specs.Causes.{IsCaused};
ghost use Rattle.astream_top.specs.Generation.{IsSoaked};

use crate::says::say_once;
use as_base::{Config, NoMemory};
use as_outside::{Desk, Status};
use plain_engine::PlainEngine;
use service::QueryEngine;
use soak::{Soak, append_soaked};
use std::alloc::Global;

// Takes the lines and the ends that follow them, and makes the text of what they come to.
fn soaked<E: QueryEngine>(
    alloc: Global,
    soak: &mut Soak<E>,
    number: u64,
    lines: u64,
    streams: u8,
) -> Result<Vec<u8>, NoMemory>
    requires lines { lines ≤ 10000000 }
    requires streams { (2 ≤ streams) × (streams ≤ 4) }
    requires fresh { E.count soak.old.engine ≡ 0 }
    requires none { soak.old.lines ≡ 0 }
    ensures text { (c : Config) → HasSoaked E.QueryEngine c soak.old [] →
        IfOk result (λ text. text.items ≡ soak_text c (items_of number lines streams)) }
    ensures all { OnOk result (soak.new.lines ≡ lines) }
    ensures most { soak.new.lines ≤ lines }
{
    soak.take_lines(alloc, number, lines, streams)?;
    soak.end_all()?;
    let mut text = Vec::new(alloc);
    append_soaked(soak.lines, &soak.tally, &mut text)?;
    Ok(text)
}

/// Takes the first lines, at most 10,000,000, that come of the number through an engine of this configuration, keeps none
/// of the rows, and says what they come to. It tells how it ended, and how many lines were taken: `Done`, `AnswerFault`
/// where the say failed, or `NoMemory`, after which nothing was said.
pub fn soak<D: Desk>(
    alloc: Global,
    desk: &mut D,
    config: Config,
    number: u64,
    lines: u64,
) -> (Status, u64)
    requires fits { fits config ≡ true }
    requires lines { lines ≤ 10000000 }
    ensures causes { IsCaused result.0 [] (D.seen desk.old).faults (D.seen desk.new).faults }
    ensures said { Does (D.seen desk.old) (D.seen desk.new) (IsSoaked config number lines result.0 result.1) }
{
    let engine = match PlainEngine::new(alloc, config) {
        Ok(engine) => engine,
        Err(NoMemory) => return (Status::NoMemory, 0),
    };
    let mut soak = Soak::new(engine);
    match soaked(alloc, &mut soak, number, lines, config.streams) {
        Ok(text) => (say_once(desk, &text), soak.lines),
        Err(NoMemory) => (Status::NoMemory, soak.lines),
    }
}
