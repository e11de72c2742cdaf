ghost use Rattle.std.specs.Prelude.{◌≡◌, ◌≤◌, [], OnOk};
ghost use Rattle.as_outside.specs.Makes.{Does};
ghost use Rattle.astream_top.specs.Causes.{IsCaused};
ghost use Rattle.astream_top.specs.Generation.{ended_line, IsGenerated};
ghost use Rattle.astream_top.specs.Says.{SaysOnce};

use crate::says::say_once;
use as_base::NoMemory;
use as_outside::{Desk, Status};
use generate::line;
use std::alloc::Global;

// Writes line i, with its line feed, in the place of what was there.
fn write_line(number: u64, i: u64, streams: u8, out: &mut Vec<u8>) -> Result<(), NoMemory>
    requires line { i ≤ 10000000 }
    requires streams { (2 ≤ streams) × (streams ≤ 4) }
    ensures { OnOk result (out.new.items ≡ ended_line number streams i) }
{
    out.clear();
    line(number, i, streams, out)?;
    out.push(b'\n')?;
    Ok(())
}

// Says line i, with its line feed.
fn say_line<D: Desk>(desk: &mut D, number: u64, i: u64, streams: u8, text: &mut Vec<u8>) -> Status
    requires line { i ≤ 10000000 }
    requires streams { (2 ≤ streams) × (streams ≤ 4) }
    ensures causes { IsCaused result [] (D.seen desk.old).faults (D.seen desk.new).faults }
    ensures said { Does (D.seen desk.old) (D.seen desk.new) (SaysOnce (ended_line number streams i) result) }
{
    match write_line(number, i, streams, text) {
        Ok(()) => say_once(desk, text),
        Err(NoMemory) => Status::NoMemory,
    }
}

/// Says the first lines, at most 10,000,000, that come of the number over the first streams, 2 to 4: each with its line
/// feed, by a call of its own. It tells how it ended, and how many lines were said: `Done` after all, `AnswerFault` where a
/// say failed, of which a prefix of its line was said, and `NoMemory` between two lines.
pub fn generate<D: Desk>(
    alloc: Global,
    desk: &mut D,
    number: u64,
    lines: u64,
    streams: u8,
) -> (Status, u64)
    requires lines { lines ≤ 10000000 }
    requires streams { (2 ≤ streams) × (streams ≤ 4) }
    ensures causes { IsCaused result.0 [] (D.seen desk.old).faults (D.seen desk.new).faults }
    ensures said { Does (D.seen desk.old) (D.seen desk.new) (IsGenerated number lines streams result.0 result.1) }
{
    let mut text = Vec::new(alloc);
    let mut said = 0;
    while said < lines {
        match say_line(desk, number, said + 1, streams, &mut text) {
            Status::Done => said += 1,
            status => return (status, said),
        }
    }
    (Status::Done, said)
}
