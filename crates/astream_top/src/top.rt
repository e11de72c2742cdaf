ghost use Rattle.std.specs.Prelude.{true, ◌≡◌, ◌<◌, ◌^◌, ◌⊎◌, ◌↔◌, ℕ, List, [], Some, None, IfOk, map, string_bytes};
ghost use Rattle.as_outside.specs.Makes.{Does};
ghost use Rattle.as_base.specs.Config.{fits};
ghost use Rattle.as_base.specs.declared.config.Config.{Config};
ghost use Rattle.astream_top.specs.Command.{command_of, OnlySays};
ghost use Rattle.astream_top.specs.Explanation.{IsExplained};
ghost use Rattle.astream_top.specs.Generation.{IsGenerated, IsSoaked};
ghost use Rattle.astream_top.specs.declared.command.Command.{Command};
ghost use Rattle.astream_top.specs.Causes.{IsCaused, IsRead, EndsSurely};
ghost use Rattle.astream_top.specs.Ends.{IsEnded};
ghost use Rattle.service.specs.Processor.{broken_in};
ghost use Rattle.astream_top.specs.Run.{ended_by};

use crate::command::{Command, command_of};
use crate::explain::explain;
use crate::generating::generate;
use crate::run::{run_all, start};
use crate::soaking::soak;
use as_base::{Config, NoMemory, Numbers};
use as_outside::{Desk, Gate, Report, Status, SureDesk};
use plain_engine::PlainEngine;
use service::{Broken, Processor, Stop};
use std::alloc::Global;
use std::thread::Threads;

// How a run ends by its outcome and its broken outputs.
fn ended_by(outcome: Result<(), Stop>, broken: &Broken) -> Status
    ensures { result ≡ ended_by outcome broken.now.numbers.items }
{
    match outcome {
        Ok(()) if broken.numbers.is_empty() => Status::Done,
        Ok(()) => Status::OutputBroken,
        Err(Stop::NoMemory) => Status::NoMemory,
        Err(Stop::ReadFault) => Status::ReadFault,
        Err(Stop::AnswerFault) => Status::AnswerFault,
        Err(Stop::TooLong) => Status::TooLong,
    }
}

// A run over the desk for this configuration that takes at most `limit` bytes.
fn run_within<D: Desk>(alloc: Global, desk: &mut D, config: Config, limit: u64) -> Report
    requires small { limit < 2 ^ 61 }
    requires fits { fits config ≡ true }
    ensures ended { Does (D.seen desk.old) (D.seen desk.new) (IsEnded config limit result.status result.lines result.broken) }
    ensures causes { IsCaused result.status result.broken (D.seen desk.old).faults (D.seen desk.new).faults }
    ensures read { (input : List ℕ) → (D.seen desk.old).left ≡ Some input →
        IsRead limit input result.status (D.seen desk.new).left }
    ensures no_usage { result.status ≡ Status.Usage → ⊥ }
{
    let engine = match PlainEngine::new(alloc, config) {
        Ok(engine) => engine,
        Err(NoMemory) => return plain_report(alloc, Status::NoMemory, 0),
    };
    let mut run = match start(alloc, engine) {
        Ok(run) => run,
        Err(NoMemory) => return plain_report(alloc, Status::NoMemory, 0),
    };
    let outcome = run_all(&mut run, desk, limit);
    report(outcome, run.processor)
}

// The report of a run that ended with this outcome.
fn report<E: Drop>(outcome: Result<(), Stop>, processor: Processor<E>) -> Report
    ensures { result ≡ record { status = ended_by outcome (broken_in processor); lines = processor.lines; broken = broken_in processor } }
{
    let status = ended_by(outcome, &processor.broken);
    Report {
        status,
        lines: processor.lines,
        broken: processor.broken.into_numbers(),
    }
}

// A report without a broken output.
fn plain_report(alloc: Global, status: Status, lines: u64) -> Report
    ensures { result ≡ record { status = status; lines = lines; broken = [] } }
{
    Report {
        status,
        lines,
        broken: Numbers::from_vec(Vec::new(alloc)),
    }
}

/// Does what the words ask for over a desk. `run` and its options, how many streams, how many slots, and how many bytes at
/// most: lines are pulled, answered, and queries' rows are put on their outputs, until the input ends. `generate`, with a
/// number and how many lines: these lines are said, the same each time. `soak`, with the same and the options of `run`:
/// such lines are taken as `run` takes them, no row is kept, and what they come to is said in seven lines. `explain` and the
/// words of a query text: what it is over the four streams is said, its canonical text or the word that refuses it. Any
/// other words are `Usage`, and touch nothing. The gate is not called yet.
///
/// The report says how the call ended. After `Done` all that is due was put and said. An output of which a begin or a put
/// failed is broken: it gets no further call and holds a prefix of its text, `broken` lists it by rising number, and the
/// run goes on; at its end `OutputBroken` stands for `Done`. `ReadFault` and `AnswerFault` come exactly where the count of
/// that call's faults rose, and that call is the last one. `TooLong` comes where the byte after the limit was pulled, unless a
/// say failed or there was no memory. `NoMemory` may always come; of the line in hand nothing was begun, put or said then.
/// `JournalFault` never comes. Of a run `lines` is how many lines were taken, of `soak` too, and of `generate` how many were
/// said.
/// Before each pull, all that was due for the lines pulled so far was out, whatever comes of the run.
pub fn astream<R: Threads + Sync, D: Desk, G: Gate>(
    _rt: &R,
    alloc: Global,
    words: &[String],
    desk: &mut D,
    _gate: &G,
) -> Report
    // The words alone decide on `Usage`, which touches nothing.
    ensures usage { (result.status ≡ Status.Usage) ↔ (command_of (map string_bytes words.now) ≡ None) }
    ensures untouched { result.status ≡ Status.Usage → (desk.new ≡ desk.old) × (result.lines ≡ 0) }

    // Over every desk, also one that tells no call: a fault is reported where its count rose, and nowhere else.
    ensures causes { IsCaused result.status result.broken (D.seen desk.old).faults (D.seen desk.new).faults }

    // A run, for the configuration and the limit that its words ask for: what stands by its status, and what stood before
    // each pull.
    ensures ended { (c : Config) (limit : ℕ) → command_of (map string_bytes words.now) ≡ Some (Command.Run c limit) →
        Does (D.seen desk.old) (D.seen desk.new) (IsEnded c limit result.status result.lines result.broken) }

    // Without a fault of a pull or a say the input alone tells how a run ends, or there was no memory.
    ensures read { (c : Config) (limit : ℕ) (input : List ℕ) → command_of (map string_bytes words.now) ≡ Some (Command.Run c limit) →
        (D.seen desk.old).left ≡ Some input → IsRead limit input result.status (D.seen desk.new).left }

    // A soak is one say of what the generated lines come to.
    ensures soaked { (c : Config) (number lines : ℕ) →
        command_of (map string_bytes words.now) ≡ Some (Command.Soak c number lines) →
        Does (D.seen desk.old) (D.seen desk.new) (IsSoaked c number lines result.status result.lines) }

    // Generated lines are said one by one.
    ensures generated { (number lines streams : ℕ) →
        command_of (map string_bytes words.now) ≡ Some (Command.Generate number lines streams) →
        Does (D.seen desk.old) (D.seen desk.new) (IsGenerated number lines streams result.status result.lines) }

    // An explanation is one say, and takes no line.
    ensures explained { (text : List ℕ) → command_of (map string_bytes words.now) ≡ Some (Command.Explain text) →
        Does (D.seen desk.old) (D.seen desk.new) (IsExplained text result.status) × (result.lines ≡ 0) }
{
    match command_of(alloc, words) {
        Ok(Some(Command::Run { config, limit })) => run_within(alloc, desk, config, limit),
        Ok(
            Some(
                Command::Soak {
                    config,
                    number,
                    lines,
                },
            ),
        ) => {
            let (status, taken) = soak(alloc, desk, config, number, lines);
            plain_report(alloc, status, taken)
        }
        Ok(
            Some(
                Command::Generate {
                    number,
                    lines,
                    streams,
                },
            ),
        ) => {
            let (status, said) = generate(alloc, desk, number, lines, streams);
            plain_report(alloc, status, said)
        }
        Ok(Some(Command::Explain(text))) => {
            let status = explain(alloc, desk, &text);
            plain_report(alloc, status, 0)
        }
        Ok(None) => plain_report(alloc, Status::Usage, 0),
        Err(NoMemory) => plain_report(alloc, Status::NoMemory, 0),
    }
}

/// What `astream` comes to over an outside that never fails, for this input: nothing is kept of what is said and put.
/// `Usage` comes exactly by the words. A run is `Done` where the input is within its limit, and `TooLong` where it is longer;
/// else there was no memory. What only says something is `Done`, or there was no memory.
pub fn rehearse<R: Threads + Sync, G: Gate>(
    rt: &R,
    alloc: Global,
    words: &[String],
    input: Vec<u8>,
    gate: &G,
) -> Result<Report, NoMemory>
    ensures usage { IfOk result (λ report. (report.status ≡ Status.Usage) ↔ (command_of (map string_bytes words.now) ≡ None)) }
    ensures ended { IfOk result (λ report. (c : Config) (limit : ℕ) → command_of (map string_bytes words.now) ≡ Some (Command.Run c limit) →
        EndsSurely limit input.items report.status) }
    ensures said { IfOk result (λ report. (command : Command) → command_of (map string_bytes words.now) ≡ Some command →
        OnlySays command → (report.status ≡ Status.Done) ⊎ (report.status ≡ Status.NoMemory)) }
{
    let mut desk = SureDesk::new(input)?;
    Ok(astream(rt, alloc, words, &mut desk, gate))
}

#[cfg(test)]
mod tests;
