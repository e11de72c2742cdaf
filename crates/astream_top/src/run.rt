ghost use Rattle.std.specs.Prelude.{◌≡◌, ◌<◌, ◌≤◌, ◌+◌, ◌++◌, ◌^◌, ℕ, [], ◌∷◌, List, length, take, IfOk, IfErr, OnOk};
ghost use Rattle.as_base.specs.declared.config.Config.{Config};
ghost use Rattle.as_outside.specs.declared.entry.Entry.{Entry};
ghost use Rattle.as_outside.specs.declared.entry.Entry.TheVariants.{Pulled, PullFailed};
ghost use Rattle.as_outside.specs.Makes.{Makes, Does};
ghost use Rattle.service.specs.declared.stop.Stop.{Stop};
ghost use Rattle.as_lineform.specs.Lines.{lines, items};
ghost use Rattle.service.specs.Stop.{Continues, Goes};
ghost use Rattle.service.specs.Processor.{broken_in, HasProcessed, IsFinished};
ghost use Rattle.astream_top.specs.Run.{HasTaken, TakesFront, StopsIn, StopsByEnd, IsAt, ended_by, RunEnds, PullsOnce, IsEmptied};

use as_base::NoMemory;
use as_lineform::Lines;
use as_outside::Desk;
use service::{Processor, QueryEngine, Stop};
use std::alloc::Global;

/// How many bytes a pull asks for at most.
const PULL_MAX: usize = 4096;

/// A run over the bytes of a desk: they are cut into lines, and the lines are processed.
#[derive(Drop)]
pub struct Run<E> {
    pub cutter: Lines,
    pub processor: Processor<E>,
}

/// A run over an engine that has taken nothing.
pub fn start<E: QueryEngine + Drop>(alloc: Global, engine: E) -> Result<Run<E>, NoMemory>
    requires { E.stands engine [] }
    ensures taken { IfOk result (λ run. HasTaken E.QueryEngine (E.config engine) run [] []) }
    ensures same { IfOk result (λ run. run.processor.engine ≡ engine) }
{
    Ok(Run {
        cutter: Lines::new(alloc)?,
        processor: Processor::new(alloc, engine),
    })
}

// Takes a line, or a part of one, from the front of the bytes, processes the line, and says how many bytes that was.
fn take_line<E: QueryEngine, D: Desk>(
    run: &mut Run<E>,
    desk: &mut D,
    bytes: &[u8],
) -> Result<usize, Stop>
    requires some { 0 < length bytes.now }
    requires few { E.count run.old.processor.engine < 2 ^ 62 }
    ensures calls { TakesFront E.QueryEngine run.old run.new (D.seen desk.old) (D.seen desk.new) bytes.now result }
    ensures within { IfOk result (λ used. (0 < used) × (used ≤ length bytes.now)) }
    ensures count { OnOk result (E.count run.new.processor.engine ≤ E.count run.old.processor.engine + 1) }
{
    let (used, item) = run.cutter.take(bytes)?;
    match item {
        Some(item) => {
            run.processor.process(desk, item)?;
            Ok(used)
        }
        None => Ok(used),
    }
}

// The same, without copying where the line of a record stands whole at the front.
fn take_front<E: QueryEngine, D: Desk>(
    run: &mut Run<E>,
    desk: &mut D,
    bytes: &[u8],
) -> Result<usize, Stop>
    requires some { 0 < length bytes.now }
    requires few { E.count run.old.processor.engine < 2 ^ 62 }
    ensures calls { TakesFront E.QueryEngine run.old run.new (D.seen desk.old) (D.seen desk.new) bytes.now result }
    ensures within { IfOk result (λ used. (0 < used) × (used ≤ length bytes.now)) }
    ensures count { OnOk result (E.count run.new.processor.engine ≤ E.count run.old.processor.engine + 1) }
{
    match run.cutter.take_record(bytes) {
        Some((used, given)) => {
            run.processor.process_record(desk, &given)?;
            Ok(used)
        }
        None => take_line(run, desk, bytes),
    }
}

// Takes bytes, line after line.
fn take_bytes<E: QueryEngine, D: Desk>(
    run: &mut Run<E>,
    desk: &mut D,
    bytes: &[u8],
) -> Result<(), Stop>
    requires { E.count run.old.processor.engine + length bytes.now < 2 ^ 62 }
    ensures calls { (c : Config) (before : List ℕ) (calls : List Entry) → HasTaken E.QueryEngine c run.old before calls →
        Continues (D.seen desk.old) (D.seen desk.new) calls (Goes result
        (HasTaken E.QueryEngine c run.new (before ++ bytes.now)) (StopsIn c run.new.processor (lines (before ++ bytes.now)))) }
    ensures count { OnOk result (E.count run.new.processor.engine ≤ E.count run.old.processor.engine + length bytes.now) }
{
    let mut start = 0;
    'lines: while start < bytes.len() {
        let used = take_front(run, desk, &bytes[start..])?;
        start += used;
    }
    Ok(())
}

// Processes the last line, which no line feed ends.
fn take_last<E: QueryEngine, D: Desk>(run: &mut Run<E>, desk: &mut D) -> Result<(), Stop>
    requires { E.count run.old.processor.engine < 2 ^ 62 }
    ensures calls { (c : Config) (bytes : List ℕ) (calls : List Entry) → HasTaken E.QueryEngine c run.old bytes calls →
        Continues (D.seen desk.old) (D.seen desk.new) calls (Goes result
        (HasProcessed E.QueryEngine c run.new.processor (items bytes)) (StopsIn c run.new.processor (items bytes))) }
    ensures count { OnOk result (E.count run.new.processor.engine ≤ E.count run.old.processor.engine + 1) }
{
    match run.cutter.finish()? {
        Some(item) => run.processor.process(desk, item),
        None => Ok(()),
    }
}

// Processes the last line and the ends of the streams.
fn end<E: QueryEngine, D: Desk>(run: &mut Run<E>, desk: &mut D) -> Result<(), Stop>
    requires { E.count run.old.processor.engine + 5 ≤ 2 ^ 62 }
    ensures { (c : Config) (bytes : List ℕ) (calls : List Entry) → HasTaken E.QueryEngine c run.old bytes calls →
        Continues (D.seen desk.old) (D.seen desk.new) calls (Goes result
        (IsFinished c run.new.processor.lines (broken_in run.new.processor) (items bytes)) (StopsByEnd c run.new.processor (items bytes))) }
{
    take_last(run, desk)?;
    run.processor.finish(desk)
}

// Pulls into the buffer, and says how many bytes came. Where the pull failed, the run stops.
fn pull<D: Desk>(desk: &mut D, buf: &mut [u8]) -> Result<usize, Stop>
    requires { 0 < length buf.old }
    ensures room { IfOk result (λ k. k ≤ length buf.old) }
    ensures size { length buf.new ≡ length buf.old }
    ensures ok { IfOk result (λ k. Makes (D.seen desk.old) (D.seen desk.new) (Pulled (take k buf.new) ∷ [])) }
    ensures emptied { IfOk result (λ k. k ≡ 0 → IsEmptied (D.seen desk.new)) }
    ensures err { IfErr result (λ stop. (stop ≡ Stop.ReadFault) × Makes (D.seen desk.old) (D.seen desk.new) (PullFailed ∷ [])) }
{
    match desk.pull(buf) {
        Ok(pulled) => Ok(pulled),
        Err(_) => Err(Stop::ReadFault),
    }
}

// Pulls once, and takes the bytes that are within what the limit still allows. 0 is the end of the input.
fn pull_once<E: QueryEngine, D: Desk>(
    run: &mut Run<E>,
    desk: &mut D,
    buf: &mut [u8],
    most: usize,
) -> Result<usize, Stop>
    requires some { 0 < length buf.old }
    requires within { length buf.old ≤ most + 1 }
    requires few { E.count run.old.processor.engine + most < 2 ^ 62 }
    ensures calls { (c : Config) (calls : List Entry) → IsAt E.QueryEngine c run.old calls →
        Does (D.seen desk.old) (D.seen desk.new) (λ more.
        PullsOnce E.QueryEngine c most run.new result calls (calls ++ more)) }
    ensures emptied { (c : Config) (calls : List Entry) → IsAt E.QueryEngine c run.old calls →
        IfOk result (λ k. k ≡ 0 → IsEmptied (D.seen desk.new)) }
    ensures room { IfOk result (λ k. k ≤ most) }
    ensures count { IfOk result (λ k. E.count run.new.processor.engine ≤ E.count run.old.processor.engine + k) }
{
    let pulled = pull(desk, buf)?;
    let within = pulled.min(most);
    take_bytes(run, desk, &buf[..within])?;
    if within < pulled {
        return Err(Stop::TooLong);
    }
    Ok(pulled)
}

/// Pulls until the input ends, at most one byte beyond the limit, and before each pull does all that is due for the whole
/// lines pulled. It says why it stopped before the end, if it did.
pub fn run_all<E: QueryEngine, D: Desk>(
    run: &mut Run<E>,
    desk: &mut D,
    limit: u64,
) -> Result<(), Stop>
    requires small { limit < 2 ^ 61 }
    requires fresh { HasTaken E.QueryEngine (E.config run.old.processor.engine) run.old [] [] }
    requires none { E.count run.old.processor.engine ≡ 0 }
    ensures ended { Does (D.seen desk.old) (D.seen desk.new)
        (RunEnds (E.config run.old.processor.engine) limit run.new.processor (ended_by result (broken_in run.new.processor))) }
    ensures emptied { OnOk result (IsEmptied (D.seen desk.new)) }
{
    let mut buf = [0; PULL_MAX];
    let mut most = limit as usize;
    'pulls: loop {
        // One byte beyond the limit shows that the input is longer.
        let room = PULL_MAX.min(most + 1);
        let pulled = pull_once(run, desk, &mut buf[..room], most)?;
        if pulled == 0 {
            return end(run, desk);
        }
        most -= pulled;
    }
}
