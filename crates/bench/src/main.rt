//! The program `bench`: does a named work of a size on made inputs, and prints a checksum of what came of it. It is timed from
//! outside.
#![tactic(auto)]

mod made;
mod meet;
mod queries;
mod select;
mod sums;
mod tag;
mod work;

use as_base::NoMemory;
use as_outside::Status;
use as_real::{end, words};
use std::alloc::Global;
use std::process::ExitCode;
use work::{Name, Work};

// What came of the work.
fn checksum(work: &Work, alloc: Global) -> Result<u64, NoMemory> {
    match work.name {
        Name::Select => select::by_columns(work, alloc),
        Name::SelectPlain => select::by_tests(work, alloc),
        Name::Set => select::by_sets(work, alloc),
        Name::Sum => sums::by_aggs(work, alloc),
        Name::SumPlain => sums::by_maps(work, alloc),
        Name::Window => sums::windows_by_aggs(work, alloc),
        Name::WindowPlain => sums::windows_by_folds(work, alloc),
        Name::Meet => meet::by_joins(work, meet::FEW, alloc),
        Name::MeetPlain => meet::by_hash_joins(work, meet::FEW, alloc),
        Name::MeetMany => meet::by_joins(work, meet::MANY, alloc),
        Name::MeetManyPlain => meet::by_hash_joins(work, meet::MANY, alloc),
        Name::Tag => tag::by_selector(work, alloc),
    }
}

// Does each work that the words name, and says its checksum.
fn do_all(rt: &(impl Print + AllocGlobal), words: &[String]) -> Status {
    let mut rest = words;
    while let [name, slots, records, others @ ..] = rest {
        let Some(work) = Work::of(name, slots, records) else {
            return Status::Usage;
        };
        let Ok(sum) = checksum(&work, rt.alloc()) else {
            return Status::NoMemory;
        };
        if println!(rt; "{name} {slots} {records} {sum}").is_err() {
            return Status::AnswerFault;
        }
        rest = others;
    }
    if rest.is_empty() {
        Status::Done
    } else {
        Status::Usage
    }
}

fn main(rt: HostRuntime) -> ExitCode {
    let status = match words(&rt) {
        Ok(words) => do_all(&rt, &words),
        Err(status) => status,
    };
    end(&rt, "bench", status)
}
