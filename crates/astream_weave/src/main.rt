//! The program `astream_weave`: the service over five feeds and a journal, all of them files of the current folder.
#![tactic(auto)]

ghost use Rattle.std.specs.Prelude.{◌≡◌, ◌++◌, ◌∷◌, [], length, IfOk, OnOk};

#[cfg(test)]
mod replay;

use as_base::NoMemory;
use as_outside::{FreeGate, Status};
use as_real::{RealShelf, RealSource, end, words};
use std::alloc::Global;
use std::process::ExitCode;
use std::rt::Files;
use weave_top::weave;

// The five feeds.
fn feeds<R: Files>(rt: &R, alloc: Global) -> Result<Vec<RealSource<'_, R>>, NoMemory>
    ensures { IfOk result (λ feeds. length feeds.items ≡ 5) }
{
    let mut feeds = Vec::new(alloc);
    feeds.push(RealSource::new(rt, alloc, "feed-1.txt")?)?;
    feeds.push(RealSource::new(rt, alloc, "feed-2.txt")?)?;
    feeds.push(RealSource::new(rt, alloc, "feed-3.txt")?)?;
    feeds.push(RealSource::new(rt, alloc, "feed-4.txt")?)?;
    feeds.push(RealSource::new(rt, alloc, "feed-5.txt")?)?;
    Ok(feeds)
}

fn main(rt: HostRuntime) -> ExitCode {
    let status = match (words(&rt), feeds(&rt, rt.alloc())) {
        (Ok(words), Ok(feeds)) => {
            let mut shelf = RealShelf::new(&rt, rt.alloc());
            weave(&rt, rt.alloc(), &words, feeds, &mut shelf, &FreeGate).status
        }
        (Err(status), _) => status,
        (Ok(_), Err(NoMemory)) => Status::NoMemory,
    };
    end(&rt, "astream_weave", status)
}
