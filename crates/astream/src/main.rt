//! The program `astream`: the service over standard input, standard output and files of the current folder.
#![tactic(auto)]

use as_outside::FreeGate;
use as_real::{RealDesk, end, words};
use astream_top::astream;
use std::process::ExitCode;

fn main(rt: HostRuntime) -> ExitCode {
    let status = match words(&rt) {
        Ok(words) => {
            let mut desk = RealDesk::new(&rt, rt.alloc());
            astream(&rt, rt.alloc(), &words, &mut desk, &FreeGate).status
        }
        Err(status) => status,
    };
    end(&rt, "astream", status)
}
