use as_outside::{Status, code};
use std::env::Env;
use std::io::ErrorKind;
use std::process::ExitCode;
use std::{env, io};

/// The words of the call, without the program's name; or how the program ends without them: as for `Usage` where one is
/// not UTF-8, and as for `NoMemory` where there is no memory for them.
pub fn words(rt: &(impl Env + AllocGlobal)) -> Result<Vec<String>, Status> {
    match all_words(rt) {
        Ok(words) => Ok(words),
        Err(e) if e.kind() == ErrorKind::OutOfMemory => Err(Status::NoMemory),
        Err(_) => Err(Status::Usage),
    }
}

// The words of the call, without the program's name.
fn all_words(rt: &(impl Env + AllocGlobal)) -> io::Result<Vec<String>> {
    let mut words = Vec::new(rt.alloc());
    for word in env::args(rt)?.skip(1) {
        words.push(word)?;
    }
    Ok(words)
}

// What standard error says of how a program ended.
fn reason(status: Status) -> &'static str {
    match status {
        Status::Done => "done",
        Status::NoMemory => "no memory",
        Status::Usage => "usage",
        Status::ReadFault => "read fault",
        Status::AnswerFault => "answer fault",
        Status::OutputBroken => "output broken",
        Status::TooLong => "too long",
        Status::JournalFault => "journal fault",
    }
}

/// Ends the program of this name: its exit code, and one line on standard error where not all went well.
pub fn end(rt: &impl Eprint, name: &str, status: Status) -> ExitCode {
    if status != Status::Done {
        let _ = eprintln!(rt; "{name}: {}", reason(status));
    }
    ExitCode::from(code(status))
}
