//! The file of output n, `query-N.txt` of the current folder. Each call prints its name into a buffer of the caller's,
//! and takes no memory for it where the buffer is big enough. No file is kept open.
ghost use Rattle.std.specs.Prelude.{◌≡◌, OnOk, codes, decimal, ◌++◌, string_bytes};

use crate::bytes::write_whole;
use as_outside::Failed;
use std::alloc::AllocError;
use std::fs;
use std::fs::OpenOptions;
use std::rt::Files;

// Prints the name of the file of output n in place of what the buffer held.
fn print_name(name: &mut String, n: u64) -> Result<(), AllocError>
    ensures { OnOk result (string_bytes name.new ≡ codes "query-" ++ decimal n ++ codes ".txt") }
{
    name.clear();
    write!(name, "query-{n}.txt")
}

/// Makes the file of output `n` anew, and leaves it empty. `Failed` is the system's refusal or want of memory for the
/// name; nothing was added to the file.
pub fn make<R: Files>(rt: &R, name: &mut String, n: u64) -> Result<(), Failed> {
    if print_name(name, n).is_err() {
        return Err(Failed);
    }
    match fs::create(rt, name.as_str()) {
        Ok(_file) => Ok(()),
        Err(_) => Err(Failed),
    }
}

/// Appends the bytes to the file of output `n`, which stands already. `Failed` is the system's refusal, as where the
/// file was removed, or want of memory for the name; a prefix of the bytes was appended.
pub fn append<R: Files>(rt: &R, name: &mut String, n: u64, bytes: &[u8]) -> Result<(), Failed> {
    if print_name(name, n).is_err() {
        return Err(Failed);
    }
    match OpenOptions::new().append(true).open(rt, name.as_str()) {
        Ok(mut file) => write_whole(&mut file, bytes),
        Err(_) => Err(Failed),
    }
}
