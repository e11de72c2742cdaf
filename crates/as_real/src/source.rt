ghost use Rattle.std.specs.Prelude.{◌≡◌, None, IfOk};

use crate::bytes::read_some;
use crate::fault::raise;
use as_base::NoMemory;
use as_outside::{Failed, Source};
use std::alloc::Global;
use std::fs;
use std::rt::Files;

/// A source that reads one file, or one named pipe. Its first pull opens it, in the thread that pulls; a named pipe is
/// opened once it has a writer. Where it cannot be opened the pull fails, and each later pull tries to open it again.
///
/// It tells no content, and how often pulls failed; that count stays at its last value, 2^64 - 1.
#[derive(Drop)]
pub struct RealSource<'a, R: Files> {
    rt: &'a R,
    path: String,
    // the file, once a pull has opened it
    file: Option<R::File>,
    faults: u64,
}

impl<'a, R: Files> RealSource<'a, R> {
    /// A source of the file at this path, in the current folder where it is relative. No file is touched. `NoMemory`
    /// is the only refusal: there was none for the path.
    pub fn new(rt: &'a R, alloc: Global, path: &str) -> Result<Self, NoMemory>
        ensures left { IfOk result (λ s. (⟦<RealSource<'a, R> as Source>⟧.seen s).left ≡ None) }
        ensures faults { IfOk result (λ s. (⟦<RealSource<'a, R> as Source>⟧.seen s).faults ≡ 0) }
    {
        Ok(RealSource {
            rt,
            path: String::from_str(alloc, path)?,
            file: None,
            faults: 0,
        })
    }
}

impl<R: Files> Source for RealSource<'_, R> {
    ghost seen = { λ s. record {
      left = None;
      faults = s.faults;
    } };

    fn pull(&mut self, buf: &mut [u8]) -> Result<usize, Failed> {
        if self.file.is_none() {
            self.file = fs::open(self.rt, self.path.as_str()).ok();
        }
        let Some(file) = &mut self.file else {
            return Err(raise(&mut self.faults));
        };
        match read_some(file, buf) {
            Ok(read) => Ok(read),
            Err(_) => Err(raise(&mut self.faults)),
        }
    }
}
