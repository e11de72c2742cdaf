ghost use Rattle.std.specs.Prelude.{◌≡◌, [], false};

use crate::Entry;
use std::alloc::Global;

/// What became of an entry that a log was given.
#[derive(Clone, Copy, Debug, PartialEq, Eq)]
pub enum Kept {
    /// It was added.
    Added,
    /// The log had been lost before.
    Untold,
    /// There was no memory for it, so the log is lost from here on.
    Lost,
}

/// The calls on a desk in memory, in order, until one could not be kept.
#[derive(Debug, Drop)]
pub struct CallLog {
    pub entries: Vec<Entry>,
    pub lost: bool,
}

impl CallLog {
    ghost use Rattle.as_outside.specs.CallLog.{IsKept};

    /// An empty log.
    pub fn new(alloc: Global) -> CallLog
        ensures empty { result.entries.items ≡ [] }
        ensures told { result.lost ≡ false }
    {
        CallLog {
            entries: Vec::new(alloc),
            lost: false,
        }
    }

    /// Adds an entry at the end; `None` stands for one that there was no memory to make.
    pub fn keep(&mut self, entry: Option<Entry>) -> Kept
        ensures { IsKept result entry self.old self.new }
    {
        if self.lost {
            return Kept::Untold;
        }
        let Some(entry) = entry else {
            self.lost = true;
            return Kept::Lost;
        };
        match self.entries.push(entry) {
            Ok(()) => Kept::Added,
            Err(_) => {
                self.lost = true;
                Kept::Lost
            }
        }
    }
}
