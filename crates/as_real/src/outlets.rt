ghost use Rattle.std.specs.Prelude.{◌≡◌, ℕ, List, [], ◌∷◌, OnOk, OnErr};
ghost use Rattle.as_outside.specs.Prefix.{IsPrefix};
ghost use Rattle.as_outside.specs.Makes.{Makes};
ghost use Rattle.as_outside.specs.declared.entry.Entry.TheVariants.{PullFailed, Said, SayFailed, NoteFailed, Begun, BeginFailed, Put, PutFailed};
ghost use Rattle.as_real.specs.OutputFaults.{faults_of};
ghost use Rattle.as_real.specs.Outlets.{seen_of};

use crate::bytes::write_whole;
use crate::fault::raise;
use crate::output_faults::OutputFaults;
use crate::output_file::{append, make};
use as_outside::Failed;
use std::alloc::Global;
use std::io;
use std::rt::Files;

/// What a desk and a shelf have in common: how answers and outputs go out, and how often calls failed. A count stays at
/// its last value, 2^64 - 1.
#[derive(Drop)]
pub struct Outlets {
    // a buffer for the name of the file in hand
    name: String,
    says: u64,
    notes: u64,
    pulls: u64,
    outputs: OutputFaults,
}

impl Outlets {
    /// Nothing has failed. No file is touched, and no memory is taken.
    pub fn new(alloc: Global) -> Outlets
        ensures says { result.says ≡ 0 }
        ensures notes { result.notes ≡ 0 }
        ensures pulls { result.pulls ≡ 0 }
        ensures outputs { (n : ℕ) → faults_of result.outputs n ≡ 0 }
    {
        Outlets {
            name: String::new(alloc),
            says: 0,
            notes: 0,
            pulls: 0,
            outputs: OutputFaults::new(alloc),
        }
    }

    /// Writes to standard output. After `Failed` a prefix of the bytes was written, and the fault is counted.
    pub fn say<R: Print>(&mut self, rt: &R, bytes: &[u8]) -> Result<(), Failed>
        ensures ok { OnOk result (Makes (seen_of self.old) (seen_of self.new) (Said bytes.now ∷ [])) }
        ensures err { OnErr result ((front : List ℕ) × IsPrefix front bytes.now ×
            Makes (seen_of self.old) (seen_of self.new) (SayFailed front ∷ [])) }
    {
        match write_whole(&mut io::writer(rt), bytes) {
            Ok(()) => Ok(()),
            Err(_) => Err(raise(&mut self.says)),
        }
    }

    /// Makes the file of output `n` anew. After `Failed` nothing was added to it, and the fault is counted.
    #[tactic(auto, using(crate::proofs::FaultLaws::begin_apart, crate::proofs::FaultLaws::begin_rose))]
    pub fn begin<R: Files>(&mut self, rt: &R, n: u64) -> Result<(), Failed>
        ensures ok { OnOk result (Makes (seen_of self.old) (seen_of self.new) (Begun n ∷ [])) }
        ensures err { OnErr result (Makes (seen_of self.old) (seen_of self.new) (BeginFailed n ∷ [])) }
    {
        match make(rt, &mut self.name, n) {
            Ok(()) => Ok(()),
            Err(failed) => {
                self.outputs.raise(n);
                Err(failed)
            }
        }
    }

    /// Appends to the file of output `n`. After `Failed` a prefix of the bytes was appended, and the fault is counted.
    pub fn put<R: Files>(&mut self, rt: &R, n: u64, bytes: &[u8]) -> Result<(), Failed>
        ensures ok { OnOk result (Makes (seen_of self.old) (seen_of self.new) (Put n bytes.now ∷ [])) }
        ensures err { OnErr result ((front : List ℕ) × IsPrefix front bytes.now ×
            Makes (seen_of self.old) (seen_of self.new) (PutFailed n front ∷ [])) }
    {
        match append(rt, &mut self.name, n, bytes) {
            Ok(()) => Ok(()),
            Err(failed) => {
                self.outputs.raise(n);
                Err(failed)
            }
        }
    }

    /// Counts a failed note. No log tells how much of it was written, so the clause names none of its bytes.
    pub fn note_failed(&mut self) -> Failed
        ensures { Makes (seen_of self.old) (seen_of self.new) (NoteFailed [] ∷ []) }
    {
        raise(&mut self.notes)
    }

    /// Counts a failed pull.
    pub fn pull_failed(&mut self) -> Failed
        ensures { Makes (seen_of self.old) (seen_of self.new) (PullFailed ∷ []) }
    {
        raise(&mut self.pulls)
    }
}
