ghost use Rattle.std.specs.Prelude.{◌≡◌, ◌≤◌, ◌+◌, ◌↔◌, ℕ, List, IfOk, IfErr};
ghost use Rattle.query_text.specs.Spelling.{IsTreeOf, IsFault, IsSyntax};
ghost use Rattle.query_text.specs.Reading.{text_words, read_text, IsPlace};

use crate::ast::{Ast, TextFault};
use crate::cursor::text_words;
use crate::parse::{Stop, parse};
use as_base::Text;
use std::alloc::Global;

// The place, from 1, of the word after which so many of all words are left, with it.
fn fault_place(total: usize, left: usize) -> u32
    requires within { left ≤ total }
    requires small { total ≤ 4090 }
    ensures { result + left ≡ total + 1 }
{
    (total - left) as u32 + 1
}

/// Reads a text as the one tree that it spells. Where there is none, the fault is `Syntax` with the place of the first
/// word that no text has there, from 1, or one more than the number of words where the text ends too early. `NoMemory`
/// comes where there is no memory for the conditions.
#[tactic(auto, using(crate::proofs::FaultLaws::left_short, crate::proofs::TextLaws::words_bound))]
pub fn read(alloc: Global, text: &Text) -> Result<Ast, TextFault>
    ensures tree { IfOk result (λ ast. IsTreeOf ast (text_words text.now)) }
    ensures fault { IfErr result (IsFault (text_words text.now)) }
    ensures value { IfOk result (λ ast. read_text text.now ≡ Ok ast) }
    ensures place { IfErr result (IsPlace (read_text text.now)) }
{
    let mut cursor = text_words(text.as_slice());
    let total = cursor.count();
    match parse(alloc, &mut cursor) {
        Ok(ast) => Ok(ast),
        Err(Stop::NoMemory) => Err(TextFault::NoMemory),
        Err(Stop::Syntax) => {
            let left = cursor.count();
            Err(TextFault::Syntax(fault_place(total, left)))
        }
    }
}

/// A text spells the tree that `read_text` tells, and no other.
pub fn texts_have_one_tree()
    ensures { (text : List ℕ) (ast : Ast) → IsTreeOf ast (text_words text) ↔ (read_text text ≡ Ok ast) }
{}

/// A text is outside the grammar from the place that `read_text` tells, and from no other.
pub fn faults_have_one_place()
    ensures { (text : List ℕ) (k : ℕ) → IsSyntax k (text_words text) ↔ (read_text text ≡ Err k) }
{}
