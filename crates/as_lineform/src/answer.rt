ghost use Rattle.std.specs.Prelude.{◌++◌, codes, decimal};
ghost use Rattle.as_words.specs.Appends.{Appends, AppendsPrefix};
ghost use Rattle.as_lineform.specs.Answer.{word_text, answer_text};

use as_base::{Answer, NoMemory, Word};
use as_words::{append_decimal, whole_or_none};
use std::alloc::AllocError;

/// Appends the text of an answer, with its line feed. The one refusal is `NoMemory`, after which `out` is unchanged.
pub fn answer_text(a: &Answer, out: &mut Vec<u8>) -> Result<(), NoMemory>
    ensures { Appends result out.old.items out.new.items (answer_text a.now) }
{
    let start = out.len();
    let appended = append_answer(a, out);
    Ok(whole_or_none(appended, start, out)?)
}

// Appends the text of an answer, or a prefix of it.
fn append_answer(a: &Answer, out: &mut Vec<u8>) -> Result<(), AllocError>
    ensures { AppendsPrefix result out.old.items out.new.items (answer_text a.now) }
{
    append_decimal(a.line, out)?;
    out.extend_from_slice(b" ")?;
    append_word(a.word, out)?;
    out.extend_from_slice(b"\n")
}

/// Appends the text of a word, as `full` or `syntax 3`. After want of memory `out` may have grown by a prefix of it.
pub fn append_word(word: Word, out: &mut Vec<u8>) -> Result<(), AllocError>
    ensures { AppendsPrefix result out.old.items out.new.items (word_text word) }
{
    match word {
        Word::Created { n, at } => append_event(b"created ", n, at, out),
        Word::Deleted { n, at } => append_event(b"deleted ", n, at, out),
        Word::Long => out.extend_from_slice(b"long"),
        Word::Form => out.extend_from_slice(b"form"),
        Word::Stranger => out.extend_from_slice(b"stranger"),
        Word::Ended => out.extend_from_slice(b"ended"),
        Word::Late => out.extend_from_slice(b"late"),
        Word::Back => out.extend_from_slice(b"back"),
        Word::Syntax(k) => append_syntax(k, out),
        Word::Twin => out.extend_from_slice(b"twin"),
        Word::Window => out.extend_from_slice(b"window"),
        Word::Full => out.extend_from_slice(b"full"),
        Word::Unknown => out.extend_from_slice(b"unknown"),
    }
}

// Appends what happened to a query and when, or a prefix of it.
fn append_event(event: &[u8], n: u64, at: u64, out: &mut Vec<u8>) -> Result<(), AllocError>
    ensures { AppendsPrefix result out.old.items out.new.items (event.now ++ decimal n ++ codes " at " ++ decimal at) }
{
    out.extend_from_slice(event)?;
    append_decimal(n, out)?;
    out.extend_from_slice(b" at ")?;
    append_decimal(at, out)
}

// Appends where a query text is outside the grammar, or a prefix of it.
fn append_syntax(k: u32, out: &mut Vec<u8>) -> Result<(), AllocError>
    ensures { AppendsPrefix result out.old.items out.new.items (codes "syntax " ++ decimal k) }
{
    out.extend_from_slice(b"syntax ")?;
    append_decimal(u64::from(k), out)
}
