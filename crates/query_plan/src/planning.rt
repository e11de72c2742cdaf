ghost use Rattle.std.specs.Prelude.{◌≡◌, ◌≤◌, IfOk};
ghost use Rattle.query_plan.specs.Planning.{IsTree, is_stranger, names_stranger, names_twin, window_of, plan, word_of_misfit, plan_of};
ghost use Rattle.as_base.specs.Canonical.{IsCanonical, FitsPlan};

use crate::limits::bounds_of;
use as_base::{NoMemory, Plan, StreamId, Text, WinSpec, Word};
use query_text::{Ast, TextFault, read};
use std::alloc::Global;

/// Why a tree has no plan.
#[derive(Clone, Copy, Debug, PartialEq, Eq)]
pub enum Misfit {
    /// A named stream is not configured.
    Stranger,
    /// A join names one stream twice.
    Twin,
    /// The windows' numbers break a limit.
    Window,
}

// The stream is not among so many first ones.
fn is_stranger(stream: StreamId, streams: u8) -> bool
    ensures { result ≡ is_stranger streams stream }
{
    stream as u8 >= streams
}

// A stream is named that is not among so many first ones.
fn names_stranger(ast: &Ast, streams: u8) -> bool
    ensures { result ≡ names_stranger streams ast.now }
{
    is_stranger(ast.left, streams) || is_stranger(ast.right.unwrap_or(ast.left), streams)
}

// A second stream is named, and it is the first.
fn names_twin(ast: &Ast) -> bool
    ensures { result ≡ names_twin ast.now }
{
    ast.right == Some(ast.left)
}

// The windows of a query; one tick each where it names none.
fn window_of(ast: &Ast) -> WinSpec
    ensures { result ≡ window_of ast.now }
{
    let (size, slide) = ast.win.unwrap_or((1, 1));
    WinSpec { size, slide }
}

/// The canonical plan of a query, where the first `streams` of a, b, c, d are configured, from 2 to 4 of them; or the
/// first of the misfits that holds, in the order `Stranger`, `Twin`, `Window`. Takes no memory.
pub fn plan(ast: &Ast, streams: u8) -> Result<Plan, Misfit>
    requires tree { IsTree ast.now }
    requires streams { (2 ≤ streams) × (streams ≤ 4) }
    ensures { result ≡ plan streams ast.now }
{
    if names_stranger(ast, streams) {
        return Err(Misfit::Stranger);
    }
    if names_twin(ast) {
        return Err(Misfit::Twin);
    }
    let win = window_of(ast);
    if !win.fits() {
        return Err(Misfit::Window);
    }
    Ok(Plan {
        kind: ast.kind,
        group: ast.group,
        left: ast.left,
        right: ast.right.unwrap_or(ast.left),
        left_bounds: bounds_of(ast.left_conds.as_slice()),
        right_bounds: bounds_of(ast.right_conds.as_slice()),
        win,
    })
}

// The word that refuses a query which does not fit.
fn word_of_misfit(misfit: Misfit) -> Word
    ensures { result ≡ word_of_misfit misfit }
{
    match misfit {
        Misfit::Stranger => Word::Stranger,
        Misfit::Twin => Word::Twin,
        Misfit::Window => Word::Window,
    }
}

/// The canonical plan of a query text, where the first `streams` of a, b, c, d are configured, from 2 to 4 of them; or
/// the word that refuses it: `Syntax` with the place of its fault, from 1, or else the first of `Stranger`, `Twin` and
/// `Window` that holds. The one fault is `NoMemory`.
#[tactic(auto, using(crate::proofs::PlanLaws::plans_are_canonical))]
pub fn plan_of(alloc: Global, text: &Text, streams: u8) -> Result<Result<Plan, Word>, NoMemory>
    requires { (2 ≤ streams) × (streams ≤ 4) }
    ensures value { IfOk result (λ planned. planned ≡ plan_of streams text.now) }
    ensures canonical { IfOk result (λ planned. IfOk planned (λ p. IsCanonical p × FitsPlan p)) }
{
    match read(alloc, text) {
        Ok(ast) => Ok(plan(&ast, streams).map_err(word_of_misfit)),
        Err(TextFault::Syntax(place)) => Ok(Err(Word::Syntax(place))),
        Err(TextFault::NoMemory) => Err(NoMemory),
    }
}
