ghost use Rattle.std.specs.Prelude.{◌≡◌, ◌+◌, ◌<◌, ◌++◌, [], ◌∷◌, ℕ, List, length, IfErr, OnOk, OnErr};
ghost use Rattle.std.specs.List.{AllByRecursion};
ghost use Rattle.std.specs.Option.{option_to_list};
ghost use Rattle.as_words.specs.Prefix.{IsPrefix};
ghost use Rattle.as_base.specs.Times.{times};
ghost use Rattle.as_base.specs.declared.config.Config.{Config};
ghost use Rattle.as_base.specs.declared.item.Item.{Item};
ghost use Rattle.as_outside.specs.declared.entry.Entry.{Entry};
ghost use Rattle.as_outside.specs.declared.entry.Entry.TheVariants.{Said, SayFailed};
ghost use Rattle.as_outside.specs.Makes.{Makes};
ghost use Rattle.session.specs.Book.{numbers};
ghost use Rattle.session.specs.View.{text_of};
ghost use Rattle.session.specs.Outcome.{created, Adds};
ghost use Rattle.service.specs.declared.stop.Stop.{Stop};
ghost use Rattle.service.specs.Broken.{HasRoom, TakesRoom};
ghost use Rattle.service.specs.Served.{HasServed, with_pieces};
ghost use Rattle.service.specs.Stop.{Continues, Goes, IsCutShort};

use crate::broken::Broken;
use crate::stop::Stop;
use as_base::{Answer, Fed, Piece, Word};
use as_outside::Shelf;

/// Makes the calls on outputs that an item brings about: begins the output of a query that its answer tells the creation
/// of, and puts its pieces on their outputs. A call that fails breaks its output, which gets no further call.
pub fn deliver<S: Shelf>(shelf: &mut S, broken: &mut Broken, fed: &Fed)
    requires { HasRoom broken.old (length fed.now.pieces + 1) }
    ensures { (c : Config) (h h' : List Item) (spoken : List ℕ) (calls : List Entry) →
        HasServed (numbers c h) (text_of c h) spoken broken.old.numbers.items calls →
        Adds c h h' (created fed.now.answer) fed.now.pieces →
        Continues (S.seen shelf.old) (S.seen shelf.new) calls
        (HasServed (numbers c h') (text_of c h') spoken broken.new.numbers.items) }
{
    begin_created(shelf, broken, fed.answer);
    put_all(shelf, broken, fed.pieces.as_slice());
}

// Begins the output of the query that the answer tells the creation of, if it does.
fn begin_created<S: Shelf>(shelf: &mut S, broken: &mut Broken, answer: Option<Answer>)
    requires { HasRoom broken.old 1 }
    ensures calls { (numbers : List ℕ) (text : ℕ → List ℕ) (spoken : List ℕ) (calls : List Entry) →
        HasServed numbers text spoken broken.old.numbers.items calls →
        ((n : ℕ) → 0 < times n (created answer) → (times n numbers ≡ 0) × (text n ≡ [])) →
        Continues (S.seen shelf.old) (S.seen shelf.new) calls
        (HasServed (numbers ++ created answer) text spoken broken.new.numbers.items) }
    ensures room { TakesRoom 1 broken.old broken.new }
{
    match new_query(answer) {
        Some(n) => begin(shelf, broken, n),
        None => {}
    }
}

// The query that the answer tells the creation of, if it does.
fn new_query(answer: Option<Answer>) -> Option<u64>
    ensures { created answer ≡ option_to_list result }
{
    match answer?.word {
        Word::Created { n, .. } => Some(n),
        _ => None,
    }
}

// Begins the output of a new query. Where that fails, the output breaks.
#[tactic(auto, using(crate::proofs::ServedLaws::begin_went, crate::proofs::ServedLaws::begin_broke))]
fn begin<S: Shelf>(shelf: &mut S, broken: &mut Broken, n: u64)
    requires { HasRoom broken.old 1 }
    ensures calls { (numbers : List ℕ) (text : ℕ → List ℕ) (spoken : List ℕ) (calls : List Entry) →
        HasServed numbers text spoken broken.old.numbers.items calls → times n numbers ≡ 0 → text n ≡ [] →
        Continues (S.seen shelf.old) (S.seen shelf.new) calls
        (HasServed (numbers ++ n ∷ []) text spoken broken.new.numbers.items) }
    ensures room { TakesRoom 1 broken.old broken.new }
{
    match shelf.begin(n) {
        Ok(()) => {}
        Err(_) => broken.add(n),
    }
}

// Puts a piece on its output, unless that is broken. Where the put fails, the output breaks.
#[tactic(auto, using(crate::proofs::ServedLaws::put_skipped, crate::proofs::ServedLaws::put_went, crate::proofs::ServedLaws::put_broke))]
fn put<S: Shelf>(shelf: &mut S, broken: &mut Broken, piece: &Piece)
    requires { HasRoom broken.old 1 }
    ensures calls { (numbers : List ℕ) (text : ℕ → List ℕ) (spoken : List ℕ) (calls : List Entry) →
        HasServed numbers text spoken broken.old.numbers.items calls → 0 < times piece.now.n numbers →
        Continues (S.seen shelf.old) (S.seen shelf.new) calls
        (HasServed numbers (with_pieces text (piece.now ∷ [])) spoken broken.new.numbers.items) }
    ensures room { TakesRoom 1 broken.old broken.new }
{
    if broken.contains(piece.n) {
        return;
    }
    match shelf.put(piece.n, piece.bytes.as_slice()) {
        Ok(()) => {}
        Err(_) => broken.add(piece.n),
    }
}

/// Puts the pieces on their outputs, in their order. A put that fails breaks its output, which gets no further call.
pub fn put_all<S: Shelf>(shelf: &mut S, broken: &mut Broken, pieces: &[Piece])
    requires { HasRoom broken.old (length pieces.now) }
    ensures { (numbers : List ℕ) (text : ℕ → List ℕ) (spoken : List ℕ) (calls : List Entry) →
        HasServed numbers text spoken broken.old.numbers.items calls →
        AllByRecursion (λ p. 0 < times p.n numbers) pieces.now →
        Continues (S.seen shelf.old) (S.seen shelf.new) calls
        (HasServed numbers (with_pieces text pieces.now) spoken broken.new.numbers.items) }
{
    for piece in pieces {
        put(shelf, broken, piece);
    }
}

// Says the text. Where that fails, the run stops.
fn say_text<S: Shelf>(shelf: &mut S, text: &[u8]) -> Result<(), Stop>
    ensures stop { IfErr result (λ s. s ≡ Stop.AnswerFault) }
    ensures ok { OnOk result (Makes (S.seen shelf.old) (S.seen shelf.new) (Said text.now ∷ [])) }
    ensures err { OnErr result ((front : List ℕ) × IsPrefix front text.now ×
        Makes (S.seen shelf.old) (S.seen shelf.new) (SayFailed front ∷ [])) }
{
    match shelf.say(text) {
        Ok(()) => Ok(()),
        Err(_) => Err(Stop::AnswerFault),
    }
}

/// Says the text, if there is any. The one stop is `AnswerFault`, where the say failed.
pub fn say<S: Shelf>(shelf: &mut S, text: &[u8]) -> Result<(), Stop>
    ensures stop { IfErr result (λ s. s ≡ Stop.AnswerFault) }
    ensures calls { (numbers : List ℕ) (texts : ℕ → List ℕ) (spoken broken : List ℕ) (calls : List Entry) →
        HasServed numbers texts spoken broken calls →
        Continues (S.seen shelf.old) (S.seen shelf.new) calls (Goes result
        (HasServed numbers texts (spoken ++ text.now) broken)
        (IsCutShort numbers texts spoken text.now broken)) }
{
    if text.is_empty() {
        return Ok(());
    }
    say_text(shelf, text)
}
