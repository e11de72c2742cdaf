ghost use Rattle.std.specs.Prelude.{◌≡◌, [], ◌∷◌};
ghost use Rattle.as_outside.specs.Makes.{Does};
ghost use Rattle.astream_top.specs.Causes.{IsCaused};
ghost use Rattle.astream_top.specs.Says.{SaysOnce};

use as_outside::{Desk, Status};

/// Says the text. `Done`, or `AnswerFault` where the say failed.
#[tactic(auto, using(crate::proofs::CauseLaws::said_causes, crate::proofs::CauseLaws::unsaid_causes))]
pub fn say_once<D: Desk>(desk: &mut D, text: &[u8]) -> Status
    ensures causes { IsCaused result [] (D.seen desk.old).faults (D.seen desk.new).faults }
    ensures said { Does (D.seen desk.old) (D.seen desk.new) (SaysOnce text.now result) }
{
    match desk.say(text) {
        Ok(()) => Status::Done,
        Err(_) => Status::AnswerFault,
    }
}
