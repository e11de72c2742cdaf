ghost use base.Fml.{GName};
ghost use Rattle.std.specs.Prelude.{ℕ, ◌≡◌, ◌++◌, true, List, Option, Some};
ghost use Rattle.as_base.specs.declared.config.Config.{Config};
ghost use Rattle.as_outside.specs.declared.entry.Entry.{Entry};
ghost use Rattle.as_outside.specs.Makes.{Seen, Does};
ghost use Rattle.inbox.specs.declared.load.Load.{Load};
ghost use Rattle.inbox.specs.Passes.{id_of};
ghost use Rattle.team.specs.declared.team.Five.{Five};
ghost use Rattle.feeder.specs.Loads.{AllEnded};
ghost use Rattle.inbox.specs.declared.passes.TakePass.{TakePass};
ghost use Rattle.inbox.specs.Passes.{taker_inbox, taken};

use crate::team::Five;
use as_outside::Source;
use inbox::Inbox;

/// What takes loads, in the thread that started the feeders, and keeps the feeders once all have ended. It holds nothing
/// but what is lent to it.
pub trait Hall<R, F: Source + Send + Drop> {
    /// What is lent to it.
    ghost name: { Self → GName × GName × GName };

    /// What is seen of the shelf that it writes to.
    ghost seen: { Self → Seen };

    /// What it stands for under a configuration, after these calls.
    ghost stands: { Self → Config → List Entry → Type 0 };

    /// Its pass.
    ghost pass: { Self → TakePass };

    /// What it keeps true at all times.
    ghost keeps: { Self → Type 0 };

    /// The feeders that it keeps.
    ghost kept: { Self → Option (Five F) };

    /// Takes a load, if there is one; whether there was.
    fn take(&mut self, rt: &R, inbox: &Inbox) -> bool
        requires inbox { taker_inbox (pass self.old) ≡ id_of inbox.now }
        requires keeps { keeps self.old }
        ensures name { name self.new ≡ name self.old }
        ensures inbox { taker_inbox (pass self.new) ≡ taker_inbox (pass self.old) }
        ensures keeps { keeps self.new }
        ensures stands { (c : Config) (calls : List Entry) → stands self.old c calls →
            Does (seen self.old) (seen self.new) (λ more. stands self.new c (calls ++ more)) };

    /// The last loads of all five were taken.
    fn is_over(&self) -> bool
        ensures { keeps self.now → result ≡ true → AllEnded (taken (pass self.now)) };

    /// Keeps the feeders.
    fn keep(&mut self, feeders: Five<F>)
        ensures name { name self.new ≡ name self.old }
        ensures pass { pass self.new ≡ pass self.old }
        ensures seen { seen self.new ≡ seen self.old }
        ensures keeps { keeps self.old → keeps self.new }
        ensures stands { (c : Config) (calls : List Entry) → stands self.old c calls → stands self.new c calls }
        ensures kept { kept self.new ≡ Some feeders };
}
