ghost use Rattle.std.specs.Prelude.{◌≡◌, None, IfSome, IsTrue, ◌↔◌};
ghost use Rattle.inbox.specs.Sound.{IsSound};

use inbox::Load;
use std::marker::Model;

/// The load that waits to be offered, if one does. It may go through an inbox.
#[derive(Drop)]
pub struct NextLoad {
    load: Option<Load>,
}

impl Model for NextLoad {
    ghost use Rattle.std.specs.Prelude.{Option, IfSome};
    ghost use Rattle.inbox.specs.declared.load.Load.{Load};
    ghost use Rattle.inbox.specs.Sound.{IsSound};

    ghost Value = { Option Load };

    ghost view = { λ n. n.load };

    ghost invariant = { λ n. IfSome n.load IsSound };
}

impl NextLoad {
    /// This one waits, or none.
    pub fn new(load: Option<Load>) -> NextLoad
        requires { IfSome load IsSound }
        ensures { result ≡ load }
    {
        NextLoad { load }
    }

    /// None waits.
    pub fn is_none(&self) -> bool
        ensures { IsTrue result ↔ (self.now ≡ None) }
    {
        self.load.is_none()
    }

    /// Takes the one that waits.
    pub fn take(&mut self) -> Option<Load>
        ensures value { result ≡ self.old }
        ensures sound { IfSome result IsSound }
        ensures after { self.new ≡ None }
    {
        self.load.take()
    }
}
