// The rule that the queue of an inbox keeps, stated for a role's number.
use crate::load::Load;
use crate::watch::Watch;
use crossbeam_queue::RuledArrayQueue;
use crossbeam_queue::protocol::{Join, Lesson, Outcome, Protocol, Split};
use std::collections::LinkedList;
use std::marker::PhantomData;

/// A load with the number of its feeder.
pub(crate) type Parcel = (u8, Load);

// What a pass knows: for each role its list, or nothing. No value of it is made.
pub(crate) type Roles = LinkedList<Option<LinkedList<(u8, Load)>>>;

pub(crate) type Pass = crossbeam_queue::Pass<Parcel, Roles>;

pub(crate) type Queue<W> = RuledArrayQueue<Parcel, Roles, Mail<W>>;

pub struct Mail<W> {
    watch: PhantomData<W>,
}

impl<W: Watch<Load>> Protocol<Parcel, Roles> for Mail<W> {
    ghost use Rattle.inbox.specs.Roles.{everything, Kept};
    ghost use Rattle.inbox.specs.Sound.{IsSound};

    ghost holds = { Kept IsSound W.sees };

    ghost first = { everything };
}

// A feeder's parcel has joined the queue.
pub struct Offers<W> {
    watch: PhantomData<W>,
}

impl<W> Outcome<Parcel, Roles> for Offers<W> {
    ghost use Rattle.std.specs.Prelude.{◌≡◌};
    ghost use Rattle.inbox.specs.Roles.{added};

    ghost then = { λ v x w. w ≡ added v x.0 x };
}

impl<W: Watch<Load>> Lesson<Parcel, Roles> for Offers<W> {
    ghost use Rattle.inbox.specs.Roles.{SawBeside};

    ghost fact = { SawBeside W.sees };
}

// The front parcel was taken.
pub struct Takes<W> {
    watch: PhantomData<W>,
}

impl<W: Watch<Load>> Outcome<Parcel, Roles> for Takes<W> {
    ghost use Rattle.std.specs.Prelude.{◌≡◌, ◌<◌};
    ghost use Rattle.inbox.specs.Roles.{added, list_of, WasFront};
    ghost use Rattle.inbox.specs.Sound.{IsSound};

    ghost then = { λ v x w. (w ≡ added v 0 x) × (0 < x.0) × (x.0 < 6) × IsSound x.1 × WasFront W.sees (list_of v 0) x };
}

impl<W: Watch<Load>> Lesson<Parcel, Roles> for Takes<W> {
    ghost use Rattle.inbox.specs.Roles.{list_of};

    ghost fact = { λ v items. W.sees (list_of v 0) items };
}

// What the rule says of the moment.
pub struct Sees<W> {
    watch: PhantomData<W>,
}

impl<W: Watch<Load>> Lesson<Parcel, Roles> for Sees<W> {
    ghost use Rattle.inbox.specs.Roles.{Moment};
    ghost use Rattle.inbox.specs.Sound.{IsSound};

    ghost fact = { Moment IsSound W.sees };
}

// A role goes to a pass of its own.
pub struct Cut<const ROLE: usize>;

impl<const ROLE: usize> Split<Roles> for Cut<ROLE> {
    ghost use Rattle.inbox.specs.Roles.{only, part, without};

    ghost left = { λ v. without v ROLE };

    ghost right = { λ v. only ROLE (part v ROLE) };
}

// A pass takes in the roles of another.
pub struct Rejoin;

impl Join<Roles> for Rejoin {
    ghost use Rattle.inbox.specs.Roles.{both_of, nothing};

    ghost both = { both_of };

    ghost spent = { nothing };
}
