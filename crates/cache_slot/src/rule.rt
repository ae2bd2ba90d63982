//! The rule that the lock keeps in every interleaving, and the kinds of step that keep it.
ghost use Rattle.std.specs.Prelude.{List};

use crate::sight::Sight;
use atomic_table::{Join, Play, Split, TableRule};

/// A value with a history, a list of records.
pub trait Logged<R> {
    /// The records, the oldest first.
    ghost log: { Self → List R };
}

/// The rule of the lock.
pub struct Turns;

impl<T: Logged<R>, R> TableRule<Option<T>, Sight<R>, ()> for Turns {
    ghost use Rattle.cache_slot.specs.Rule.{TurnRule};
    ghost use Rattle.cache_slot.specs.Views.{opening_sight};

    ghost holds = { λ key. TurnRule T.log };

    ghost first = { λ key. opening_sight };
}

/// A ticket is drawn.
pub struct Draw;

impl<T: Logged<R>, R> Play<Option<T>, Sight<R>> for Draw {
    ghost use Rattle.cache_slot.specs.Rule.{DrawStep};

    ghost then = { DrawStep T.log };
}

/// The ticket that is served is read: a caller whose ticket it is takes the value.
pub struct Await;

impl<T: Logged<R>, R> Play<Option<T>, Sight<R>> for Await {
    ghost use Rattle.cache_slot.specs.Rule.{AwaitStep};

    ghost then = { AwaitStep T.log };
}

/// The records that a turn has added are counted.
pub struct Count;

impl<T: Logged<R>, R> Play<Option<T>, Sight<R>> for Count {
    ghost use Rattle.cache_slot.specs.Rule.{CountStep};

    ghost then = { CountStep T.log };
}

/// The value is home, and the next ticket is served.
pub struct Serve;

impl<T: Logged<R>, R> Play<Option<T>, Sight<R>> for Serve {
    ghost use Rattle.cache_slot.specs.Rule.{ServeStep};

    ghost then = { ServeStep T.log };
}

/// A place that has taken another in sees which of the two lists is the longer.
pub struct Meet;

impl<T: Logged<R>, R> Play<Option<T>, Sight<R>> for Meet {
    ghost use Rattle.cache_slot.specs.Rule.{MeetStep};

    ghost then = { MeetStep T.log };
}

/// How a place is cut in two, and how two are made one.
pub struct Sights;

impl<R> Split<Sight<R>> for Sights {
    ghost use Rattle.cache_slot.specs.Views.{left_sight, right_sight};

    ghost left = { left_sight };

    ghost right = { right_sight };
}

impl<R> Join<Sight<R>> for Sights {
    ghost use Rattle.cache_slot.specs.Views.{both_sights, no_sight};

    ghost both = { both_sights };

    ghost spent = { no_sight };
}
