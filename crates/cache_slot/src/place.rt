//! A caller's place at a lock.
ghost use Rattle.std.specs.Prelude.{◌≡◌};

use crate::sight::Sight;
use atomic_table::Seat;

/// The right of one caller to take turns, and what it has seen of the history.
///
/// At run time it is one number: how many turns it may still take. The first place has 2^63, a new one gets 2^40 of
/// them, or half where fewer than 2^41 are left. So tickets never come to the end of their 64 bits.
#[derive(Drop)]
pub struct TurnHandle<T, R> {
    pub seat: Seat<Option<T>, Sight<R>>,
    pub left: u64,
    ghost same: { left ≡ seat.me.0.turns },
}
