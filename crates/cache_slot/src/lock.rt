//! A value that callers use in turn, and the one history that they share: a ticket lock.
//!
//! A caller draws a ticket by one atomic addition, waits until its ticket is served, takes the value out of its slot,
//! puts it back, and serves the next ticket (Mellor-Crummey and Scott, "Algorithms for scalable synchronization on
//! shared-memory multiprocessors", ACM TOCS 9(1), 1991, section 2.2). So turns are granted in the order of the tickets.
//! A turn takes four atomic steps and, while other tickets are served, one more for each wake; all waiters are woken,
//! since each waits for a number of its own.
//!
//! The value has a list of records ([`Logged`]), its history, to which a turn adds at the end and never else. Each
//! [`TurnHandle`] knows how many turns it has left, how its last turn found the history, and how it left it: what it has *seen*.
//! In every interleaving of all calls one caller at a time has the value; what a place has seen begins the history, so of
//! any two places the one has seen a beginning of what the other has; and the history begins with it when the lock is
//! closed.
ghost use Rattle.std.specs.Prelude.{◌≡◌, ℕ, ◌+◌, ◌^◌, ◌<◌, ◌++◌, [], List, length, IfOk, IfErr};
ghost use mathlib.Core.List.{IsPrefix};

use crate::place::TurnHandle;
use crate::rule::{Await, Count, Draw, Logged, Meet, Serve, Sights, Turns};
use crate::sight::Sight;
use atomic_table::{Refused, Table};
use std::alloc::{AllocFailed, Global};
use std::sync::Wait;

/// The place of the next ticket.
const TICKET: usize = 0;

/// The place of the ticket that is served.
const SERVING: usize = 1;

/// The place of the count of records.
const COUNT: usize = 2;

/// The one slot.
const VALUE: usize = 0;

/// The turns of the first place.
const ALL_TURNS: u64 = 1 << 63;

/// The turns that a new place gets where twice as many are left.
const SHARE: u64 = 1 << 40;

/// A value that callers use in turn.
///
/// It is shared by reference; dropping it without [`TicketLock::close`] is allowed.
#[derive(Drop)]
pub struct TicketLock<T: Logged<R>, R> {
    pub table: Table<Option<T>, Sight<R>, (), Turns, Global>,
    ghost wide: { (table.shared.table_id.words ≡ 3) × (table.shared.table_id.slots ≡ 1) },
}

impl<T: Logged<R>, R> TicketLock<T, R> {
    ghost use Rattle.cache_slot.specs.Views.{longer, opening_sight, left_sight, right_sight};
    ghost use Rattle.cache_slot.specs.Places.{IsAt, IsOut, IsSamePlace, IsInside, seen_by, taken, given, joined};

    /// A lock round the value, whose history is empty, and its first place. The value comes back where there is no
    /// memory.
    pub fn new(alloc: Global, value: T) -> Result<(TicketLock<T, R>, TurnHandle<T, R>), T>
        requires { T.log value ≡ [] }
        ensures ok { IfOk result (λ r. IsOut r.0.table.shared.table_id r.1.seat × (r.1.seat.me.0 ≡ opening_sight)) }
        ensures err { IfErr result (λ x. x ≡ value) }
    {
        let mut slots = Vec::new(alloc);
        if let Err(AllocFailed { value }) = slots.push(Some(value)) {
            slots.destroy_empty();
            return Err(value.unwrap());
        }
        match Table::new(alloc, &[0, 0, 0], slots, &()) {
            Ok((table, seat)) => Ok((
                TicketLock { table },
                TurnHandle {
                    seat,
                    left: ALL_TURNS,
                },
            )),
            Err(Refused { mut slots }) => {
                let value = slots.pop().unwrap().unwrap();
                slots.destroy_empty();
                Err(value)
            }
        }
    }

    /// Waits for a turn, and takes the value out. Its history begins with what the place has seen.
    ///
    /// A place that has no turn left waits for ever.
    pub fn take<W: Wait>(&self, rt: &W, place: &mut TurnHandle<T, R>) -> T
        requires { IsOut self.now.table.shared.table_id place.old.seat }
        ensures place { IsSamePlace place.old.seat place.new.seat }
        ensures taken { (t : ℕ) × (place.new.seat.me ≡ taken place.old.seat.me.0 t (T.log result)) }
        ensures seen { IsPrefix (seen_by place.old.seat) (T.log result) }
        ensures left { 0 < place.old.seat.me.0.turns }
    {
        if place.left == 0 {
            wait_for_ever(rt);
        }
        let shared = &self.table.shared;
        let ticket = shared.fetch_add::<Draw>(&mut place.seat, TICKET, 1);
        place.left -= 1;
        for _ in rt.forever() {
            let serving = shared.load::<Await>(&mut place.seat, SERVING);
            if serving == ticket {
                return shared.exchange(&mut place.seat, VALUE, None).unwrap();
            }
            shared.park(rt, SERVING, (serving & 0xffff_ffff) as u32);
        }
        unreachable!()
    }

    /// Puts the value back, to whose history `added` records were added, and ends the turn.
    pub fn give(&self, place: &mut TurnHandle<T, R>, value: T, added: u64)
        requires table { IsAt self.now.table.shared.table_id place.old.seat }
        requires turn { (t : ℕ) × (l : List R) × (extra : List R) × IsInside place.old.seat t l × (T.log value ≡ l ++ extra) × (added ≡ length extra) }
        requires small { length (T.log value) < 2 ^ 64 }
        ensures place { IsSamePlace place.old.seat place.new.seat }
        ensures given { place.new.seat.me ≡ given place.old.seat.me.0 (T.log value) }
    {
        let shared = &self.table.shared;
        let old = shared.exchange(&mut place.seat, VALUE, Some(value));
        let None = old else { unreachable!() };
        shared.fetch_add::<Count>(&mut place.seat, COUNT, added);
        shared.fetch_add::<Serve>(&mut place.seat, SERVING, 1);
        shared.wake_all(SERVING);
    }

    /// A new place, which has seen as much, and gets a part of the turns.
    pub fn split(&self, place: &mut TurnHandle<T, R>) -> TurnHandle<T, R>
        requires { IsAt self.now.table.shared.table_id place.old.seat }
        ensures place { IsSamePlace place.old.seat place.new.seat × (place.new.seat.me ≡ (left_sight place.old.seat.me.0, place.old.seat.me.1)) }
        ensures new { IsAt self.now.table.shared.table_id result.seat × (result.seat.me ≡ (right_sight place.old.seat.me.0, [])) }
    {
        let left = if place.left < 2 * SHARE {
            place.left / 2
        } else {
            SHARE
        };
        let seat = self.table.shared.split_seat::<Sights>(&mut place.seat);
        place.left -= left;
        TurnHandle { seat, left }
    }

    /// The place takes the other in. What the two have seen begins the longer of the two lists, which it has seen then.
    pub fn join(&self, place: &mut TurnHandle<T, R>, other: TurnHandle<T, R>)
        requires place { IsOut self.now.table.shared.table_id place.old.seat }
        requires other { IsOut self.now.table.shared.table_id other.seat }
        ensures place { IsSamePlace place.old.seat place.new.seat }
        ensures joined { place.new.seat.me ≡ (joined place.old.seat.me.0 other.seat.me.0, []) }
        ensures this { IsPrefix (seen_by place.old.seat) (seen_by place.new.seat) }
        ensures that { IsPrefix (seen_by other.seat) (seen_by place.new.seat) }
    {
        let TurnHandle { seat, left } = other;
        self.table.shared.join_seat::<Sights>(&mut place.seat, seat);
        self.table.shared.load::<Meet>(&mut place.seat, TICKET);
        place.left = place.left.wrapping_add(left);
    }
}

impl<T: Logged<R> + Drop, R> TicketLock<T, R> {
    ghost use Rattle.cache_slot.specs.Places.{IsOut, seen_by};

    /// Takes a last turn, and hands the value out. Its history begins with what the place has seen.
    pub fn close<W: Wait>(self, rt: &W, mut place: TurnHandle<T, R>) -> T
        requires { IsOut self.table.shared.table_id place.seat }
        ensures { IsPrefix (seen_by place.seat) (T.log result) }
    {
        let value = self.take(rt, &mut place);
        let TicketLock { table } = self;
        let mut closed = table.close();
        drop(closed.take(VALUE));
        closed.free();
        value
    }
}

fn wait_for_ever<W: Wait>(rt: &W) -> ! {
    for _ in rt.forever() {}
    unreachable!()
}
