//! Threads take turns, and no turn's record is lost.
ghost use Rattle.std.specs.Prelude.{◌≡◌, ℕ, ◌^◌, ◌<◌, ◌++◌, List, length, All};
ghost use Rattle.cache_slot.specs.Places.{IsOut};

use cache_slot::{Logged, TicketLock, TurnHandle};
use std::alloc::Global;
use std::sync::Wait;
use std::test::Fail;
use std::thread;
use std::thread::Threads;

const TURNS: u64 = 1000;

#[derive(Drop)]
struct Log {
    items: Vec<u64>,
}

impl Logged<u64> for Log {
    ghost log = { λ s. s.items.items };
}

impl Log {
    /// Adds x, if there is memory. The number of records that were added.
    fn add(&mut self, x: u64) -> u64
        ensures { (extra : List ℕ) × (self.new.items.items ≡ self.old.items.items ++ extra) × (result ≡ length extra) × (length self.new.items.items < 2 ^ 64) }
    {
        let before = self.items.len();
        let _ = self.items.push(x);
        (self.items.len() - before) as u64
    }
}

fn take_turns<W: Wait>(rt: &W, lock: &TicketLock<Log, u64>, place: &mut TurnHandle<Log, u64>)
    requires { IsOut lock.now.table.shared.table_id place.old.seat }
    ensures { IsOut lock.now.table.shared.table_id place.new.seat }
{
    for i in 0..TURNS {
        let mut log = lock.take(rt, place);
        let added = log.add(i);
        lock.give(place, log, added);
    }
}

fn take_turns_in_threads<R: Threads + Wait + Sync>(
    rt: &R,
    lock: &TicketLock<Log, u64>,
    places: &mut [TurnHandle<Log, u64>],
)
    requires { All (λ p. IsOut lock.now.table.shared.table_id p.seat) places.old }
{
    let threads = places.len();
    if threads > 0 {
        thread::for_each_mut(rt, places, threads, &|_, p| take_turns(rt, lock, p));
    }
}

#[test]
fn threads_take_turns(rt: HostRuntime) -> Result<(), Fail> {
    let log = Log {
        items: Vec::new(rt.alloc()),
    };
    let Ok((lock, mut first)) = TicketLock::new(rt.alloc(), log) else {
        panic!(rt; "memory");
    };
    let mut places = Vec::with_capacity(rt.alloc(), 2)?;
    places.push_reserved(lock.split(&mut first));
    places.push_reserved(lock.split(&mut first));
    take_turns_in_threads(&rt, &lock, places.as_mut_slice());
    let log = lock.close(&rt, first);
    assert!(rt; log.items.len() == 2 * TURNS as usize);
    Ok(())
}
