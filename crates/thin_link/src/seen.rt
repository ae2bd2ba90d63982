//! A set of numbers that is emptied in constant time.
ghost use Rattle.std.specs.Prelude.{◌≡◌, ◌<◌, false, true, length, replicate, slice_set, IfOk, OnOk};
ghost use Rattle.lto_sets.specs.Sets.{contains};

use std::alloc::{AllocError, Global};
use std::marker::Model;

/// The symbols that were seen for the module at hand. Each has the turn in which it was noted last,
/// so the set is emptied by a further turn. Contracts see a mark for each symbol.
#[derive(Drop)]
pub(crate) struct Seen {
    turns: Vec<u32>,
    turn: u32,
}

impl Model for Seen {
    ghost use Rattle.std.specs.Prelude.{List, Bool};
    ghost use Rattle.thin_link.specs.Views.{AreNoted, noted_in};

    ghost Value = { List Bool };

    ghost view = { λ s. noted_in s.turn s.turns.items };

    ghost invariant = { λ s. AreNoted s.turn s.turns.items };
}

impl Seen {
    /// A set of numbers below a size, which is to be emptied before it is used.
    pub fn new(alloc: Global, size: usize) -> Result<Seen, AllocError>
        ensures { IfOk result (λ s. length s ≡ size) }
    {
        Ok(Seen {
            turns: vec![in alloc; 0; size]?,
            turn: 0,
        })
    }

    /// Empties the set; at most `2^32 - 1` times.
    pub fn clear(&mut self) -> Result<(), AllocError>
        ensures len { length self.new ≡ length self.old }
        ensures empty { OnOk result (self.new ≡ replicate (length self.old) false) }
    {
        let Some(turn) = self.turn.checked_add(1) else {
            return Err(AllocError);
        };
        self.turn = turn;
        Ok(())
    }

    /// Whether a number below the size was noted.
    pub fn has(&self, number: u32) -> bool
        requires { number < length self.now }
        ensures { result ≡ contains self.now number }
    {
        self.turns[number as usize] == self.turn
    }

    /// Notes a number below the size.
    pub fn note(&mut self, number: u32)
        requires { number < length self.old }
        ensures { self.new ≡ slice_set self.old number true }
    {
        self.turns[number as usize] = self.turn;
    }
}
