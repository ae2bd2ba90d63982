//! The files that a command reads and writes.
ghost use Rattle.std.specs.Prelude.{◌≡◌, ◌≤◌, ◌^◌, ℕ, List, [], ◌∷◌, ◌++◌, Option, OnErr, IfOk, IsErrOf, is_ok, length};
ghost use Rattle.lto_outside.specs.Calls.{Call, Fetched, Put};
ghost use Rattle.lto_outside.specs.Cause.{Rose};
ghost use Rattle.lto_outside.specs.Replay.{Follows};
ghost use Rattle.lto_outside.specs.Store.{Store};

use crate::fault::{Fault, FetchFault};
use ir_tree::Text;
use std::alloc::Global;

/// Files by name.
///
/// What a call does to what the files hold follows from `did` by the law `did_tells`: see the definition `Replays`.
pub trait Files {
    /// What each name holds, where that is told.
    ghost held: { Self → Option Store };

    /// How often a call has failed.
    ghost faults: { Self → ℕ };

    /// These calls with these answers, in this order and no others, lead from one state to another.
    ghost did: { Self → List Call → Self → Type 0 };

    /// All that the file of this name holds. No file changes. A name that no file has is a fault.
    fn fetch(&mut self, alloc: Global, name: &str) -> Result<Text, FetchFault>
        ensures call { did self.old (Fetched name.now result ∷ []) self.new }
        ensures short { IfOk result (λ text. length text ≤ 2 ^ 24) }
        ensures later { faults self.old ≤ faults self.new }
        ensures cause { IsErrOf result FetchFault.Fault → Rose (faults self.old) (faults self.new) };

    /// Makes the file of this name hold just these bytes. After a fault it is as it was or holds a front of them. Other
    /// files stay.
    fn put(&mut self, name: &str, bytes: &[u8]) -> Result<(), Fault>
        ensures call { did self.old (Put name.now bytes.now (is_ok result) ∷ []) self.new }
        ensures later { faults self.old ≤ faults self.new }
        ensures cause { OnErr result (Rose (faults self.old) (faults self.new)) };

    /// How often a call has failed. It stands still at `u64::MAX`.
    fn faults(&self) -> u64
        ensures { result ≡ faults self.now };

    /// The empty list of calls leads from each state to itself.
    ghost did_none: { (a : Self) → did a [] a };

    /// Calls from one state to a second, and then calls to a third, are calls in a row.
    ghost did_more: { (a b c : Self) (first rest : List Call) → did a first b → did b rest c → did a (first ++ rest) c };

    /// Where the files tell what they hold, the calls did to it what they say.
    ghost did_tells: { (a b : Self) (calls : List Call) → did a calls b → Follows (held a) calls (held b) };
}
