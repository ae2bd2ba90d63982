//! The fifth rule: no edge leads to the entry.
ghost use Rattle.std.specs.Prelude.{◌≡◌, ◌↔◌, IsTrue, All};
ghost use Rattle.ir_tree.specs.Flow.{successors};
ghost use Rattle.ir_tree.specs.Rules.{place};
ghost use Rattle.ir_verify.specs.Definitions.{numbered};
ghost use Rattle.ir_verify.specs.Edged.{NoEntry};
ghost use Rattle.ir_verify.specs.Tables.{Holds};

use crate::phis::place_of;
use crate::table::Table;
use ir_tree::{Block, Case, Terminator};

/// Whether a block is another than the entry.
fn is_no_entry(blocks: &[Block], places: &Table<usize>, target: u32) -> bool
    requires { Holds places.now.entries.items (numbered 0 blocks.now) }
    ensures { IsTrue result ↔ NoEntry blocks.now target }
{
    place_of(blocks, places, target) != 0
}

fn cases_leave(blocks: &[Block], places: &Table<usize>, cases: &[Case]) -> bool
    requires { Holds places.now.entries.items (numbered 0 blocks.now) }
    ensures { IsTrue result ↔ All (λ c. NoEntry blocks.now c.target) cases.now }
{
    for case in cases {
        if !is_no_entry(blocks, places, case.target) {
            return false;
        }
    }
    true
}

/// Whether no edge of a terminator leads to the entry.
pub fn leaves_entry(blocks: &[Block], places: &Table<usize>, end: &Terminator) -> bool
    requires { Holds places.now.entries.items (numbered 0 blocks.now) }
    ensures { IsTrue result ↔ All (NoEntry blocks.now) (successors end.now) }
{
    match end {
        Terminator::Return(_) | Terminator::Unreachable => true,
        Terminator::Jump(target) => is_no_entry(blocks, places, *target),
        Terminator::Branch {
            if_true,
            if_false,
            ..
        } => is_no_entry(blocks, places, *if_true) && is_no_entry(blocks, places, *if_false),
        Terminator::Switch { default, cases, .. } => {
            is_no_entry(blocks, places, *default) && cases_leave(blocks, places, cases.as_slice())
        }
    }
}
