//! What is reached along the rows of a table.
ghost use Rattle.std.specs.Prelude.{◌≡◌, ◌<◌, ℕ, List, All, Contains, length, IfOk};
ghost use Rattle.combined_index.specs.Rows.{AreBelow, row};
ghost use Rattle.combined_index.specs.Walking.{IsReach, IsWalk};

use crate::walk::Walk;
use ir_tree::Rows;
use lto_sets::Bits;
use std::alloc::{AllocError, Global};

/// The numbers that a number leads to; none where it has no row.
fn row_of(rows: &[Rows<u32>], number: u32) -> &[u32]
    ensures { result.now ≡ row rows.now number }
{
    match rows.get(number as usize) {
        Some(row) => row.as_slice(),
        None => &[],
    }
}

/// A walk over the numbers below a size, at its starts.
fn begun(alloc: Global, size: u32, starts: &[u32]) -> Result<Walk, AllocError>
    requires { All (λ n. n < size) starts.now }
    ensures long { IfOk result (λ w. length w.reached ≡ size) }
    ensures walk { IfOk result (λ w. (next : ℕ → List ℕ) → IsWalk (Contains starts.now) next w.reached w.waiting.items) }
{
    let mut walk = Walk::new(alloc, size)?;
    walk.reach_all(starts)?;
    Ok(walk)
}

/// The numbers that are reached from the starts, where each number leads to those in its row. All numbers are below the count of
/// rows.
///
/// Beside want of memory, `2^32` rows or more are refused as too many. Takes one step for each number that is reached and for
/// each entry of its row.
pub fn reached(alloc: Global, rows: &[Rows<u32>], starts: &[u32]) -> Result<Bits, AllocError>
    requires rows { AreBelow (length rows.now) rows.now }
    requires starts { All (λ n. n < length rows.now) starts.now }
    ensures long { IfOk result (λ marks. length marks ≡ length rows.now) }
    ensures reached { IfOk result (IsReach (Contains starts.now) (row rows.now)) }
{
    if rows.len() > 0xFFFF_FFFF {
        return Err(AllocError);
    }
    let mut walk = begun(alloc, rows.len() as u32, starts)?;
    while let Some(number) = walk.waiting.pop() {
        walk.reach_all(row_of(rows, number))?;
    }
    let Walk {
        reached,
        waiting: _,
    } = walk;
    Ok(reached)
}
