//! The numbers of the blocks that are reached.
ghost use Rattle.std.specs.Prelude.{◌≡◌, ◌&&◌, ◌||◌, ℕ, nat_eq, length, IfOk, OnOk};
ghost use Rattle.std.specs.HashSet as hash;
ghost use Rattle.lto_sets.specs.Sets.{contains};
ghost use Rattle.ir_flow.specs.OfFunction.{IsReach};
ghost use Rattle.block_trim.specs.Places.{stands};
ghost use Rattle.block_trim.specs.Trimmed.{AreReached};

use ir_tree::{Block, Function};
use lto_sets::Bits;
use std::alloc::{AllocError, Global};
use std::collections::HashSet;

/// Adds a number where it is wanted.
pub(crate) fn add_if(
    numbers: &mut HashSet<u32>,
    number: u32,
    wanted: bool,
) -> Result<(), AllocError>
    ensures { OnOk result ((n : ℕ) → hash.contains nat_eq numbers.new n ≡ (hash.contains nat_eq numbers.old n || (nat_eq number n && wanted))) }
{
    if wanted {
        numbers.insert(number)?;
    }
    Ok(())
}

/// The numbers of the blocks at these places.
fn numbers_at(alloc: Global, places: &Bits, blocks: &[Block]) -> Result<HashSet<u32>, AllocError>
    requires { length places.now ≡ length blocks.now }
    ensures { IfOk result (λ s. (n : ℕ) → hash.contains nat_eq s n ≡ stands (contains places.now) 0 blocks.now n) }
{
    let mut numbers = HashSet::new(alloc);
    for place in 0..places.size() {
        let number = blocks[place as usize].number;
        add_if(&mut numbers, number, places.has(place))?;
    }
    Ok(numbers)
}

/// The numbers of the blocks that are reached, where these are their places.
pub(crate) fn reached_numbers(
    alloc: Global,
    f: &Function,
    places: &Bits,
) -> Result<HashSet<u32>, AllocError>
    requires { IsReach f.now places.now }
    ensures { IfOk result (λ s. AreReached f.now (hash.contains nat_eq s)) }
{
    let numbers = numbers_at(alloc, places, f.blocks.as_slice())?;
    Ok(numbers)
}
