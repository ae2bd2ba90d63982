//! The places of locals and of blocks.
ghost use Rattle.std.specs.Prelude.{◌≡◌, ◌⊎◌, ℕ, Some, true, IfOk, OnOk};
ghost use Rattle.std.specs.BTreeMap.{get};
ghost use Rattle.std.specs.Ordering.{nat_cmp};
ghost use Rattle.ir_tree.specs.Flow.{definitions, holds, results};
ghost use Rattle.fact_sources.specs.Places.{AreNumbered, ArePlaced, phis_give};

use ir_tree::{Block, Line, Phi};
use std::alloc::{AllocError, Global};
use std::collections::BTreeMap;

fn place_phis(places: &mut BTreeMap<u32, u32>, phis: &[Phi], place: u32) -> Result<(), AllocError>
    ensures { OnOk result ((x p : ℕ) → get nat_cmp places.new x ≡ Some p → (get nat_cmp places.old x ≡ Some p) ⊎ ((p ≡ place) × (phis_give phis.now x ≡ true))) }
{
    for phi in phis {
        places.insert(phi.local, place)?;
    }
    Ok(())
}

fn place_lines(
    places: &mut BTreeMap<u32, u32>,
    lines: &[Line],
    place: u32,
) -> Result<(), AllocError>
    ensures { OnOk result ((x p : ℕ) → get nat_cmp places.new x ≡ Some p → (get nat_cmp places.old x ≡ Some p) ⊎ ((p ≡ place) × (holds (results lines.now) x ≡ true))) }
{
    for line in lines {
        if let Some(local) = line.local {
            places.insert(local, place)?;
        }
    }
    Ok(())
}

fn place_block(places: &mut BTreeMap<u32, u32>, block: &Block, place: u32) -> Result<(), AllocError>
    ensures { OnOk result ((x p : ℕ) → get nat_cmp places.new x ≡ Some p → (get nat_cmp places.old x ≡ Some p) ⊎ ((p ≡ place) × (holds (definitions block.now) x ≡ true))) }
{
    place_phis(places, block.phis.as_slice(), place)?;
    place_lines(places, block.lines.as_slice(), place)
}

/// The place of the block that defines a local, where one does. Beside want of memory, `2^32` blocks or more are refused as
/// too many.
pub fn places(alloc: Global, blocks: &[Block]) -> Result<BTreeMap<u32, u32>, AllocError>
    ensures { IfOk result (λ places. ArePlaced blocks.now (get nat_cmp places)) }
{
    let count = blocks.len();
    if count > u32::MAX as usize {
        return Err(AllocError);
    }
    let mut places = BTreeMap::new(alloc);
    for place in 0..count {
        place_block(&mut places, &blocks[place], place as u32)?;
    }
    Ok(places)
}

/// The place of a block of a number, where there is one. Beside want of memory, `2^32` blocks or more are refused as too
/// many.
pub fn places_by_number(alloc: Global, blocks: &[Block]) -> Result<BTreeMap<u32, u32>, AllocError>
    ensures { IfOk result (λ places. AreNumbered blocks.now (get nat_cmp places)) }
{
    let count = blocks.len();
    if count > u32::MAX as usize {
        return Err(AllocError);
    }
    let mut places = BTreeMap::new(alloc);
    for place in 0..count {
        places.insert(blocks[place].number, place as u32)?;
    }
    Ok(places)
}
