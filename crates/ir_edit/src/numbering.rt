//! The numbers that a function's locals and blocks get: one counter in the order of the text.
ghost use Rattle.std.specs.Prelude.{◌≡◌, ◌++◌, ℕ, IfOk, OnOk};
ghost use Rattle.ir_edit.specs.Numberings.{number_in};
ghost use Rattle.ir_edit.specs.Numbered.{new_number, param_numbers, phi_numbers, line_numbers, block_numbers, blocks_numbers, numbers_of};

use ir_tree::{Block, Function, Line, Param, Phi};
use std::alloc::{AllocError, Global};
use std::collections::BTreeMap;

/// The places of the numbers that a function defines, and how many there are.
#[derive(Drop)]
pub(crate) struct Numbering {
    places: BTreeMap<u32, u32>,
    count: u32,
}

impl Numbering {
    /// The places of these numbers.
    ///
    /// Beside want of memory, `2^32` numbers or more are refused as too many for it.
    fn of(alloc: Global, numbers: &[u32]) -> Result<Self, AllocError>
        ensures { IfOk result (λ n. (x : ℕ) → number_in n x ≡ new_number numbers.now x) }
    {
        if numbers.len() >= u32::MAX as usize {
            return Err(AllocError);
        }
        let mut places = BTreeMap::new(alloc);
        let mut count: u32 = 0;
        for number in numbers {
            places.insert(*number, count)?;
            count += 1;
        }
        Ok(Numbering { places, count })
    }

    /// The new numbers of what a function defines, and of all else.
    pub(crate) fn of_function(alloc: Global, f: &Function) -> Result<Self, AllocError>
        ensures { IfOk result (λ n. (x : ℕ) → number_in n x ≡ new_number (numbers_of f.now) x) }
    {
        let numbers = numbers_of(alloc, f)?;
        Numbering::of(alloc, &numbers)
    }

    /// The new number of a local or a block.
    ///
    /// Beside want of memory, one that isn't defined is refused where its new number would pass
    /// 32 bits.
    pub(crate) fn new_number(&self, old: u32) -> Result<u32, AllocError>
        ensures { IfOk result (λ new. new ≡ number_in self.now old) }
    {
        match self.places.get(&old) {
            Some(place) => Ok(*place),
            None => match old.checked_add(self.count) {
                Some(behind) => Ok(behind),
                None => Err(AllocError),
            },
        }
    }
}

fn push_params(numbers: &mut Vec<u32>, params: &[Param]) -> Result<(), AllocError>
    ensures { OnOk result (numbers.new.items ≡ numbers.old.items ++ param_numbers params.now) }
{
    for param in params {
        numbers.push(param.local)?;
    }
    Ok(())
}

fn push_phis(numbers: &mut Vec<u32>, phis: &[Phi]) -> Result<(), AllocError>
    ensures { OnOk result (numbers.new.items ≡ numbers.old.items ++ phi_numbers phis.now) }
{
    for phi in phis {
        numbers.push(phi.local)?;
    }
    Ok(())
}

fn push_lines(numbers: &mut Vec<u32>, lines: &[Line]) -> Result<(), AllocError>
    ensures { OnOk result (numbers.new.items ≡ numbers.old.items ++ line_numbers lines.now) }
{
    for line in lines {
        if let Some(local) = line.local {
            numbers.push(local)?;
        }
    }
    Ok(())
}

#[tactic(auto, unfolding(crate::specs::Numbered::block_numbers))]
fn push_block(numbers: &mut Vec<u32>, block: &Block) -> Result<(), AllocError>
    ensures { OnOk result (numbers.new.items ≡ numbers.old.items ++ block_numbers block.now) }
{
    numbers.push(block.number)?;
    push_phis(numbers, block.phis.as_slice())?;
    push_lines(numbers, block.lines.as_slice())
}

fn push_blocks(numbers: &mut Vec<u32>, blocks: &[Block]) -> Result<(), AllocError>
    ensures { OnOk result (numbers.new.items ≡ numbers.old.items ++ blocks_numbers blocks.now) }
{
    for block in blocks {
        push_block(numbers, block)?;
    }
    Ok(())
}

/// The numbers that a function defines, in the order of the text.
fn numbers_of(alloc: Global, f: &Function) -> Result<Vec<u32>, AllocError>
    ensures { IfOk result (λ numbers. numbers.items ≡ numbers_of f.now) }
{
    let mut numbers = Vec::new(alloc);
    push_params(&mut numbers, f.params.as_slice())?;
    push_blocks(&mut numbers, f.blocks.as_slice())?;
    Ok(numbers)
}
