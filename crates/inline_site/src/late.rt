//! What is put off until a function is done.
ghost use Rattle.std.specs.Prelude.{◌≡◌, [], ◌∷◌, ◌++◌, option_to_list, IfOk, OnOk};
ghost use Rattle.ir_edit.specs.Substituted.{substituted};
ghost use Rattle.inline_site.specs.Callers.{late_given, poisons};

use crate::names::{Halves, rename};
use ir_edit::substitute;
use ir_tree::{Block, Duplicate, Function, Operand, Reg, Rows};
use std::alloc::{AllocError, Global};

/// Phi entries that are to name the blocks behind calls, and results of calls that no return gives, whose uses are to become
/// poison.
#[derive(Drop)]
pub(crate) struct Late {
    pub(crate) halves: Vec<Halves>,
    pub(crate) lost: Vec<(u32, Reg)>,
}

/// The function with other blocks.
fn with_blocks(alloc: Global, f: &Function, blocks: Vec<Block>) -> Result<Function, AllocError>
    ensures { IfOk result (λ g. g ≡ record f.now { blocks = blocks.items }) }
{
    let symbol = f.symbol.duplicate(alloc)?;
    let params = f.params.duplicate(alloc)?;
    Ok(Function {
        symbol,
        linkage: f.linkage,
        result: f.result,
        params,
        noinline: f.noinline,
        optnone: f.optnone,
        blocks: Rows::of(blocks),
    })
}

/// Poison for each of these results, the first one last.
fn poisons(alloc: Global, lost: &[(u32, Reg)]) -> Result<Vec<(u32, Operand)>, AllocError>
    ensures { IfOk result (λ v. v.items ≡ poisons lost.now) }
{
    let mut poisons = Vec::new(alloc);
    for place in (0..lost.len()).rev() {
        let (local, reg) = lost[place];
        poisons.push((local, Operand::Poison(reg)))?;
    }
    Ok(poisons)
}

fn poisoned(alloc: Global, lost: &[(u32, Reg)], f: &Function) -> Result<Function, AllocError>
    ensures { IfOk result (λ g. g ≡ substituted (poisons lost.now) f.now) }
{
    let poisons = poisons(alloc, lost)?;
    let g = substitute(alloc, f, &poisons)?;
    Ok(g)
}

/// Poison for results that no return gives.
fn without_lost(alloc: Global, lost: &[(u32, Reg)], f: Function) -> Result<Function, AllocError>
    ensures { IfOk result (λ g. g ≡ substituted (poisons lost.now) f) }
{
    if lost.len() == 0 {
        return Ok(f);
    }
    poisoned(alloc, lost, &f)
}

impl Late {
    pub(crate) fn new(alloc: Global) -> Late
        ensures halves { result.halves.items ≡ [] }
        ensures lost { result.lost.items ≡ [] }
    {
        Late {
            halves: Vec::new(alloc),
            lost: Vec::new(alloc),
        }
    }

    /// One call more, and its result if no return gives it.
    pub(crate) fn push(
        &mut self,
        halves: Halves,
        lost: Option<(u32, Reg)>,
    ) -> Result<(), AllocError>
        ensures halves { OnOk result (self.new.halves.items ≡ self.old.halves.items ++ halves ∷ []) }
        ensures lost { OnOk result (self.new.lost.items ≡ self.old.lost.items ++ option_to_list lost) }
    {
        self.halves.push(halves)?;
        if let Some(result) = lost {
            self.lost.push(result)?;
        }
        Ok(())
    }

    /// The function with these blocks, with what was put off done.
    pub(crate) fn done(
        &self,
        alloc: Global,
        f: &Function,
        blocks: Vec<Block>,
    ) -> Result<Function, AllocError>
        ensures { IfOk result (λ g. g ≡ late_given self.now (record f.now { blocks = blocks.items })) }
    {
        let mut blocks = blocks;
        rename(alloc, &self.halves, &mut blocks)?;
        let renamed = with_blocks(alloc, f, blocks)?;
        let g = without_lost(alloc, &self.lost, renamed)?;
        Ok(g)
    }
}
