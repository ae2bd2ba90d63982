//! Facts as a table, by which uses of their locals are found and replaced.
ghost use Rattle.std.specs.Prelude.{◌≡◌, IfOk, is_some};
ghost use Rattle.ir_tree.specs.Edited.{edited};
ghost use Rattle.ir_edit.specs.Substituted.{operand_replaced};
ghost use Rattle.fact_sources.specs.Naming.{blocks_name};
ghost use Rattle.fact_sources.specs.Substitutions.{IsOf, value_in};

use crate::naming::{Locals, blocks_name};
use crate::table::Table;
use ir_edit::{Edit, edited};
use ir_tree::{Block, Duplicate, Function, Operand};
use std::alloc::{AllocError, Global};

/// What stands for locals. The locals are those that have something.
#[derive(Drop)]
pub struct Substitution<'a> {
    table: Table<'a>,
}

impl<'a> Substitution<'a> {
    /// Of each pair the operand for its local; of a local that stands twice, the later one.
    pub fn of(alloc: Global, pairs: &'a [(u32, Operand)]) -> Result<Self, AllocError>
        ensures { IfOk result (IsOf pairs.now) }
    {
        let mut table = Table::new(alloc);
        for pair in pairs {
            table.put(pair.0, &pair.1)?;
        }
        Ok(Substitution { table })
    }

    /// Whether blocks use a local that is replaced. The first such use ends it, and where none is replaced, none is
    /// looked at.
    pub fn is_used(&self, blocks: &[Block]) -> bool
        ensures { result ≡ blocks_name (λ x. is_some (value_in self.now x)) blocks.now }
    {
        let none = self.table.is_empty();
        if none {
            return false;
        }
        blocks_name(self, blocks)
    }

    /// The function with each use of such a local replaced, all at once: what is put in isn't looked at again.
    pub fn applied(&self, alloc: Global, f: &Function) -> Result<Function, AllocError>
        ensures { IfOk result (λ g. g ≡ edited (λ x. x) (operand_replaced (value_in self.now)) f.now) }
    {
        edited(alloc, self, f)
    }
}

impl<'a> Locals for Substitution<'a> {
    ghost use Rattle.std.specs.Prelude.{is_some};
    ghost use Rattle.fact_sources.specs.Substitutions.{value_in};

    ghost members = { λ s x. is_some (value_in s x) };

    fn has(&self, local: u32) -> bool {
        self.table.get(local).is_some()
    }
}

impl<'a> Edit for Substitution<'a> {
    ghost use Rattle.ir_edit.specs.Substituted.{operand_replaced};
    ghost use Rattle.fact_sources.specs.Substitutions.{value_in};

    ghost number_of = { λ s x. x };

    ghost operand_of = { λ s. operand_replaced (value_in s) };

    fn number(&self, old: u32) -> Result<u32, AllocError> {
        Ok(old)
    }

    fn operand(&self, alloc: Global, old: &Operand) -> Result<Operand, AllocError> {
        match old {
            Operand::Local(x) => match self.table.get(*x) {
                Some(value) => value.duplicate(alloc),
                None => Ok(Operand::Local(*x)),
            },
            _ => old.duplicate(alloc),
        }
    }
}
